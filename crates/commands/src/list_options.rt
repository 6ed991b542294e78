//! The arguments after `expand`.

ghost use Rattle.text_model.specs.Texts.{texts_of};
ghost use Rattle.std.specs.Prelude.{◌≡◌, true, drop, IfSome, IfNone};
ghost use Rattle.answers.specs.Expansion.{names_of};
ghost use Rattle.commands.specs.ExpandArguments.{AreExpandArguments, NoExpandArguments, begins_with_option};

/// The arguments after `expand`: the options `--list NAME`, a template and a query.
#[derive(Clone, Copy)]
pub struct ExpandArguments<'w, 'a> {
    /// The options: each is an argument `--list` and the name of a list.
    pub options: &'w [&'a str],
    /// The template.
    pub template: &'a str,
    /// The query, without a `?` before it.
    pub query: &'a str,
}

/// Parses the arguments after `expand`; `None` if they are wrong. An argument `--list` before the template is always
/// the option.
pub fn expand_arguments<'w, 'a>(arguments: &'w [&'a str]) -> Option<ExpandArguments<'w, 'a>>
    ensures some { IfSome result (λ parsed. AreExpandArguments (texts_of arguments.now)
        (names_of (texts_of parsed.options.now)) parsed.template.now parsed.query.now) }
    ensures none { IfNone result (NoExpandArguments (texts_of arguments.now)) }
{
    let mut rest = arguments;
    while begins_with_option(rest) {
        rest = after_option(rest);
    }
    if rest.len() != 2 {
        return None;
    }
    Some(ExpandArguments {
        options: arguments.split_at(arguments.len() - 2).0,
        template: rest[0],
        query: rest[1],
    })
}

fn begins_with_option(arguments: &[&str]) -> bool
    ensures { result ≡ begins_with_option (texts_of arguments.now) }
{
    match arguments {
        [option, _, ..] => *option == "--list",
        _ => false,
    }
}

fn after_option<'w, 'a>(arguments: &'w [&'a str]) -> &'w [&'a str]
    requires { begins_with_option (texts_of arguments.now) ≡ true }
    ensures { result.now ≡ drop 2 arguments.now }
{
    arguments.split_at(2).1
}
