//! Which names resemble each other.

ghost use Rattle.std.specs.Prelude.{◌≡◌};
ghost use Rattle.std.specs.List.{find};
ghost use Rattle.std.specs.Option.{option_copied};
ghost use Rattle.text_model.specs.Texts.{texts_of};
ghost use Rattle.rule_lint.specs.Names.{has_one_before as is_longer_by_one, has_one_replaced as is_replaced};
ghost use Rattle.rule_lint.specs.Names.{has_two_exchanged as is_exchanged, is_edited_first as begins_edited};
ghost use Rattle.rule_lint.specs.Names.{is_one_edit as is_edited_once, resembles as is_like};
ghost use Rattle.rule_lint.specs.Names.{adds_prefix as is_prefixed};

fn has_one_before(text: &[u8], longer: &[u8]) -> bool
    ensures { result ≡ is_longer_by_one text.now longer.now }
{
    match longer {
        [_, rest @ ..] => text == rest,
        [] => false,
    }
}

fn has_one_replaced(text: &[u8], other: &[u8]) -> bool
    ensures { result ≡ is_replaced text.now other.now }
{
    match (text, other) {
        ([_, rest @ ..], [_, others @ ..]) => rest == others,
        _ => false,
    }
}

fn has_two_exchanged(text: &[u8], other: &[u8]) -> bool
    ensures { result ≡ is_exchanged text.now other.now }
{
    match (text, other) {
        ([a, b, rest @ ..], [c, d, others @ ..]) => *a == *d && *b == *c && rest == others,
        _ => false,
    }
}

fn is_edited_first(text: &[u8], other: &[u8]) -> bool
    ensures { result ≡ begins_edited text.now other.now }
{
    has_one_before(text, other)
        || has_one_before(other, text)
        || has_one_replaced(text, other)
        || has_two_exchanged(text, other)
}

/// Whether one text becomes the other if one byte is inserted, deleted or replaced, or two neighbours are exchanged.
fn is_one_edit(text: &[u8], other: &[u8]) -> bool
    ensures { result ≡ is_edited_once text.now other.now }
{
    if is_edited_first(text, other) {
        return true;
    }
    match (text, other) {
        ([b, rest @ ..], [c, others @ ..]) => *b == *c && is_one_edit(rest, others),
        _ => false,
    }
}

fn adds_prefix(name: &str, other: &str) -> bool
    ensures { result ≡ is_prefixed name.now other.now }
{
    match other.strip_prefix("rft.") {
        Some(rest) => rest == name,
        None => false,
    }
}

/// Whether the other name differs from the name in the case of its letters, by the prefix `rft.`, or by one edit.
pub(crate) fn resembles(name: &str, other: &str) -> bool
    ensures { result ≡ is_like name.now other.now }
{
    name.eq_ignore_ascii_case(other)
        || adds_prefix(name, other)
        || is_one_edit(name.as_bytes(), other.as_bytes())
}

/// The first of these names that resembles the name.
pub(crate) fn first_like<'a>(names: &[&'a str], name: &str) -> Option<&'a str>
    ensures { option_copied result ≡ find (is_like name.now) (texts_of names.now) }
{
    for other in names {
        if resembles(name, other) {
            return Some(other);
        }
    }
    None
}
