//! What rules mean in an environment.

ghost use Rattle.std.specs.Prelude.{◌≡◌, IfOk, IfSome, string_bytes};
ghost use Rattle.std.specs.Option.{option_map};
ghost use Rattle.text_model.specs.UriText.{IsUriText};
ghost use Rattle.rule_parser.specs.Meaning.{meaning as meaning_of};

use crate::guards::all_hold;
use crate::rules::Rules;
use crate::view::RulesView;
use std::alloc::{AllocError, Global};
use target_vars::Env;
use uri_template::expand_in;

/// The link of the first rule whose guards all hold: the expansion of its template (RFC 6570, section 3). `None` if
/// there is no such rule. The environment is seen as the rules declare it: a list under a name that they use as a text
/// is undefined, and so is a text under a name that they declare a list.
///
/// `AllocError` if an allocation failed.
pub fn meaning(alloc: Global, rules: &Rules, env: &Env) -> Result<Option<String>, AllocError>
    ensures value { IfOk result (λ link. option_map string_bytes link ≡ meaning_of rules.now env.now.entries) }
    ensures uri_text { IfOk result (λ link. IfSome link (λ text. IsUriText (string_bytes text))) }
{
    let view = RulesView { rules, env };
    match rules
        .rules()
        .iter()
        .find(|rule| all_hold(&view, rule.guards.as_slice()))
    {
        Some(rule) => Ok(Some(expand_in(alloc, &rule.template, &view)?)),
        None => Ok(None),
    }
}
