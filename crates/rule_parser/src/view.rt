//! An environment as rules see it.

use crate::rules::Rules;
use target_vars::{Env, Members};
use uri_template::Variables;

/// The variables of an environment as the rules declare them: a text is undefined if the rules declare its name a list,
/// and a list is undefined if they do not.
///
/// In contracts it is `seen_by`.
#[derive(Clone, Copy)]
pub struct RulesView<'a> {
    pub(crate) rules: &'a Rules,
    pub(crate) env: &'a Env,
}

impl Rules {
    ghost use Rattle.std.specs.Prelude.{◌≡◌};
    ghost use Rattle.rule_parser.specs.Meaning.{seen};
    ghost use Rattle.rule_parser.specs.View.{seen_by};

    /// An environment as the rules see it. It allocates nothing.
    pub fn view<'a>(&'a self, env: &'a Env) -> RulesView<'a>
        ensures { seen_by result ≡ seen self.now env.now.entries }
    {
        RulesView { rules: self, env }
    }
}

impl Variables for RulesView<'_> {
    ghost use Rattle.rule_parser.specs.View.{seen_by};

    ghost look = { seen_by };

    fn text(&self, name: &str) -> Option<&str> {
        if self.rules.is_list(name) {
            None
        } else {
            self.env.text(name)
        }
    }

    fn list(&self, name: &str) -> Members<'_> {
        if self.rules.is_list(name) {
            self.env.list(name)
        } else {
            Members::none()
        }
    }
}
