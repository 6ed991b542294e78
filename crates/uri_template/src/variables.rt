//! The variables of an expansion.

ghost use Rattle.std.specs.Prelude.{◌≡◌, ◌≤◌, length, IfSome};
ghost use Rattle.std.specs.Option.{option_copied};
ghost use Rattle.environment_model.specs.Environment.{LookUp, look_up, text_in, members_in};
ghost use Rattle.target_vars.specs.Members.{members_left};

use target_vars::{Env, MAX_BYTES, Members};

/// Variables: each name denotes a text, a list of texts, or nothing.
pub trait Variables {
    ghost look: { Self → LookUp };

    /// The text of the name, of at most [`MAX_BYTES`] bytes; `None` if the name denotes a list or nothing.
    fn text(&self, name: &str) -> Option<&str>
        ensures value { option_copied result ≡ text_in (look self.now name.now) }
        ensures small { IfSome result (λ text. length text.now ≤ MAX_BYTES) };

    /// The members of the list of the name; none if the name denotes a text or nothing.
    fn list(&self, name: &str) -> Members<'_>
        ensures { members_left result ≡ members_in (look self.now name.now) };
}

impl Variables for Env {
    ghost look = { λ env. look_up env.entries };

    fn text(&self, name: &str) -> Option<&str> {
        self.text(name)
    }

    fn list(&self, name: &str) -> Members<'_> {
        self.list(name)
    }
}
