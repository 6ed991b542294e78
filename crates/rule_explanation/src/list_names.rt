//! The names of lists, found by hash.

ghost use Rattle.std.specs.Prelude.{◌≡◌, ◌||◌, IfOk, OnOk};
ghost use Rattle.std.specs.Str.{bytes_eq};
ghost use Rattle.text_model.specs.Texts.{Text, texts_of};
ghost use Rattle.environment_model.specs.Environment.{is_among};
ghost use Rattle.rule_explanation.specs.Private.ListNames.{has, keys_of};

use kbart_rows::Keys;
use std::alloc::{AllocError, Global};
use std::collections::HashSet;

/// Names under secret keys, so that no rule text can make look-ups slow.
#[derive(Drop)]
pub(crate) struct ListNames {
    names: HashSet<String, Keys>,
}

impl ListNames {
    /// These names, under these keys.
    pub(crate) fn new(alloc: Global, keys: Keys, names: &[&str]) -> Result<ListNames, AllocError>
        ensures names { IfOk result (λ found. (name : Text) → has found name ≡ is_among name (texts_of names.now)) }
        ensures keys { IfOk result (λ found. keys_of found ≡ keys) }
    {
        let mut found = ListNames {
            names: HashSet::with_hasher(alloc, keys),
        };
        for name in names {
            found.add(alloc, name)?;
        }
        Ok(found)
    }

    /// Whether this is one of the names.
    pub(crate) fn contains(&self, name: &str) -> bool
        ensures { result ≡ has self.now name.now }
    {
        self.names.contains(name)
    }

    fn add(&mut self, alloc: Global, name: &str) -> Result<(), AllocError>
        ensures names { OnOk result
            ((other : Text) → has self.new other ≡ (has self.old other || bytes_eq name.now other)) }
        ensures keys { OnOk result (keys_of self.new ≡ keys_of self.old) }
    {
        self.names.insert(String::from_str(alloc, name)?)?;
        Ok(())
    }
}
