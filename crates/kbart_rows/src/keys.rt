//! The secret keys of hashed look-ups.

ghost use Rattle.std.specs.Prelude.{◌≡◌};
ghost use Rattle.kbart_rows.specs.KeyedHasher.{keyed};

use std::hash::{BuildHasher, DefaultHasher, Hasher};

/// The secret keys of a table's hashed look-ups. Use random keys for a table from a stranger, who may have chosen
/// identifiers and column names that collide. No result depends on the keys.
#[derive(Clone, Copy)]
pub struct Keys {
    first: u64,
    second: u64,
    // The state in which each hasher begins.
    hasher: DefaultHasher,
    ghost begins: { hasher ≡ keyed first second },
}

impl Keys {
    ghost use Rattle.std.specs.Prelude.{true};
    ghost use Rattle.kbart_rows.specs.Hashing.{hash_of, hasher_at_start};

    /// The keys made of these two numbers.
    pub fn new(first: u64, second: u64) -> Keys
        ensures { hasher_at_start result ≡ keyed first second }
    {
        let mut hasher = DefaultHasher::new();
        hasher.write_u64(first);
        hasher.write_u64(second);
        Keys {
            first,
            second,
            hasher,
        }
    }

    /// Whether these keys are made of the same numbers as others, so that both hash alike.
    pub(crate) fn is_same(&self, other: &Keys) -> bool
        ensures { result ≡ true → hasher_at_start self.now ≡ hasher_at_start other.now }
    {
        self.first == other.first && self.second == other.second
    }

    /// The hash of a text's bytes.
    pub(crate) fn hash(&self, text: &[u8]) -> u64
        ensures { result ≡ hash_of self.now text.now }
    {
        let mut hasher = self.hasher;
        hasher.write(text);
        hasher.finish()
    }
}

impl BuildHasher for Keys {
    type Hasher = DefaultHasher;

    ghost build_hasher = { λ keys. keys.hasher };

    fn build_hasher(&self) -> DefaultHasher {
        self.hasher
    }
}
