//! Where the secret keys of tables come from.

ghost use Rattle.std.specs.Prelude.{ℕ, IfOk, OnErr};
ghost use Rattle.kbart_rows.specs.declared.keys.Keys.{Keys};
ghost use Rattle.kbart_rows.specs.RandomKeys.{IsDrawn};

use crate::keys::Keys;
use std::io;
use std::random::RandomSource;
use thiserror::Error;

/// The source has no random numbers.
#[derive(Clone, Copy, Debug, PartialEq, Eq, Error)]
#[error("no random numbers")]
pub struct NoKeys;

/// A source of secret keys for tables.
pub trait KeySource {
    /// Between the two states, these two numbers were drawn.
    ghost draws: { Self → ℕ → ℕ → Self → Type 0 };

    /// Between the two states, a draw failed.
    ghost fails: { Self → Self → Type 0 };

    /// Draws two random numbers, and makes keys of them.
    fn draw(&mut self) -> Result<Keys, NoKeys>
        ensures drawn { IfOk result (λ keys. IsDrawn draws self.old keys self.new) }
        ensures failed { OnErr result (fails self.old self.new) };
}

/// The random numbers of the system.
#[derive(Drop)]
pub struct SystemKeys<'a, R> {
    rt: &'a R,
}

impl<'a, R: RandomSource> SystemKeys<'a, R> {
    /// The random numbers of this runtime.
    pub fn new(rt: &'a R) -> SystemKeys<'a, R> {
        SystemKeys { rt }
    }

    fn number(&self) -> io::Result<u64> {
        let mut bytes = [0; 8];
        self.rt.fill_bytes(&mut bytes)?;
        Ok(u64::from_le_bytes(bytes))
    }
}

impl<'a, R: RandomSource> KeySource for SystemKeys<'a, R> {
    ghost draws = { λ _ _ _ _. Unit {0} };

    ghost fails = { λ _ _. Unit {0} };

    fn draw(&mut self) -> Result<Keys, NoKeys> {
        match (self.number(), self.number()) {
            (Ok(first), Ok(second)) => Ok(Keys::new(first, second)),
            _ => Err(NoKeys),
        }
    }
}
