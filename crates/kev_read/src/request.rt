//! An OpenURL request.

ghost use Rattle.std.specs.Prelude.{◌≡◌, ◌<◌, ◌≤◌, ◌+◌, ◌*◌, [], length, slice_get, IfErr, IfOk, OnOk, Some};
ghost use Rattle.std.specs.Option.{option_copied};
ghost use Rattle.environment_model.specs.Environment.{byte_count, member_count, members_of};
ghost use Rattle.target_vars.specs.declared.env.TheConstants.{MAX_BYTES, MAX_MEMBERS};
ghost use Rattle.kev_read.specs.Pairs as spec;
ghost use Rattle.kev_read.specs.Filling.{filled, StopsAtPair};
ghost use Rattle.kev_read.specs.Sums.{AreSums};
ghost use Rattle.kev_read.specs.declared.read.TheConstants.{MAX_PAIRS, MAX_QUERY_BYTES};
ghost use Rattle.text_model.specs.Texts.{Text, texts_of};
ghost use Rattle.kev_read.specs.Private.KeyOrder.{IsKeyOrder};

use crate::filling::fill;
use crate::key_sums::sums;
use crate::key_values::{KeyValues, values_by_key};
use crate::pairs::Pairs;
use crate::values::Values;
use std::alloc::{AllocError, Global};
use std::marker::Model;
use target_vars::{Env, VarsError};

/// An OpenURL request: its pairs of key and value (ANSI/NISO Z39.88-2004, key/encoded-value form), in
/// the order of the query.
///
/// Every key is kept under its own name; a pair without `=` has the empty value. Contracts also see how many bytes the
/// query had.
#[derive(Drop)]
pub struct Request {
    pairs: Pairs,
    // The indices of the pairs in the order of their keys; pairs with the same key are in the order of the query.
    order: Vec<u16>,
    // Bounds what the pairs add to an environment.
    query_bytes: usize,
}

impl Model for Request {
    ghost use Rattle.kev_read.specs.ReadQuery.{ReadQuery, IsBounded};

    ghost Value = { ReadQuery };

    ghost view = { λ request. record { pairs = request.pairs; query_bytes = request.query_bytes } };

    ghost use Rattle.kev_read.specs.Private.KeyOrder.{IsKeyOrder};

    ghost invariant = { λ request. IsBounded record { pairs = request.pairs; query_bytes = request.query_bytes }
        × IsKeyOrder request.pairs request.order.items };
}

impl Request {
    ghost use Rattle.kev_read.specs.ReadQuery.{IsBounded};

    pub(crate) fn new(pairs: Pairs, order: Vec<u16>, query_bytes: usize) -> Request
        requires bounded { IsBounded record { pairs = pairs; query_bytes = query_bytes } }
        requires ordered { IsKeyOrder pairs order.items }
        ensures { result ≡ record { pairs = pairs; query_bytes = query_bytes } }
    {
        Request {
            pairs,
            order,
            query_bytes,
        }
    }

    /// The first value of a key; `None` if no pair has the key.
    pub fn first(&self, key: &str) -> Option<&str>
        ensures { option_copied result ≡ spec.first_of self.now.pairs key.now }
    {
        self.all(key).next()
    }

    /// The values of a key, in the order of the query.
    #[tactic(auto, using(crate::proofs::ValuesOfKey::all_of_few))]
    pub fn all<'a, 'k>(&'a self, key: &'k str) -> Values<'a, 'k>
        ensures values { result ≡ spec.all_of self.now.pairs key.now }
        ensures few { length result ≤ MAX_PAIRS }
    {
        Values::new(&self.pairs, key)
    }

    /// How many pairs there are, at most [`MAX_PAIRS`](crate::MAX_PAIRS).
    pub fn pairs(&self) -> usize
        ensures count { result ≡ length self.now.pairs }
        ensures bounded { IsBounded self.now }
    {
        self.pairs.len()
    }

    /// The key and the value of the pair at the index, in the order of the query.
    pub fn pair(&self, index: usize) -> (&str, &str)
        requires { index < length self.now.pairs }
        ensures { slice_get self.now.pairs index ≡ Some record { key = result.0.now; value = result.1.now } }
    {
        let pair = self.pairs.at(index);
        (pair.key, pair.value)
    }

    /// The values of each key, in the order of the query, as a list with the name of the key, no matter which keys are
    /// declared as lists.
    ///
    /// `AllocError` if an allocation failed.
    pub fn values_by_key(&self, alloc: Global) -> Result<KeyValues<'_>, AllocError>
        ensures lists { IfOk result (λ values.
            (key : Text) → members_of values.entries key ≡ spec.all_of self.now.pairs key) }
        ensures short { IfOk result (λ values. length values.buffer ≤ 3 * MAX_QUERY_BYTES) }
        ensures members { IfOk result (λ values. length values.spans ≤ MAX_PAIRS) }
    {
        values_by_key(alloc, &self.pairs, &self.order)
    }

    /// E and M of the request if no list is declared: the bytes of all texts and members, and the number of members.
    pub fn sums(&self) -> (usize, usize)
        ensures { AreSums self.now.pairs result.0 result.1 }
    {
        sums(&self.pairs, &self.order)
    }

    /// Adds each pair to the environment, in order: if the key is `rft.au`, `rft_id` or one of `lists`, as a member of
    /// that list, and otherwise as a text, unless the environment already has the key.
    ///
    /// `TooLarge` if a pair would exceed a limit of the environment, `NoMemory` if an allocation failed. The pairs
    /// before the rejected one stay added, and the rejected one would have changed the environment.
    pub fn fill(&self, lists: &[&str], env: &mut Env) -> Result<(), VarsError>
        ensures ok { OnOk result (env.new.entries ≡ filled (texts_of lists.now) env.old.entries self.now.pairs) }
        ensures err { IfErr result (StopsAtPair (texts_of lists.now) env.old.entries self.now.pairs env.new.entries) }

        // How much the environment grows at most, whatever the result.
        ensures bytes { byte_count env.new.entries ≤ byte_count env.old.entries + 3 * self.now.query_bytes }
        ensures members { member_count env.new.entries ≤ member_count env.old.entries + length self.now.pairs }

        // If there is room for that, the only possible error is out of memory. An empty environment always has room.
        ensures room { byte_count env.old.entries + 3 * self.now.query_bytes ≤ MAX_BYTES
            → member_count env.old.entries + length self.now.pairs ≤ MAX_MEMBERS
            → IfErr result (λ e. e ≡ VarsError.NoMemory) }
        ensures empty { env.old.entries ≡ [] → IfErr result (λ e. e ≡ VarsError.NoMemory) }
    {
        fill(&self.pairs, &self.order, lists, env)
    }
}
