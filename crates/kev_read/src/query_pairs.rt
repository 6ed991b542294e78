//! The pairs of a query of any source.

ghost use Rattle.std.specs.Prelude.{◌≡◌, ◌<◌, IfOk, Some, length, slice_get};
ghost use Rattle.kev_read.specs.Pairs.{pairs_of};

use crate::pair_reader::read_pairs;
use crate::pairs::Pairs;
use std::alloc::{AllocError, Global};
use std::marker::Model;

/// The pairs of a query, in its order, whatever versions it states and however many pairs it has. [`Request`] has those
/// of a query that is OpenURL 1.0.
///
/// [`Request`]: crate::Request
#[derive(Drop)]
pub struct QueryPairs {
    pairs: Pairs,
}

impl Model for QueryPairs {
    ghost use Rattle.std.specs.Prelude.{List};
    ghost use Rattle.kev_read.specs.Pairs.{KeyValue};

    ghost Value = { List KeyValue };

    ghost view = { λ query. query.pairs };
}

impl QueryPairs {
    /// Reads a query as [`read_kev`](crate::read_kev) does, but rejects none.
    ///
    /// `AllocError` if an allocation failed.
    pub fn read(alloc: Global, query: &[u8]) -> Result<QueryPairs, AllocError>
        ensures { IfOk result (λ pairs. pairs ≡ pairs_of query.now) }
    {
        let pairs = read_pairs(alloc, query)?;
        Ok(QueryPairs { pairs })
    }

    /// How many pairs there are.
    pub fn len(&self) -> usize
        ensures { result ≡ length self.now }
    {
        self.pairs.len()
    }

    /// The key and the value of the pair at the index, both decoded.
    pub fn pair(&self, index: usize) -> (&str, &str)
        requires { index < length self.now }
        ensures { slice_get self.now index ≡ Some record { key = result.0.now; value = result.1.now } }
    {
        let pair = self.pairs.at(index);
        (pair.key, pair.value)
    }
}
