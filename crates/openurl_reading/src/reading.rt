//! Reading a query of any source.

ghost use Rattle.std.specs.Prelude.{◌≡◌, ◌<◌, ◌⊎◌, ◌↔◌, IfErr, IfOk, length};
ghost use Rattle.kev_read.specs.Pairs.{pairs_of};
ghost use Rattle.kev_read.specs.declared.read.TheConstants.{MAX_QUERY_BYTES};
ghost use Rattle.openurl_reading.specs.Reading as spec;

use crate::counting::counting;
use crate::derived::with_derived;
use crate::normal_form::normal_form;
use crate::pairs::Pairs;
use crate::retractions::is_retracted;
use kev_read::{KevError, MAX_QUERY_BYTES, QueryPairs};
use std::alloc::Global;
use std::marker::Model;

/// A request of any source, read as OpenURL 1.0.
#[derive(Drop)]
pub struct Reading {
    pairs: Pairs,
    left_out: usize,
    is_retracted: bool,
}

impl Model for Reading {
    ghost use Rattle.openurl_reading.specs.Reading.{ReadRequest};

    ghost Value = { ReadRequest };

    ghost view = { λ reading. record {
      pairs = reading.pairs;
      left_out = reading.left_out;
      is_retracted = reading.is_retracted;
    } };
}

impl Reading {
    /// The pairs, first those that the resolver adds.
    pub fn pairs(&self) -> &Pairs
        ensures { result.now ≡ self.now.pairs }
    {
        &self.pairs
    }

    /// How many pairs of the request were left out, since it has too many.
    pub fn left_out(&self) -> usize
        ensures { result ≡ self.now.left_out }
    {
        self.left_out
    }

    /// Whether a title of the request has the remark that its work was retracted, as `RETRACTED: Silt`.
    pub fn is_retracted(&self) -> bool
        ensures { result ≡ self.now.is_retracted }
    {
        self.is_retracted
    }
}

/// Reads a query of any source as OpenURL 1.0.
///
/// `TooLong` if it has more than 65,536 bytes, `NoMemory` if an allocation failed.
pub fn read_openurl(alloc: Global, query: &[u8]) -> Result<Reading, KevError>
    ensures ok { IfOk result (λ reading. reading ≡ spec.reading_of (pairs_of query.now)) }
    ensures err { IfErr result (λ e. (e ≡ KevError.NoMemory) ⊎ (e ≡ KevError.TooLong)) }

    // Even if memory has run out.
    ensures too_long { (result ≡ Err KevError.TooLong) ↔ (MAX_QUERY_BYTES < length query.now) }
{
    if query.len() > MAX_QUERY_BYTES {
        return Err(KevError::TooLong);
    }
    let query = QueryPairs::read(alloc, query)?;
    let (sent, left_out) = counting(alloc, &query)?;
    let is_retracted = is_retracted(alloc, &sent)?;
    let normal = normal_form(alloc, sent)?;
    let pairs = with_derived(alloc, normal)?;
    Ok(Reading {
        pairs,
        left_out,
        is_retracted,
    })
}
