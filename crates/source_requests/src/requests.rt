//! The requests of a reading.

ghost use Rattle.std.specs.Prelude.{◌≡◌, ◌<◌, ◌≤◌, IfErr, IfOk, false, length};
ghost use Rattle.kev_read.specs.Refusal.{states_other_version};
ghost use Rattle.kev_read.specs.declared.read.TheConstants.{MAX_PAIRS};
ghost use Rattle.source_requests.specs.Requests as spec;

use crate::forms::fitting_form;
use crate::laws::{fitting_pairs_fit, written_pairs_are_read_back};
use crate::sent_pair::{SentPair, all_pairs, any_pairs, led_by, number_key};
use kev_read::{KevError, Request, read_kev};
use openurl_reading::Pairs;
use std::alloc::Global;

/// The request for targets that have the cited title: the pairs of a reading, as far as they fit.
///
/// `NoMemory` if an allocation failed.
pub fn own_request(alloc: Global, pairs: &Pairs) -> Result<Request, KevError>
    requires few { length pairs.now < MAX_PAIRS }
    requires version { states_other_version pairs.now ≡ false }
    ensures pairs { IfOk result (λ request. request.pairs ≡ spec.fitting pairs.now) }
    ensures err { IfErr result (λ e. e ≡ KevError.NoMemory) }
{
    let list = all_pairs(alloc, pairs)?;
    request_of(alloc, &list)
}

/// The request for targets that answer every request: the pairs of a reading without the keys that find rows, and with
/// `rft.issn=ANY` before them, as far as they fit.
///
/// `NoMemory` if an allocation failed.
pub fn any_request(alloc: Global, pairs: &Pairs) -> Result<Request, KevError>
    requires few { length pairs.now < MAX_PAIRS }
    requires version { states_other_version pairs.now ≡ false }
    ensures pairs { IfOk result (λ request. request.pairs ≡ spec.fitting (spec.any_pairs pairs.now)) }
    ensures err { IfErr result (λ e. e ≡ KevError.NoMemory) }
{
    let list = any_pairs(alloc, pairs)?;
    request_of(alloc, &list)
}

/// The request for targets that have the cited title under another number, an ISSN or an ISBN: the pairs of a reading
/// without the keys that find rows, and with `rft.issn` or `rft.isbn` and the number before them, as far as they fit.
///
/// `NoMemory` if an allocation failed.
pub fn further_request(alloc: Global, number: &str, pairs: &Pairs) -> Result<Request, KevError>
    requires few { length pairs.now < MAX_PAIRS }
    requires version { states_other_version pairs.now ≡ false }
    ensures pairs { IfOk result (λ request. request.pairs ≡ spec.fitting (spec.further_pairs number.now pairs.now)) }
    ensures err { IfErr result (λ e. e ≡ KevError.NoMemory) }
{
    let list = led_by(alloc, number_key(number), number, pairs)?;
    request_of(alloc, &list)
}

/// The request with these pairs, as far as they fit.
fn request_of(alloc: Global, pairs: &[SentPair<'_>]) -> Result<Request, KevError>
    requires few { length pairs.now ≤ MAX_PAIRS }
    requires version { states_other_version pairs.now ≡ false }
    ensures pairs { IfOk result (λ request. request.pairs ≡ spec.fitting pairs.now) }
    ensures err { IfErr result (λ e. e ≡ KevError.NoMemory) }
{
    let text = fitting_form(alloc, pairs)?;
    written_pairs_are_read_back();
    fitting_pairs_fit();
    read_kev(alloc, text.as_str().as_bytes())
}
