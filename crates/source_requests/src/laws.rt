//! What follows from the definitions. These functions have empty bodies, apart from the laws that they use; each
//! contract is a theorem.

ghost use Rattle.std.specs.Prelude.{◌≡◌, ◌≤◌, List, All, length, take};
ghost use Rattle.text_model.specs.Texts.{Text};
ghost use Rattle.kev_read.specs.Pairs.{KeyValue, pairs_of};
ghost use Rattle.kev_read.specs.declared.read.TheConstants.{MAX_QUERY_BYTES};
ghost use Rattle.source_queries.specs.Utf8.{source_query};
ghost use Rattle.openurl_reading.specs.Canonical.{IsCanonical};
ghost use Rattle.openurl_reading.specs.Counting.{counting, most_pairs};
ghost use Rattle.openurl_reading.specs.Reading.{normal_form, with_derived};
ghost use Rattle.openurl_reading.specs.Retractions.{is_retracted};
ghost use Rattle.source_requests.specs.Requests.{IsUtf8Pair, fitting, reading_of_source, written};

use openurl_reading::laws::{
    canonical_requests_stay, known_keys_are_in_small_letters, readings_are_read_as_they_are,
    readings_name_their_encoding,
};
use source_queries::laws::{forms_are_read_back, utf8_queries_stay};

/// Pairs that are written as a form are read back as they are.
pub fn written_pairs_are_read_back()
    ensures { (pairs : List KeyValue) → All IsUtf8Pair pairs → pairs_of (written pairs) ≡ pairs }
{
    forms_are_read_back();
}

/// The pairs that fit are the first ones, and their form is no longer than a query may be. If all fit, they are all.
pub fn fitting_pairs_fit()
    ensures short { (pairs : List KeyValue) → length (written (fitting pairs)) ≤ MAX_QUERY_BYTES }
    ensures first { (pairs : List KeyValue) → fitting pairs ≡ take (length (fitting pairs)) pairs }
    ensures all { (pairs : List KeyValue) → length (written pairs) ≤ MAX_QUERY_BYTES → fitting pairs ≡ pairs }
{}

/// The query of a request that is OpenURL 1.0 is read as its pairs, after the derived ones, if they all count.
pub fn canonical_queries_stay()
    ensures { (pairs : List KeyValue) → All IsUtf8Pair pairs → IsCanonical pairs → counting pairs ≡ pairs
        → reading_of_source (written pairs) ≡ record {
          pairs = with_derived pairs;
          left_out = 0;
          is_retracted = is_retracted pairs;
        } }
{
    forms_are_read_back();
    utf8_queries_stay();
    canonical_requests_stay();
    known_keys_are_in_small_letters();
}

/// Reading a query twice is reading it once: a reading that is written as a query is read as it is, if its pairs,
/// without the derived ones, are few enough.
pub fn queries_are_read_once()
    ensures { (query : Text) → All IsUtf8Pair (reading_of_source query).pairs
        → length (normal_form (counting (pairs_of (source_query query)))) ≤ most_pairs
        → reading_of_source (written (reading_of_source query).pairs) ≡ record {
          pairs = (reading_of_source query).pairs;
          left_out = 0;
          is_retracted = is_retracted (normal_form (counting (pairs_of (source_query query))));
        } }
{
    forms_are_read_back();
    utf8_queries_stay();
    readings_are_read_as_they_are();
    readings_name_their_encoding();
    known_keys_are_in_small_letters();
}
