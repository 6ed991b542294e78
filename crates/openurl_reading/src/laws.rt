//! What follows from the definitions. These functions have empty bodies, apart from the laws that they use; each
//! contract is a theorem.

ghost use Rattle.std.specs.Prelude.{◌≡◌, ◌≤◌, ◌+◌, ◌*◌, List, All, codes, false, filter, length};
ghost use Rattle.kev_read.specs.Pairs.{KeyValue, first_of, value_bytes};
ghost use Rattle.kev_read.specs.Refusal.{states_other_version};
ghost use Rattle.openurl_reading.specs.Canonical.{IsCanonical};
ghost use Rattle.openurl_reading.specs.Counting.{counting, is_added_key, is_column, most_pairs};
ghost use Rattle.openurl_reading.specs.Keys.{key_of};
ghost use Rattle.openurl_reading.specs.Origins.{HasOrigin, read_values};
ghost use Rattle.openurl_reading.specs.Reading.{derived, normal_form, reading_of, with_derived};
ghost use Rattle.openurl_reading.specs.Retractions.{is_retracted};
ghost use Rattle.openurl_reading.specs.Steps.{Step, others, taken};
ghost use Rattle.openurl_reading.specs.Versions.{encoding, is_other};

use article_places::laws::{
    numbers_are_parts, numbers_stay, pages_are_parts, pages_stay, parts_are_plain, parts_are_short,
    supplements_stay,
};
use journal_references::laws::references_are_parts;
use publication_dates::laws::{dates_are_read, dates_stay, days_are_days};
use standard_numbers::laws::{
    isbns_are_isbns, isbns_stay, issns_are_found_alone, issns_are_issns, issns_stay,
};
use text_model::laws::writing_at_most_triples;
use work_identifiers::laws::{
    dois_in_addresses_are_dois, identifiers_are_identifiers, identifiers_stay, preprints_have_dois,
    uris_are_short, uris_have_one_namespace,
};
use written_texts::laws::{
    plain_texts_stay, texts_are_bounded, texts_are_not_blank, texts_are_read_once,
};

/// A step leaves the pairs of all other keys as they are, in their order.
pub fn steps_touch_their_key()
    ensures { (step : Step) (pairs : List KeyValue) → others step.key (taken pairs step) ≡ others step.key pairs }
{}

/// Whatever a source sends, no pair of the reading names a column of holdings tables, and its keys that begin with `x.`
/// are those that the resolver derives from the others.
pub fn sources_write_no_column()
    ensures columns { (pairs : List KeyValue) → All (λ pair. is_column pair.key ≡ false) (reading_of pairs).pairs }
    ensures added { (pairs : List KeyValue) → filter (λ pair. is_added_key pair.key) (reading_of pairs).pairs
        ≡ derived (normal_form (counting pairs)) }
{}

/// A reading states no other version than that of OpenURL 1.0, so as a query it is accepted.
pub fn readings_state_the_version()
    ensures { (pairs : List KeyValue) → states_other_version (reading_of pairs).pairs ≡ false }
{}

/// A reading names no other encoding than UTF-8.
pub fn readings_name_their_encoding()
    ensures { (pairs : List KeyValue)
        → is_other encoding (first_of (reading_of pairs).pairs (codes "ctx_enc")) ≡ false }
{}

/// A known key is in small letters in a reading, however the source wrote it.
pub fn known_keys_are_in_small_letters()
    ensures { (pairs : List KeyValue) → All (λ pair. key_of pair.key ≡ pair.key) (reading_of pairs).pairs }
{}

/// A request that is OpenURL 1.0 stays as it is. If all its pairs count, its reading has them after the derived ones.
pub fn canonical_requests_stay()
    ensures steps { (pairs : List KeyValue) → IsCanonical pairs → normal_form pairs ≡ pairs }
    ensures reading { (pairs : List KeyValue) → IsCanonical pairs → counting pairs ≡ pairs
        → (reading_of pairs).pairs ≡ with_derived pairs }
{
    issns_stay();
    isbns_stay();
    dates_stay();
    identifiers_are_identifiers();
    identifiers_stay();
    uris_have_one_namespace();
    preprints_have_dois();
    dois_in_addresses_are_dois();
    plain_texts_stay();
    texts_are_bounded();
}

/// Reading twice is reading once. A reading is read as it is if its pairs, without the derived ones, are few enough;
/// of a retraction it says what the titles still do that no step has read.
pub fn readings_are_read_as_they_are()
    ensures steps { (pairs : List KeyValue) → normal_form (normal_form pairs) ≡ normal_form pairs }
    ensures reading { (pairs : List KeyValue) → length (normal_form (counting pairs)) ≤ most_pairs
        → reading_of (reading_of pairs).pairs ≡ record {
          pairs = (reading_of pairs).pairs;
          left_out = 0;
          is_retracted = is_retracted (normal_form (counting pairs));
        } }
{
    issns_are_issns();
    issns_are_found_alone();
    isbns_are_isbns();
    isbns_stay();
    dates_are_read();
    dates_stay();
    numbers_are_parts();
    numbers_stay();
    supplements_stay();
    pages_are_parts();
    pages_stay();
    parts_are_short();
    parts_are_plain();
    plain_texts_stay();
    texts_are_bounded();
    identifiers_are_identifiers();
    identifiers_stay();
    uris_have_one_namespace();
    preprints_have_dois();
    dois_in_addresses_are_dois();
    texts_are_read_once();
    texts_are_not_blank();
}

/// Nothing is invented: each value of a reading is one of the request, the version of OpenURL, the encoding, one of
/// three formats, or what is read in one value of the request, an identifier also as its URI, one of arXiv as its DOI,
/// and an identifier or a page also in the text that is read. The parts of a reference in a value count as values of
/// the request, and so does the name of a journal in a source of Dublin Core.
pub fn nothing_is_invented()
    ensures { (pairs : List KeyValue)
        → All (λ pair. HasOrigin (read_values pairs) pair.value) (reading_of pairs).pairs }
{
    issns_are_issns();
    issns_are_found_alone();
    isbns_are_isbns();
    isbns_stay();
    dates_are_read();
    dates_stay();
    numbers_are_parts();
    numbers_stay();
    supplements_stay();
    pages_are_parts();
    pages_stay();
    parts_are_short();
    parts_are_plain();
    plain_texts_stay();
    texts_are_bounded();
    identifiers_are_identifiers();
    identifiers_stay();
    uris_have_one_namespace();
    preprints_have_dois();
    dois_in_addresses_are_dois();
}

/// A reading has at most twice the pairs that count, of which there are at most 300, and twice the bytes of the values
/// of the request, and what the resolver adds.
pub fn readings_are_bounded()
    ensures few { (pairs : List KeyValue) → length (reading_of pairs).pairs ≤ 2 * length (counting pairs) + 42 }
    ensures counting { (pairs : List KeyValue) → length (counting pairs) ≤ most_pairs }
    ensures bytes { (pairs : List KeyValue)
        → value_bytes (reading_of pairs).pairs ≤ 2 * value_bytes pairs + 9331 }
{
    issns_are_issns();
    isbns_are_isbns();
    dates_are_read();
    days_are_days();
    numbers_are_parts();
    numbers_stay();
    supplements_stay();
    pages_are_parts();
    parts_are_short();
    parts_are_plain();
    plain_texts_stay();
    identifiers_are_identifiers();
    identifiers_stay();
    uris_have_one_namespace();
    preprints_have_dois();
    dois_in_addresses_are_dois();
    uris_are_short();
    writing_at_most_triples();
    texts_are_bounded();
    references_are_parts();
}
