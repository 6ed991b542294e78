//! What follows from the definitions. These functions have empty bodies, apart from the laws that they use; each
//! contract is a theorem.

ghost use Rattle.std.specs.Prelude.{◌≡◌, ◌≤◌, ◌+◌, ◌*◌, List, [], All, false, length, map, true};
ghost use Rattle.form_urlencoded.specs.Form as form;
ghost use Rattle.text_model.specs.Texts.{Text};
ghost use Rattle.kev_read.specs.Pairs.{pairs_of};
ghost use Rattle.query_repair.specs.Repair.{repaired};
ghost use Rattle.query_repair.specs.Settled.{IsSettled};
ghost use Rattle.request_encodings.specs.declared.encoding.Encoding.{Encoding};
ghost use Rattle.request_encodings.specs.Declarations.{declared_in};
ghost use Rattle.source_queries.specs.Utf8.{DeclareNoOther, IsUtf8Pair, key_value, pairs_in};
ghost use Rattle.source_queries.specs.Utf8.{is_utf8_query, source_query};

use query_repair::laws::{repaired_queries_stay, repairs_are_bounded, settled_queries_stay};
use request_encodings::laws::{texts_are_bounded, texts_are_utf8};

/// Names and values are UTF-8, and no other encoding is declared. So `kev_read` reads each text as it is, with no
/// U+FFFD for bytes.
pub fn source_queries_are_utf8()
    ensures texts { (query : Text)
        → All IsUtf8Pair (form.parse (source_query query)) }
    ensures read { (query : Text) → pairs_of (source_query query) ≡ map key_value (form.parse (source_query query)) }
    ensures declared { (query : Text) → declared_in (source_query query) ≡ Encoding.Utf8 }
{
    texts_are_utf8();
}

/// A query that needs no repair and is UTF-8 stays as it is; so does a form of pairs that are UTF-8 and of which the
/// first one that declares an encoding declares UTF-8 (URL Standard, section 5.2).
pub fn utf8_queries_stay()
    ensures settled { (query : Text) → IsSettled query → is_utf8_query query ≡ true → source_query query ≡ query }
    ensures forms { (pairs : List (Text × Text)) → All IsUtf8Pair pairs → DeclareNoOther pairs
        → source_query (form.extend_pairs [] pairs) ≡ form.extend_pairs [] pairs }
{
    settled_queries_stay();
}

/// Twice is once.
pub fn source_queries_stay()
    ensures { (query : Text) → source_query (source_query query) ≡ source_query query }
{
    texts_are_utf8();
    settled_queries_stay();
    repaired_queries_stay();
}

/// There are as many pairs as in the repaired query. If that is not UTF-8, they are its pairs, read in its encoding.
pub fn pairs_are_those_of_the_query()
    ensures number { (query : Text)
        → length (form.raw_pairs (source_query query)) ≡ length (form.raw_pairs (repaired query)) }
    ensures written { (query : Text) → is_utf8_query (repaired query) ≡ false
        → form.parse (source_query query) ≡ pairs_in (declared_in (repaired query)) (repaired query) }
{
    texts_are_utf8();
}

/// A byte of the repaired query becomes at most nine, as 80 of windows-1252 becomes `%E2%82%AC`; and a name without a
/// value gets `=`.
pub fn source_queries_are_bounded()
    ensures repaired { (query : Text) → length (source_query query) ≤ 9 * length (repaired query) + 1 }
    ensures sent { (query : Text) → length (source_query query) ≤ 18 * length query + 1 }
{
    texts_are_bounded();
    repairs_are_bounded();
}

/// A form of texts in UTF-8 is read back as these texts (URL Standard, sections 5.1 and 5.2).
pub fn forms_are_read_back()
    ensures { (pairs : List (Text × Text)) → All IsUtf8Pair pairs
        → pairs_of (form.extend_pairs [] pairs) ≡ map key_value pairs }
{}
