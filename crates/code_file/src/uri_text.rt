//! URI text (RFC 3986, sections 2.1 to 2.3).

ghost use Rattle.std.specs.Prelude.{◌≡◌, ◌↔◌, ◌<◌, length, true, false, IsTrue, IfNone, IfSome};
ghost use Rattle.text_model.specs.Texts as texts;
ghost use Rattle.code_file.specs.Private.FromLeft as from_left;
ghost use Rattle.text_model.specs.Writing.{is_unreserved_or_reserved};
ghost use Rattle.text_model.specs.UriText.{IsUriText};

/// Whether a byte may represent itself: an unreserved or a reserved character (RFC 3986, sections 2.2
/// and 2.3).
#[tactic(auto, unfolding(text_model::specs::Texts::is_unreserved, text_model::specs::Texts::is_reserved))]
fn is_plain(b: u8) -> bool
    ensures { result ≡ is_unreserved_or_reserved b }
{
    b.is_ascii_alphanumeric() || b"-._~:/?#[]@!$&'()*+,;=".contains(&b)
}

fn is_hexadecimal(b: u8) -> bool
    ensures { result ≡ texts.is_hexadecimal b }
{
    b.is_ascii_hexdigit()
}

/// Whether the bytes begin with a triplet (RFC 3986, section 2.1).
#[tactic(auto, using(crate::proofs::UriTextLemmas::begins_with_triplet_reads, crate::proofs::UriTextLemmas::begins_with_triplet_short))]
fn begins_with_triplet(bytes: &[u8]) -> bool
    ensures { result ≡ texts.begins_with_triplet bytes.now }
{
    bytes.len() >= 3 && bytes[0] == b'%' && is_hexadecimal(bytes[1]) && is_hexadecimal(bytes[2])
}

/// What follows the triplet or the character with which the bytes begin.
fn after_item(bytes: &[u8]) -> Option<&[u8]>
    requires { 0 < length bytes.now }
    ensures none { IfNone result (from_left.is_uri_text bytes.now ≡ false) }
    ensures some { IfSome result (λ rest. from_left.is_uri_text bytes.now ≡ from_left.is_uri_text rest.now) }
    ensures shorter { IfSome result (λ rest. length rest.now < length bytes.now) }
{
    if begins_with_triplet(bytes) {
        return Some(&bytes[3..]);
    }
    if is_plain(bytes[0]) {
        return Some(&bytes[1..]);
    }
    None
}

/// Whether the bytes are URI text: characters that denote themselves, and triplets.
pub(crate) fn is_uri_text(bytes: &[u8]) -> bool
    ensures { IsTrue result ↔ IsUriText bytes.now }
{
    let mut rest = bytes;
    while !rest.is_empty() {
        match after_item(rest) {
            Some(after) => rest = after,
            None => return false,
        }
    }
    true
}
