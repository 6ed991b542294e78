//! The keys of pairs.

ghost use Rattle.std.specs.Prelude.{◌≡◌, ◌≤◌, length, slice_index};
ghost use Rattle.text_model.specs.Texts.{texts_of};
ghost use Rattle.query_repair.specs.Keys as spec;

use uri_text::begins_in_any_case;

/// Whether the byte may be in a key.
pub(crate) fn is_key_byte(byte: u8) -> bool
    ensures { result ≡ spec.is_key_byte byte }
{
    byte.is_ascii_alphanumeric() || byte == b'_' || byte == b'.'
}

/// How many bytes the key has with which a piece begins.
fn key_len(piece: &[u8]) -> usize
    ensures value { result ≡ spec.key_length piece.now }
    ensures within { result ≤ length piece.now }
{
    for (at, byte) in piece.iter().enumerate() {
        if !is_key_byte(*byte) {
            return at;
        }
    }
    piece.len()
}

pub(crate) fn key_of(piece: &[u8]) -> &[u8]
    ensures { result.now ≡ spec.key_of piece.now }
{
    piece.split_at(key_len(piece)).0
}

/// The byte at an index; NUL past the end.
pub(crate) fn byte_at(text: &[u8], index: usize) -> u8
    ensures { result ≡ slice_index text.now index }
{
    if index < text.len() { text[index] } else { 0 }
}

/// Whether a piece begins with a key and `=`.
#[tactic(auto, unfolding(crate::specs::Keys::begins_pair))]
pub(crate) fn begins_pair(piece: &[u8]) -> bool
    ensures { result ≡ spec.begins_pair piece.now }
{
    let end = key_len(piece);
    end > 0 && byte_at(piece, end) == b'='
}

/// Whether the key has this name, in capital or small letters.
fn is_named(key: &[u8], name: &[u8]) -> bool
    ensures { result ≡ spec.is_named key.now name.now }
{
    key.len() == name.len() && begins_in_any_case(key, name)
}

fn is_one_of(names: &[&str], key: &[u8]) -> bool
    ensures { result ≡ spec.is_one_of (texts_of names.now) key.now }
{
    for name in names {
        if is_named(key, name.as_bytes()) {
            return true;
        }
    }
    false
}

/// The key without the `rft.` of OpenURL 1.0.
fn name_of(key: &[u8]) -> &[u8]
    ensures { result.now ≡ spec.name_of key.now }
{
    if begins_in_any_case(key, b"rft.") {
        key.split_at(4).1
    } else {
        key
    }
}

/// The names of keys of titles, persons and groups.
fn title_names() -> &'static [&'static str]
    ensures { texts_of result.now ≡ spec.title_names }
{
    &[
        "title", "atitle", "btitle", "jtitle", "stitle", "au", "aulast", "aufirst", "aucorp",
        "source", "creator",
    ]
}

/// The names of other keys that sources send.
fn other_names() -> &'static [&'static str]
    ensures { texts_of result.now ≡ spec.other_names }
{
    &[
        "genre",
        "issn",
        "eissn",
        "isbn",
        "eisbn",
        "volume",
        "issue",
        "spage",
        "epage",
        "pages",
        "artnum",
        "date",
        "year",
        "auinit",
        "auinit1",
        "part",
        "ssn",
        "quarter",
        "sici",
        "coden",
        "sid",
        "pid",
        "id",
        "doi",
        "pmid",
        "pmcid",
        "number",
        "identifier",
        "url",
        "type",
        "ctx_ver",
        "ctx_enc",
        "url_ver",
        "url_ctx_fmt",
        "rft_id",
        "rft_dat",
        "rft_val_fmt",
        "rfr_id",
    ]
}

/// Whether the key is that of a title or a name.
#[tactic(auto, unfolding(crate::specs::Keys::is_title))]
pub(crate) fn is_title(key: &[u8]) -> bool
    ensures { result ≡ spec.is_title key.now }
{
    is_one_of(title_names(), name_of(key))
}

/// Whether sources send the key.
#[tactic(auto, unfolding(crate::specs::Keys::is_known))]
pub(crate) fn is_known(key: &[u8]) -> bool
    ensures { result ≡ spec.is_known key.now }
{
    is_title(key) || is_one_of(other_names(), name_of(key))
}
