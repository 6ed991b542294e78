//! What sources write around an identifier.

ghost use Rattle.std.specs.Prelude.{◌≡◌, ◌||◌, nat_lt, slice_index};
ghost use Rattle.work_identifiers.specs.Ends as spec;

/// Spaces, control characters, quotes and `*`.
fn is_around(byte: u8) -> bool
    ensures { result ≡ spec.is_around byte }
{
    byte <= b' ' || byte == b'"' || byte == b'\'' || byte == b'`' || byte == b'*'
}

/// Whether the byte may be before an identifier.
fn is_before(byte: u8) -> bool
    ensures { result ≡ spec.is_before byte }
{
    is_around(byte)
        || byte == b'('
        || byte == b'['
        || byte == b'{'
        || byte == b'<'
        || byte == b':'
        || byte == b'='
        || byte == b'#'
}

/// Whether the byte may be after an identifier.
fn is_after(byte: u8) -> bool
    ensures { result ≡ spec.is_after byte }
{
    is_around(byte)
        || byte == b'.'
        || byte == b','
        || byte == b';'
        || byte == b':'
        || byte == b'!'
        || byte == b'?'
}

/// The text from the first byte that may belong to an identifier.
#[tactic(auto, using(crate::proofs::EndSteps::start_steps))]
pub(crate) fn from_start(text: &[u8]) -> &[u8]
    ensures { result.now ≡ spec.from_start text.now }
{
    for (at, byte) in text.iter().enumerate() {
        if !is_before(*byte) {
            return text.split_at(at).1;
        }
    }
    b""
}

/// The opening bracket of a closing one; any other byte itself.
fn opening_of(byte: u8) -> u8
    ensures { result ≡ spec.opening_of byte }
{
    match byte {
        b')' => b'(',
        b']' => b'[',
        b'}' => b'{',
        b'>' => b'<',
        _ => byte,
    }
}

/// The byte at an index; NUL past the end.
pub(crate) fn byte_at(text: &[u8], index: usize) -> u8
    ensures { result ≡ slice_index text.now index }
{
    if index < text.len() { text[index] } else { 0 }
}

fn count_of(byte: u8, text: &[u8]) -> usize
    ensures { result ≡ spec.count_of byte text.now }
{
    text.iter().filter(|other| **other == byte).count()
}

/// Whether the text has more of this closing bracket than of opening ones.
fn is_unopened(byte: u8, text: &[u8]) -> bool
    ensures { result ≡ spec.is_unopened byte text.now }
{
    count_of(opening_of(byte), text) < count_of(byte, text)
}

/// Whether the last byte belongs to no identifier.
pub(crate) fn ends_loosely(text: &[u8]) -> bool
    ensures { result ≡ spec.ends_loosely text.now }
{
    let last = byte_at(text, text.len().saturating_sub(1));
    is_after(last) || is_unopened(last, text)
}

/// The longest beginning that does not end loosely, in one pass.
pub(crate) fn to_end(text: &[u8]) -> &[u8]
    ensures { result.now ≡ spec.to_end text.now }
{
    let mut counts = [0usize; 256];
    let mut end = 0;
    for (at, byte) in text.iter().enumerate() {
        counts[usize::from(*byte)] += 1;
        if !is_loose(&counts, *byte) {
            end = at + 1;
        }
    }
    text.split_at(end).0
}

/// Whether a text with this last byte ends loosely, by how often it has each byte.
fn is_loose(counts: &[usize; 256], last: u8) -> bool
    ensures { result ≡ (spec.is_after last
        || nat_lt (slice_index counts.now (spec.opening_of last)) (slice_index counts.now last)) }
{
    is_after(last) || counts[usize::from(opening_of(last))] < counts[usize::from(last)]
}

/// Whether the byte is none of the prefix of a DOI.
fn is_break(byte: u8) -> bool
    ensures { result ≡ spec.is_break byte }
{
    byte <= b' '
        || byte == b'/'
        || byte == b'?'
        || byte == b'#'
        || byte == b'&'
        || byte == b','
        || byte == b';'
}

/// The text up to the first of these.
#[tactic(auto, using(crate::proofs::EndSteps::part_steps))]
pub(crate) fn first_part(text: &[u8]) -> &[u8]
    ensures { result.now ≡ spec.first_part text.now }
{
    for (at, byte) in text.iter().enumerate() {
        if is_break(*byte) {
            return text.split_at(at).0;
        }
    }
    text
}
