//! The items of a text; a prefix consists of the first ones.

ghost use Rattle.std.specs.Prelude.{◌≡◌, ◌<◌, ◌≤◌, length};
ghost use Rattle.std.specs.List.{prefix_len};
ghost use Rattle.text_model.specs.Cut.{is_continuation, cut};
ghost use Rattle.uri_text.specs.Prefix.{writing_of};
ghost use Rattle.uri_text.specs.Private.Items.{continues, code_point_length, begins_with_triplet_item, item_length};

use crate::triplet::are_hexadecimal;

/// A byte of UTF-8 that continues with the code point before it (RFC 3629, section 3).
fn is_continuation(byte: u8) -> bool
    ensures { result ≡ is_continuation byte }
{
    (0x80..0xC0).contains(&byte)
}

fn continues(text: &[u8]) -> bool
    ensures { result ≡ continues text.now }
{
    matches!(text, [byte, ..] if is_continuation(*byte))
}

fn continuation_len(text: &[u8]) -> usize
    ensures value { result ≡ prefix_len is_continuation text.now }
    ensures within { result ≤ length text.now }
{
    text.iter()
        .take_while(|byte| is_continuation(**byte))
        .count()
}

fn code_point_len(text: &[u8]) -> usize
    ensures value { result ≡ code_point_length text.now }
    ensures within { result ≤ length text.now }
{
    match text {
        [] => 0,
        [_, after @ ..] => continuation_len(after) + 1,
    }
}

/// Whether the first three code points are the characters of a triplet.
fn begins_with_triplet_item(text: &[u8]) -> bool
    ensures { result ≡ begins_with_triplet_item text.now }
{
    match text {
        [b'%', high, low, after @ ..] => are_hexadecimal(*high, *low) && !continues(after),
        _ => false,
    }
}

/// How many bytes the item at the beginning has.
#[tactic(auto, using(crate::proofs::FirstItems::lengths))]
fn item_len(text: &[u8], triplets: bool) -> usize
    ensures value { result ≡ item_length triplets text.now }
    ensures within { result ≤ length text.now }
{
    if triplets && begins_with_triplet_item(text) {
        3
    } else {
        code_point_len(text)
    }
}

/// The first `n` items of the text, or the whole text if it has fewer (RFC 6570, section 2.4.1).
///
/// An item is a code point; with `triplets`, a whole triplet is one item too, as for operators that copy triplets. The
/// text should be UTF-8. In other bytes, an item is a byte together with the continuation bytes after it.
pub fn cut(text: &[u8], n: usize, triplets: bool) -> &[u8]
    ensures items { result.now ≡ cut (writing_of triplets) text.now n }
    ensures within { length result.now ≤ length text.now }
{
    let mut end = 0;
    let mut left = n;
    while left > 0 && end < text.len() {
        end += item_len(text.split_at(end).1, triplets);
        left -= 1;
    }
    text.split_at(end).0
}
