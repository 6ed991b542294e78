//! Names of variables (RFC 6570, section 2.3).

ghost use Rattle.std.specs.Prelude.{◌≡◌, ◌<◌, ◌≤◌, ◌↔◌, IsTrue, length, take, drop};
ghost use Rattle.uri_grammar.specs.Names.{is_name_character, IsVarname, BeginsWithVarname, IsName};
ghost use Rattle.uri_grammar.specs.Private.Lengths.{varchar_len, next_len};

use crate::characters::begins_with_triplet;
use crate::template::MAX_BYTES;

/// The maximum length of a variable's name, in bytes.
pub const MAX_NAME_BYTES: usize = 255;

fn is_name_character(c: char) -> bool
    ensures { result ≡ is_name_character c }
{
    c.is_ascii_alphanumeric() || c == '_'
}

/// How many characters the varchar at the beginning has; 0 if there is none.
fn varchar_len(text: &[char]) -> usize
    ensures value { result ≡ varchar_len text.now }
    ensures within { result ≤ length text.now }
{
    match text {
        [c, ..] if is_name_character(*c) => 1,
        _ if begins_with_triplet(text) => 3,
        _ => 0,
    }
}

/// How many characters the next varchar of a name has, with the dot before it if there is one; 0 if the name ends.
fn next_len(text: &[char]) -> usize
    ensures value { result ≡ next_len text.now }
    ensures within { result ≤ length text.now }
{
    match text {
        ['.', rest @ ..] => match varchar_len(rest) {
            0 => 0,
            len => len + 1,
        },
        _ => varchar_len(text),
    }
}

/// How many characters the longest varname at the beginning has; 0 if there is none.
pub(crate) fn varname_len(text: &[char]) -> usize
    requires { length text.now ≤ MAX_BYTES }
    ensures within { result ≤ length text.now }
    ensures none { result ≡ 0 → varchar_len text.now ≡ 0 }
    ensures varname { 0 < result → BeginsWithVarname text.now (take result text.now) (drop result text.now) }
{
    let mut len = varchar_len(text);
    if len == 0 {
        return 0;
    }
    let mut more = next_len(text.split_at(len).1);
    while more > 0 {
        len += more;
        more = next_len(text.split_at(len).1);
    }
    len
}

fn is_varname(text: &[char]) -> bool
    requires { length text.now ≤ MAX_BYTES }
    ensures { IsTrue result ↔ IsVarname text.now }
{
    let len = varname_len(text);
    len > 0 && len == text.len()
}

/// Whether the text is the name of a variable: a `varname` (RFC 6570, section 2.3) of at most 255 bytes.
pub fn is_name(text: &str) -> bool
    ensures { IsTrue result ↔ IsName text.now }
{
    let bytes = text.as_bytes();
    if bytes.len() > MAX_NAME_BYTES {
        return false;
    }
    // A name is ASCII, so each byte of one is a character.
    let mut chars = ['\0'; MAX_NAME_BYTES];
    for (i, b) in bytes.iter().enumerate() {
        chars[i] = char::from(*b);
    }
    is_varname(chars.split_at(bytes.len()).0)
}
