//! Names of the template grammar (RFC 6570, section 2.3), as a test of bytes.

ghost use Rattle.std.specs.Prelude.{◌≡◌, ◌==◌, ◌&&◌, not};
ghost use Rattle.uri_grammar.specs.Characters.{dot};
ghost use Rattle.uri_grammar.specs.Names.{is_name_character};
ghost use Rattle.rule_lint.specs.Names.{are_varchars as are_all_varchars, is_name};

use uri_grammar::MAX_NAME_BYTES;

fn is_name_byte(b: u8) -> bool
    ensures { result ≡ is_name_character b }
{
    b.is_ascii_alphanumeric() || b == b'_'
}

fn is_dot(b: u8, due: bool) -> bool
    ensures { result ≡ (b == dot && not due) }
{
    b == b'.' && !due
}

/// Whether the bytes continue a name to its end: varchars, with at most one dot before each. If `due`, a varchar must
/// come next; if `digit`, a hexadecimal digit of a triplet, and if `second`, another one after it.
fn are_varchars(due: bool, digit: bool, second: bool, text: &[u8]) -> bool
    ensures { result ≡ are_all_varchars due digit second text.now }
{
    let [c, rest @ ..] = text else {
        return !due && !digit;
    };
    if digit {
        return c.is_ascii_hexdigit() && are_varchars(false, second, false, rest);
    }
    if is_name_byte(*c) {
        return are_varchars(false, false, false, rest);
    }
    if *c == b'%' {
        return are_varchars(false, true, true, rest);
    }
    is_dot(*c, due) && are_varchars(true, false, false, rest)
}

/// Whether the text is the name of a variable.
pub(crate) fn is_template_name(text: &str) -> bool
    ensures { result ≡ is_name text.now }
{
    text.len() <= MAX_NAME_BYTES && are_varchars(true, false, false, text.as_bytes())
}
