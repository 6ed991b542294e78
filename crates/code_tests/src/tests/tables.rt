//! Tables of codes, and codes, each with its outcome if `x` is a text and `list` has three members.

use super::Entry;

/// The name of each operation, its number, and the fields that its operands go to. `?` stands for any operation: its
/// operands are all five fields.
pub(crate) const OPERATIONS: [(&str, u8, &[u8]); 20] = [
    ("?", 0, b"oabcd"),
    ("HALT", 1, b""),
    ("FAIL", 2, b""),
    ("JUMP", 3, b"d"),
    ("TEXT", 4, b"ab"),
    ("LIST", 5, b"ab"),
    ("CONST", 6, b"ab"),
    ("NUMBER", 7, b"abd"),
    ("UNDEF", 8, b"ad"),
    ("EMPTY", 9, b"ad"),
    ("NOLIST", 10, b"ad"),
    ("DIFFER", 11, b"abd"),
    ("LESS", 12, b"abd"),
    ("EMIT", 13, b"b"),
    ("PUT", 14, b"ac"),
    ("CUT", 15, b"abc"),
    ("EACH", 16, b"abd"),
    ("SEP", 17, b"b"),
    ("NEXT", 18, b""),
    ("COUNT", 19, b"ab"),
];

/// The counts of seven names and ten literals.
pub(crate) const COUNTS_OF_TABLES: &[u8] = b"\0\x07\0\x0a";

/// The names `x` as text, `list` as list, `absent` as both, `list` as text, `x` as list and `rft.issn` as text; and the
/// literals `,` (link text), `12a`, the empty text, `7`, `1234567890`, `%41%42`, `3` and `1` (comparison texts), `;`
/// and `http://e.org/` (link texts).
pub(crate) const ENTRIES: &[u8] =
    b"\0\x01x\x01\x04list\0\x06absent\x01\x06absent\0\x04list\x01\x01x\0\x08rft.issn\
\0\0\x01,\x01\0\x0312a\x01\0\0\x01\0\x017\x01\0\x0a1234567890\x01\0\x06%41%42\x01\0\x013\x01\0\x011\
\0\0\x01;\0\0\x0dhttp://e.org/";

/// The file of a loop over the members of `list`, with a comma between them.
pub(crate) const LIST_FILE: &[u8] = b"OLK1\0\x01\0\x01\0\x06\x01\x04list\0\0\x01,\
\x05\0\0\0\0\0\0\0\x10\x01\0\0\0\0\0\x05\x11\0\0\0\0\0\0\0\
\x0e\x01\0\0\0\0\0\0\x12\0\0\0\0\0\0\0\x01\0\0\0\0\0\0\0";

/// `x` is a text, and `list` has three members.
pub(crate) const VARIABLES: &[Entry] = &[
    (false, "x", "a/é", 1),
    (true, "list", "red", 1),
    (true, "list", "green", 1),
    (true, "list", "blue", 1),
    (false, "rft.issn", "1234-5678", 1),
];

/// `list` is a text.
pub(crate) const TEXTS: &[Entry] = &[(false, "list", "red", 1), (false, "x", "a", 1)];

/// A loop over the members of `list`, with a comma between them.
pub(crate) const LIST_CODE: &str = "LIST r0 n1, EACH r1 r0 5, SEP l0, PUT r1 u, NEXT, HALT";

/// Prints the text of a name, if it is defined.
pub(crate) const OPTIONAL: &str = "TEXT r2 n0, UNDEF r2 3, PUT r2 u, HALT";

/// The code of a rule that links by the ISSN.
pub(crate) const RULE: &str =
    "EMIT l9, CONST r4 l2, TEXT r0 n6, UNDEF r0 8, EMPTY r4 6, EMIT l0, CONST r4 l7, PUT r0 u, HALT, FAIL";

/// What each instruction does, in code of version 1, and in code of version 2 too.
pub(crate) const EFFECTS: &[(&str, &str)] = &[
    ("HALT", "link "),
    ("FAIL", "no link"),
    ("EMIT l0, FAIL", "no link"),
    ("JUMP 2, FAIL, HALT", "link "),
    ("TEXT r0 n0, PUT r0 u, HALT", "link a%2F%C3%A9"),
    ("TEXT r0 n4, UNDEF r0 3, FAIL, HALT", "link "),
    ("LIST r0 n1, NOLIST r0 3, HALT, FAIL", "link "),
    ("LIST r0 n5, NOLIST r0 3, FAIL, HALT", "link "),
    ("CONST r0 l1, PUT r0 u, HALT", "link 12a"),
    ("CONST r15 l1, PUT r15 u, HALT", "link 12a"),
    (
        "CONST r0 l1, NUMBER r1 r0 4, LESS r1 r1 4, HALT, FAIL",
        "link ",
    ),
    ("CONST r0 l2, NUMBER r0 r0 3, FAIL, HALT", "link "),
    ("CONST r0 l4, NUMBER r0 r0 3, FAIL, HALT", "link "),
    (
        "CONST r1 l1, CONST r0 l2, NUMBER r1 r0 4, FAIL, PUT r1 u, HALT",
        "link 12a",
    ),
    ("TEXT r0 n2, UNDEF r0 3, FAIL, HALT", "link "),
    ("TEXT r0 n0, UNDEF r0 3, HALT, FAIL", "link "),
    ("CONST r0 l2, EMPTY r0 3, FAIL, HALT", "link "),
    ("CONST r0 l1, EMPTY r0 3, HALT, FAIL", "link "),
    ("LIST r0 n3, NOLIST r0 3, FAIL, HALT", "link "),
    (
        "CONST r0 l1, CONST r1 l1, DIFFER r0 r1 4, HALT, FAIL",
        "link ",
    ),
    (
        "CONST r0 l1, CONST r1 l2, DIFFER r0 r1 4, FAIL, HALT",
        "link ",
    ),
    (
        "CONST r0 l1, NUMBER r0 r0 6, CONST r1 l3, NUMBER r1 r1 6, LESS r1 r0 7, FAIL, FAIL, HALT",
        "link ",
    ),
    (
        "CONST r0 l1, NUMBER r0 r0 6, CONST r1 l3, NUMBER r1 r1 6, LESS r0 r1 6, HALT, FAIL",
        "link ",
    ),
    ("EMIT l0, EMIT l0, HALT", "link ,,"),
    ("TEXT r0 n0, PUT r0 ur, HALT", "link a/%C3%A9"),
    (
        "CONST r0 l5, PUT r0 ur, PUT r0 u, HALT",
        "link %41%42%2541%2542",
    ),
    ("TEXT r0 n0, CUT r0 2 u, HALT", "link a%2F"),
    ("TEXT r0 n0, CUT r0 3 ur, HALT", "link a/%C3%A9"),
    ("TEXT r0 n0, CUT r0 9999 u, HALT", "link a%2F%C3%A9"),
    (
        "CONST r0 l5, CUT r0 1 ur, EMIT l0, CUT r0 1 u, HALT",
        "link %41,%25",
    ),
    (LIST_CODE, "link red,green,blue"),
    (
        "LIST r0 n1, EACH r0 r0 4, PUT r0 u, NEXT, HALT",
        "link redgreenblue",
    ),
    (
        "CONST r1 l1, LIST r0 n3, EACH r1 r0 4, NEXT, PUT r1 u, HALT",
        "link 12a",
    ),
    (
        "LIST r0 n1, EACH r1 r0 3, NEXT, PUT r1 u, HALT",
        "link blue",
    ),
    ("LIST r0 n1, EACH r1 r0 9, PUT r1 u, HALT", "link red"),
    (
        "LIST r0 n1, EACH r1 r0 4, JUMP 3, NEXT, EACH r1 r0 7, PUT r1 u, NEXT, HALT",
        "link redgreenblue",
    ),
];

/// Instructions that branch both ways, in both versions too.
pub(crate) const BRANCHES: &[(&str, &str)] = &[
    (OPTIONAL, "link a%2F%C3%A9"),
    (RULE, "link http://e.org/1234-5678"),
    (
        "TEXT r0 n0, UNDEF r0 5, CUT r0 2 ur, CUT r0 3 u, PUT r0 ur, HALT",
        "link a/a%2F%C3%A9a/%C3%A9",
    ),
    (
        "JUMP 2, FAIL, CONST r0 l5, PUT r0 u, CUT r0 1 ur, HALT",
        "link %2541%2542%41",
    ),
    ("LIST r0 n1, NOLIST r0 3, EMIT l0, HALT", "link ,"),
    (
        "CONST r0 l1, CONST r1 l5, DIFFER r0 r1 4, EMIT l0, DIFFER r0 r0 6, EMIT l8, HALT",
        "link ;",
    ),
    // 7 is below 12, and neither 12 below 7 nor 12 below 12.
    (
        "CONST r0 l1, CONST r1 l3, NUMBER r0 r0 9, NUMBER r1 r1 9, LESS r1 r0 6, EMIT l8, LESS r0 r1 9, LESS r0 r0 9, \
         EMIT l0, HALT",
        "link ,",
    ),
    // No number.
    ("CONST r0 l5, NUMBER r1 r0 3, EMIT l0, HALT", "link "),
    (
        "CONST r0 l2, EMPTY r0 3, EMIT l0, CONST r1 l5, EMPTY r1 6, EMIT l8, HALT",
        "link ;",
    ),
    (
        "LIST r0 n1, CONST r3 l1, EACH r1 r0 9, SEP l0, PUT r1 u, DIFFER r1 r3 7, EMIT l8, CONST r1 l5, NEXT, HALT",
        "link red,green,blue",
    ),
];

/// Code of version 1 that gets stuck, and the place.
pub(crate) const STUCK: &[(&str, &str)] = &[
    ("? 0 0 0 0 0", "stuck at 0"),
    ("? 19 1 2 3 4", "stuck at 0"),
    ("? 1 1 0 0 0", "stuck at 0"),
    ("? 2 0 0 0 1", "stuck at 0"),
    ("? 3 0 1 0 1, HALT", "stuck at 0"),
    ("JUMP 0, HALT", "stuck at 0"),
    ("JUMP 2, HALT", "stuck at 0"),
    ("EMIT l0", "stuck at 0"),
    ("TEXT r0 n1, HALT", "stuck at 0"),
    ("TEXT r0 n7, HALT", "stuck at 0"),
    ("TEXT r16 n0, HALT", "stuck at 0"),
    ("LIST r0 n0, HALT", "stuck at 0"),
    ("CONST r0 l0, HALT", "stuck at 0"),
    ("CONST r0 l10, HALT", "stuck at 0"),
    ("TEXT r0 n2, NUMBER r1 r0 3, HALT, HALT", "stuck at 1"),
    ("CONST r0 l1, NUMBER r1 r16 3, HALT, HALT", "stuck at 1"),
    ("CONST r0 l2, NUMBER r1 r0 1, HALT", "stuck at 1"),
    ("UNDEF r0 2, HALT, HALT", "stuck at 0"),
    ("LIST r0 n1, EMPTY r0 3, HALT, HALT", "stuck at 1"),
    ("CONST r0 l1, EMPTY r0 99, HALT", "link "),
    ("CONST r0 l2, EMPTY r0 99, HALT", "stuck at 1"),
    ("CONST r0 l1, NOLIST r0 3, HALT, HALT", "stuck at 1"),
    ("CONST r0 l1, DIFFER r0 r1 3, HALT, HALT", "stuck at 1"),
    ("CONST r0 l1, LESS r0 r0 3, HALT, HALT", "stuck at 1"),
    ("EMIT l1, HALT", "stuck at 0"),
    ("PUT r0 u, HALT", "stuck at 0"),
    ("CONST r0 l1, PUT r0 2, HALT", "stuck at 1"),
    ("TEXT r0 n2, CUT r0 1 u, HALT", "stuck at 1"),
    ("CONST r0 l1, CUT r0 0 u, HALT", "stuck at 1"),
    ("CONST r0 l1, CUT r0 10000 u, HALT", "stuck at 1"),
    ("CONST r0 l1, EACH r1 r0 3, NEXT, HALT", "stuck at 1"),
    ("LIST r0 n1, EACH r1 r0 2, HALT", "stuck at 1"),
    ("LIST r0 n3, EACH r1 r0 9, PUT r1 u, HALT", "stuck at 1"),
    (
        "LIST r0 n1, EACH r1 r0 4, EACH r2 r0 4, NEXT, HALT",
        "stuck at 2",
    ),
    (
        "LIST r0 n1, EACH r1 r0 5, JUMP 5, PUT r1 u, NEXT, HALT",
        "stuck at 2",
    ),
    ("SEP l0, HALT", "stuck at 0"),
    ("NEXT, HALT", "stuck at 0"),
    (
        "LIST r0 n1, EACH r1 r0 5, NEXT, PUT r1 u, NEXT, HALT",
        "stuck at 2",
    ),
    (
        "JUMP 3, EACH r1 r0 5, SEP l0, PUT r1 u, NEXT, HALT",
        "stuck at 3",
    ),
    (
        "JUMP 6, EACH r1 r0 5, SEP l0, PUT r1 u, NEXT, HALT",
        "stuck at 0",
    ),
    (
        "LIST r0 n1, EACH r1 r0 5, SEP l0, PUT r1 u, NEXT, EMIT l0",
        "stuck at 5",
    ),
];

/// What only code of version 2 has: 64 registers, and COUNT.
pub(crate) const SECOND: &[(&str, &str)] = &[
    (
        "LIST r0 n1, COUNT r1 r0, COUNT r63 r0, LESS r1 r63 5, HALT, FAIL",
        "link ",
    ),
    // The list has exactly the number of members that the text of l6 says.
    (
        "LIST r0 n1, COUNT r1 r0, CONST r2 l6, NUMBER r3 r2 7, LESS r1 r3 7, LESS r3 r1 7, HALT, FAIL",
        "link ",
    ),
    (
        "LIST r0 n3, COUNT r1 r0, CONST r2 l7, NUMBER r3 r2 6, LESS r1 r3 6, FAIL, HALT",
        "link ",
    ),
    (
        "LIST r0 n1, COUNT r1 r0, CONST r2 l1, NUMBER r2 r2 6, LESS r1 r2 6, EMIT l0, HALT",
        "link ",
    ),
    ("LIST r0 n1, COUNT r0 r0, LESS r0 r0 3, HALT", "link "),
    ("CONST r63 l1, PUT r63 u, HALT", "link 12a"),
    ("TEXT r0 n0, COUNT r1 r0, HALT", "stuck at 1"),
    ("COUNT r1 r0, HALT", "stuck at 0"),
    ("LIST r0 n1, COUNT r64 r0, HALT", "stuck at 1"),
    ("LIST r0 n1, COUNT r1 r64, HALT", "stuck at 1"),
    ("CONST r64 l1, HALT", "stuck at 0"),
    ("? 19 1 0 1 0, HALT", "stuck at 0"),
    ("? 19 1 0 0 1, HALT", "stuck at 0"),
    ("? 20 0 0 0 0, HALT", "stuck at 0"),
    (LIST_CODE, "link red,green,blue"),
];

/// The same in code of version 1.
pub(crate) const FIRST: &[(&str, &str)] = &[
    (
        "LIST r0 n1, COUNT r1 r0, COUNT r63 r0, LESS r1 r63 5, HALT, FAIL",
        "stuck at 1",
    ),
    ("CONST r16 l1, HALT", "stuck at 0"),
];
