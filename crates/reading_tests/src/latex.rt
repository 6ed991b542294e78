//! Commands of LaTeX and BibTeX in titles and names.

use latex_text::without_latex;
use std::alloc::Global;
use std::test::Fail;
use unicode_normalization::char::compose;

/// The first text of which something else is left.
fn first_other(
    alloc: Global,
    cases: &[(&'static str, &'static str)],
) -> Result<Option<&'static str>, Fail> {
    for (text, left) in cases {
        let read = without_latex(alloc, text.as_bytes())?;
        if read.as_slice() != left.as_bytes() {
            return Ok(Some(*text));
        }
    }
    Ok(None)
}

/// An accent, and the combining character of Unicode that it denotes.
const ACCENTS: [(&str, char); 15] = [
    ("\"", '\u{308}'),
    ("'", '\u{301}'),
    ("`", '\u{300}'),
    ("^", '\u{302}'),
    ("~", '\u{303}'),
    ("=", '\u{304}'),
    (".", '\u{307}'),
    ("c", '\u{327}'),
    ("v", '\u{30c}'),
    ("u", '\u{306}'),
    ("H", '\u{30b}'),
    ("k", '\u{328}'),
    ("r", '\u{30a}'),
    ("d", '\u{323}'),
    ("b", '\u{331}'),
];

/// A command for an accent on a letter in braces.
fn accented(alloc: Global, accent: &str, letter: char) -> Result<String, Fail> {
    let text = format!(in alloc; "x\\{accent}{{{letter}}}y")?;
    Ok(text)
}

/// What the command should be read as: the composed letter, if Unicode has one, and the command otherwise.
fn expected(alloc: Global, accent: &str, mark: char, letter: char) -> Result<String, Fail> {
    let text = match compose(letter, mark) {
        Some(composed) => format!(in alloc; "x{composed}y")?,
        None => accented(alloc, accent, letter)?,
    };
    Ok(text)
}

#[test]
fn accents_compose_as_in_unicode(rt: HostRuntime) -> Result<(), Fail> {
    for (accent, mark) in ACCENTS {
        for letter in ('A'..='Z').chain('a'..='z') {
            let text = accented(rt.alloc(), accent, letter)?;
            let read = without_latex(rt.alloc(), text.as_str().as_bytes())?;
            let left = expected(rt.alloc(), accent, mark, letter)?;
            assert!(rt; read.as_slice() == left.as_str().as_bytes(), "{text}");
        }
    }
    Ok(())
}

/// Letters that are no letter of ASCII with an accent, and those without a dot.
const LETTERS: [(&str, &str); 22] = [
    ("x\\ss{}y", "x\u{df}y"),
    ("x\\SS{}y", "x\u{1e9e}y"),
    ("x\\o{}y", "x\u{f8}y"),
    ("x\\O{}y", "x\u{d8}y"),
    ("x\\l{}y", "x\u{142}y"),
    ("x\\L{}y", "x\u{141}y"),
    ("x\\ae{}y", "x\u{e6}y"),
    ("x\\AE{}y", "x\u{c6}y"),
    ("x\\oe{}y", "x\u{153}y"),
    ("x\\OE{}y", "x\u{152}y"),
    ("x\\aa{}y", "x\u{e5}y"),
    ("x\\AA{}y", "x\u{c5}y"),
    ("x\\i{}y", "x\u{131}y"),
    ("x\\j{}y", "x\u{237}y"),
    ("x\\dh{}y", "x\u{f0}y"),
    ("x\\DH{}y", "x\u{d0}y"),
    ("x\\th{}y", "x\u{fe}y"),
    ("x\\TH{}y", "x\u{de}y"),
    ("x\\dj{}y", "x\u{111}y"),
    ("x\\DJ{}y", "x\u{110}y"),
    ("x\\ng{}y", "x\u{14b}y"),
    ("x\\NG{}y", "x\u{14a}y"),
];

#[test]
fn letters_have_names(rt: HostRuntime) -> Result<(), Fail> {
    assert_eq!(rt; first_other(rt.alloc(), &LETTERS)?, None);
    Ok(())
}

/// Names and titles as BibTeX files have them.
const TEXTS: [(&str, &str); 51] = [
    ("G{\\\"o}del", "G\u{f6}del"),
    ("G\\\"odel", "G\u{f6}del"),
    ("G\\\"{o}del", "G\u{f6}del"),
    ("G{\\\"{o}}del", "G\u{f6}del"),
    ("G\\\" odel", "G\u{f6}del"),
    ("G\\\" {o}del", "G\u{f6}del"),
    ("Poincar\\'{e}", "Poincar\u{e9}"),
    (
        "Stra{\\ss}e in \\O and S{\\o}r\\aa",
        "Stra\u{df}e in \u{d8}and S\u{f8}r\u{e5}",
    ),
    ("Fran\\c{c}ois", "Fran\u{e7}ois"),
    ("Fran\\c cois", "Fran\u{e7}ois"),
    ("{\\v S}koda", "\u{160}koda"),
    ("D\\'{\\i}az", "D\u{ed}az"),
    ("D{\\'\\i}az", "D\u{ed}az"),
    ("D\\'\\i az", "D\u{ed}az"),
    ("Ji\\v{r}{\\'\\i}", "Ji\u{159}\u{ed}"),
    ("\\v{\\j}", "\u{1f0}"),
    ("{{Erd{\\H{o}}s}}", "Erd\u{151}s"),
    ("The \\omega meson", "The \\omega meson"),
    ("The {\\omega} meson", "The {\\omega} meson"),
    ("The \\omega{} meson", "The \\omega{} meson"),
    ("Harbour \\& Coast", "Harbour & Coast"),
    ("50\\% of \\#1, a\\_b", "50% of #1, a_b"),
    ("\\$5 and \\$6", "$5 and $6"),
    ("\\$5 and \\alpha", "\\$5 and \\alpha"),
    ("\\emph{Zostera} and {\\it Ruppia}", "Zostera and Ruppia"),
    ("\\textit{Silt} \\textbf{12}", "Silt 12"),
    ("\\textsc{Silt}\\texttt{e}\\textsf{f}\\textup{g}", "Siltefg"),
    ("{\\bf 12}(3), {\\em Tides}", "12(3), Tides"),
    (
        "CO\\textsubscript{2} and x\\textsuperscript{n}",
        "CO2 and xn",
    ),
    ("\\emph{G{\\\"o}del {and} others}", "G\u{f6}del and others"),
    ("\\emph Silt", "\\emph Silt"),
    ("\\item", "\\item"),
    ("O\\'Neill", "O'Neill"),
    ("D\\'Arcy", "D'Arcy"),
    ("L. O\\'NEILL", "L. O'NEILL"),
    ("NOWO\\'SCI", "NOWO\u{15a}CI"),
    ("O\\'{S}WI", "O\u{15a}WI"),
    ("O\\'Brien", "O'Brien"),
    ("X\\'Brien", "X'Brien"),
    ("On $\\alpha_{n}$", "On $\\alpha_{n}$"),
    ("$\\tilde{o}$ by G\\\"odel", "$\\tilde{o}$ by G\u{f6}del"),
    ("$\\'{e}$ and \\'e", "$\\'{e}$ and \u{e9}"),
    ("{On $\\alpha_{n}$ {Decay}}", "On $\\alpha_{n}$ Decay"),
    ("$5 and \\'e", "$5 and \\'e"),
    ("a {b} {} c", "a b  c"),
    ("{a {b} c", "{a b c"),
    ("a} b", "a} b"),
    ("\\{a\\}", "\\{a\\}"),
    ("\\foo{bar}", "\\foo{bar}"),
    ("\\\\", "\\\\"),
    ("Caf\u{e9} {\\ss}", "Caf\u{e9} \u{df}"),
];

#[test]
fn texts_are_read(rt: HostRuntime) -> Result<(), Fail> {
    assert_eq!(rt; first_other(rt.alloc(), &TEXTS)?, None);
    Ok(())
}

/// Texts of which nothing is read, or nothing would be left.
const OTHERS: [&str; 14] = [
    "",
    " ",
    "Silt",
    "Caf\u{e9}",
    "a_b & c% #",
    "\\",
    "{",
    "{}",
    "{\\it }",
    "\\\"{q}",
    "\\c q",
    "\\'",
    "\\cc",
    "C:\\data",
];

#[test]
fn other_texts_stay(rt: HostRuntime) -> Result<(), Fail> {
    for text in OTHERS {
        let read = without_latex(rt.alloc(), text.as_bytes())?;
        assert!(rt; read.as_slice() == text.as_bytes(), "{text}");
    }
    Ok(())
}

#[test]
fn bytes_that_are_no_text_stay(rt: HostRuntime) -> Result<(), Fail> {
    let read = without_latex(rt.alloc(), b"{\xff\\ss\xc3}\x00")?;
    assert!(rt; read.as_slice() == b"\xff\xc3\x9f\xc3\x00".as_slice());
    Ok(())
}

#[test]
fn long_texts_stay(rt: HostRuntime) -> Result<(), Fail> {
    for (count, left) in [(1998, 1998), (1999, 2001)] {
        let mut text = String::from_str(rt.alloc(), "{")?;
        for _ in 0..count {
            text.push_str("x")?;
        }
        text.push_str("}")?;
        let read = without_latex(rt.alloc(), text.as_str().as_bytes())?;
        assert_eq!(rt; read.len(), left);
    }
    Ok(())
}
