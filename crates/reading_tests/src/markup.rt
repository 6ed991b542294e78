//! Markup in titles and names: tags, character references and spaces.

use std::alloc::Global;
use std::test::Fail;
use title_markup::{plain_title, with_single_spaces, without_markup};

/// The first title of which something else is left.
fn first_other(
    alloc: Global,
    cases: &[(&'static str, &'static str)],
) -> Result<Option<&'static str>, Fail> {
    for (title, left) in cases {
        let text = without_markup(alloc, title.as_bytes())?;
        if text.as_slice() != left.as_bytes() {
            return Ok(Some(*title));
        }
    }
    Ok(None)
}

/// As HTML, JATS and MathML have them.
const TAGS: [(&str, &str); 18] = [
    ("The <i>Zostera</i> in H<sub>2</sub>O", "The Zostera in H2O"),
    ("<b>Li</b>", "Li"),
    ("<B>Li</B>", "Li"),
    ("Silt<br/>and sand", "Siltand sand"),
    ("Silt<br /> and sand", "Silt and sand"),
    ("<jats:title>Silt</jats:title>", "Silt"),
    ("<jats:p xml:lang=\"en\">Silt</jats:p>", "Silt"),
    ("<h1>Silt</h1>", "Silt"),
    ("<inline-formula>x</inline-formula>", "x"),
    ("<mml:math><mml:mi>x</mml:mi></mml:math>", "x"),
    (
        "<span class=\"small-caps\" lang=\"la\">Zostera</span> beds",
        "Zostera beds",
    ),
    ("<a href=\"https://example.org/a/b?c=d#e\">Silt</a>", "Silt"),
    ("<img src=\"/silt.png\" />Silt", "Silt"),
    ("Caf\u{e9}<sup>\u{e9}</sup>s", "Caf\u{e9}\u{e9}s"),
    ("<i><b>Silt</b></i>", "Silt"),
    ("<s<i>up>Silt</s</i>up>", "Silt"),
    ("<i>Silt", "Silt"),
    ("Silt</i>", "Silt"),
];

#[test]
fn tags_go(rt: HostRuntime) -> Result<(), Fail> {
    assert_eq!(rt; first_other(rt.alloc(), &TAGS)?, None);
    Ok(())
}

/// Signs and places that are no tags, and titles of tags alone.
const OTHERS: [&str; 24] = [
    "",
    " ",
    "Silt",
    "Caf\u{e9}",
    "p < 0.05",
    "p<0.05 and q>3 & so",
    "a < b > c",
    "a <b and c",
    "a b> c",
    "<>",
    "</>",
    "<1>",
    "<-i>",
    "<:i>",
    "< i>",
    "</ i>",
    "<i\t>",
    "<i_>",
    "<i/ >",
    "<i//>",
    "<i\u{e9}>",
    "<!-- silt -->",
    "<i></i>",
    " <br/> ",
];

#[test]
fn other_titles_stay(rt: HostRuntime) -> Result<(), Fail> {
    for title in OTHERS {
        let text = without_markup(rt.alloc(), title.as_bytes())?;
        assert!(rt; text.as_slice() == title.as_bytes(), "{title}");
    }
    Ok(())
}

/// A tag with that many bytes between its beginning and its end, before a title.
fn tagged(alloc: Global, first: &str, count: usize, last: &str) -> Result<String, Fail> {
    let mut title = String::from_str(alloc, first)?;
    for _ in 0..count {
        title.push_str("x")?;
    }
    title.push_str(last)?;
    title.push_str("Silt")?;
    Ok(title)
}

#[test]
fn tags_have_limits(rt: HostRuntime) -> Result<(), Fail> {
    let cases = [
        ("<", 20, ">", true),
        ("<", 21, ">", false),
        ("</", 20, "/>", true),
        ("</", 21, "/>", false),
        ("<i ", 200, ">", true),
        ("<i ", 201, ">", false),
        ("</abcdefghijklmnopqrst ", 199, "/>", true),
        ("</abcdefghijklmnopqrst ", 200, "/>", false),
    ];
    for (first, count, last, goes) in cases {
        let title = tagged(rt.alloc(), first, count, last)?;
        let text = without_markup(rt.alloc(), title.as_str().as_bytes())?;
        assert_eq!(rt; text.as_slice() == b"Silt".as_slice(), goes);
    }
    Ok(())
}

#[test]
fn bytes_that_are_no_text_stay(rt: HostRuntime) -> Result<(), Fail> {
    let text = without_markup(rt.alloc(), b"<i>\xff\xc3</i>\x00")?;
    assert!(rt; text.as_slice() == b"\xff\xc3\x00".as_slice());
    Ok(())
}

/// Named by HTML 4.01 and XML 1.0, or by numbers.
const REFERENCES: [(&str, &str); 30] = [
    ("R&amp;D &lt; caf&eacute;", "R&D < caf\u{e9}"),
    ("O&#39;Neill", "O'Neill"),
    ("O&apos;Neill", "O'Neill"),
    ("&quot;Silt&quot;", "\"Silt\""),
    ("Caf&#233;s", "Caf\u{e9}s"),
    ("Caf&#xe9;s", "Caf\u{e9}s"),
    ("Caf&#XE9;s", "Caf\u{e9}s"),
    ("Caf&#x0000E9;s", "Caf\u{e9}s"),
    ("Caf&#0000233;s", "Caf\u{e9}s"),
    ("Caf&Eacute;s", "Caf\u{c9}s"),
    ("&frac12; Silt", "\u{bd} Silt"),
    ("&thetasym;", "\u{3d1}"),
    ("&alpha;&Omega;&piv;", "\u{3b1}\u{3a9}\u{3d6}"),
    ("Silt&nbsp;bed", "Silt\u{a0}bed"),
    ("&yuml;&THORN;", "\u{ff}\u{de}"),
    ("Silt &ndash; sand", "Silt \u{2013} sand"),
    ("Silt&hellip;", "Silt\u{2026}"),
    ("&euro;&trade;&OElig;", "\u{20ac}\u{2122}\u{152}"),
    ("&spades;&diams;", "\u{2660}\u{2666}"),
    ("AT&AMP;T &LT; &GT;", "AT&T < >"),
    ("&#x1D6FC;-helix", "\u{1d6fc}-helix"),
    ("&#x10FFFF;", "\u{10ffff}"),
    ("&#65;&#x42;", "AB"),
    ("&amp;amp;", "&"),
    ("&amp;lt;i&amp;gt;Silt&amp;lt;/i&amp;gt;", "Silt"),
    ("&lt;i&gt;Zostera&lt;/i&gt;", "Zostera"),
    ("&#38;#233;", "\u{e9}"),
    ("<i title=\"&lt;\">Silt</i>", "<i title=\"<\">Silt"),
    ("&am<i>p;", "&"),
    ("p &lt; 0.05 &gt; q", "p < 0.05 > q"),
];

#[test]
fn references_become_characters(rt: HostRuntime) -> Result<(), Fail> {
    assert_eq!(rt; first_other(rt.alloc(), &REFERENCES)?, None);
    Ok(())
}

const NO_REFERENCES: [&str; 19] = [
    "R & D",
    "R&D",
    "a && b;",
    "&;",
    "&#;",
    "&#x;",
    "&a;",
    "&abcdefghi;",
    "&silt;",
    "&eacute",
    "&Aacutes;",
    "&frac123;",
    "&#xg;",
    "&#1a;",
    "&#00000233;",
    "&#x00000E9;",
    "&#0;",
    "&#xD800;",
    "&#x110000;",
];

#[test]
fn other_references_stay(rt: HostRuntime) -> Result<(), Fail> {
    for title in NO_REFERENCES {
        let text = without_markup(rt.alloc(), title.as_bytes())?;
        assert!(rt; text.as_slice() == title.as_bytes(), "{title}");
    }
    Ok(())
}

const SPACED: [(&str, &str); 10] = [
    ("Silt", "Silt"),
    ("Silt and sand", "Silt and sand"),
    ("  Silt", "Silt"),
    ("Silt  ", "Silt"),
    ("Silt \t and\r\nsand", "Silt and sand"),
    ("\u{7f}Silt\u{1}sand", "Silt sand"),
    ("Caf\u{e9}  \u{e9}", "Caf\u{e9} \u{e9}"),
    ("", ""),
    ("  ", "  "),
    (" a ", "a"),
];

#[test]
fn spaces_become_single(rt: HostRuntime) -> Result<(), Fail> {
    for (title, left) in SPACED {
        let text = with_single_spaces(rt.alloc(), title.as_bytes())?;
        assert!(rt; text.as_slice() == left.as_bytes(), "{title}");
    }
    Ok(())
}

/// What sources send, read in both ways.
const PLAIN: [(&str, &str); 9] = [
    ("Silt <br/> and <i> sand</i>", "Silt and sand"),
    ("<title>\n  Silt\n</title>", "Silt"),
    ("Silt &#32; &#9;and sand", "Silt and sand"),
    ("R&amp;D  &lt;b&gt;Annals&lt;/b&gt; ", "R&D Annals"),
    ("<p> </p>", "<p> </p>"),
    ("  <p></p>  ", "<p></p>"),
    ("p < 0.05  &  q", "p < 0.05 & q"),
    ("<a\tb>", "<a b>"),
    ("", ""),
];

#[test]
fn titles_become_plain(rt: HostRuntime) -> Result<(), Fail> {
    for (title, left) in PLAIN {
        let text = plain_title(rt.alloc(), title.as_bytes())?;
        assert!(rt; text.as_slice() == left.as_bytes(), "{title}");
    }
    Ok(())
}
