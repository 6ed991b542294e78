//! Titles and names as sources write them.

use std::alloc::Global;
use std::test::Fail;
use written_texts::{Role, read};

/// A text, and what it should be read as.
type Case = (&'static str, &'static str);

/// The first text that is read as something else.
fn first_other(alloc: Global, role: Role, cases: &[Case]) -> Result<Option<&'static str>, Fail> {
    for (text, expected) in cases {
        let found = read(alloc, role, text)?;
        if found.as_str() != *expected {
            return Ok(Some(*text));
        }
    }
    Ok(None)
}

const ENCODED: [Case; 14] = [
    ("Caf%C3%A9", "Café"),
    ("Caf%E9", "Café"),
    ("The+Art+of+Fugue", "The Art of Fugue"),
    (
        "Storm%20surges%20in%20the%20delta",
        "Storm surges in the delta",
    ),
    ("G%C3%B6del%2C+Escher%2C+Bach", "Gödel, Escher, Bach"),
    ("C%2B%2B+Primer", "C++ Primer"),
    ("C++", "C++"),
    ("Black+White", "Black+White"),
    ("Na+/K+-ATPase", "Na+/K+-ATPase"),
    ("1+2+3", "1+2+3"),
    ("100% sure", "100% sure"),
    ("100%", "100%"),
    ("100%25 of silt", "100%25 of silt"),
    ("Caf%25C3%25A9", "Caf%25C3%25A9"),
];

#[test]
fn encoded_texts_are_decoded(rt: HostRuntime) -> Result<(), Fail> {
    assert_eq!(rt; first_other(rt.alloc(), Role::Title, &ENCODED)?, None);
    assert_eq!(rt; first_other(rt.alloc(), Role::Other, &ENCODED)?, None);
    Ok(())
}

const TITLES: [Case; 9] = [
    ("<i>Hamlet</i> &amp; other plays", "Hamlet & other plays"),
    ("p &lt; 0.05", "p < 0.05"),
    ("%3Ci%3EZostera%3C%2Fi%3E", "Zostera"),
    ("  Silt   and  sand ", "Silt and sand"),
    ("<i></i>", "<i></i>"),
    ("RETRACTED: A study", "A study"),
    ("RETRACTED%3A+A+study", "A study"),
    ("RETRACTED: <i>Silt</i>", "Silt"),
    ("Retraction of: A study", "Retraction of: A study"),
];

#[test]
fn titles_lose_markup_and_remarks(rt: HostRuntime) -> Result<(), Fail> {
    assert_eq!(rt; first_other(rt.alloc(), Role::Title, &TITLES)?, None);
    Ok(())
}

const NAMES: [Case; 8] = [
    ("G{\\\"o}del", "Gödel"),
    ("Erd{\\H{o}}s", "Erdős"),
    ("O\\'Neill", "O'Neill"),
    ("Mu&ntilde;oz", "Muñoz"),
    ("M%C3%BCller%2C+Hans", "Müller, Hans"),
    ("{\\'E}mile", "Émile"),
    ("101%2D118", "101-118"),
    ("RETRACTED: A study", "RETRACTED: A study"),
];

#[test]
fn names_lose_commands(rt: HostRuntime) -> Result<(), Fail> {
    assert_eq!(rt; first_other(rt.alloc(), Role::Other, &NAMES)?, None);
    Ok(())
}
