//! The reference in a text.

ghost use Rattle.std.specs.Prelude.{◌≡◌, IfOk, IfSome};
ghost use Rattle.std.specs.Option.{option_copied, option_map};
ghost use Rattle.std.specs.Str.{IsUtf8};
ghost use Rattle.journal_references.specs.References as spec;

use crate::pieces::has_digit;
use crate::places::{Place, first_place};
use std::alloc::{AllocError, Global};
use std::marker::Model;
use uri_text::Text;

/// How many bytes a text has at most.
const MOST_BYTES: usize = 500;

/// The name of a journal, and what a text says of an article in it, each part as it is written there.
#[derive(Drop)]
pub struct Reference {
    /// What is before the other parts, without punctuation at its end. It may be empty.
    pub name: Text,
    /// The number of the volume.
    pub volume: Option<Text>,
    /// The number of the issue, or of a supplement.
    pub issue: Option<Text>,
    /// A page or a range of pages, or the number of an article.
    pub pages: Option<Text>,
    /// The year.
    pub year: Option<Text>,
}

impl Model for Reference {
    ghost use Rattle.journal_references.specs.References.{Reference};

    ghost Value = { Reference };

    ghost view = { λ r. record { name = r.name; volume = r.volume; issue = r.issue; pages = r.pages; year = r.year } };
}

/// The first reference in a text; `None` if it has none, or more than 500 bytes.
///
/// `AllocError` if an allocation failed.
pub fn reference_in(alloc: Global, text: &str) -> Result<Option<Reference>, AllocError>
    ensures { IfOk result (λ found. found ≡ spec.reference_in text.now) }
{
    let bytes = text.as_bytes();
    if bytes.len() > MOST_BYTES || !has_digit(bytes) {
        return Ok(None);
    }
    match first_place(bytes) {
        Some(place) => Ok(Some(reference_of(alloc, place)?)),
        None => Ok(None),
    }
}

fn reference_of(alloc: Global, place: Place) -> Result<Reference, AllocError>
    requires name { IsUtf8 (spec.place_of place).name }
    requires pieces { spec.EachPiece IsUtf8 (spec.place_of place) }
    ensures { IfOk result (λ found. found ≡ spec.place_of place.entry) }
{
    let name = text_of(alloc, place.name)?;
    let volume = some_text(alloc, place.found.volume)?;
    let issue = some_text(alloc, place.found.issue)?;
    let pages = some_text(alloc, place.found.pages)?;
    let year = some_text(alloc, place.found.year)?;
    Ok(Reference {
        name,
        volume,
        issue,
        pages,
        year,
    })
}

fn some_text(alloc: Global, piece: Option<&[u8]>) -> Result<Option<Text>, AllocError>
    requires { IfSome (option_copied piece) (λ bytes. IsUtf8 bytes) }
    ensures { IfOk result (λ text. text ≡ option_copied piece.entry) }
{
    match piece {
        Some(bytes) => Ok(Some(text_of(alloc, bytes)?)),
        None => Ok(None),
    }
}

fn text_of(alloc: Global, bytes: &[u8]) -> Result<Text, AllocError>
    requires { IsUtf8 bytes.now }
    ensures { IfOk result (λ text. text ≡ bytes.now) }
{
    let text = String::from_utf8_lossy(alloc, bytes)?;
    Ok(Text::new(text))
}
