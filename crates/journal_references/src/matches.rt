//! What of a text matches parts of forms.

ghost use Rattle.std.specs.Prelude.{◌≡◌};
ghost use Rattle.std.specs.Option.{option_map};
ghost use Rattle.journal_references.specs.Parts as spec;

use crate::parts::{Part, part_length};
use crate::pieces::Piece;

/// The pieces that are read, and what is left of the text.
#[derive(Clone, Copy)]
pub(crate) struct Match<'a> {
    pub(crate) volume: Option<&'a [u8]>,
    pub(crate) issue: Option<&'a [u8]>,
    pub(crate) pages: Option<&'a [u8]>,
    pub(crate) year: Option<&'a [u8]>,
    pub(crate) rest: &'a [u8],
}

/// Nothing is read yet.
pub(crate) fn unread(text: &[u8]) -> Match<'_>
    ensures { spec.match_of result ≡ spec.unread text.now }
{
    Match {
        volume: None,
        issue: None,
        pages: None,
        year: None,
        rest: text,
    }
}

/// The same with a piece and this rest.
fn with_piece<'a>(piece: Piece, text: &'a [u8], rest: &'a [u8], found: Match<'a>) -> Match<'a>
    ensures { spec.match_of result ≡ spec.with_piece piece text.now rest.now (spec.match_of found.entry) }
{
    let found = Match { rest, ..found };
    match piece {
        Piece::Volume | Piece::Plain => Match {
            volume: Some(text),
            ..found
        },
        Piece::Issue | Piece::PlainIssue | Piece::Inner => Match {
            issue: Some(text),
            ..found
        },
        Piece::Pages => Match {
            pages: Some(text),
            ..found
        },
        Piece::Year => Match {
            year: Some(text),
            ..found
        },
        Piece::Days => found,
    }
}

/// The same after one part more, if the text has it.
fn match_part<'a>(part: Part, found: Match<'a>) -> Option<Match<'a>>
    ensures { option_map spec.match_of result ≡ spec.match_part part (spec.match_of found.entry) }
{
    let count = part_length(part, found.rest)?;
    let (text, rest) = found.rest.split_at(count);
    match part {
        Part::Read(piece) => Some(with_piece(piece, text, rest, found)),
        _ => Some(Match { rest, ..found }),
    }
}

/// The same after these parts, if the text has them.
pub(crate) fn match_parts<'a>(parts: &[Part], found: Match<'a>) -> Option<Match<'a>>
    ensures { option_map spec.match_of result ≡ spec.match_parts parts.now (spec.match_of found.entry) }
{
    let mut found = found;
    for part in parts {
        found = match_part(*part, found)?;
    }
    Some(found)
}
