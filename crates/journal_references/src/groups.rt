//! Groups of parts, of which forms consist.

ghost use Rattle.std.specs.Prelude.{◌≡◌};
ghost use Rattle.journal_references.specs.Forms as spec;

use crate::parts::Part::{
    self, Closing, Date, Mark, Maybe, Month, Needed, NoDay, Read, Sign, Title,
};
use crate::pieces::Piece::{Days, Inner, Issue, Pages, Plain, PlainIssue, Volume, Year};
use crate::words::Word::{OfIssue, OfPages, OfVolume};

/// Parts that belong together.
#[derive(Clone, Copy)]
pub(crate) enum Group {
    /// `12`, `Vol. 12`.
    AnyVolume,
    /// `Vol. 12`.
    NamedVolume,
    /// The same as any volume, but no year.
    PlainVolume,
    /// `(3)`, `(no. 3)`.
    InBrackets,
    /// `, no. 3`.
    NamedIssue,
    /// `, 3`; no year.
    CommaIssue,
    /// `.3`.
    PointIssue,
    /// `(2012)`, `(Mar. 2012)`, `(5 March 2012)`, `, (2012 Mar 5)`.
    YearInBrackets,
    /// `, 2012`, `, Mar. 2012`.
    YearAfterComma,
    /// `2012;`, `2012 Mar 5;`, `5 March 2012;`.
    YearAndDays,
    /// `2012,`, `Mar. 2012,`.
    YearAndComma,
    /// The same, with another sign or none, or at the end of brackets.
    YearAndMark,
    /// `45-67`, `, 45-67`, `: 45-67`, `, pp. 45-67`.
    AnyPages,
    /// `, pp. 45-67`.
    NamedPages,
    /// `, 45-67`.
    CommaPages,
    /// `:45-67`.
    ColonPages,
    /// `: Silt; 45-67`, after the title of an issue.
    PagesAfterTitle,
}

impl Group {
    pub(crate) fn parts(self) -> &'static [Part]
        ensures { result.now ≡ spec.parts self }
    {
        match self {
            Group::AnyVolume => &[Maybe(OfVolume), Read(Volume)],
            Group::NamedVolume => &[Needed(OfVolume), Read(Volume)],
            Group::PlainVolume => &[Maybe(OfVolume), Read(Plain)],
            Group::InBrackets => &[Sign(b'('), Maybe(OfIssue), Read(Inner), Sign(b')')],
            Group::NamedIssue => &[Mark, Needed(OfIssue), Read(Issue)],
            Group::CommaIssue => &[Sign(b','), Read(PlainIssue)],
            Group::PointIssue => &[Sign(b'.'), Read(Issue)],
            Group::YearInBrackets => &[Mark, Sign(b'('), Month, Read(Year), Read(Days), Sign(b')')],
            Group::YearAfterComma => &[Sign(b','), Month, Read(Year)],
            Group::YearAndDays => &[Date, Read(Year), Read(Days), Sign(b';')],
            Group::YearAndComma => &[Date, Read(Year), Sign(b',')],
            Group::YearAndMark => &[Date, Read(Year), Mark, Date, Closing, Mark],
            Group::AnyPages => &[Mark, NoDay, Maybe(OfPages), Maybe(OfIssue), Read(Pages)],
            Group::NamedPages => &[Mark, Needed(OfPages), Maybe(OfIssue), Read(Pages)],
            Group::CommaPages => &[Sign(b','), NoDay, Maybe(OfPages), Read(Pages)],
            Group::ColonPages => &[Sign(b':'), Maybe(OfPages), Read(Pages)],
            Group::PagesAfterTitle => {
                &[
                    Sign(b':'),
                    Title,
                    Sign(b';'),
                    NoDay,
                    Maybe(OfPages),
                    Read(Pages),
                ]
            }
        }
    }
}
