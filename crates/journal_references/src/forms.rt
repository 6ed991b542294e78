//! The forms of references.

ghost use Rattle.std.specs.Prelude.{◌≡◌};
ghost use Rattle.std.specs.Option.{option_map};
ghost use Rattle.journal_references.specs.Forms as spec;
ghost use Rattle.journal_references.specs.Parts.{match_of, unread};

use crate::groups::Group::{self, *};
use crate::matches::{Match, match_parts, unread};

/// The forms, of which the first one counts that a text has.
fn forms() -> &'static [&'static [Group]]
    ensures { spec.forms_of result.now ≡ spec.forms }
{
    &[
        &[AnyVolume, InBrackets, YearInBrackets, AnyPages],
        &[AnyVolume, InBrackets, YearAfterComma, AnyPages],
        &[AnyVolume, InBrackets, AnyPages, YearInBrackets],
        &[AnyVolume, InBrackets, AnyPages, YearAfterComma],
        &[AnyVolume, InBrackets, YearAfterComma],
        &[AnyVolume, InBrackets, AnyPages],
        &[AnyVolume, InBrackets, YearInBrackets],
        &[AnyVolume, YearInBrackets, NamedIssue, AnyPages],
        &[AnyVolume, YearInBrackets, NamedIssue],
        &[AnyVolume, YearInBrackets, AnyPages],
        &[AnyVolume, NamedIssue, YearInBrackets, AnyPages],
        &[AnyVolume, NamedIssue, YearAfterComma, AnyPages],
        &[AnyVolume, NamedIssue, YearInBrackets, PagesAfterTitle],
        &[AnyVolume, NamedIssue, YearInBrackets],
        &[AnyVolume, NamedIssue, YearAfterComma],
        &[AnyVolume, NamedIssue, AnyPages, YearInBrackets],
        &[AnyVolume, NamedIssue, AnyPages, YearAfterComma],
        &[AnyVolume, NamedIssue, AnyPages],
        &[AnyVolume, NamedIssue],
        &[YearAndDays, AnyVolume, InBrackets, AnyPages],
        &[YearAndDays, AnyVolume, NamedIssue, AnyPages],
        &[YearAndDays, AnyVolume, NamedIssue],
        &[YearAndDays, PlainVolume, PointIssue, AnyPages],
        &[YearAndDays, AnyVolume, AnyPages],
        &[YearAndDays, AnyVolume, InBrackets],
        &[YearAndMark, AnyVolume, InBrackets, AnyPages],
        &[YearAndMark, AnyVolume, InBrackets],
        &[YearAndMark, AnyVolume, NamedIssue, AnyPages],
        &[YearAndMark, AnyVolume, NamedIssue],
        &[YearAndMark, NamedVolume, NamedPages],
        &[YearAndComma, PlainVolume, CommaIssue, CommaPages],
        &[YearAndComma, PlainVolume, CommaPages],
        &[PlainVolume, PointIssue, YearInBrackets, AnyPages],
        &[PlainVolume, CommaIssue, YearInBrackets, AnyPages],
        &[PlainVolume, CommaIssue, CommaPages, YearInBrackets],
        &[PlainVolume, CommaIssue, YearAfterComma, NamedPages],
        &[PlainVolume, CommaIssue, NamedPages, YearInBrackets],
        &[PlainVolume, CommaIssue, NamedPages, YearAfterComma],
        &[PlainVolume, CommaIssue, NamedPages],
        &[PlainVolume, CommaPages, YearInBrackets],
        &[PlainVolume, ColonPages, YearInBrackets],
        &[NamedVolume, YearAfterComma, NamedPages],
        &[NamedVolume, NamedPages, YearInBrackets],
        &[NamedVolume, NamedPages, YearAfterComma],
        &[NamedVolume, NamedPages],
        &[NamedVolume, InBrackets],
    ]
}

/// What matches after these groups.
fn match_groups<'a>(groups: &[Group], found: Match<'a>) -> Option<Match<'a>>
    ensures { option_map match_of result ≡ spec.match_groups groups.now (match_of found.entry) }
{
    let mut found = found;
    for group in groups {
        found = match_parts(group.parts(), found)?;
    }
    Some(found)
}

/// What matches by a form with which the text begins.
fn match_whole<'a>(form: &[Group], text: &'a [u8]) -> Option<Match<'a>>
    ensures { option_map match_of result ≡ spec.match_groups form.now (unread text.now) }
{
    match_groups(form, unread(text))
}

/// What matches by the first of these forms with which the text begins.
#[tactic(auto, using(crate::proofs::Steps::form_steps))]
fn first_match<'a>(forms: &[&[Group]], text: &'a [u8]) -> Option<Match<'a>>
    ensures { option_map match_of result ≡ spec.first_match (spec.forms_of forms.now) text.now }
{
    for form in forms {
        if let Some(found) = match_whole(form, text) {
            return Some(found);
        }
    }
    None
}

/// What matches at the beginning of the text.
pub(crate) fn match_form(text: &[u8]) -> Option<Match<'_>>
    ensures { option_map match_of result ≡ spec.match_form text.now }
{
    first_match(forms(), text)
}
