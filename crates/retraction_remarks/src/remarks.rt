//! Titles without remarks.

ghost use Rattle.std.specs.Prelude.{◌≡◌};
ghost use Rattle.std.specs.Option.{option_copied};
ghost use Rattle.retraction_remarks.specs.Parts.{after_parts};
ghost use Rattle.retraction_remarks.specs.Remarks.{in_brackets, translated, plain, without_bracket};
ghost use Rattle.retraction_remarks.specs.Titles as spec;

use crate::ends::{End, before_end};
use crate::parts::{Part, after_parts};
use uri_text::begins_in_any_case;

/// A form of remarks.
#[derive(Clone, Copy)]
enum Form {
    /// In brackets before a title.
    InBrackets,
    /// Before a translated title, in its brackets.
    Translated,
    /// Before a title.
    Plain,
    /// After a title.
    After,
}

/// What is after a remark in brackets.
#[tactic(auto, unfolding(crate::specs::Remarks::in_brackets))]
fn after_brackets(title: &[u8]) -> Option<&[u8]>
    ensures { option_copied result ≡ after_parts in_brackets title.now }
{
    let parts = [
        Part::Spaces,
        Part::Opening,
        Part::Space,
        Part::Sentence,
        Part::Word,
        Part::Work,
        Part::Space,
        Part::Closing,
        Part::Stop,
        Part::Spaces,
    ];
    after_parts(&parts, title)
}

/// What is after the beginning of a translated title with a remark.
#[tactic(auto, unfolding(crate::specs::Remarks::translated))]
fn after_translated(title: &[u8]) -> Option<&[u8]>
    ensures { option_copied result ≡ after_parts translated title.now }
{
    let parts = [
        Part::Spaces,
        Part::Bracket,
        Part::Word,
        Part::Work,
        Part::Space,
        Part::Mark,
        Part::Spaces,
    ];
    after_parts(&parts, title)
}

/// What is after a remark without brackets.
#[tactic(auto, unfolding(crate::specs::Remarks::plain))]
fn after_plain(title: &[u8]) -> Option<&[u8]>
    ensures { option_copied result ≡ after_parts plain title.now }
{
    let parts = [
        Part::Spaces,
        Part::Word,
        Part::Work,
        Part::Space,
        Part::Mark,
        Part::Spaces,
    ];
    after_parts(&parts, title)
}

/// A translated title without the bracket at its end.
fn without_bracket(title: &[u8]) -> &[u8]
    ensures { result.now ≡ without_bracket title.now }
{
    before_end(End::AtBracket, title).unwrap_or(title)
}

/// What is left of a title without a remark of this form.
#[tactic(auto, unfolding(crate::specs::Titles::left))]
fn left(form: Form, title: &[u8]) -> Option<&[u8]>
    ensures { option_copied result ≡ spec.left form title.now }
{
    match form {
        Form::InBrackets => after_brackets(title),
        Form::Translated => match after_translated(title) {
            Some(rest) => Some(without_bracket(rest)),
            None => None,
        },
        Form::Plain => after_plain(title),
        Form::After => before_end(End::AtRemark, title),
    }
}

fn is_blank(text: &[u8]) -> bool
    ensures { result ≡ spec.is_blank text.now }
{
    for byte in text {
        if *byte > b' ' {
            return false;
        }
    }
    true
}

/// The same, unless it is blank.
fn filled_left(form: Form, title: &[u8]) -> Option<&[u8]>
    ensures { option_copied result ≡ spec.filled (spec.left form title.now) }
{
    let rest = left(form, title)?;
    if is_blank(rest) { None } else { Some(rest) }
}

/// By the first of these forms that leaves something.
#[tactic(auto, using(crate::proofs::Forms::form_steps))]
fn first_left<'a>(forms: &[Form], title: &'a [u8]) -> Option<&'a [u8]>
    ensures { option_copied result ≡ spec.first_left forms.now title.now }
{
    for form in forms {
        if let Some(rest) = filled_left(*form, title) {
            return Some(rest);
        }
    }
    None
}

/// Whether the word of each remark is in the title, in capital or small letters.
fn has_word(title: &[u8]) -> bool
    ensures { result ≡ spec.has_word title.now }
{
    let mut rest = title;
    while let [_, after @ ..] = rest {
        if begins_in_any_case(rest, b"retracted") {
            return true;
        }
        rest = after;
    }
    false
}

/// What is left of a title without one remark, if there is one and something else.
#[tactic(auto, unfolding(crate::specs::Titles::without_one))]
fn without_one(title: &[u8]) -> Option<&[u8]>
    ensures { option_copied result ≡ spec.without_one title.now }
{
    if !has_word(title) {
        return None;
    }
    let forms = [Form::InBrackets, Form::Translated, Form::Plain, Form::After];
    first_left(&forms, title)
}

/// The title without the remarks before and after it that it was retracted.
///
/// It may have any bytes, and so may the result, which is a part of it.
#[tactic(auto, using(crate::proofs::Fixpoint::title_steps))]
pub fn without_remarks(title: &[u8]) -> &[u8]
    ensures { result.now ≡ spec.without_remarks title.now }
{
    let mut rest = title;
    while let Some(shorter) = without_one(rest) {
        rest = shorter;
    }
    rest
}
