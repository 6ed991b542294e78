//! The parts of remarks.

ghost use Rattle.std.specs.Prelude.{◌≡◌};
ghost use Rattle.std.specs.Option.{option_copied};
ghost use Rattle.text_model.specs.Texts.{texts_of};
ghost use Rattle.retraction_remarks.specs.Parts as spec;

use uri_text::begins_in_any_case;

/// A part of a remark.
#[derive(Clone, Copy)]
pub(crate) enum Part {
    /// Up to three spaces.
    Spaces,
    /// One space, or none.
    Space,
    /// A space, which has to be there.
    Gap,
    /// What a remark in brackets begins with.
    Opening,
    /// The bracket before a translated title.
    Bracket,
    /// The beginning of a sentence, or nothing.
    Sentence,
    /// The word itself.
    Word,
    /// What was retracted, or nothing.
    Work,
    /// What a remark in brackets ends with.
    Closing,
    /// Punctuation between a closing bracket and a title, or none.
    Stop,
    /// Punctuation between a remark without brackets and a title.
    Mark,
    /// Punctuation after a title, or before a note.
    Separator,
    /// A word that a note begins with.
    Preposition,
    /// What was retracted, at the end of a title, or nothing.
    Label,
}

impl Part {
    /// The texts that the part may be, of which the first one counts.
    #[tactic(auto, unfolding(crate::specs::Parts::texts))]
    fn texts(self) -> &'static [&'static str]
        ensures { texts_of result.now ≡ spec.texts self }
    {
        match self {
            Part::Spaces => &["   ", "  ", " ", ""],
            Part::Space => &[" ", ""],
            Part::Gap => &[" "],
            Part::Opening => &["[", "(", "*"],
            Part::Bracket => &["["],
            Part::Sentence => &[
                "this article has been ",
                "this article was ",
                "this article is ",
                "this paper has been ",
                "this paper was ",
                "this paper is ",
                "",
            ],
            Part::Word => &["retracted"],
            Part::Work => &[
                " article",
                " paper",
                " chapter",
                " publication",
                " study",
                " version",
                " manuscript",
                " conference paper",
                " book",
                "",
            ],
            Part::Closing => &["]", ")", "*"],
            Part::Stop => &[":", ".", ",", ""],
            Part::Mark => &[":", "- ", "\u{2013} ", "\u{2014} "],
            Part::Separator => &[".", ",", ";", ":", "-", "\u{2013}", "\u{2014}"],
            Part::Preposition => &[" see ", " in ", " on ", " by ", " due "],
            Part::Label => &[" article", " paper", ""],
        }
    }
}

/// What is after the first of these beginnings that the text has.
fn after_any<'a>(beginnings: &[&str], text: &'a [u8]) -> Option<&'a [u8]>
    ensures { option_copied result ≡ spec.after_any (texts_of beginnings.now) text.now }
{
    for beginning in beginnings {
        let beginning = beginning.as_bytes();
        if begins_in_any_case(text, beginning) {
            return Some(text.split_at(beginning.len()).1);
        }
    }
    None
}

/// What is after these parts with which the text begins.
pub(crate) fn after_parts<'a>(parts: &[Part], text: &'a [u8]) -> Option<&'a [u8]>
    ensures { option_copied result ≡ spec.after_parts parts.now text.now }
{
    let mut rest = text;
    for part in parts {
        rest = after_any(part.texts(), rest)?;
    }
    Some(rest)
}
