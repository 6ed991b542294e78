//! Words that say which part of a reference is next.

ghost use Rattle.std.specs.Prelude.{◌≡◌, ◌≤◌, IfSome, length};
ghost use Rattle.std.specs.Str.{str_eq_ignore_ascii_case};
ghost use Rattle.text_model.specs.Texts.{texts_of};
ghost use Rattle.journal_references.specs.Words as spec;

use crate::runs::{Class, run};

/// What a word is before.
#[derive(Clone, Copy)]
pub(crate) enum Word {
    /// A volume.
    OfVolume,
    /// An issue.
    OfIssue,
    /// Pages, or the number of an article.
    OfPages,
    /// None of these: the word is a month.
    OfMonth,
}

impl Word {
    /// The words for it and their abbreviations, in English, German, French, Spanish, Portuguese and Italian; months in
    /// English.
    fn words(self) -> &'static [&'static str]
        ensures { texts_of result.now ≡ spec.words self }
    {
        match self {
            Word::OfVolume => &[
                "vol", "vols", "volume", "volumes", "v", "bd", "band", "jg", "jahrgang", "tom",
                "tome", "tomo", "t",
            ],
            Word::OfIssue => &[
                "no",
                "nos",
                "nr",
                "num",
                "number",
                "numero",
                "n",
                "iss",
                "issue",
                "heft",
                "h",
                "fasc",
                "fascicule",
                "fascicolo",
            ],
            Word::OfPages => &[
                "p", "pp", "pg", "pgs", "page", "pages", "s", "seite", "seiten", "art", "article",
            ],
            Word::OfMonth => &[
                "jan",
                "january",
                "feb",
                "february",
                "mar",
                "march",
                "apr",
                "april",
                "may",
                "jun",
                "june",
                "jul",
                "july",
                "aug",
                "august",
                "sep",
                "sept",
                "september",
                "oct",
                "october",
                "nov",
                "november",
                "dec",
                "december",
            ],
        }
    }

    /// Whether the name is one of its words.
    pub(crate) fn is_name(self, name: &[u8]) -> bool
        ensures { result ≡ spec.is_one_of (spec.words self) name.now }
    {
        is_one_of(self.words(), name)
    }
}

#[tactic(auto, using(crate::proofs::Letters::same_letters))]
fn is_same(word: &[u8], other: &str) -> bool
    ensures { result ≡ str_eq_ignore_ascii_case word.now other.now }
{
    word.eq_ignore_ascii_case(other.as_bytes())
}

/// Whether the word is one of these, in capital or small letters.
fn is_one_of(words: &[&str], word: &[u8]) -> bool
    ensures { result ≡ spec.is_one_of (texts_of words.now) word.now }
{
    for other in words {
        if is_same(word, other) {
            return true;
        }
    }
    false
}

/// How many letters the text begins with.
pub(crate) fn letters(text: &[u8]) -> usize
    ensures value { result ≡ spec.letters text.now }
    ensures within { result ≤ length text.now }
{
    run(Class::Letter, text)
}

/// How many spaces, full stops and colons the text begins with.
fn gap(text: &[u8]) -> usize
    ensures value { result ≡ spec.gap text.now }
    ensures within { result ≤ length text.now }
{
    run(Class::WordGap, text)
}

/// Whether this is one letter, as in `v. 12`, but not `p`, as in `p45`.
fn needs_gap(word: &[u8]) -> bool
    ensures { result ≡ spec.needs_gap word.now }
{
    word.len() == 1 && word[0].to_ascii_lowercase() != b'p'
}

/// Whether the letters are such a word, with that many bytes between it and what is next.
fn is_word(word: Word, name: &[u8], after: usize) -> bool
    ensures { result ≡ spec.is_word word name.now after }
{
    word.is_name(name) && (after > 0 || !needs_gap(name))
}

/// How many bytes the word takes with which the text begins, and what is between it and what is next.
pub(crate) fn word_length(word: Word, text: &[u8]) -> Option<usize>
    ensures value { result ≡ spec.word_length word text.now }
    ensures within { IfSome result (λ n. n ≤ length text.now) }
{
    let (name, rest) = text.split_at(letters(text));
    let after = gap(rest);
    if is_word(word, name, after) {
        Some(name.len() + after)
    } else {
        None
    }
}
