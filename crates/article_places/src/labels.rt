//! Words that say which number is next to them.

ghost use Rattle.std.specs.Prelude.{◌≡◌};
ghost use Rattle.std.specs.Str.{str_eq_ignore_ascii_case};
ghost use Rattle.text_model.specs.Texts.{texts_of};
ghost use Rattle.article_places.specs.Labels as spec;

fn volume_words() -> &'static [&'static str]
    ensures { texts_of result.now ≡ spec.volume_words }
{
    &[
        "vol", "vols", "volume", "volumes", "v", "bd", "band", "jg", "jahrgang", "tom", "tome",
        "tomo", "t",
    ]
}

/// The words of an issue, or of a part of a volume; and brackets.
fn issue_words() -> &'static [&'static str]
    ensures { texts_of result.now ≡ spec.issue_words }
{
    &[
        "no",
        "nos",
        "nr",
        "num",
        "number",
        "numero",
        "n",
        "iss",
        "issue",
        "heft",
        "h",
        "fasc",
        "fascicule",
        "fascicolo",
        "pt",
        "part",
        "(",
        "[",
    ]
}

fn supplement_words() -> &'static [&'static str]
    ensures { texts_of result.now ≡ spec.supplement_words }
{
    &[
        "suppl",
        "supp",
        "supl",
        "sup",
        "supplt",
        "supplement",
        "supplementary",
        "supplementum",
        "supplemento",
        "suplemento",
    ]
}

fn page_labels() -> &'static [&'static str]
    ensures { texts_of result.now ≡ spec.page_labels }
{
    &["p", "pp", "pg", "pgs", "page", "pages", "seite", "seiten"]
}

fn range_words() -> &'static [&'static str]
    ensures { texts_of result.now ≡ spec.range_words }
{
    &["to", "bis"]
}

/// Whether the word is one of these, in capital or small letters.
fn is_one_of(words: &[&str], word: &[u8]) -> bool
    ensures { result ≡ spec.is_one_of (texts_of words.now) word.now }
{
    for other in words {
        if is_same(word, other) {
            return true;
        }
    }
    false
}

#[tactic(auto, using(crate::proofs::Letters::same_letters))]
pub(crate) fn is_same(word: &[u8], other: &str) -> bool
    ensures { result ≡ str_eq_ignore_ascii_case word.now other.now }
{
    word.eq_ignore_ascii_case(other.as_bytes())
}

/// Whether the word says that the number of an issue is next.
pub(crate) fn is_issue_word(word: &[u8]) -> bool
    ensures { result ≡ spec.is_issue_word word.now }
{
    is_one_of(issue_words(), word)
}

pub(crate) fn is_supplement_word(word: &[u8]) -> bool
    ensures { result ≡ spec.is_supplement_word word.now }
{
    is_one_of(supplement_words(), word)
}

/// Whether the word may be before the first number.
pub(crate) fn is_label(word: &[u8]) -> bool
    ensures { result ≡ spec.is_label word.now }
{
    is_one_of(volume_words(), word) || is_issue_word(word)
}

/// Whether the letters say that a page is next.
pub(crate) fn is_page_label(letters: &[u8]) -> bool
    ensures { result ≡ spec.is_one_of spec.page_labels letters.now }
{
    is_one_of(page_labels(), letters)
}

/// Whether the word is between the first page and the last one.
pub(crate) fn is_range_word(word: &[u8]) -> bool
    ensures { result ≡ spec.is_range_word word.now }
{
    is_one_of(range_words(), word)
}
