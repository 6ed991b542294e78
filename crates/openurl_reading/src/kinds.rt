//! What a request is for: a book, a dissertation or a journal.

ghost use Rattle.std.specs.Prelude.{◌≡◌};
ghost use Rattle.text_model.specs.Texts.{texts_of};
ghost use Rattle.openurl_reading.specs.Formats.{format_of};
ghost use Rattle.openurl_reading.specs.Kinds as spec;
ghost use Rattle.openurl_reading.specs.Titles.{title_key};

use crate::counting::is_one_in_any_case;
use crate::pairs::Pairs;

/// What has a format of its own (the formats of Z39.88-2004 for KEV ContextObjects).
#[derive(Clone, Copy)]
pub(crate) enum Kind {
    Book,
    Dissertation,
    Journal,
}

impl Kind {
    /// The format that describes the kind.
    pub(crate) fn format(self) -> &'static str
        ensures { result.now ≡ format_of self }
    {
        match self {
            Kind::Book => "info:ofi/fmt:kev:mtx:book",
            Kind::Dissertation => "info:ofi/fmt:kev:mtx:dissertation",
            Kind::Journal => "info:ofi/fmt:kev:mtx:journal",
        }
    }

    /// The key of its title.
    pub(crate) fn title_key(self) -> &'static str
        ensures { result.now ≡ title_key self }
    {
        match self {
            Kind::Book => "rft.btitle",
            Kind::Dissertation => "rft.title",
            Kind::Journal => "rft.jtitle",
        }
    }

    /// The genres that are of this kind alone.
    fn genres(self) -> &'static [&'static str]
        ensures { texts_of result.now ≡ spec.genres self }
    {
        match self {
            Kind::Book => &["book", "bookitem", "report", "document"],
            Kind::Dissertation => &["dissertation"],
            Kind::Journal => &["article", "journal", "issue", "preprint"],
        }
    }

    fn has_genre(self, genre: &str) -> bool
        ensures { result ≡ spec.is_genre_of genre.now self }
    {
        is_one_in_any_case(self.genres(), genre.trim())
    }
}

/// The kind that a genre is of.
pub(crate) fn kind_named(genre: &str) -> Option<Kind>
    ensures { result ≡ spec.kind_named genre.now }
{
    if Kind::Book.has_genre(genre) {
        Some(Kind::Book)
    } else if Kind::Dissertation.has_genre(genre) {
        Some(Kind::Dissertation)
    } else if Kind::Journal.has_genre(genre) {
        Some(Kind::Journal)
    } else {
        None
    }
}

/// What a request is for.
pub(crate) fn kind_of(pairs: &Pairs) -> Kind
    ensures { result ≡ spec.kind_of pairs.now }
{
    match pairs.first("rft.genre") {
        Some(genre) => match kind_named(genre) {
            Some(kind) => kind,
            None => kind_by_keys(pairs),
        },
        None => kind_by_keys(pairs),
    }
}

/// What a request is for if its genre does not say it.
fn kind_by_keys(pairs: &Pairs) -> Kind
    ensures { result ≡ spec.kind_by_keys pairs.now }
{
    let has_isbn = pairs.has("rft.isbn") || pairs.has("rft.eisbn");
    let has_issn = pairs.has("rft.issn") || pairs.has("rft.eissn");
    let has_book_title = pairs.has("rft.btitle") && !pairs.has("rft.jtitle");
    if (has_isbn && !has_issn) || has_book_title {
        Kind::Book
    } else {
        Kind::Journal
    }
}
