//! What follows from the definitions. These functions have empty bodies; each contract is a theorem.

ghost use Rattle.std.specs.Prelude.{◌≡◌, ◌≤◌, ◌++◌, ℕ, Some, codes, encode_utf8, false, true, length};
ghost use Rattle.std.specs.Str.{IsUtf8};
ghost use Rattle.text_model.specs.Texts.{Text};
ghost use Rattle.title_markup.specs.Endings.{ampersand, has, opening};
ghost use Rattle.title_markup.specs.References.{character_of, is_body, reference_with};
ghost use Rattle.title_markup.specs.Spaces.{has_single_spaces, plain_title, with_single_spaces, words};
ghost use Rattle.title_markup.specs.Tags.{is_tag_with, tag_with};
ghost use Rattle.title_markup.specs.Titles.{IsMarkupFree, is_blank, read, without_markup};

/// A title without markup stays as it is; so does one without `<` and `&`.
pub fn plain_titles_stay()
    ensures free { (title : Text) → IsMarkupFree title → without_markup title ≡ title }
    ensures unmarked { (title : Text) → has opening title ≡ false → has ampersand title ≡ false
        → without_markup title ≡ title }
{}

/// What is read has no markup. So reading twice is reading once, for a title that stays too.
pub fn markup_is_read_once()
    ensures free { (title : Text) → IsMarkupFree (read title) }
    ensures once { (title : Text) → without_markup (without_markup title) ≡ without_markup title }
{}

/// A title gets no longer, in bytes, and is UTF-8 if it was.
pub fn titles_are_bounded()
    ensures bounded { (title : Text) → length (without_markup title) ≤ length title }
    ensures utf8 { (title : Text) → IsUtf8 title → IsUtf8 (without_markup title) }
{}

/// No title becomes blank.
pub fn titles_are_not_blank()
    ensures { (title : Text) → is_blank title ≡ false → is_blank (without_markup title) ≡ false }
{}

/// A tag goes from any place of any text. A title in tags is read as without them, unless it is blank then.
pub fn tags_go()
    ensures anywhere { (inner front back : Text) → is_tag_with inner ≡ true
        → read (front ++ tag_with inner ++ back) ≡ read (front ++ back) }
    ensures italic { (title : Text) → is_blank (read title) ≡ false
        → without_markup (codes "<i>" ++ title ++ codes "</i>") ≡ without_markup title }
    ensures paragraph { (title : Text) → is_blank (read title) ≡ false
        → without_markup (codes "<jats:p xml:lang=\"en\">" ++ title ++ codes "</jats:p>") ≡ without_markup title }
{}

/// A reference is read as its character, in any place of any text; so `&amp;lt;` is read as `&lt;`, and that as `<`.
pub fn references_are_characters()
    ensures anywhere { (body front back : Text) (c : ℕ) → is_body body ≡ true → character_of body ≡ Some c
        → read (front ++ reference_with body ++ back) ≡ read (front ++ encode_utf8 c ++ back) }
    ensures ampersand { (front back : Text)
        → read (front ++ codes "&amp;" ++ back) ≡ read (front ++ encode_utf8 0x26 ++ back) }
    ensures letter { (front back : Text)
        → read (front ++ codes "&eacute;" ++ back) ≡ read (front ++ encode_utf8 0xe9 ++ back) }
    ensures decimal { (front back : Text)
        → read (front ++ codes "&#233;" ++ back) ≡ read (front ++ encode_utf8 0xe9 ++ back) }
    ensures hexadecimal { (front back : Text)
        → read (front ++ codes "&#xe9;" ++ back) ≡ read (front ++ encode_utf8 0xe9 ++ back) }
{}

/// A title with single spaces stays as it is, and what is read has single spaces, unless it is blank. So reading twice
/// is reading once.
pub fn spaces_are_single()
    ensures stays { (title : Text) → has_single_spaces title ≡ true → with_single_spaces title ≡ title }
    ensures single { (title : Text) → has_single_spaces (words title) ≡ true }
    ensures once { (title : Text) → with_single_spaces (with_single_spaces title) ≡ with_single_spaces title }
{}

/// With single spaces a title gets no longer, is UTF-8 if it was, and does not become blank.
pub fn spaces_are_bounded()
    ensures bounded { (title : Text) → length (with_single_spaces title) ≤ length title }
    ensures utf8 { (title : Text) → IsUtf8 title → IsUtf8 (with_single_spaces title) }
    ensures filled { (title : Text) → is_blank title ≡ false → is_blank (with_single_spaces title) ≡ false }
{}

/// The same of titles that are read in both ways.
pub fn plain_titles_are_bounded()
    ensures stays { (title : Text) → has opening title ≡ false → has ampersand title ≡ false
        → has_single_spaces title ≡ true → plain_title title ≡ title }
    ensures bounded { (title : Text) → length (plain_title title) ≤ length title }
    ensures utf8 { (title : Text) → IsUtf8 title → IsUtf8 (plain_title title) }
    ensures filled { (title : Text) → is_blank title ≡ false → is_blank (plain_title title) ≡ false }
{}
