//! What follows from the definitions. These functions have empty bodies; each contract is a theorem.

ghost use Rattle.std.specs.Prelude.{◌≡◌, ◌≤◌, ◌++◌, codes, false, length};
ghost use Rattle.std.specs.Str.{IsUtf8};
ghost use Rattle.text_model.specs.Texts.{Text};
ghost use Rattle.uri_text.specs.AnyCase.{begins_in_any_case};
ghost use Rattle.retraction_remarks.specs.Titles.{IsPartOf, IsRemarkFree, has_word, is_blank, without_remarks};

/// A title without a remark stays as it is; so does one without the word `retracted`.
pub fn other_titles_stay()
    ensures free { (title : Text) → IsRemarkFree title → without_remarks title ≡ title }
    ensures wordless { (title : Text) → has_word title ≡ false → without_remarks title ≡ title }
{}

/// The title of a notice of retraction stays, if `retracted` is not in it.
pub fn notices_stay()
    ensures { (title : Text) → has_word title ≡ false
        → without_remarks (codes "Retraction of: " ++ title) ≡ codes "Retraction of: " ++ title }
{}

/// What is left has no remark. So reading twice is reading once.
pub fn titles_stay()
    ensures free { (title : Text) → IsRemarkFree (without_remarks title) }
    ensures once { (title : Text) → without_remarks (without_remarks title) ≡ without_remarks title }
{}

/// What is left is a part of the title, so no byte of it is invented, and it is no longer. It is UTF-8 if the title is.
pub fn titles_are_parts()
    ensures part { (title : Text) → IsPartOf title (without_remarks title) }
    ensures bounded { (title : Text) → length (without_remarks title) ≤ length title }
    ensures utf8 { (title : Text) → IsUtf8 title → IsUtf8 (without_remarks title) }
{}

/// No title becomes blank.
pub fn titles_are_not_blank()
    ensures { (title : Text) → is_blank title ≡ false → is_blank (without_remarks title) ≡ false }
{}

/// A remark goes before any title that is not blank and begins with no space.
pub fn remarks_before_titles_go()
    ensures plain { (title : Text) → begins_in_any_case title (codes " ") ≡ false → is_blank title ≡ false
        → without_remarks (codes "RETRACTED: " ++ title) ≡ without_remarks title }
    ensures work { (title : Text) → begins_in_any_case title (codes " ") ≡ false → is_blank title ≡ false
        → without_remarks (codes "RETRACTED ARTICLE: " ++ title) ≡ without_remarks title }
    ensures brackets { (title : Text) → begins_in_any_case title (codes " ") ≡ false → is_blank title ≡ false
        → without_remarks (codes "[Retracted] " ++ title) ≡ without_remarks title }
{}
