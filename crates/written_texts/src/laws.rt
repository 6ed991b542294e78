//! What follows from the definitions. These functions have empty bodies, apart from the laws that they use; each
//! contract is a theorem.

ghost use Rattle.std.specs.Prelude.{◌≡◌, ◌≤◌, false, length};
ghost use Rattle.std.specs.Str.{IsUtf8};
ghost use Rattle.text_model.specs.Texts.{Text};
ghost use Rattle.retraction_remarks.specs.Titles.{has_word};
ghost use Rattle.written_texts.specs.declared.readings.Role.{Role};
ghost use Rattle.written_texts.specs.declared.readings.Role.TheVariants.{Identifier, Number, Other, Title};
ghost use Rattle.written_texts.specs.Readings.{IsPlain, IsPlainIdentifier, IsPlainNumber};
ghost use Rattle.written_texts.specs.Readings.{is_blank, read_once, written};

use request_encodings::laws as encodings;
use written_numbers::laws as numbers;

/// Reading twice is reading once.
pub fn texts_are_read_once()
    ensures { (role : Role) (text : Text) → written role (written role text) ≡ written role text }
{}

/// A text with single spaces stays as it is if it has no escape, `+`, markup or command; so does a title without the
/// word `retracted`. A number in ASCII stays if it has no `%` and no `+`, and an identifier on one line without `%`.
pub fn plain_texts_stay()
    ensures other { (text : Text) → IsPlain text → written Other text ≡ text }
    ensures title { (text : Text) → IsPlain text → has_word text ≡ false → written Title text ≡ text }
    ensures number { (text : Text) → IsPlainNumber text → written Number text ≡ text }
    ensures identifier { (text : Text) → IsPlainIdentifier text → written Identifier text ≡ text }
{
    numbers::plain_numbers_stay();
    numbers::plain_identifiers_stay();
    latex_text::laws::plain_texts_stay();
    title_markup::laws::plain_titles_are_bounded();
    retraction_remarks::laws::other_titles_stay();
}

/// One reading is UTF-8 if the text is.
pub fn readings_are_utf8()
    ensures { (role : Role) (text : Text) → IsUtf8 text → IsUtf8 (read_once role text) }
{
    encodings::texts_are_utf8();
    latex_text::laws::texts_are_bounded();
    title_markup::laws::plain_titles_are_bounded();
    retraction_remarks::laws::titles_are_parts();
    numbers::numbers_are_utf8();
    numbers::identifiers_are_utf8();
}

/// What is read is UTF-8 if the text is.
pub fn texts_are_utf8()
    ensures { (role : Role) (text : Text) → IsUtf8 text → IsUtf8 (written role text) }
{
    readings_are_utf8();
}

/// A text gets no longer, in bytes.
pub fn texts_are_bounded()
    ensures { (role : Role) (text : Text) → length (written role text) ≤ length text }
{}

/// No text becomes blank.
pub fn texts_are_not_blank()
    ensures { (role : Role) (text : Text) → is_blank text ≡ false → is_blank (written role text) ≡ false }
{}
