//! What follows from the definitions. These functions have empty bodies; each contract is a theorem.

ghost use Rattle.std.specs.Prelude.{◌≡◌, ℕ, ◌<◌, ◌||◌, length, take, is_some, None, Some, true, false};
ghost use Rattle.std.specs.Char.{is_ascii_digit};
ghost use Rattle.std.specs.List.{list_any};
ghost use Rattle.std.specs.Str.{IsAscii, IsUtf8};
ghost use Rattle.text_model.specs.Texts.{Text};
ghost use Rattle.journal_references.specs.References.{EachPiece, IsPartOf, Reference, reference_in};
ghost use Rattle.journal_references.specs.Written.{ArePlain, written, written_parts};

/// A text of more than 500 bytes has no reference, and neither has one without a digit.
pub fn other_texts_have_none()
    ensures long { (text : Text) → 500 < length text → reference_in text ≡ None }
    ensures digitless { (text : Text) → list_any is_ascii_digit text ≡ false → reference_in text ≡ None }
{}

/// The name is a beginning of the text, and each other part some bytes of it in one piece: none is invented.
pub fn references_are_parts()
    ensures name { (text : Text) (found : Reference) → reference_in text ≡ Some found
        → (n : ℕ) × (found.name ≡ take n text) }
    ensures pieces { (text : Text) (found : Reference) → reference_in text ≡ Some found
        → EachPiece (IsPartOf text) found }
{}

/// The name is UTF-8 if the text is, and each other part is ASCII.
pub fn references_are_utf8()
    ensures name { (text : Text) (found : Reference) → IsUtf8 text → reference_in text ≡ Some found
        → IsUtf8 found.name }
    ensures pieces { (text : Text) (found : Reference) → reference_in text ≡ Some found → EachPiece IsAscii found }
{}

/// A reference has a volume, and an issue or pages.
pub fn references_have_parts()
    ensures volume { (text : Text) (found : Reference) → reference_in text ≡ Some found
        → is_some found.volume ≡ true }
    ensures place { (text : Text) (found : Reference) → reference_in text ≡ Some found
        → (is_some found.issue || is_some found.pages) ≡ true }
{}

/// A reference in a canonical form, as `Annals of Tidal Studies, 12(3), 45-67`, is read as it was written, if the name
/// has no digit and no loose end, the issue and the pages begin with a digit, and the pages are no year.
pub fn written_references_are_read()
    ensures { (name volume issue pages : Text) → ArePlain name volume issue pages
        → reference_in (written name volume issue pages) ≡ Some (written_parts name volume issue pages) }
{}
