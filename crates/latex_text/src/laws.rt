//! What follows from the definitions. These functions have empty bodies; each contract is a theorem.

ghost use Rattle.std.specs.Prelude.{◌≡◌, ◌≤◌, ◌++◌, ◌∷◌, ℕ, Some, encode_utf8, false, true, length};
ghost use Rattle.std.specs.List.{list_all};
ghost use Rattle.std.specs.Str.{IsUtf8};
ghost use Rattle.text_model.specs.Texts.{Text};
ghost use Rattle.latex_text.specs.Places.{has, backslash, opening, closing, is_letter, is_within_text, place_after};
ghost use Rattle.latex_text.specs.Commands.{composed, letter_named};
ghost use Rattle.latex_text.specs.Texts.{IsFree, is_blank, read, without_latex};
ghost use Rattle.latex_text.specs.declared.places.Place.TheVariants.{Start};

/// A text in which nothing is left to read stays as it is; so does one without `\` and `{`.
pub fn plain_texts_stay()
    ensures free { (text : Text) → IsFree Start text → without_latex text ≡ text }
    ensures unmarked { (text : Text) → has backslash text ≡ false → has opening text ≡ false
        → without_latex text ≡ text }
{}

/// In what is read nothing is left to read. So reading twice is reading once, for a text that stays too.
pub fn latex_is_read_once()
    ensures free { (text : Text) → IsFree Start (read text) }
    ensures once { (text : Text) → without_latex (without_latex text) ≡ without_latex text }
{}

/// A text gets no longer, in bytes, and is UTF-8 if it was.
pub fn texts_are_bounded()
    ensures bounded { (text : Text) → length (without_latex text) ≤ length text }
    ensures utf8 { (text : Text) → IsUtf8 text → IsUtf8 (without_latex text) }
{}

/// No text becomes blank.
pub fn texts_are_not_blank()
    ensures { (text : Text) → is_blank text ≡ false → is_blank (without_latex text) ≡ false }
{}

/// An accent is read as the letter with that accent, at any place of any text that is not in a command or a formula.
pub fn accents_are_letters()
    ensures bare { (accent letter c : ℕ) (front back : Text) → is_letter accent ≡ false → is_letter letter ≡ true
        → composed accent letter ≡ Some c → is_within_text (place_after Start front) ≡ true
        → read (front ++ backslash ∷ accent ∷ letter ∷ back) ≡ read (front ++ encode_utf8 c ++ back) }
    ensures braced { (accent letter c : ℕ) (front back : Text) → is_letter letter ≡ true
        → composed accent letter ≡ Some c → is_within_text (place_after Start front) ≡ true
        → read (front ++ backslash ∷ accent ∷ opening ∷ letter ∷ closing ∷ back)
        ≡ read (front ++ encode_utf8 c ++ back) }
{}

/// A letter that has a name is read as that letter, at any such place.
pub fn names_are_letters()
    ensures { (name front back : Text) (c : ℕ) → list_all is_letter name ≡ true → letter_named name ≡ Some c
        → is_within_text (place_after Start front) ≡ true
        → read (front ++ backslash ∷ name ++ opening ∷ closing ∷ back) ≡ read (front ++ encode_utf8 c ++ back) }
{}
