//! What follows from the definitions. These functions have empty bodies; each contract is a theorem.

ghost use Rattle.std.specs.Prelude.{◌≡◌, ◌-◌, ◌++◌, ◌≤◌, ℕ, encode_utf8, true, length};
ghost use Rattle.std.specs.Str.{IsUtf8};
ghost use Rattle.text_model.specs.Texts.{Text};
ghost use Rattle.written_numbers.specs.Characters as characters;
ghost use Rattle.written_numbers.specs.Layout as layout;
ghost use Rattle.written_numbers.specs.Numbers.{number_text};
ghost use Rattle.written_numbers.specs.Numbers as numbers;
ghost use Rattle.written_numbers.specs.Identifiers.{identifier_text};
ghost use Rattle.written_numbers.specs.Identifiers as identifiers;

/// Visible characters of ASCII with single spaces between them stay as they are, if none is a quotation mark.
pub fn plain_numbers_stay()
    ensures { (text : Text) → numbers.is_plain text ≡ true → number_text text ≡ text }
{}

/// ASCII on one line stays as it is, if there are no spaces or tabs at its ends.
pub fn plain_identifiers_stay()
    ensures { (text : Text) → identifiers.is_plain text ≡ true → identifier_text text ≡ text }
{}

/// A number gets no longer, in bytes.
pub fn numbers_are_bounded()
    ensures { (text : Text) → IsUtf8 text → length (number_text text) ≤ length text }
{}

/// An identifier gets no longer, in bytes.
pub fn identifiers_are_bounded()
    ensures { (text : Text) → IsUtf8 text → length (identifier_text text) ≤ length text }
{}

/// A number is UTF-8 if the text is.
pub fn numbers_are_utf8()
    ensures { (text : Text) → IsUtf8 text → IsUtf8 (number_text text) }
{}

/// An identifier is UTF-8 if the text is.
pub fn identifiers_are_utf8()
    ensures { (text : Text) → IsUtf8 text → IsUtf8 (identifier_text text) }
{}

/// Each dash, space and mark is read at any place of any text as `-`, as a space and as nothing.
pub fn marks_are_read()
    ensures dash { (c : ℕ) (front back : Text) → characters.is_in characters.dashes c ≡ true → IsUtf8 front
        → number_text (front ++ encode_utf8 c ++ back) ≡ number_text (front ++ encode_utf8 characters.hyphen ++ back) }
    ensures space { (c : ℕ) (front back : Text) → characters.is_in characters.wide_spaces c ≡ true → IsUtf8 front
        → number_text (front ++ encode_utf8 c ++ back) ≡ number_text (front ++ encode_utf8 characters.space ++ back) }
    ensures mark { (c : ℕ) (front back : Text) → characters.is_in characters.marks c ≡ true → IsUtf8 front
        → number_text (front ++ encode_utf8 c ++ back) ≡ number_text (front ++ back) }
{}

/// Each digit of Arabic, Persian and Devanagari is read at any place of any text as that of ASCII.
pub fn digits_are_read()
    ensures arabic { (c : ℕ) (front back : Text) → characters.is_between characters.arabic_digits c ≡ true
        → IsUtf8 front
        → number_text (front ++ encode_utf8 c ++ back) ≡ number_text (front ++ encode_utf8 (c - 0x630) ++ back) }
    ensures persian { (c : ℕ) (front back : Text) → characters.is_between characters.persian_digits c ≡ true
        → IsUtf8 front
        → number_text (front ++ encode_utf8 c ++ back) ≡ number_text (front ++ encode_utf8 (c - 0x6c0) ++ back) }
    ensures devanagari { (c : ℕ) (front back : Text) → characters.is_between characters.devanagari_digits c ≡ true
        → IsUtf8 front
        → number_text (front ++ encode_utf8 c ++ back) ≡ number_text (front ++ encode_utf8 (c - 0x936) ++ back) }
{}

/// What a layout has put into an identifier goes from any place of any text.
pub fn layout_goes()
    ensures { (c : ℕ) (front back : Text) → characters.is_in layout.layout c ≡ true → IsUtf8 front
        → identifier_text (front ++ encode_utf8 c ++ back) ≡ identifier_text (front ++ back) }
{}
