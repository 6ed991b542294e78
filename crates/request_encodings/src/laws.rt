//! What follows from the definitions. These functions have empty bodies; each contract is a theorem.

ghost use Rattle.std.specs.Prelude.{◌≡◌, ◌≤◌, ◌<◌, ◌*◌, ℕ, length};
ghost use Rattle.std.specs.Str.{IsUtf8, IsAscii};
ghost use Rattle.text_model.specs.Texts.{Text};
ghost use Rattle.request_encodings.specs.declared.encoding.ByteEncoding.{ByteEncoding};
ghost use Rattle.request_encodings.specs.declared.encoding.Encoding.{Encoding};
ghost use Rattle.request_encodings.specs.Texts.{character, text_in};

/// The text is UTF-8, in whatever encoding its bytes were.
pub fn texts_are_utf8()
    ensures { (encoding : Encoding) (bytes : Text) → IsUtf8 (text_in encoding bytes) }
{}

/// What is UTF-8 stays, if nothing else is declared; so a text that was read is read again as it is.
pub fn utf8_stays()
    ensures { (bytes : Text) → IsUtf8 bytes → text_in Encoding.Utf8 bytes ≡ bytes }
{}

/// ASCII stays in every encoding.
pub fn ascii_stays()
    ensures { (encoding : Encoding) (bytes : Text) → IsAscii bytes → text_in encoding bytes ≡ bytes }
{}

/// No byte beyond ASCII is read as a character of ASCII. So no `&`, `=` or quote is added to a text.
pub fn no_ascii_is_added()
    ensures { (encoding : ByteEncoding) (byte : ℕ) → 0x80 ≤ byte → byte < 0x100 → 0x80 ≤ character encoding byte }
{}

/// A text has at most three bytes for each that it was read from, and at most one if it is in ASCII.
pub fn texts_are_bounded()
    ensures all { (encoding : Encoding) (bytes : Text) → length (text_in encoding bytes) ≤ 3 * length bytes }
    ensures ascii { (encoding : Encoding) (bytes : Text) → IsAscii (text_in encoding bytes)
        → length (text_in encoding bytes) ≤ length bytes }
{}
