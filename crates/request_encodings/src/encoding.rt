//! Encodings and their characters.

ghost use Rattle.std.specs.Prelude.{◌≡◌, length};
ghost use Rattle.text_model.specs.Texts.{texts_of};
ghost use Rattle.request_encodings.specs.Declarations.{endings};
ghost use Rattle.request_encodings.specs.Texts as spec;

use crate::tables;

/// What a query declares, or UTF-8.
#[derive(Clone, Copy)]
pub enum Encoding {
    /// UTF-8, and US-ASCII.
    Utf8,
    /// A legacy encoding of one byte a character.
    Bytes(ByteEncoding),
    /// Another one. Only what is UTF-8 is read.
    Unknown,
}

/// A legacy encoding of one byte a character (WHATWG Encoding, section 9).
#[derive(Clone, Copy)]
pub enum ByteEncoding {
    /// Central European.
    Windows1250,
    /// Cyrillic.
    Windows1251,
    /// Western, and ISO 8859-1.
    Windows1252,
    /// Central European.
    Iso8859_2,
    /// Cyrillic.
    Iso8859_5,
    /// Western, with the euro sign.
    Iso8859_15,
    /// Cyrillic.
    Koi8R,
}

impl ByteEncoding {
    /// The characters of the bytes 80 to ff; a space for the character with the number of the byte.
    #[tactic(auto, unfolding(crate::specs::Texts::upper_half))]
    fn upper_half(self) -> &'static [char]
        ensures value { result.now ≡ spec.upper_half self }
        ensures len { length result.now ≡ 128 }
    {
        match self {
            ByteEncoding::Windows1250 => tables::windows_1250(),
            ByteEncoding::Windows1251 => tables::windows_1251(),
            ByteEncoding::Windows1252 => tables::windows_1252(),
            ByteEncoding::Iso8859_2 => tables::iso_8859_2(),
            ByteEncoding::Iso8859_5 => tables::iso_8859_5(),
            ByteEncoding::Iso8859_15 => tables::iso_8859_15(),
            ByteEncoding::Koi8R => tables::koi8_r(),
        }
    }

    /// The character of a byte.
    pub(crate) fn character(self, byte: u8) -> char
        ensures { result ≡ spec.character self byte }
    {
        if byte < 0x80 {
            return char::from(byte);
        }
        let listed = self.upper_half()[(byte - 0x80) as usize];
        if listed == ' ' {
            char::from(byte)
        } else {
            listed
        }
    }

    /// How the names of the encoding end, in small letters and with hyphens.
    pub(crate) fn endings(self) -> &'static [&'static str]
        ensures { texts_of result.now ≡ endings self }
    {
        match self {
            ByteEncoding::Windows1250 => &["1250"],
            ByteEncoding::Windows1251 => &["1251"],
            ByteEncoding::Windows1252 => &["8859-1", "latin-1", "latin1", "1252"],
            ByteEncoding::Iso8859_2 => &["8859-2", "latin-2", "latin2"],
            ByteEncoding::Iso8859_5 => &["8859-5"],
            ByteEncoding::Iso8859_15 => &["8859-15", "latin-9", "latin9"],
            ByteEncoding::Koi8R => &["koi8-r", "koi8r"],
        }
    }
}
