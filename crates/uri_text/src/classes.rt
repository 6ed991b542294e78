//! Classes of bytes and hexadecimal digits, by tables (RFC 3986, sections 2.1 to 2.3).

ghost use Rattle.std.specs.Prelude.{◌≡◌, ◌/◌};
ghost use Rattle.text_model.specs.Texts.{is_unreserved};
ghost use Rattle.text_model.specs.Writing.{is_unreserved_or_reserved, hexadecimal_digit};

/// Each unreserved byte is at its own index, and `%` at every other index.
static UNRESERVED: [u8; 256] = *b"\
    %%%%%%%%%%%%%%%%%%%%%%%%%%%%%%%%\
    %%%%%%%%%%%%%-.%0123456789%%%%%%\
    %ABCDEFGHIJKLMNOPQRSTUVWXYZ%%%%_\
    %abcdefghijklmnopqrstuvwxyz%%%~%\
    %%%%%%%%%%%%%%%%%%%%%%%%%%%%%%%%\
    %%%%%%%%%%%%%%%%%%%%%%%%%%%%%%%%\
    %%%%%%%%%%%%%%%%%%%%%%%%%%%%%%%%\
    %%%%%%%%%%%%%%%%%%%%%%%%%%%%%%%%";

/// Each unreserved or reserved byte is at its own index, and `%` at every other index.
static UNRESERVED_OR_RESERVED: [u8; 256] = *b"\
    %%%%%%%%%%%%%%%%%%%%%%%%%%%%%%%%\
    %!%#$%&'()*+,-./0123456789:;%=%?\
    @ABCDEFGHIJKLMNOPQRSTUVWXYZ[%]%_\
    %abcdefghijklmnopqrstuvwxyz%%%~%\
    %%%%%%%%%%%%%%%%%%%%%%%%%%%%%%%%\
    %%%%%%%%%%%%%%%%%%%%%%%%%%%%%%%%\
    %%%%%%%%%%%%%%%%%%%%%%%%%%%%%%%%\
    %%%%%%%%%%%%%%%%%%%%%%%%%%%%%%%%";

/// The two hexadecimal digits of each byte, in upper case.
static DIGITS: [u8; 512] = *b"\
    000102030405060708090A0B0C0D0E0F\
    101112131415161718191A1B1C1D1E1F\
    202122232425262728292A2B2C2D2E2F\
    303132333435363738393A3B3C3D3E3F\
    404142434445464748494A4B4C4D4E4F\
    505152535455565758595A5B5C5D5E5F\
    606162636465666768696A6B6C6D6E6F\
    707172737475767778797A7B7C7D7E7F\
    808182838485868788898A8B8C8D8E8F\
    909192939495969798999A9B9C9D9E9F\
    A0A1A2A3A4A5A6A7A8A9AAABACADAEAF\
    B0B1B2B3B4B5B6B7B8B9BABBBCBDBEBF\
    C0C1C2C3C4C5C6C7C8C9CACBCCCDCECF\
    D0D1D2D3D4D5D6D7D8D9DADBDCDDDEDF\
    E0E1E2E3E4E5E6E7E8E9EAEBECEDEEEF\
    F0F1F2F3F4F5F6F7F8F9FAFBFCFDFEFF";

#[inline(always)]
pub(crate) fn is_unreserved(byte: u8) -> bool
    ensures { result ≡ is_unreserved byte }
{
    UNRESERVED[byte as usize] != b'%'
}

#[inline(always)]
pub(crate) fn is_unreserved_or_reserved(byte: u8) -> bool
    ensures { result ≡ is_unreserved_or_reserved byte }
{
    UNRESERVED_OR_RESERVED[byte as usize] != b'%'
}

/// The hexadecimal digit of the upper half of a byte.
#[inline(always)]
pub(crate) fn high_digit(byte: u8) -> u8
    ensures { result ≡ hexadecimal_digit (byte / 16) }
{
    DIGITS[2 * byte as usize]
}

/// The hexadecimal digit of the lower half of a byte.
#[inline(always)]
pub(crate) fn low_digit(byte: u8) -> u8
    ensures { result ≡ hexadecimal_digit byte }
{
    DIGITS[2 * byte as usize + 1]
}
