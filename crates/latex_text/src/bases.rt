//! The letters of accents.

ghost use Rattle.std.specs.Prelude.{◌≡◌, ◌≤◌, ◌<◌, length};
ghost use Rattle.std.specs.Option.{IfSome};
ghost use Rattle.latex_text.specs.Commands as spec;

/// A letter at the beginning of a text.
#[derive(Clone, Copy)]
pub(crate) struct Base {
    /// How many bytes it has.
    pub(crate) len: usize,
    /// The letter, with a dot if it is `ı` or `ȷ`.
    pub(crate) letter: u8,
}

/// `ı` and `ȷ`.
fn dotless(text: &[u8]) -> Option<Base>
    ensures { result ≡ spec.dotless text.now }
{
    match text {
        [0xc4, 0xb1, ..] => Some(Base {
            len: 2,
            letter: b'i',
        }),
        [0xc8, 0xb7, ..] => Some(Base {
            len: 2,
            letter: b'j',
        }),
        _ => None,
    }
}

/// The letter with which a text begins.
pub(crate) fn base_of(text: &[u8]) -> Option<Base>
    ensures value { result ≡ spec.base_of text.now }
    ensures small { IfSome result (λ base. base.len ≤ 2) }
{
    match text {
        [] => None,
        [first, ..] if first.is_ascii_alphabetic() => Some(Base {
            len: 1,
            letter: *first,
        }),
        _ => dotless(text),
    }
}
