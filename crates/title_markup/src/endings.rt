//! The ends of texts.

ghost use Rattle.std.specs.Prelude.{◌≡◌};
ghost use Rattle.std.specs.Option.{option_copied};
ghost use Rattle.title_markup.specs.Endings as spec;

/// The last byte; NUL if there is none.
pub(crate) fn last_byte(text: &[u8]) -> u8
    ensures { result ≡ spec.last_byte text.now }
{
    text.last().copied().unwrap_or(0)
}

pub(crate) fn last_bytes(count: usize, text: &[u8]) -> &[u8]
    ensures { result.now ≡ spec.last_bytes count text.now }
{
    text.split_at(text.len().saturating_sub(count)).1
}

/// The text from its last byte of this kind on.
#[tactic(auto, using(crate::proofs::TextEnds::found_steps))]
pub(crate) fn from_last(mark: u8, text: &[u8]) -> Option<&[u8]>
    ensures { option_copied result ≡ spec.from_last mark text.now }
{
    let mut found = None;
    for (at, byte) in text.iter().enumerate() {
        if *byte == mark {
            found = Some(text.split_at(at).1);
        }
    }
    found
}
