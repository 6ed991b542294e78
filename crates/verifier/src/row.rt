//! The kinds of all registers.

ghost use Rattle.std.specs.Prelude.{◌≡◌, ◌<◌, ℕ, length, slice_index_or};
ghost use Rattle.machine_model.specs.declared.kind.Kind.TheVariants.{Any};
ghost use Rattle.machine_model.specs.States.{put};
ghost use Rattle.machine_model.specs.Kinds.{kind_le, kind_join, any_kinds};
ghost use Rattle.verifier.specs.Private.Rows.{kinds_of};
ghost use Rattle.verifier.specs.Private.Walks.{row_rises, Rises};

use machine_model::Kind;

/// Whether a kind is at or below another.
pub(crate) fn is_below(kind: Kind, other: Kind) -> bool
    ensures { result ≡ kind_le kind other }
{
    match (kind, other) {
        (_, Kind::Any) => true,
        (Kind::Text, Kind::OptText) => true,
        (Kind::OptText, Kind::OptText) => true,
        (Kind::Text, Kind::Text) => true,
        (Kind::List, Kind::List) => true,
        (Kind::Number, Kind::Number) => true,
        _ => false,
    }
}

/// The least kind above both.
fn join(kind: Kind, other: Kind) -> Kind
    ensures { result ≡ kind_join kind other }
{
    match (kind, other) {
        (Kind::Text, Kind::Text) => Kind::Text,
        (Kind::Text, Kind::OptText) => Kind::OptText,
        (Kind::OptText, Kind::Text) => Kind::OptText,
        (Kind::OptText, Kind::OptText) => Kind::OptText,
        (Kind::List, Kind::List) => Kind::List,
        (Kind::Number, Kind::Number) => Kind::Number,
        _ => Kind::Any,
    }
}

/// The kind of each register. Code of version 1 uses only the first 16; nothing is known about the others.
#[derive(Clone, Copy)]
pub(crate) struct Row {
    pub(crate) kinds: [Kind; 64],
}

impl Row {
    /// Nothing is known.
    pub(crate) fn any() -> Row
        ensures { kinds_of result ≡ any_kinds }
    {
        Row {
            kinds: [Kind::Any; 64],
        }
    }

    pub(crate) fn get(&self, register: u16) -> Kind
        requires { register < 64 }
        ensures { result ≡ kinds_of self.now register }
    {
        let kinds = &self.kinds[..];
        kinds[register as usize]
    }

    /// The row with another kind of a register.
    pub(crate) fn with(&self, register: u8, kind: Kind) -> Row
        requires { register < 64 }
        ensures { kinds_of result ≡ put (kinds_of self.now) register kind }
    {
        let mut row = *self;
        row.kinds[register as usize] = kind;
        row
    }
}

/// Raises kinds to the least kinds above both rows, and returns whether one rose.
pub(crate) fn raise(kinds: &mut [Kind], others: &[Kind]) -> bool
    requires { length kinds.old ≡ length others.now }
    ensures joined { (r : ℕ) → slice_index_or kinds.new r Any ≡ kind_join (slice_index_or kinds.old r Any)
        (slice_index_or others.now r Any) }
    ensures rises { Rises row_rises result kinds.old kinds.new }
{
    let mut rose = false;
    for r in 0..kinds.len() {
        if !is_below(others[r], kinds[r]) {
            kinds[r] = join(kinds[r], others[r]);
            rose = true;
        }
    }
    rose
}
