//! Why code is rejected.

ghost use Rattle.std.specs.Prelude.{◌≡◌};
ghost use Rattle.verifier.specs.Faults.{form_error, read_error};

use code_file::{CodeError, CodeErrorKind};
use machine_model::FormFault;
use std::alloc::{AllocError, AllocFailed};
use std::fmt;
use thiserror::Error;

/// Why code is rejected, in the order in which it is checked: first the file, then the form of each instruction in the
/// order of their places, then the kinds of registers. The number is the place of an instruction.
#[derive(Clone, Copy, PartialEq, Eq, Error)]
pub enum LoadError {
    /// The bytes are not a code file: the kind of the first error, and the byte at which it is.
    #[error("{0} at {1}")]
    Code(CodeErrorKind, usize),
    /// No operation of the code's version has this number.
    #[error("UnknownOp at {0}")]
    UnknownOp(usize),
    /// A field that the operation does not use is not 0, a mode is above 1, or a count is not 1 to 9999.
    #[error("BadField at {0}")]
    BadField(usize),
    /// The code's version has no such register.
    #[error("BadRegister at {0}")]
    BadRegister(usize),
    /// The table has no such entry.
    #[error("BadIndex at {0}")]
    BadIndex(usize),
    /// The entry of the table is of the other kind.
    #[error("WrongTableKind at {0}")]
    WrongTableKind(usize),
    /// A jump leads to its own place or to one before it.
    #[error("JumpNotForward at {0}")]
    JumpNotForward(usize),
    /// A jump leads past the last place.
    #[error("JumpOut at {0}")]
    JumpOut(usize),
    /// A jump leads into a loop's body, or out of one.
    #[error("CrossesLoop at {0}")]
    CrossesLoop(usize),
    /// A loop begins in the body of another.
    #[error("NestedLoop at {0}")]
    NestedLoop(usize),
    /// There is no NEXT directly before the place where the loop ends.
    #[error("BadLoop at {0}")]
    BadLoop(usize),
    /// A NEXT is not the last place of a body.
    #[error("StrayNext at {0}")]
    StrayNext(usize),
    /// A SEP is in no body.
    #[error("StraySep at {0}")]
    StraySep(usize),
    /// The last instruction does not end the run.
    #[error("FallsOff at {0}")]
    FallsOff(usize),
    /// The register (the second number) may hold something other than what the instruction at the place needs: no table
    /// of kinds fits the code.
    #[error("KindMismatch at {0}, r{1}")]
    KindMismatch(usize, u16),
    /// Memory ran out.
    #[error("NoMemory")]
    NoMemory,
}

/// The same text as by `Display`.
impl fmt::Debug for LoadError {
    fn fmt<W: fmt::Write>(&self, f: &mut fmt::Formatter<W>) -> fmt::Result {
        write!(f, "{self}")
    }
}

impl LoadError {
    /// An error of form, with its place.
    pub(crate) fn of_form(fault: FormFault, place: usize) -> LoadError
        ensures { result ≡ form_error (record { place = place; what = fault }) }
    {
        match fault {
            FormFault::UnknownOp => LoadError::UnknownOp(place),
            FormFault::BadField => LoadError::BadField(place),
            FormFault::BadRegister => LoadError::BadRegister(place),
            FormFault::BadIndex => LoadError::BadIndex(place),
            FormFault::WrongTableKind => LoadError::WrongTableKind(place),
            FormFault::JumpNotForward => LoadError::JumpNotForward(place),
            FormFault::JumpOut => LoadError::JumpOut(place),
            FormFault::CrossesLoop => LoadError::CrossesLoop(place),
            FormFault::NestedLoop => LoadError::NestedLoop(place),
            FormFault::BadLoop => LoadError::BadLoop(place),
            FormFault::StrayNext => LoadError::StrayNext(place),
            FormFault::StraySep => LoadError::StraySep(place),
            FormFault::FallsOff => LoadError::FallsOff(place),
        }
    }
}

impl From<CodeError> for LoadError {
    ghost use Rattle.std.specs.Prelude.{◌≡◌};
    ghost use Rattle.verifier.specs.Faults.{read_error};

    ghost from_gives = { λ e r. r ≡ read_error e };

    fn from(error: CodeError) -> LoadError {
        match error.kind {
            CodeErrorKind::NoMemory => LoadError::NoMemory,
            kind => LoadError::Code(kind, error.at),
        }
    }
}

impl From<AllocError> for LoadError {
    ghost use Rattle.std.specs.Prelude.{◌≡◌};
    ghost use Rattle.verifier.specs.declared.error.LoadError.TheVariants.{NoMemory};

    ghost from_gives = { λ _ e. e ≡ NoMemory };

    fn from(_error: AllocError) -> LoadError {
        LoadError::NoMemory
    }
}
