//! Why a command ends without its result, and with which exit status.

ghost use Rattle.std.specs.Prelude.{◌≡◌};
ghost use Rattle.commands.specs.Faults as faults;
ghost use Rattle.commands.specs.Faults.{answered, status_of};

use answers::{FAILED, NO_LINK, REFUSED, Refusal};
use files::PrintedPath;
use registry_file::{RegistryError, TargetError, TargetFault};
use std::alloc::AllocError;
use thiserror::Error;

/// The exit status for an unknown command or wrong arguments.
const USAGE: u8 = 2;

/// Why a command ends without its result; printed after `openlink: `.
#[derive(Debug, Drop, Error)]
pub enum Fault<'a> {
    /// Unknown command or wrong arguments.
    #[error("usage")]
    Usage,
    /// There is no answer to what was read.
    #[error("{0}")]
    Refused(Refusal),
    /// A line is a warning, or no row has a web link. All lines are printed.
    #[error("warning")]
    Warning,
    /// This line of the registry file is not that of a target; lines are counted from 1, without blank ones. 0 means
    /// that the file is too long.
    #[error("registry: line {0}")]
    Registry(usize),
    /// A target of the registry is rejected.
    #[error("target {0}")]
    Target(TargetError),
    /// The port cannot be bound, or accepts no more connections.
    #[error("device: 127.0.0.1:{0}")]
    Port(&'a str),
    /// The file at the path failed; `-` is standard output.
    #[error("device: {}", PrintedPath(.0))]
    Device(&'a str),
}

/// The text that a command prints, or why there is none.
pub(crate) type Answer<'a> = Result<String, Fault<'a>>;

impl<'a> Fault<'a> {
    /// The exit status: 1 to 4.
    pub fn status(&self) -> u8
        ensures { result ≡ status_of self.now }
    {
        match self {
            Fault::Warning => NO_LINK,
            Fault::Usage => USAGE,
            Fault::Refused(refusal) => refusal.status(),
            Fault::Registry(_) => REFUSED,
            Fault::Target(e) => match &e.fault {
                TargetFault::Device(_) => FAILED,
                TargetFault::Load(_) | TargetFault::Table(_) | TargetFault::Add(_) => REFUSED,
            },
            Fault::Port(_) | Fault::Device(_) => FAILED,
        }
    }
}

/// The answer, with its error as the program's.
pub(crate) fn answered<'a, A>(answer: Result<A, Refusal>) -> Result<A, Fault<'a>>
    ensures { result ≡ answered answer }
{
    match answer {
        Ok(answer) => Ok(answer),
        Err(refusal) => Err(Fault::Refused(refusal)),
    }
}

/// The error of the registry file at the path.
pub(crate) fn registry_fault<'a>(error: RegistryError, path: &'a str) -> Fault<'a>
    ensures { result ≡ faults.registry_fault path.entry error }
{
    match error {
        RegistryError::Device => Fault::Device(path),
        RegistryError::Line(n) => Fault::Registry(n),
        RegistryError::Target(e) => Fault::Target(e),
        RegistryError::NoMemory => Fault::Refused(Refusal::Memory),
    }
}

impl<'a> From<Refusal> for Fault<'a> {
    ghost use Rattle.commands.specs.declared.fault.Fault.TheVariants.{Refused};
    ghost use Rattle.std.specs.Prelude.{◌≡◌};

    ghost from_gives = { λ refusal fault. fault ≡ Refused refusal };

    fn from(refusal: Refusal) -> Fault<'a> {
        Fault::Refused(refusal)
    }
}

impl<'a> From<AllocError> for Fault<'a> {
    ghost use Rattle.commands.specs.Faults.{out_of_memory};
    ghost use Rattle.std.specs.Prelude.{◌≡◌};

    ghost from_gives = { λ _ fault. fault ≡ out_of_memory };

    fn from(_e: AllocError) -> Fault<'a> {
        Fault::Refused(Refusal::Memory)
    }
}
