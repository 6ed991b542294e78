//! Why there is no answer.

ghost use Rattle.std.specs.Prelude.{◌≡◌};
ghost use Rattle.answers.specs.Refusals.{status_of_refusal};

use code_file::CodeError;
use compiler::CompileError;
use kbart_rows::TableError;
use kev_read::KevError;
use rule_parser::RuleError;
use std::alloc::AllocError;
use std::fmt;
use thiserror::Error;
use uri_grammar::TemplateError;
use verifier::LoadError;

/// The exit status if there is no link.
pub const NO_LINK: u8 = 1;

/// The exit status if an argument or a file is rejected.
pub const REFUSED: u8 = 3;

/// The exit status if memory runs out, or a file or an output fails.
pub const FAILED: u8 = 4;

/// Why there is no answer: the first error of the libraries, without the path of a file.
#[derive(Drop, Error)]
pub enum Refusal {
    /// The template is not a URI Template (RFC 6570): its first error, and the byte at which it is.
    #[error("template: {0}")]
    Template(TemplateError),
    /// The bytes are not a rule text: the line of its first error, and its kind.
    #[error("rules: {0}")]
    Rules(RuleError),
    /// The code of the rules exceeds this limit.
    #[error("compile: {0}")]
    Compile(CompileError),
    /// The bytes are not a code file: the kind of its first error, and the byte at which it is.
    #[error("code: {0}")]
    Code(CodeError),
    /// The code is rejected: the kind of its first error, and the byte or the instruction at which it is.
    #[error("load: {0}")]
    Load(LoadError),
    /// The code may print this number of bytes for the request, which is more than a link may have.
    #[error("over budget: {0}")]
    OverBudget(u64),
    /// The bytes are not a holdings table.
    #[error("table: {0}")]
    Table(TableError),
    /// The query is not an OpenURL request.
    #[error("query: {0}")]
    Query(KevError),
    /// There is no link. Nothing is printed.
    #[error("no link")]
    NoLink,
    /// An allocation failed.
    #[error("out of memory")]
    Memory,
}

/// The same text as by `Display`.
impl fmt::Debug for Refusal {
    fn fmt<W: fmt::Write>(&self, f: &mut fmt::Formatter<W>) -> fmt::Result {
        write!(f, "{self}")
    }
}

impl Refusal {
    /// The exit status.
    pub fn status(&self) -> u8
        ensures { result ≡ status_of_refusal self.now }
    {
        match self {
            Refusal::NoLink => NO_LINK,
            Refusal::Memory => FAILED,
            _ => REFUSED,
        }
    }
}

impl From<AllocError> for Refusal {
    ghost use Rattle.answers.specs.declared.refusal.Refusal.TheVariants.{Memory};
    ghost use Rattle.std.specs.Prelude.{◌≡◌};

    ghost from_gives = { λ _ refusal. refusal ≡ Memory };

    fn from(_e: AllocError) -> Refusal {
        Refusal::Memory
    }
}
