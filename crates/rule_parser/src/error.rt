//! Why bytes are not a rule text.

ghost use Rattle.std.specs.Prelude.{◌≡◌, ◌≢◌};

use std::alloc::{AllocError, AllocFailed};
use std::fmt;
use thiserror::Error;
use uri_grammar::TemplateErrorKind;

/// Why bytes are not a rule text, in the order in which it is checked.
#[derive(Clone, Copy, Debug, PartialEq, Eq, Error)]
pub enum RuleErrorKind {
    /// More than [`crate::MAX_BYTES`] bytes.
    TooLong,
    /// Bytes that are not UTF-8.
    NotUtf8,
    /// A line that has none of the forms, or is out of order.
    BadLine,
    /// A rule without a link, found at the next `rule` line or at the end.
    NoLink,
    /// A link that is not a template.
    Template(TemplateErrorKind),
    /// A list where a text is needed, or a text before `holds` or `counts`.
    KindMismatch,
    /// An allocation failed.
    NoMemory,
}

impl fmt::Display for RuleErrorKind {
    fn fmt<W: fmt::Write>(&self, f: &mut fmt::Formatter<W>) -> fmt::Result {
        match self {
            RuleErrorKind::Template(kind) => write!(f, "Template {kind:?}"),
            kind => write!(f, "{kind:?}"),
        }
    }
}

/// The first error of a rule text, and the number of its line, from 1; 0 if the error belongs to no line.
#[derive(Clone, Copy, Debug, PartialEq, Eq, Error)]
#[error("line {line}: {kind}")]
pub struct RuleError {
    /// What is wrong.
    pub kind: RuleErrorKind,
    /// The number of the line, from 1; 0 if the error belongs to no line.
    pub line: usize,
}

impl RuleError {
    pub(crate) fn new(kind: RuleErrorKind, line: usize) -> RuleError
        ensures { result ≡ record { kind = kind; line = line } }
    {
        RuleError { kind, line }
    }

    /// A template's error, at its line. Out of memory in a template is out of memory in the rule text.
    pub(crate) fn in_template(kind: TemplateErrorKind, line: usize) -> RuleError
        ensures no_memory { kind ≡ TemplateErrorKind.NoMemory → result ≡ NO_MEMORY }
        ensures fault { kind ≢ TemplateErrorKind.NoMemory
            → result ≡ record { kind = RuleErrorKind.Template kind; line = line } }
    {
        match kind {
            TemplateErrorKind::NoMemory => NO_MEMORY,
            kind => RuleError::new(RuleErrorKind::Template(kind), line),
        }
    }
}

/// Out of memory, as an error of a rule text.
pub const NO_MEMORY: RuleError = RuleError {
    kind: RuleErrorKind::NoMemory,
    line: 0,
};

impl From<AllocError> for RuleError {
    ghost use Rattle.rule_parser.specs.declared.error.TheConstants.{NO_MEMORY};
    ghost use Rattle.std.specs.Prelude.{◌≡◌};

    ghost from_gives = { λ _ e. e ≡ NO_MEMORY };

    fn from(_error: AllocError) -> RuleError {
        NO_MEMORY
    }
}

impl<T: Drop> From<AllocFailed<T>> for RuleError {
    ghost use Rattle.rule_parser.specs.declared.error.TheConstants.{NO_MEMORY};
    ghost use Rattle.std.specs.Prelude.{◌≡◌};

    ghost from_gives = { λ _ e. e ≡ NO_MEMORY };

    fn from(_failed: AllocFailed<T>) -> RuleError {
        NO_MEMORY
    }
}
