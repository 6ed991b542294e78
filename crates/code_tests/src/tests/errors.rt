//! Errors that no command prints, since it says "out of memory" in their place.

use super::same;
use code_file::{CodeError, CodeErrorKind};
use rule_parser::{RuleError, RuleErrorKind};
use std::alloc::AllocError;
use std::fmt::Display;
use std::process::Abort;
use uri_grammar::{TemplateError, TemplateErrorKind};

fn prints<R: Abort + AllocGlobal, E: Display>(
    rt: &R,
    error: &E,
    expected: &str,
) -> Result<(), AllocError> {
    let printed = format!(in rt.alloc(); "{error}")?;
    same(rt, printed.as_str(), expected);
    Ok(())
}

#[test]
fn memory_that_ran_out_is_printed(rt: HostRuntime) -> Result<(), AllocError> {
    let kind = CodeErrorKind::NoMemory;
    prints(&rt, &CodeError { kind, at: 0 }, "NoMemory at 0")?;
    let kind = TemplateErrorKind::NoMemory;
    prints(&rt, &TemplateError { kind, at: 0 }, "NoMemory at 0")?;
    let kind = RuleErrorKind::NoMemory;
    prints(&rt, &RuleError { kind, line: 0 }, "line 0: NoMemory")
}
