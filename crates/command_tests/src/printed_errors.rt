//! The line of each error: every word that an error is printed with, once, and its exit status.

use answers::Refusal;
use code_file::{CodeError, CodeErrorKind};
use commands::Fault;
use compiler::CompileError;
use kbart_rows::TableError;
use kev_read::KevError;
use registry::AddErrorKind;
use registry_file::{TargetError, TargetFault};
use rule_parser::{RuleError, RuleErrorKind};
use std::alloc::AllocError;
use std::process::Abort;
use uri_grammar::{TemplateError, TemplateErrorKind};
use verifier::LoadError;

/// Fails unless the status and the text are these.
fn same<R: Abort>(rt: &R, found: (u8, &str), expected: (u8, &str)) {
    assert_eq!(rt; found, expected);
}

/// The error has this exit status and this text.
fn prints<R: Abort + AllocGlobal>(
    rt: &R,
    fault: Fault<'_>,
    status: u8,
    line: &str,
) -> Result<(), AllocError> {
    let printed = format!(in rt.alloc(); "{fault}")?;
    same(rt, (fault.status(), printed.as_str()), (status, line));
    Ok(())
}

/// The same for what was read.
fn refuses<R: Abort + AllocGlobal>(
    rt: &R,
    refusal: Refusal,
    status: u8,
    line: &str,
) -> Result<(), AllocError> {
    prints(rt, Fault::from(refusal), status, line)
}

/// The kinds of errors of templates, and their printed names.
const TEMPLATES: [(TemplateErrorKind, &str); 7] = [
    (TemplateErrorKind::TooLong, "TooLong"),
    (TemplateErrorKind::Unclosed, "Unclosed"),
    (TemplateErrorKind::EmptyExpression, "EmptyExpression"),
    (TemplateErrorKind::ReservedOperator, "ReservedOperator"),
    (TemplateErrorKind::BadName, "BadName"),
    (TemplateErrorKind::BadModifier, "BadModifier"),
    (TemplateErrorKind::BadLiteral, "BadLiteral"),
];

/// What was read is refused with status 3, and with the text before the word, the word and the text after it.
fn refuses_with<R: Abort + AllocGlobal>(
    rt: &R,
    refusal: Refusal,
    before: &str,
    word: &str,
    after: &str,
) -> Result<(), AllocError> {
    let line = format!(in rt.alloc(); "{before}{word}{after}")?;
    refuses(rt, refusal, 3, line.as_str())
}

#[test]
fn errors_of_templates(rt: HostRuntime) -> Result<(), AllocError> {
    for (kind, word) in TEMPLATES {
        let refusal = Refusal::Template(TemplateError { kind, at: 7 });
        refuses_with(&rt, refusal, "template: ", word, " at 7")?;
        let kind = RuleErrorKind::Template(kind);
        let refusal = Refusal::Rules(RuleError { kind, line: 2 });
        refuses_with(&rt, refusal, "rules: line 2: Template ", word, "")?;
    }
    Ok(())
}

/// The same for rule files.
const RULES: [(RuleErrorKind, &str); 5] = [
    (RuleErrorKind::TooLong, "rules: line 0: TooLong"),
    (RuleErrorKind::NotUtf8, "rules: line 0: NotUtf8"),
    (RuleErrorKind::BadLine, "rules: line 0: BadLine"),
    (RuleErrorKind::NoLink, "rules: line 0: NoLink"),
    (RuleErrorKind::KindMismatch, "rules: line 0: KindMismatch"),
];

/// The same for rules that are compiled.
const COMPILED: [(CompileError, &str); 4] = [
    (CompileError::TooManyNames, "compile: TooManyNames"),
    (CompileError::TooManyLiterals, "compile: TooManyLiterals"),
    (
        CompileError::TooManyInstructions,
        "compile: TooManyInstructions",
    ),
    (CompileError::FileTooLong, "compile: FileTooLong"),
];

#[test]
fn errors_of_rules(rt: HostRuntime) -> Result<(), AllocError> {
    for (kind, line) in RULES {
        refuses(&rt, Refusal::Rules(RuleError { kind, line: 0 }), 3, line)?;
    }
    for (error, line) in COMPILED {
        refuses(&rt, Refusal::Compile(error), 3, line)?;
    }
    Ok(())
}

/// The same for code files.
const CODES: [(CodeErrorKind, &str); 9] = [
    (CodeErrorKind::TooLong, "TooLong"),
    (CodeErrorKind::BadMagic, "BadMagic"),
    (CodeErrorKind::Truncated, "Truncated"),
    (CodeErrorKind::TooMany, "TooMany"),
    (CodeErrorKind::NoCode, "NoCode"),
    (CodeErrorKind::BadName, "BadName"),
    (CodeErrorKind::BadKind, "BadKind"),
    (CodeErrorKind::BadLiteral, "BadLiteral"),
    (CodeErrorKind::Trailing, "Trailing"),
];

#[test]
fn errors_of_code_files(rt: HostRuntime) -> Result<(), AllocError> {
    for (kind, word) in CODES {
        let refusal = Refusal::Code(CodeError { kind, at: 10 });
        refuses_with(&rt, refusal, "code: ", word, " at 10")?;
        let refusal = Refusal::Load(LoadError::Code(kind, 10));
        refuses_with(&rt, refusal, "load: ", word, " at 10")?;
    }
    Ok(())
}

/// The same for code that is loaded.
const LOADED: [(LoadError, &str); 14] = [
    (LoadError::UnknownOp(0), "load: UnknownOp at 0"),
    (LoadError::BadField(1), "load: BadField at 1"),
    (LoadError::BadRegister(2), "load: BadRegister at 2"),
    (LoadError::BadIndex(3), "load: BadIndex at 3"),
    (LoadError::WrongTableKind(4), "load: WrongTableKind at 4"),
    (LoadError::JumpNotForward(5), "load: JumpNotForward at 5"),
    (LoadError::JumpOut(6), "load: JumpOut at 6"),
    (LoadError::CrossesLoop(7), "load: CrossesLoop at 7"),
    (LoadError::NestedLoop(8), "load: NestedLoop at 8"),
    (LoadError::BadLoop(9), "load: BadLoop at 9"),
    (LoadError::StrayNext(10), "load: StrayNext at 10"),
    (LoadError::StraySep(11), "load: StraySep at 11"),
    (LoadError::FallsOff(4095), "load: FallsOff at 4095"),
    (
        LoadError::KindMismatch(13, 2),
        "load: KindMismatch at 13, r2",
    ),
];

#[test]
fn errors_of_code(rt: HostRuntime) -> Result<(), AllocError> {
    for (error, line) in LOADED {
        refuses(&rt, Refusal::Load(error), 3, line)?;
    }
    let refusal = Refusal::OverBudget(1_200_000);
    refuses(&rt, refusal, 3, "over budget: 1200000")
}

/// The same for tables.
const TABLES: [(TableError, &str); 5] = [
    (TableError::TooLong, "table: TooLong"),
    (TableError::NotUtf8, "table: NotUtf8"),
    (TableError::NoHeader, "table: NoHeader"),
    (TableError::TooManyRows, "table: TooManyRows"),
    (TableError::RowTooLong, "table: RowTooLong"),
];

/// The same for targets that are added to a registry.
const ADDED: [(AddErrorKind, &str); 2] = [
    (AddErrorKind::Full, "target a: Full"),
    (AddErrorKind::BadTargetName, "target a: BadTargetName"),
];

/// The error of a target.
fn of_target<R: Abort + AllocGlobal>(
    rt: &R,
    fault: TargetFault,
    status: u8,
    line: &str,
) -> Result<(), AllocError> {
    let name = String::from_str(rt.alloc(), "a")?;
    let fault = Fault::Target(TargetError { name, fault });
    prints(rt, fault, status, line)
}

#[test]
fn errors_of_targets(rt: HostRuntime) -> Result<(), AllocError> {
    for (error, line) in TABLES {
        refuses(&rt, Refusal::Table(error), 3, line)?;
        of_target_table(&rt, error, line)?;
    }
    for (kind, line) in ADDED {
        of_target(&rt, TargetFault::Add(kind), 3, line)?;
    }
    let load = TargetFault::Load(LoadError::BadIndex(3));
    of_target(&rt, load, 3, "target a: load: BadIndex at 3")?;
    let path = String::from_str(rt.alloc(), "a.olk")?;
    of_target(&rt, TargetFault::Device(path), 4, "target a: device: a.olk")
}

/// The error of a target's table, whose text follows that of the target.
fn of_target_table<R: Abort + AllocGlobal>(
    rt: &R,
    error: TableError,
    line: &str,
) -> Result<(), AllocError> {
    let line = format!(in rt.alloc(); "target a: {line}")?;
    of_target(rt, TargetFault::Table(error), 3, line.as_str())
}

/// The same for queries.
const QUERIES: [(KevError, &str); 3] = [
    (KevError::TooLong, "query: TooLong"),
    (KevError::TooManyPairs, "query: TooManyPairs"),
    (KevError::WrongVersion, "query: WrongVersion"),
];

#[test]
fn errors_of_all_commands(rt: HostRuntime) -> Result<(), AllocError> {
    for (error, line) in QUERIES {
        refuses(&rt, Refusal::Query(error), 3, line)?;
    }
    prints(&rt, Fault::Device("-"), 4, "device: -")?;
    prints(&rt, Fault::Usage, 2, "usage")?;
    prints(&rt, Fault::Port("080"), 4, "device: 127.0.0.1:080")?;
    prints(&rt, Fault::Registry(2), 3, "registry: line 2")
}

#[test]
fn memory_that_ran_out_has_status_4(rt: HostRuntime) -> Result<(), AllocError> {
    refuses(&rt, Refusal::Memory, 4, "out of memory")
}

#[test]
fn no_link_has_status_1(rt: HostRuntime) {
    let statuses = (
        Fault::from(Refusal::NoLink).status(),
        Fault::Warning.status(),
    );
    assert_eq!(rt; statuses, (1, 1));
}
