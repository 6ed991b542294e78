//! The verdict on code.

ghost use Rattle.std.specs.Prelude.{◌≡◌, ◌++◌, IfOk, OnOk, string_bytes};
ghost use Rattle.answers.specs.Results.{text_result};
ghost use Rattle.answers.specs.Verdict.{steps_line, bytes_line, verdict, IsVerdictOf};

use crate::reading::accepted_code;
use crate::refusal::Refusal;
use budget::Budget;
use std::alloc::{AllocError, Global};

/// Three lines for the code of a code file, if the verifier accepts it: `ok`, its bound on steps, and its bound on
/// bytes of output.
pub fn verdict_of(alloc: Global, bytes: &[u8]) -> Result<String, Refusal>
    ensures { IsVerdictOf bytes.now (text_result result) }
{
    let lines = budget_lines(alloc, accepted_code(alloc, bytes)?.budget());
    Ok(lines?)
}

/// The lines for accepted code with this budget.
fn budget_lines(alloc: Global, budget: Budget) -> Result<String, AllocError>
    ensures { IfOk result (λ text. string_bytes text ≡ verdict budget) }
{
    let mut out = String::new(alloc);
    out.push_str("ok\n")?;
    push_steps(&mut out, budget.s0, budget.s1)?;
    push_bytes(&mut out, budget.o0, budget.o1, budget.o2, budget.o3)?;
    Ok(out)
}

/// Appends the bound on steps, where M is the number of members of all lists.
fn push_steps(out: &mut String, s0: u64, s1: u64) -> Result<(), AllocError>
    ensures { OnOk result (string_bytes out.new ≡ string_bytes out.old ++ steps_line s0 s1) }
{
    writeln!(out, "steps {s0} + {s1}*M")
}

/// Appends the bound on bytes of output, where E is the number of bytes of all texts and members.
fn push_bytes(out: &mut String, o0: u64, o1: u64, o2: u64, o3: u64) -> Result<(), AllocError>
    ensures { OnOk result (string_bytes out.new ≡ string_bytes out.old ++ bytes_line o0 o1 o2 o3) }
{
    writeln!(out, "bytes {o0} + {o1}*M + {o2}*E + {o3}*M*E")
}
