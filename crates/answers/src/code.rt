//! The code of rules.

ghost use Rattle.answers.specs.Code.{IsCodeOf};
ghost use Rattle.answers.specs.Results.{file_result};

use crate::reading::rules_of;
use crate::refusal::Refusal;
use compiler::{CompileError, compile};
use compiler_model::laws::compiled_code_is_accepted;
use std::alloc::Global;
use verifier::laws::accepted_file_has_no_fault;

/// The code file of the rules of a rule text. The verifier accepts it, and it gives what the rules mean.
pub fn code_of(alloc: Global, bytes: &[u8]) -> Result<Vec<u8>, Refusal>
    ensures { IsCodeOf bytes.now (file_result result) }
{
    compiled_code_is_accepted();
    accepted_file_has_no_fault();
    let code = compile(alloc, &rules_of(alloc, bytes)?);
    match code {
        Ok(code) => Ok(code.write(alloc)?),
        Err(e) if e == CompileError::NoMemory => Err(Refusal::Memory),
        Err(e) => Err(Refusal::Compile(e)),
    }
}
