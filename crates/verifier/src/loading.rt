//! Loading: from bytes to accepted code.

ghost use Rattle.std.specs.Prelude.{◌≡◌, ℕ, length, IfOk, IfErr};
ghost use Rattle.code_model.specs.Code.{Code};
ghost use Rattle.code_file.specs.Grammar.{IsCodeFile};
ghost use Rattle.machine_model.specs.First.{Located};
ghost use Rattle.machine_model.specs.Form.{HasGoodForm};
ghost use Rattle.machine_model.specs.Typable.{IsTypable};
ghost use Rattle.verifier.specs.Accepted.{IsAcceptedFile};
ghost use Rattle.verifier.specs.Faults.{IsLoadFault, IsCodeRefusal, mismatch_error};
ghost use Rattle.verifier.specs.Private.Layouts.{AreInstructions};

use crate::compared::join_compared;
use crate::error::LoadError;
use crate::laws::accepted_file_has_no_fault;
use crate::layout::Layout;
use crate::mismatch::first_mismatch;
use crate::verified::Verified;
use crate::walk::least_table;
use code_file::Code;
use code_file::laws::file_has_one_code;
use code_model::Instruction;
use machine_laws::{form_is_decided, least_table_decides, mismatch_is_exact, typable_code_is_safe};
use std::alloc::Global;

/// The instructions of a code of good form that is typable, or why it is not.
fn check(alloc: Global, code: &Code) -> Result<Vec<Instruction>, LoadError>
    ensures form { IfOk result (λ _. HasGoodForm code.now) }
    ensures typable { IfOk result (λ _. IsTypable code.now) }
    ensures instructions { IfOk result (λ v. AreInstructions code.now (length code.now.instrs) v.items) }
    ensures refused { IfErr result (IsCodeRefusal code.now) }
{
    form_is_decided();
    least_table_decides();
    let layout = Layout::new(alloc, code)?;
    if let Some(found) = layout.first_fault() {
        return Err(LoadError::of_form(found.0, found.1));
    }
    let table = least_table(alloc, &layout)?;
    if let Some(found) = first_mismatch(&layout, &table) {
        return Err(LoadError::KindMismatch(found.1, found.0));
    }
    Ok(layout.instructions(alloc)?)
}

/// Reads code from anyone, of either version, and accepts it if it is of good form and typable. Accepted code is safe
/// on every environment; for code that is rejected with `KindMismatch`, no table of kinds fits.
///
/// The error is the first one: of the file, with its byte; then of form, in the order of the places; then of kinds,
/// in the order of the places. `NoMemory` is returned only for bytes that are a code file; other bytes are rejected
/// without an allocation. A loop's body is walked again only if a kind changed at its first place.
pub fn load(alloc: Global, bytes: &[u8]) -> Result<Verified, LoadError>
    ensures accepted { IfOk result (IsAcceptedFile bytes.now) }
    ensures refused { IfErr result (IsLoadFault bytes.now) }
    ensures exact { IfErr result (λ e. (m : Located ℕ) (c : Code) → e ≡ mismatch_error m → IsCodeFile bytes.now c
        → IsTypable c → ⊥) }
{
    typable_code_is_safe();
    mismatch_is_exact();
    file_has_one_code();
    accepted_file_has_no_fault();
    let code = Code::read(alloc, bytes)?;
    let instructions = check(alloc, &code)?;
    let compared = join_compared(alloc, &code)?;
    Ok(Verified::new(code, instructions, compared))
}
