//! What holds for all accepted code. These functions have empty bodies; each contract is a theorem.

ghost use Rattle.text_model.specs.Texts.{Text};
ghost use Rattle.code_model.specs.Code.{Code};
ghost use Rattle.code_file.specs.Grammar.{IsCodeFile};
ghost use Rattle.machine_model.specs.Form.{HasGoodForm};
ghost use Rattle.machine_model.specs.Typable.{IsTypable};
ghost use Rattle.verifier.specs.Accepted.{HasNoFault};

use code_file::laws::{file_has_no_fault, file_has_one_code};
use machine_laws::{form_is_decided, mismatch_is_exact};

/// The verifier finds no error in the file of a code that has good form and is typable: it can only run out of memory.
pub fn accepted_file_has_no_fault()
    ensures { (bytes : Text) (c : Code) → IsCodeFile bytes c → HasGoodForm c → IsTypable c → HasNoFault bytes }
{
    file_has_no_fault();
    file_has_one_code();
    form_is_decided();
    mismatch_is_exact();
}
