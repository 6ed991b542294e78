//! The arguments of the process, as the system gives them.

ghost use Rattle.std.specs.Prelude.{◌≡◌, ◌⊎◌, map, string_bytes, IfOk, IfErr};
ghost use Rattle.text_model.specs.Texts.{texts_of};
ghost use Rattle.commands.specs.Faults.{out_of_memory};

use crate::fault::Fault;
use answers::Refusal;
use std::alloc::{AllocError, Global};
use std::env::{self, Env};
use std::io::ErrorKind;

/// The arguments after the program's name. Arguments that are not UTF-8, or that the system cannot provide, count as
/// wrong arguments.
pub fn program_arguments<R: Env + AllocGlobal>(rt: &R) -> Result<Vec<String>, Fault<'static>>
    ensures { IfErr result (λ fault. (fault ≡ Fault.Usage) ⊎ (fault ≡ out_of_memory)) }
{
    match env::args(rt) {
        Ok(arguments) => Ok(arguments.skip(1).collect(rt.alloc())?),
        Err(e) if e.kind() == ErrorKind::OutOfMemory => Err(Fault::Refused(Refusal::Memory)),
        Err(_) => Err(Fault::Usage),
    }
}

/// The arguments as borrowed texts.
pub fn argument_texts(alloc: Global, arguments: &[String]) -> Result<Vec<&str>, AllocError>
    ensures { IfOk result (λ texts. texts_of texts.items ≡ map string_bytes arguments.now) }
{
    let mut texts = Vec::new(alloc);
    for argument in arguments {
        texts.push(argument.as_str())?;
    }
    Ok(texts)
}
