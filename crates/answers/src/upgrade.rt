//! The code of a file, as a file of version 2.

ghost use Rattle.answers.specs.Results.{file_result};
ghost use Rattle.answers.specs.Upgrade.{IsUpgradeOf};

use crate::reading::read_code;
use crate::refusal::Refusal;
use std::alloc::Global;

/// The code file of the same code in version 2.
pub fn upgrade_of(alloc: Global, bytes: &[u8]) -> Result<Vec<u8>, Refusal>
    ensures { IsUpgradeOf bytes.now (file_result result) }
{
    let upgraded = read_code(alloc, bytes)?.upgrade(alloc);
    let file = upgraded?.write(alloc);
    Ok(file?)
}
