//! What bytes are read as. An allocation that fails is the same error, wherever it was.

ghost use Rattle.std.specs.Prelude.{◌≡◌, IfOk, IfErr};
ghost use Rattle.rule_parser.specs.Grammar.{IsRuleText};
ghost use Rattle.code_file.specs.Grammar.{IsCodeFile};
ghost use Rattle.kbart_rows.specs.Reading.{IsTable};
ghost use Rattle.verifier.specs.Accepted.{IsAcceptedFile};
ghost use Rattle.answers.specs.Reading.{IsNoRules, IsNoCodeFile, IsNotAccepted, IsNoTable};

use crate::refusal::Refusal;
use code_file::{Code, CodeErrorKind};
use kbart_rows::{Keys, Table, TableError};
use rule_parser::{RuleErrorKind, Rules};
use std::alloc::Global;
use verifier::{LoadError, Verified, load};

/// The rules of a rule text.
pub fn rules_of(alloc: Global, bytes: &[u8]) -> Result<Rules, Refusal>
    ensures ok { IfOk result (IsRuleText bytes.now) }
    ensures err { IfErr result (IsNoRules bytes.now) }
{
    match Rules::parse(alloc, bytes) {
        Ok(rules) => Ok(rules),
        Err(e) if e.kind == RuleErrorKind::NoMemory => Err(Refusal::Memory),
        Err(e) => Err(Refusal::Rules(e)),
    }
}

/// The code of a code file.
pub(crate) fn read_code(alloc: Global, bytes: &[u8]) -> Result<Code, Refusal>
    ensures ok { IfOk result (IsCodeFile bytes.now) }
    ensures err { IfErr result (IsNoCodeFile bytes.now) }
{
    match Code::read(alloc, bytes) {
        Ok(code) => Ok(code),
        Err(e) if e.kind == CodeErrorKind::NoMemory => Err(Refusal::Memory),
        Err(e) => Err(Refusal::Code(e)),
    }
}

/// The code of a code file, if the verifier accepts it.
pub(crate) fn accepted_code(alloc: Global, bytes: &[u8]) -> Result<Verified, Refusal>
    ensures ok { IfOk result (IsAcceptedFile bytes.now) }
    ensures err { IfErr result (IsNotAccepted bytes.now) }
{
    match load(alloc, bytes) {
        Ok(code) => Ok(code),
        Err(e) if e == LoadError::NoMemory => Err(Refusal::Memory),
        Err(e) => Err(Refusal::Load(e)),
    }
}

/// The holdings table of a file, with secret keys for its hashed look-ups.
pub fn table_of(alloc: Global, bytes: &[u8], keys: Keys) -> Result<Table, Refusal>
    ensures ok { IfOk result (IsTable bytes.now) }
    ensures keyed { IfOk result (λ table. table.keys ≡ keys) }
    ensures err { IfErr result (IsNoTable bytes.now) }
{
    match Table::read_keyed(alloc, bytes, keys) {
        Ok(table) => Ok(table),
        Err(e) if e == TableError::NoMemory => Err(Refusal::Memory),
        Err(e) => Err(Refusal::Table(e)),
    }
}
