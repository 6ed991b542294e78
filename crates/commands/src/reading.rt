//! Files that a command reads.

ghost use Rattle.std.specs.Prelude.{◌≡◌, ◌≤◌, ◌+◌, ◌<◌, ◌^◌, IfOk, IfErr, length};
ghost use Rattle.files.specs.Found.{Gives};
ghost use Rattle.files.specs.Changes.{Unchanged};
ghost use Rattle.kbart_rows.specs.RandomKeys.{IsDrawn};
ghost use Rattle.commands.specs.Reading.{HasRules, IsNoTarget, IsTarget, IsUnread, IsUnkeyed, IsUnruled};

use crate::fault::Fault;
use answers::{Refusal, rules_of};
use files::{FileError, Files, ReadError, read_whole};
use kbart_rows::{KeySource, Keys, MAX_TABLE_BYTES, TableError};
use rule_parser::{MAX_BYTES, RuleError, RuleErrorKind, Rules};
use std::alloc::Global;

/// The error of a rule file of more than 65,536 bytes.
pub(crate) const LONG_RULES: RuleError = RuleError {
    kind: RuleErrorKind::TooLong,
    line: 0,
};

/// All bytes of the file at the path; the error is `too_long` if it has more than `limit`. Of a longer file, one byte
/// more than the limit is read into memory.
pub(crate) fn read_file<'a, F: Files>(
    alloc: Global,
    files: &mut F,
    path: &'a str,
    limit: usize,
    too_long: Refusal,
) -> Result<Vec<u8>, Fault<'a>>
    requires { limit + 1 < 2 ^ 63 }
    ensures ok { IfOk result (λ bytes. Gives (F.at files.old path.now) bytes.items) }
    ensures short { IfOk result (λ bytes. length bytes.items ≤ limit) }
    ensures err { IfErr result (IsUnread F.at F.fails F.runs_out files.old files.new
        (record { limit = limit; too_long = too_long }) path.entry) }
    ensures same { Unchanged (F.at files.old) (F.at files.new) }
{
    match read_whole(alloc, files, path, limit) {
        Ok(bytes) => Ok(bytes),
        Err(ReadError::TooLong) => Err(Fault::Refused(too_long)),
        Err(ReadError::File(FileError::Failed)) => Err(Fault::Device(path)),
        Err(ReadError::File(FileError::NoMemory)) => Err(Fault::Refused(Refusal::Memory)),
    }
}

/// The rules of the file at the path, which has at most 65,536 bytes.
fn read_rules<'a, F: Files>(alloc: Global, files: &mut F, path: &'a str) -> Result<Rules, Fault<'a>>
    ensures ok { IfOk result (HasRules (F.at files.old path.now)) }
    ensures err { IfErr result (IsUnruled F.at F.fails F.runs_out files.old files.new path.entry) }
    ensures same { Unchanged (F.at files.old) (F.at files.new) }
{
    let bytes = read_file(alloc, files, path, MAX_BYTES, Refusal::Rules(LONG_RULES))?;
    Ok(rules_of(alloc, &bytes)?)
}

/// All bytes of the holdings table at the path, at most 16,777,216, and random keys for its hashed look-ups.
pub(crate) fn read_keyed<'a, F: Files, K: KeySource>(
    alloc: Global,
    files: &mut F,
    keys: &mut K,
    path: &'a str,
) -> Result<(Vec<u8>, Keys), Fault<'a>>
    ensures ok { IfOk result (λ read. Gives (F.at files.old path.now) read.0.items) }
    ensures drawn { IfOk result (λ read. IsDrawn K.draws keys.old read.1 keys.new) }
    ensures err { IfErr result (IsUnkeyed F.at F.fails F.runs_out K.fails files.old files.new keys.old keys.new
        path.entry) }
    ensures same { Unchanged (F.at files.old) (F.at files.new) }
{
    let too_long = Refusal::Table(TableError::TooLong);
    let bytes = read_file(alloc, files, path, MAX_TABLE_BYTES, too_long)?;
    match keys.draw() {
        Ok(keys) => Ok((bytes, keys)),
        Err(_) => Err(Fault::Device(path)),
    }
}

/// The rules of the first file, which is read first, all bytes of the table at the second path, and random keys.
pub(crate) fn read_target<'a, F: Files, K: KeySource>(
    alloc: Global,
    files: &mut F,
    keys: &mut K,
    rules: &'a str,
    table: &'a str,
) -> Result<(Rules, Vec<u8>, Keys), Fault<'a>>
    ensures ok { IfOk result (λ target. IsTarget K.draws (F.at files.old) keys.old keys.new rules.entry
        table.entry target.0 target.1.items target.2) }
    ensures err { IfErr result (IsNoTarget F.at F.fails F.runs_out K.fails files.old files.new keys.old keys.new
        rules.entry table.entry) }
    ensures same { Unchanged (F.at files.old) (F.at files.new) }
{
    let rules = read_rules(alloc, files, rules)?;
    let (bytes, keys) = read_keyed(alloc, files, keys, table)?;
    Ok((rules, bytes, keys))
}
