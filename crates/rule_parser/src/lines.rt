//! The lines of a rule text.

ghost use Rattle.std.specs.Prelude.{◌≡◌, ◌<◌, ◌⊎◌, map, IfOk, IfErr};
ghost use Rattle.rule_parser.specs.Rules.{IsSound};
ghost use Rattle.rule_parser.specs.Statements.{line_of, statements};
ghost use Rattle.rule_parser.specs.Grammar.{is_significant as says_something, significant};
ghost use Rattle.rule_parser.specs.Faults.{IsFirstRuleError};
ghost use Rattle.rule_parser.specs.declared.error.TheConstants.{NO_MEMORY};

use crate::error::RuleError;
use crate::reader::Reader;
use crate::rules::Rules;
use std::alloc::Global;

/// The rules of the lines; empty lines and comments are skipped.
pub(crate) fn read_lines(alloc: Global, lines: &[&str]) -> Result<Rules, RuleError>
    ensures sound { IfOk result IsSound }
    ensures spelled { IfOk result (λ rules. significant (map (λ line. line.now) lines.now)
        ≡ map line_of (statements rules)) }
    ensures err { IfErr result
        (λ e. (e ≡ NO_MEMORY) ⊎ IsFirstRuleError (map (λ line. line.now) lines.now) e.kind e.line) }
{
    let mut reader = Reader::new(alloc);
    for (i, line) in lines.iter().enumerate() {
        if is_significant(line) {
            reader.read(alloc, i + 1, line)?;
        }
    }
    reader.finish()
}

fn is_significant(line: &str) -> bool
    ensures { result ≡ says_something line.now }
{
    match line.as_bytes() {
        [] | [b'#', ..] => false,
        _ => true,
    }
}
