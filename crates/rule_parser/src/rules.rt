//! The rules of a target.

ghost use Rattle.std.specs.Prelude.{◌≡◌, ◌<◌, ◌≤◌, ◌↔◌, ◌⊎◌, map, length, IsUtf8, Err, IfOk, IfErr};
ghost use Rattle.rule_parser.specs.Grammar.{IsRuleText};
ghost use Rattle.rule_parser.specs.Faults.{IsRefused};
ghost use Rattle.environment_model.specs.Lists.{is_list as denotes_list, list_names};
ghost use Rattle.rule_parser.specs.Names.{each_once};
ghost use Rattle.rule_parser.specs.declared.guard.TheConstants.{MAX_DIGITS};
ghost use Rattle.rule_parser.specs.Rules.{IsSound};

use crate::error::{RuleError, RuleErrorKind};
use crate::lines::read_lines;
use crate::names::is_list;
use crate::rule::Rule;
use std::alloc::{AllocError, Global};
use std::marker::Model;
use target_vars::{AUTHORS, IDENTIFIERS};
use uri_grammar::Text;

/// The maximum size of a rule text, in bytes.
pub const MAX_BYTES: usize = 65_536;

/// The rules of a target.
#[derive(Drop)]
pub struct Rules {
    lists: Vec<Text>,
    rules: Vec<Rule>,
}

impl Model for Rules {
    ghost use Rattle.rule_parser.specs.Rules.{RuleSet, IsSound};

    ghost Value = { RuleSet };

    ghost view = { λ rules. record { lists = rules.lists.items; rules = rules.rules.items } };

    ghost invariant = { λ rules. IsSound (record { lists = rules.lists.items; rules = rules.rules.items }) };
}

impl Rules {
    pub(crate) fn new(lists: Vec<Text>, rules: Vec<Rule>) -> Rules
        requires { IsSound (record { lists = lists.items; rules = rules.items }) }
        ensures { result ≡ record { lists = lists.items; rules = rules.items } }
    {
        Rules { lists, rules }
    }

    /// Reads a rule text of at most [`MAX_BYTES`] bytes: UTF-8 lines that end with LF, or with CR and LF; the last end
    /// may be missing. Empty lines, and lines that begin with `#`, are skipped. First come lines `list NAME`, then
    /// rules: a line `rule`, any number of lines `when ..`, and one line `link TEMPLATE`.
    ///
    /// Any other bytes are rejected by their first error. A rule without a link is found where the next one begins, or
    /// at the end. `NoMemory` if an allocation failed, but never instead of `TooLong` and `NotUtf8`. The clause
    /// `limits` says what the limits of every rule text are.
    pub fn parse(alloc: Global, bytes: &[u8]) -> Result<Rules, RuleError>
        ensures limits { (MAX_BYTES ≡ 65536) × (MAX_DIGITS ≡ 9) }
        ensures ok { IfOk result (λ rules. IsRuleText bytes.now rules) }
        ensures err { IfErr result (λ e. (e ≡ record { kind = RuleErrorKind.NoMemory; line = 0 })
            ⊎ IsRefused bytes.now e.kind e.line) }
        ensures too_long { (result ≡ Err (record { kind = RuleErrorKind.TooLong; line = 0 }))
            ↔ (MAX_BYTES < length bytes.now) }
        ensures not_utf8 { (result ≡ Err (record { kind = RuleErrorKind.NotUtf8; line = 0 }))
            ↔ ((length bytes.now ≤ MAX_BYTES) × (IsUtf8 bytes.now → ⊥)) }
    {
        if bytes.len() > MAX_BYTES {
            return Err(RuleError::new(RuleErrorKind::TooLong, 0));
        }
        let Ok(text) = str::from_utf8(bytes) else {
            return Err(RuleError::new(RuleErrorKind::NotUtf8, 0));
        };
        let lines: Vec<&str> = text.lines().collect(alloc)?;
        read_lines(alloc, &lines)
    }

    /// The names that denote lists, each once: `rft.au` and `rft_id`, the keys of ANSI/NISO Z39.88 that can occur more
    /// than once, and then the declared names in the order of their lines.
    ///
    /// `AllocError` if an allocation failed.
    pub fn lists(&self, alloc: Global) -> Result<Vec<&str>, AllocError>
        ensures { IfOk result (λ lists. map (λ list. list.now) lists.items ≡ each_once (list_names self.now.lists)) }
    {
        let mut lists = vec![in alloc; AUTHORS, IDENTIFIERS]?;
        for list in &self.lists {
            let name = list.as_str();
            if !lists.contains(&name) {
                lists.push(name)?;
            }
        }
        Ok(lists)
    }

    /// The rules, in the order of their lines.
    pub fn rules(&self) -> &[Rule]
        ensures rules { result.now ≡ self.now.rules }
        ensures sound { IsSound self.now }
    {
        &self.rules
    }

    /// Whether the name is one of [`Rules::lists`].
    pub fn is_list(&self, name: &str) -> bool
        ensures { result ≡ denotes_list self.now.lists name.now }
    {
        is_list(&self.lists, name)
    }
}
