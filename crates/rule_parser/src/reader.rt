//! Reading a rule text, line by line.

ghost use Rattle.std.specs.Prelude.{◌≡◌, ◌++◌, true, codes, is_some, Err, IfOk, IfErr, OnOk};
ghost use Rattle.uri_grammar.specs.Names.{IsName};
ghost use Rattle.rule_parser.specs.declared.error.TheConstants.{NO_MEMORY};
ghost use Rattle.rule_parser.specs.Faults.{AreSoundSoFar, takes_lists as lists_may_come};
ghost use Rattle.rule_parser.specs.Statements.{Begin, line_of};
ghost use Rattle.rule_parser.specs.Private.Progress.{so_far_of, Continues, KeepsLine, IsStepFault, no_rules};

use crate::error::{RuleError, RuleErrorKind};
use crate::guard::guard;
use crate::kinds::{guard_fits, parts_fit};
use crate::names::copy;
use crate::rule::{Guard, Guards, Rule};
use crate::rules::Rules;
use std::alloc::Global;
use std::mem;
use uri_grammar::{Template, Text, is_name};

/// What the lines so far have given.
#[derive(Drop)]
pub(crate) struct Reader {
    pub(crate) lists: Vec<Text>,
    pub(crate) rules: Vec<Rule>,
    /// The line of the rule whose link has not been read yet.
    pub(crate) rule_line: Option<usize>,
    /// The guards of that rule.
    pub(crate) guards: Vec<Guard>,
}

impl Reader {
    pub(crate) fn new(alloc: Global) -> Reader
        ensures { so_far_of result ≡ no_rules }
    {
        Reader {
            lists: Vec::new(alloc),
            rules: Vec::new(alloc),
            rule_line: None,
            guards: Vec::new(alloc),
        }
    }

    /// Reads one more line, which is neither empty nor a comment.
    pub(crate) fn read(&mut self, alloc: Global, number: usize, line: &str) -> Result<(), RuleError>
        requires { AreSoundSoFar (so_far_of self.old) }
        ensures ok { OnOk result (Continues (so_far_of self.old) (so_far_of self.new) line.now) }
        ensures line { OnOk result (KeepsLine self.old self.new number) }
        ensures err { IfErr result (IsStepFault self.old number line.now) }
    {
        if line == "rule" {
            return self.begin(alloc, number);
        }
        if let Some(name) = line.strip_prefix("list ") {
            return self.declare(alloc, number, name);
        }
        if let Some(tokens) = line.strip_prefix("when ") {
            return self.add_guard(alloc, number, tokens);
        }
        if let Some(text) = line.strip_prefix("link ") {
            return self.add_link(alloc, number, text);
        }
        Err(RuleError::new(RuleErrorKind::BadLine, number))
    }

    fn begin(&mut self, alloc: Global, number: usize) -> Result<(), RuleError>
        requires { AreSoundSoFar (so_far_of self.old) }
        ensures ok { OnOk result (Continues (so_far_of self.old) (so_far_of self.new) (line_of Begin)) }
        ensures line { OnOk result (KeepsLine self.old self.new number) }
        ensures err { IfErr result (λ e. (e.kind ≡ RuleErrorKind.NoLink) × (self.old.rule_line ≡ Some e.line)) }
    {
        if let Some(line) = self.rule_line {
            return Err(RuleError::new(RuleErrorKind::NoLink, line));
        }
        self.rule_line = Some(number);
        self.guards = Vec::new(alloc);
        Ok(())
    }

    fn is_in_rule(&self) -> bool
        ensures { result ≡ is_some (so_far_of self.now).guards }
    {
        self.rule_line.is_some()
    }

    fn takes_lists(&self) -> bool
        ensures { result ≡ lists_may_come (so_far_of self.now) }
    {
        self.rule_line.is_none() && self.rules.is_empty()
    }

    fn declare(&mut self, alloc: Global, number: usize, name: &str) -> Result<(), RuleError>
        requires { AreSoundSoFar (so_far_of self.old) }
        ensures ok { OnOk result (Continues (so_far_of self.old) (so_far_of self.new) (codes "list " ++ name.now)) }
        ensures line { OnOk result (KeepsLine self.old self.new number) }
        ensures err { IfErr result (IsStepFault self.old number (codes "list " ++ name.now)) }
        ensures no_memory { result ≡ Err NO_MEMORY → IsName name.now × (lists_may_come (so_far_of self.old) ≡ true) }
    {
        if !is_name(name) {
            return Err(RuleError::new(RuleErrorKind::BadLine, number));
        }
        if !self.takes_lists() {
            return Err(RuleError::new(RuleErrorKind::BadLine, number));
        }
        self.lists.push(copy(alloc, name)?)?;
        Ok(())
    }

    fn add_guard(&mut self, alloc: Global, number: usize, tokens: &str) -> Result<(), RuleError>
        requires { AreSoundSoFar (so_far_of self.old) }
        ensures ok { OnOk result (Continues (so_far_of self.old) (so_far_of self.new) (codes "when " ++ tokens.now)) }
        ensures line { OnOk result (KeepsLine self.old self.new number) }
        ensures err { IfErr result (IsStepFault self.old number (codes "when " ++ tokens.now)) }
        ensures no_memory { result ≡ Err NO_MEMORY → is_some (so_far_of self.old).guards ≡ true }
    {
        if !self.is_in_rule() {
            return Err(RuleError::new(RuleErrorKind::BadLine, number));
        }
        let Some(guard) = guard(alloc, tokens)? else {
            return Err(RuleError::new(RuleErrorKind::BadLine, number));
        };
        if !guard_fits(&self.lists, &guard) {
            return Err(RuleError::new(RuleErrorKind::KindMismatch, number));
        }
        self.guards.push(guard)?;
        Ok(())
    }

    fn add_link(&mut self, alloc: Global, number: usize, text: &str) -> Result<(), RuleError>
        requires { AreSoundSoFar (so_far_of self.old) }
        ensures ok { OnOk result (Continues (so_far_of self.old) (so_far_of self.new) (codes "link " ++ text.now)) }
        ensures line { OnOk result (KeepsLine self.old self.new number) }
        ensures err { IfErr result (IsStepFault self.old number (codes "link " ++ text.now)) }
        ensures no_memory { result ≡ Err NO_MEMORY → is_some (so_far_of self.old).guards ≡ true }
    {
        if !self.is_in_rule() {
            return Err(RuleError::new(RuleErrorKind::BadLine, number));
        }
        let template = match Template::parse(alloc, text) {
            Ok(template) => template,
            Err(e) => return Err(RuleError::in_template(e.kind, number)),
        };
        if !parts_fit(&self.lists, template.parts()) {
            return Err(RuleError::new(RuleErrorKind::KindMismatch, number));
        }
        let guards = mem::replace(&mut self.guards, Vec::new(alloc));
        self.rules.push(Rule {
            guards: Guards::new(guards),
            template,
        })?;
        self.rule_line = None;
        Ok(())
    }

    /// The rules, unless the link of the last one is missing.
    pub(crate) fn finish(self) -> Result<Rules, RuleError>
        requires { AreSoundSoFar (so_far_of self) }
        ensures ok { IfOk result (λ rules. so_far_of self ≡ record { whole = rules; guards = None }) }
        ensures err { IfErr result (λ e. (e.kind ≡ RuleErrorKind.NoLink) × (self.rule_line ≡ Some e.line)) }
    {
        match self.rule_line {
            Some(line) => Err(RuleError::new(RuleErrorKind::NoLink, line)),
            None => Ok(Rules::new(self.lists, self.rules)),
        }
    }
}
