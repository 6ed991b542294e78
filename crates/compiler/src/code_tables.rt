//! The tables of the lines of all rules.

ghost use Rattle.std.specs.Prelude.{◌≡◌, ◌+◌, ◌≤◌, ℕ, Some, All, length, min, IfOk, IfErr, OnOk};
ghost use Rattle.std.specs.List.{filter_map};
ghost use Rattle.compiler_model.specs.Tables.{is_same_name, is_same_literal, name_used, literal_used, names_of};
ghost use Rattle.compiler_model.specs.Tables.{literals_of};
ghost use Rattle.compiler.specs.Private.Growth.{gathered, IsUtf8Literal};
ghost use Rattle.compiler.specs.Private.RuleLines.{lines_in, with_fail};
ghost use Rattle.compiler.specs.Limits.{first_passed};

use crate::error::CompileError;
use crate::tables::{add_literals, add_names};
use code_file::{Literal, MAX_INSTRS, MAX_LITERALS, MAX_NAMES, Name};
use compiler_model::Line;
use std::alloc::{AllocError, Global};

/// The names and the literals that lines use, and how many lines there are.
#[derive(Drop)]
pub(crate) struct Tables {
    pub(crate) names: Vec<Name>,
    pub(crate) literals: Vec<Literal>,
    pub(crate) lines: usize,
}

impl Tables {
    fn add(&mut self, alloc: Global, lines: &[Line]) -> Result<(), AllocError>
        requires { All IsUtf8Literal self.old.literals.items }
        ensures names { OnOk result
            (self.new.names.items ≡ gathered is_same_name self.old.names.items (filter_map name_used lines.now)) }
        ensures literals { OnOk result (self.new.literals.items ≡ gathered is_same_literal self.old.literals.items
            (filter_map literal_used lines.now)) }
        ensures utf8 { OnOk result (All IsUtf8Literal self.new.literals.items) }
        ensures lines { OnOk result (self.new.lines ≡ min (self.old.lines + length lines.now) usize.MAX) }
    {
        add_names(alloc, &mut self.names, lines)?;
        add_literals(alloc, &mut self.literals, lines)?;
        self.lines = self.lines.saturating_add(lines.len());
        Ok(())
    }

    /// The tables of the lines of all rules, with FAIL after them.
    pub(crate) fn of_lines(alloc: Global, rules: &[Vec<Line>]) -> Result<Tables, AllocError>
        ensures names { IfOk result (λ tables. tables.names.items ≡ names_of (with_fail (lines_in rules.now))) }
        ensures literals { IfOk result
            (λ tables. tables.literals.items ≡ literals_of (with_fail (lines_in rules.now))) }
        ensures utf8 { IfOk result (λ tables. All IsUtf8Literal tables.literals.items) }
        ensures lines { IfOk result
            (λ tables. tables.lines ≡ min (length (with_fail (lines_in rules.now))) usize.MAX) }
    {
        let mut tables = Tables {
            names: Vec::new(alloc),
            literals: Vec::new(alloc),
            lines: 1,
        };
        for lines in rules {
            tables.add(alloc, lines)?;
        }
        Ok(tables)
    }

    /// Whether code may have that many names, literals and instructions; otherwise the first limit that they exceed.
    pub(crate) fn check(&self) -> Result<(), CompileError>
        ensures names { OnOk result (length self.now.names.items ≤ MAX_NAMES) }
        ensures literals { OnOk result (length self.now.literals.items ≤ MAX_LITERALS) }
        ensures lines { OnOk result (self.now.lines ≤ MAX_INSTRS) }
        ensures err { IfErr result (λ e. (bytes : ℕ)
            → first_passed (length self.now.names.items) (length self.now.literals.items) self.now.lines bytes
            ≡ Some e) }
    {
        if self.names.len() > MAX_NAMES as usize {
            return Err(CompileError::TooManyNames);
        }
        if self.literals.len() > MAX_LITERALS as usize {
            return Err(CompileError::TooManyLiterals);
        }
        if self.lines > MAX_INSTRS as usize {
            return Err(CompileError::TooManyInstructions);
        }
        Ok(())
    }
}
