//! The names by which a request can set the host of a link.

ghost use Rattle.std.specs.Prelude.{◌≡◌, ◌&&◌, ◌++◌, ◌∷◌, List, [], IfOk, OnOk, true};
ghost use Rattle.text_model.specs.Texts.{texts_of};
ghost use Rattle.rule_lint.specs.Host as hosts;
ghost use Rattle.rule_lint.specs.HostStates.{after_texts, is_inside as has_begun};
ghost use Rattle.rule_lint.specs.Private.Ends.{AreEnds};
ghost use Rattle.uri_grammar.specs.declared.parts.Part.{Part as PartValue};

use crate::distinct::distinct;
use crate::host_state::{
    HostState, after_byte, after_text, ends_host, is_hostless, is_inside, is_past,
};
use crate::target::Target;
use std::alloc::{AllocError, Global};
use uri_grammar::{Op, Part, Spec};

/// What is found of the host of a link.
#[derive(Drop)]
pub(crate) struct Host<'b> {
    /// The names by which a request can set it, in order, each once.
    pub(crate) names: Vec<&'b str>,
    /// Whether a row may give no host, or one with an `@`.
    pub(crate) may_be_missing: bool,
}

fn leads_past_host(op: Op) -> bool
    ensures { result ≡ hosts.leads_past_host op }
{
    matches!(op, Op::Slash | Op::Question | Op::Hash)
}

/// Whether the part decides that `/`, `?` or `#` comes next, or that it does not; `None` if it may write nothing.
fn decides_end(part: &Part) -> Option<bool>
    ensures { result ≡ hosts.decides_end part.now }
{
    match part {
        Part::Literal(text) => begins_with_end(text.as_str().as_bytes()),
        Part::Expression { op, .. } => {
            if leads_past_host(*op) {
                None
            } else {
                Some(false)
            }
        }
    }
}

fn begins_with_end(text: &[u8]) -> Option<bool>
    ensures { result ≡ hosts.begins_with_end text.now }
{
    match text {
        [b, ..] => Some(ends_host(*b)),
        [] => None,
    }
}

/// Whether `/`, `?` or `#` comes next, whatever is defined, before each of the parts and after the last one.
fn ends_before_each(alloc: Global, parts: &[Part]) -> Result<Vec<bool>, AllocError>
    ensures { IfOk result (λ ends. AreEnds ends.items parts.now 0) }
{
    let mut ends = vec![in alloc; true; parts.len() + 1]?;
    let mut k = parts.len();
    while k > 0 {
        k -= 1;
        ends[k] = decides_end(&parts[k]).unwrap_or(ends[k + 1]);
    }
    Ok(ends)
}

/// Whether the host has begun and ends before an expression. `ends` says that of what comes after it.
fn is_ended(state: HostState, op: Op, ends: bool) -> bool
    ensures { result ≡ (has_begun state && (hosts.leads_past_host op && ends)) }
{
    is_inside(state) && leads_past_host(op) && ends
}

impl<'a> Target<'a> {
    fn are_rows_own(&self, specs: &[Spec]) -> bool
        ensures { result ≡ hosts.are_rows_own self.now.rules.now self.now.table.now specs.now }
    {
        specs
            .iter()
            .all(|spec| self.is_rows_own(spec.name.as_str()))
    }

    fn add_if_open<'b>(&self, names: &mut Vec<&'b str>, spec: &'b Spec) -> Result<(), AllocError>
        ensures { OnOk result (texts_of names.new.items ≡ texts_of names.old.items
            ++ hosts.open_among self.now.rules.now self.now.table.now (spec.now ∷ [])) }
    {
        if self.is_rows_own(spec.name.as_str()) {
            return Ok(());
        }
        names.push(spec.name.as_str())?;
        Ok(())
    }

    fn add_open<'b>(&self, names: &mut Vec<&'b str>, specs: &'b [Spec]) -> Result<(), AllocError>
        ensures { OnOk result (texts_of names.new.items
            ≡ texts_of names.old.items ++ hosts.open_among self.now.rules.now self.now.table.now specs.now) }
    {
        for spec in specs {
            self.add_if_open(names, spec)?;
        }
        Ok(())
    }

    /// The state after an expression all of whose names the row decides.
    fn after_own(&self, state: HostState, op: Op, specs: &[Spec]) -> HostState
        requires { hosts.are_rows_own self.now.rules.now self.now.table.now specs.now ≡ true }
        ensures { result ≡ hosts.after_own self.now.table.now state op specs.now }
    {
        match (state, op) {
            (HostState::Past, _) => HostState::Past,
            (HostState::Lost, _) => HostState::Lost,
            (_, Op::Simple | Op::Dot) => after_byte(state, b'x'),
            (_, Op::Plus) => self.after_cells(state, specs),
            (HostState::Inside, Op::Slash | Op::Question | Op::Hash) => HostState::Past,
            _ => HostState::Lost,
        }
    }

    /// The state after the whole cell of a single name, as it is in each row.
    fn after_cells(&self, state: HostState, specs: &[Spec]) -> HostState
        requires own { hosts.are_rows_own self.now.rules.now self.now.table.now specs.now ≡ true }
        requires early { hosts.is_early state ≡ true }
        ensures { result ≡ hosts.after_whole_cells self.now.table.now state specs.now }
    {
        match specs {
            [name] if name.cut == 0 => self.after_cells_of(state, name.name.as_str()),
            _ => HostState::Lost,
        }
    }

    fn after_cells_of(&self, state: HostState, name: &str) -> HostState
        requires early { hosts.is_early state ≡ true }
        ensures { result ≡ after_texts state (hosts.cells_of_name self.now.table.now name.now) }
    {
        match self.table.column(name) {
            Some(k) => self.columns[k].after(state),
            None => HostState::Past,
        }
    }

    /// The state after a part. `ends` says whether `/`, `?` or `#` comes next after it.
    fn after_part(&self, state: HostState, part: &Part, ends: bool) -> HostState
        ensures { (rest : List PartValue) → hosts.ends_next rest ≡ ends
            → result ≡ hosts.after_part self.now.rules.now self.now.table.now state part.now rest }
    {
        match part {
            Part::Literal(text) => after_text(state, text.as_str().as_bytes()),
            Part::Expression { op, specs } => {
                self.after_expression(state, *op, specs.as_slice(), ends)
            }
        }
    }

    fn after_expression(&self, state: HostState, op: Op, specs: &[Spec], ends: bool) -> HostState
        ensures { (rest : List PartValue) → hosts.ends_next rest ≡ ends
            → result ≡ hosts.after_expression self.now.rules.now self.now.table.now state op specs.now rest }
    {
        if self.are_rows_own(specs) {
            return self.after_own(state, op, specs);
        }
        if is_ended(state, op, ends) {
            HostState::Past
        } else {
            state
        }
    }

    /// Adds the names of a part that the row does not decide, unless the host has ended before it.
    fn add_open_names<'b>(
        &self,
        names: &mut Vec<&'b str>,
        state: HostState,
        part: &'b Part,
        ends: bool,
    ) -> Result<(), AllocError>
        ensures { OnOk result ((rest : List PartValue) → hosts.ends_next rest ≡ ends
            → texts_of names.new.items ≡ texts_of names.old.items
            ++ hosts.open_names self.now.rules.now self.now.table.now state part.now rest) }
    {
        match part {
            Part::Literal(_) => Ok(()),
            Part::Expression { op, specs } => {
                if is_past(state) || is_ended(state, *op, ends) {
                    return Ok(());
                }
                self.add_open(names, specs.as_slice())
            }
        }
    }

    /// What is found of the host of a link.
    pub(crate) fn host<'b>(&self, alloc: Global, parts: &'b [Part]) -> Result<Host<'b>, AllocError>
        ensures names { IfOk result (λ host. texts_of host.names.items
            ≡ hosts.host_names self.now.rules.now self.now.table.now parts.now) }
        ensures missing { IfOk result (λ host. host.may_be_missing
            ≡ hosts.may_be_hostless self.now.rules.now self.now.table.now parts.now) }
    {
        let mut names = Vec::new(alloc);
        let mut state = HostState::Outside;
        let ends = ends_before_each(alloc, parts)?;
        for (k, part) in parts.iter().enumerate() {
            let is_end = ends[k + 1];
            self.add_open_names(&mut names, state, part, is_end)?;
            state = self.after_part(state, part, is_end);
        }
        Ok(Host {
            names: distinct(alloc, self.table.keys(), &names)?,
            may_be_missing: is_hostless(state),
        })
    }
}
