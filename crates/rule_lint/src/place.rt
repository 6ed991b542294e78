//! The place of a finding.

/// Where in the rules something is found. Rules, and the guards of a rule, count from 1.
#[derive(Clone, Copy)]
pub enum Place {
    /// A guard of a rule.
    Guard { rule: usize, guard: usize },
    /// The link of a rule.
    Link { rule: usize },
}
