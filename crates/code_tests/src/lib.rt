//! Tests of what no command of the program shows: the checked machine, and that accepted code runs as it does; the
//! steps and turns of a run; codes that no file has and environments that no query makes; that writing does not let a
//! text grow; and errors that no command prints. The scripts in `tests/commands` test templates, rules, code files,
//! listings, verdicts, budgets, links and compiled rules through the program.
#![tactic(auto)]

#[cfg(test)]
mod tests;
