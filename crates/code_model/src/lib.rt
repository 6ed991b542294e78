//! Code as data: its tables, its instructions, and the fields that encode an instruction. Only definitions; nothing
//! here runs.
#![tactic(auto)]

mod code;

pub use code::{Instr, Instruction};
