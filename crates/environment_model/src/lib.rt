//! The environment that templates, guards and code look names up in. Only definitions; nothing here runs.
#![tactic(auto)]
