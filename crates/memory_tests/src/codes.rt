//! Code files that are loaded, and runs that start.

use crate::allocate_last;
use code_file::CodeErrorKind::{BadMagic, Truncated};
use interpreter::{Outcome, PrepareError, prepare};
use std::test::Fail;
use target_vars::Env;
use verifier::{LoadError, load};

/// A loop over the members of `list`, with a comma between them.
const LIST_FILE: &[u8; 68] = b"OLK1\x00\x01\x00\x01\x00\x06\x01\x04list\x00\x00\x01,\
    \x05\x00\x00\x00\x00\x00\x00\x00\x10\x01\x00\x00\x00\x00\x00\x05\x11\x00\x00\x00\x00\x00\x00\x00\
    \x0e\x01\x00\x00\x00\x00\x00\x00\x12\x00\x00\x00\x00\x00\x00\x00\x01\x00\x00\x00\x00\x00\x00\x00";

#[test]
fn a_file_is_loaded(rt: HostRuntime) -> Result<(), Fail> {
    match load(rt.alloc(), LIST_FILE) {
        Ok(code) => assert_eq!(rt; code.code().len(), 6),
        Err(LoadError::NoMemory) => return Err(Fail::new("load: out of memory")),
        Err(error) => return Err(Fail::from(error)),
    }
    allocate_last(rt.alloc())
}

/// The error of a file that is cut short is the same if an allocation fails.
#[test]
fn a_cut_file_is_rejected(rt: HostRuntime) -> Result<(), Fail> {
    for n in 0..68 {
        let expected = match n {
            0..4 => LoadError::Code(BadMagic, 0),
            _ => LoadError::Code(Truncated, n),
        };
        let error = load(rt.alloc(), &LIST_FILE[..n]).err();
        assert_eq!(rt; error, Some(expected), "of {n} bytes");
    }
    allocate_last(rt.alloc())
}

/// A run is never over budget because an allocation fails.
#[test]
fn a_run_starts(rt: HostRuntime) -> Result<(), Fail> {
    let code = load(rt.alloc(), LIST_FILE)?;
    let mut env = Env::new(rt.alloc());
    for member in ["red", "green", "blue"] {
        env.add_member("list", member)?;
    }
    match prepare(rt.alloc(), &code, &env) {
        Ok(run) => match run.finish() {
            Outcome::Link(link) => assert_eq!(rt; link.as_str(), "red,green,blue"),
            Outcome::NoLink => assert!(rt; false),
        },
        Err(PrepareError::NoMemory) => return Err(Fail::new("prepare: out of memory")),
        Err(error) => return Err(Fail::from(error)),
    }
    allocate_last(rt.alloc())
}
