//! What can be read from accepted code.

use super::file;
use code_model::Instruction::{self, Put};
use std::test::Fail;
use verifier::{Verified, load};

fn instruction_at(verified: &Verified, place: usize) -> Option<Instruction> {
    if place < verified.code().len() {
        Some(verified.instruction(place))
    } else {
        None
    }
}

/// Where a comparison text begins among the joined ones, and how many bytes it has.
fn compared_at(verified: &Verified, place: usize) -> Option<(u32, u32)> {
    let code = verified.code();
    if place < code.literals().len() {
        let literal = code.literal(place);
        if literal.compared {
            return Some(verified.compared_at(place));
        }
    }
    None
}

/// Places of literals, and where the text of each begins among the joined ones, with its number of bytes.
const COMPARED: [(usize, Option<(u32, u32)>); 4] = [
    (0, None),
    (1, Some((0, 3))),
    (3, Some((3, 1))),
    (5, Some((14, 6))),
];

fn has_compared(verified: &Verified) -> bool {
    for (place, expected) in COMPARED {
        if compared_at(verified, place) != expected {
            return false;
        }
    }
    verified.compared() == b"12a71234567890%41%4231".as_slice()
}

#[test]
fn reads_what_was_loaded(rt: HostRuntime) -> Result<(), Fail> {
    let file = file(rt.alloc(), b'1', "CONST r0 l3, PUT r0 ur, HALT")?;
    let verified = load(rt.alloc(), &file)?;
    assert!(rt; matches!(instruction_at(&verified, 1), Some(Put(0, 1))));
    assert!(rt; has_compared(&verified));
    Ok(())
}
