//! Tests that `./test allocations` runs with each of their allocations failing in turn: what a call returns then, and
//! what it leaves. If an allocation of the tested call fails, the test compares this and then ends with the error
//! `CALL: out of memory`.
#![tactic(auto)]

#[cfg(test)]
mod codes;
#[cfg(test)]
mod exchanges;
#[cfg(test)]
mod targets;

#[cfg(test)]
use std::alloc::Global;
#[cfg(test)]
use std::test::Fail;

/// The last allocation of each test, by which `./test allocations` sees that it has tried them all.
#[cfg(test)]
fn allocate_last(alloc: Global) -> Result<(), Fail> {
    match String::from_str(alloc, "last") {
        Ok(_) => Ok(()),
        Err(_) => Err(Fail::new("last: out of memory")),
    }
}
