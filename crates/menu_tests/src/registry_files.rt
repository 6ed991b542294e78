//! Registry files whose calls fail, and the keys of their tables.

use crate::codes::FAIL_CODE;
use files_in_memory::{Content, FailingMemory, Memory};
use kbart_rows::{KeySource, Keys, SystemKeys};
use registry::Target;
use registry_file::{RegistryError, load_registry};
use std::alloc::{AllocError, Global};
use std::cell::Cell;
use std::hash::{BuildHasher, Hasher};
use std::io;
use std::random::RandomSource;
use std::test::Fail;

const PATH: &str = "registry.txt";

/// The files of two targets, and the registry file.
const FILES: [(&str, &[u8]); 3] = [
    ("a code.olk", FAIL_CODE),
    ("table.txt", b"title_url\nhttp://e.org/a\n"),
    (
        PATH,
        b"alpha\ta code.olk\ttable.txt\nbeta\ta code.olk\ttable.txt\n",
    ),
];

/// The files, in memory.
fn memory(alloc: Global) -> Result<Memory, AllocError> {
    let mut memory = Memory::new(alloc);
    for (path, bytes) in FILES {
        memory.put(path, Content::File(Vec::from_slice(alloc, bytes)?))?;
    }
    Ok(memory)
}

/// The error, as it is printed, if call number 0, 1, .. fails; the empty text if there is none.
const FAULTS: [&str; 6] = [
    "device",
    "target alpha: device: a code.olk",
    "target alpha: device: table.txt",
    "target beta: device: a code.olk",
    "target beta: device: table.txt",
    "",
];

fn is_printed(alloc: Global, fault: &RegistryError, expected: &str) -> Result<bool, Fail> {
    if matches!(fault, RegistryError::NoMemory) {
        return Err(AllocError.into());
    }
    let printed = format!(in alloc; "{fault}")?;
    Ok(printed.as_str() == expected)
}

/// Whether this error is returned if this call fails.
fn fails<K: KeySource>(
    alloc: Global,
    keys: &mut K,
    calls: usize,
    expected: &str,
) -> Result<bool, Fail> {
    let mut files = FailingMemory::new(memory(alloc)?);
    files.fail_after(calls);
    match load_registry(alloc, &mut files, keys, PATH) {
        Ok(_) => Ok(expected.is_empty()),
        Err(fault) => is_printed(alloc, &fault, expected),
    }
}

#[test]
fn each_call_fails_in_turn(rt: HostRuntime) -> Result<(), Fail> {
    for (calls, expected) in FAULTS.into_iter().enumerate() {
        let mut keys = SystemKeys::new(&rt);
        assert!(rt;
            fails(rt.alloc(), &mut keys, calls, expected)?,
            "{expected}"
        );
    }
    Ok(())
}

/// A system whose random bytes are 1 at the first call, 2 at the second, and so on.
#[derive(Drop)]
struct Counting {
    calls: Cell<u8>,
}

impl RandomSource for Counting {
    fn fill_bytes(&self, buf: &mut [u8]) -> io::Result<()> {
        self.calls.set(self.calls.get().wrapping_add(1));
        buf.fill(self.calls.get());
        Ok(())
    }
}

/// Whether the hash of no bytes under the table's keys is the one under these.
fn has_keys(target: &Target, keys: Keys) -> bool {
    let hash = target.table().keys().build_hasher().finish();
    hash == keys.build_hasher().finish()
}

/// A number is drawn for each of the two keys, once for all tables.
#[test]
fn tables_have_the_drawn_keys(rt: HostRuntime) -> Result<(), Fail> {
    let mut files = memory(rt.alloc())?;
    let numbers = Counting {
        calls: Cell::new(0),
    };
    let mut keys = SystemKeys::new(&numbers);
    let registry = load_registry(rt.alloc(), &mut files, &mut keys, PATH)?;
    assert_eq!(rt; registry.targets().len(), 2);
    let expected = Keys::new(0x0101_0101_0101_0101, 0x0202_0202_0202_0202);
    for target in registry.targets() {
        assert!(rt; has_keys(target, expected));
    }
    Ok(())
}
