//! The files of the system, by each of their calls.

use files::{FileError, Files, SystemFiles};
use std::alloc::Global;
use std::test::Fail;

/// A call, or what makes or reads a file by several.
#[derive(Copy, Clone)]
enum Step {
    Write(&'static str),
    Read(&'static str),
    Rename(&'static str, &'static str),
    CheckPlace(&'static str),
    Remove(&'static str),
}

/// Writes a new file in two parts.
fn write_new<F: Files>(files: &mut F, path: &str) -> Result<(), FileError> {
    let mut draft = files.create(path)?;
    files.write(&mut draft, b"ab")?;
    files.write(&mut draft, b"c")?;
    files.keep(draft)
}

/// Whether the file has what is written.
fn has_both_parts<F: Files>(alloc: Global, files: &mut F, path: &str) -> bool {
    match files.read(alloc, path, 100) {
        Ok(bytes) => bytes.as_slice() == b"abc".as_slice(),
        Err(_) => false,
    }
}

/// Whether the step succeeds.
fn succeeds<F: Files>(alloc: Global, files: &mut F, step: Step) -> bool {
    match step {
        Step::Write(path) => write_new(files, path).is_ok(),
        Step::Read(path) => has_both_parts(alloc, files, path),
        Step::Rename(from, to) => from != to && files.rename(from, to).is_ok(),
        Step::CheckPlace(path) => files.check_place(path).is_ok(),
        Step::Remove(path) => files.remove(path).is_ok(),
    }
}

/// Steps in their order, and whether each succeeds.
const STEPS: [(Step, bool); 10] = [
    (Step::Write("a file.new"), true),
    (Step::Write("a file.new"), false),
    (Step::Rename("a file.new", "a file"), true),
    (Step::Read("a file"), true),
    (Step::Rename("a file.new", "a file"), false),
    (Step::CheckPlace("a file"), true),
    (Step::Remove("a file"), true),
    (Step::Remove("a file"), false),
    (Step::CheckPlace("a file"), true),
    (Step::Read("a file"), false),
];

#[test]
fn a_file_is_written_renamed_and_removed(rt: HostRuntime) -> Result<(), Fail> {
    let mut files = SystemFiles::new(&rt);
    for (number, (step, expected)) in STEPS.into_iter().enumerate() {
        assert_eq!(rt;
            succeeds(rt.alloc(), &mut files, step),
            expected,
            "step {number}"
        );
    }
    Ok(())
}
