//! Commands over files in memory, each of whose calls fails in turn; a service for peers in memory; a command over real
//! files; outputs that fail; and the line of each error.
#![tactic(auto)]

#[cfg(test)]
mod commands_in_memory;
#[cfg(test)]
mod known_system;
#[cfg(test)]
mod outputs;
#[cfg(test)]
mod printed_errors;
#[cfg(test)]
mod real_files;
#[cfg(test)]
mod results;

#[cfg(test)]
use commands::{System, command};
#[cfg(test)]
use files_in_memory::{Content, FailingMemory, Memory};
#[cfg(test)]
use known_system::{KnownKeys, OnePort, Outside};
#[cfg(test)]
use std::alloc::{AllocError, Global};
#[cfg(test)]
use std::process::Abort;

/// Files of these bytes, keys, and a port to which nobody connects.
#[cfg(test)]
fn outside(alloc: Global, contents: &[(&str, &[u8])]) -> Result<Outside, AllocError> {
    let mut files = Memory::new(alloc);
    for (path, bytes) in contents {
        files.put(path, Content::File(Vec::from_slice(alloc, bytes)?))?;
    }
    Ok(System {
        files: FailingMemory::new(files),
        keys: KnownKeys {
            numbers: Some((1, 2)),
        },
        ports: OnePort { peers: None },
        alloc,
    })
}

/// The status of a command, what it printed, and its errors.
#[cfg(test)]
#[derive(Drop)]
struct Given {
    status: u8,
    output: Vec<u8>,
    errors: Vec<u8>,
}

/// Runs the command. The only error is that memory runs out.
#[cfg(test)]
fn run(outside: &mut Outside, arguments: &[&str]) -> Result<Given, AllocError> {
    let (mut output, mut errors) = (Vec::new(outside.alloc), Vec::new(outside.alloc));
    let status = command(outside, arguments, &mut output, &mut errors);
    if errors.as_slice() == b"openlink: out of memory\n".as_slice() {
        return Err(AllocError);
    }
    Ok(Given {
        status,
        output,
        errors,
    })
}

/// Fails unless the command gave this status, output and line of an error.
#[cfg(test)]
fn same<R: Abort>(rt: &R, arguments: &[&str], given: &Given, expected: (u8, &str, &str)) {
    let found = (
        given.status,
        given.output.as_slice(),
        given.errors.as_slice(),
    );
    let (status, output, errors) = expected;
    let expected = (status, output.as_bytes(), errors.as_bytes());
    assert_eq!(rt; found, expected, "{arguments:?}");
}

/// The line of an error, with `openlink: ` before it; the empty text if there is none.
#[cfg(test)]
fn error_line(alloc: Global, error: &str) -> Result<String, AllocError> {
    if error.is_empty() {
        Ok(String::new(alloc))
    } else {
        format!(in alloc; "openlink: {error}\n")
    }
}

/// Runs the command, and compares its status, what it prints and its error, without `openlink: ` before it.
#[cfg(test)]
fn gives<R: Abort + AllocGlobal>(
    rt: &R,
    outside: &mut Outside,
    arguments: &[&str],
    status: u8,
    printed: &str,
    error: &str,
) -> Result<(), AllocError> {
    let line = error_line(rt.alloc(), error)?;
    let given = run(outside, arguments)?;
    same(rt, arguments, &given, (status, printed, line.as_str()));
    Ok(())
}

/// The bytes of the file at the path, if it is a regular file.
#[cfg(test)]
fn bytes<'a>(outside: &'a Outside, path: &str) -> Option<&'a [u8]> {
    match outside.files.memory.content(path) {
        Some(Content::File(bytes)) => Some(bytes.as_slice()),
        _ => None,
    }
}
