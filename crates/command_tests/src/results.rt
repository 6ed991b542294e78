//! What commands print for files, their exit statuses, and which error is reported first.

use crate::known_system::Outside;
use crate::{bytes, gives, outside, run};
use commands::command;
use files_in_memory::{Content, NEW_MODE};
use std::alloc::{AllocError, Global};
use streams_in_memory::Peers;

/// Rules whose list is declared.
const RULES: &[u8] = b"list tags\nrule\nwhen has x\nlink http://e.org/{tags*}\n";

/// A loop over the members of `list`, with a comma between them.
const LIST: &[u8] = b"OLK1\0\x01\0\x01\0\x06\x01\x04list\0\0\x01,\
    \x05\0\0\0\0\0\0\0\x10\x01\0\0\0\0\0\x05\x11\0\0\0\0\0\0\0\
    \x0e\x01\0\0\0\0\0\0\x12\0\0\0\0\0\0\0\x01\0\0\0\0\0\0\0";

/// TEXT r2 n0, PUT r2 u, HALT: prints a text that may be undefined.
const UNSAFE: &[u8] = b"OLK1\0\x01\0\0\0\x03\0\x01x\
    \x04\x02\0\0\0\0\0\0\x0e\x02\0\0\0\0\0\0\x01\0\0\0\0\0\0\0";

/// TEXT r2 n0, UNDEF r2 3, PUT r2 u, HALT.
const GUARDED: &[u8] = b"OLK1\0\x01\0\0\0\x04\0\x01x\
    \x04\x02\0\0\0\0\0\0\x08\x02\0\0\0\0\0\x03\
    \x0e\x02\0\0\0\0\0\0\x01\0\0\0\0\0\0\0";

/// FAIL, and nothing else.
const FAIL: &[u8] = b"OLK1\0\0\0\0\0\x01\x02\0\0\0\0\0\0\0";

const FILES: [(&str, &[u8]); 7] = [
    ("tags.rules", RULES),
    ("list.olk", LIST),
    ("unsafe.olk", UNSAFE),
    ("guarded.olk", GUARDED),
    ("fail.olk", FAIL),
    ("line", b"alpha\n"),
    ("empty", b""),
];

/// Commands, their status, what they print, and their error.
const RESULTS: [(&[&str], u8, &str, &str); 18] = [
    (
        &[
            "expand",
            "--list",
            "list",
            "{list*}/{x}",
            "list=a&list=b&x=1",
        ],
        0,
        "a,b/1\n",
        "",
    ),
    (&["expand", "{a b}", ""], 3, "", "template: BadName at 1"),
    (
        &["expand", "{", "url_ver=1"],
        3,
        "",
        "template: Unclosed at 0",
    ),
    (
        &["expand", "{x}", "ctx_ver=Z39.88-2005&x=1"],
        3,
        "",
        "query: WrongVersion",
    ),
    (
        &["link", "tags.rules", "x=1&tags=a&tags=b"],
        0,
        "http://e.org/a,b\n",
        "",
    ),
    (&["link", "tags.rules", "tags=a"], 1, "", ""),
    (
        &["show", "unsafe.olk"],
        0,
        "OLK1 names 1 literals 0 instructions 3\nname 0 text x\n0 TEXT r2 n0\n1 PUT r2 u\n2 HALT\n",
        "",
    ),
    (&["show", "line"], 3, "", "code: BadMagic at 0"),
    (
        &["verify", "list.olk"],
        0,
        "ok\nsteps 3 + 3*M\nbytes 0 + 1*M + 3*E + 0*M*E\n",
        "",
    ),
    (
        &["verify", "guarded.olk"],
        0,
        "ok\nsteps 4 + 0*M\nbytes 0 + 0*M + 3*E + 0*M*E\n",
        "",
    ),
    (
        &["verify", "unsafe.olk"],
        3,
        "",
        "load: KindMismatch at 1, r2",
    ),
    (
        &["run", "list.olk", "list=red&list=green&list=blue"],
        0,
        "red,green,blue\n",
        "",
    ),
    (&["run", "list.olk", ""], 0, "\n", ""),
    (&["run", "fail.olk", ""], 1, "", ""),
    (
        &["run", "fail.olk", "url_ver=1"],
        3,
        "",
        "query: WrongVersion",
    ),
    (&["resolve", "line", "url_ver=1"], 3, "", "registry: line 1"),
    (
        &["read", "rft_val_fmt=x&volume=12"],
        0,
        "rft.volume\t12\nrft_val_fmt\tx\nvolume\t12\n",
        "",
    ),
    (&["serve", "none", "0", "1000000"], 4, "", "device: none"),
];

#[test]
fn statuses_and_lines(rt: HostRuntime) -> Result<(), AllocError> {
    let mut outside = outside(rt.alloc(), &FILES)?;
    for (arguments, status, printed, error) in RESULTS {
        gives(&rt, &mut outside, arguments, status, printed, error)?;
    }
    Ok(())
}

/// The text `x` twenty times, or nothing: TEXT r2 n0, UNDEF r2 22, twenty times PUT r2 u, HALT.
fn twenty_texts(alloc: Global) -> Result<Vec<u8>, AllocError> {
    let mut code = Vec::from_slice(
        alloc,
        b"OLK1\0\x01\0\0\0\x17\0\x01x\
        \x04\x02\0\0\0\0\0\0\x08\x02\0\0\0\0\0\x16",
    )?;
    for _time in 0..20 {
        code.extend_from_slice(b"\x0e\x02\0\0\0\0\0\0")?;
    }
    code.extend_from_slice(b"\x01\0\0\0\0\0\0\0")?;
    Ok(code)
}

fn put_twenty_texts(outside: &mut Outside) -> Result<(), AllocError> {
    let code = twenty_texts(outside.alloc)?;
    outside.files.memory.put("twenty.olk", Content::File(code))
}

/// A query with 20,000 letters.
fn long_query(alloc: Global) -> Result<String, AllocError> {
    let letters = "a".repeat(alloc, 20_000)?;
    format!(in alloc; "x={letters}")
}

/// Each of the 20,000 letters might be percent-encoded as three bytes.
#[test]
fn over_budget(rt: HostRuntime) -> Result<(), AllocError> {
    let mut outside = outside(rt.alloc(), &FILES)?;
    put_twenty_texts(&mut outside)?;
    let query = long_query(rt.alloc())?;
    let run = ["run", "twenty.olk", query.as_str()];
    gives(&rt, &mut outside, &run, 3, "", "over budget: 1200000")
}

/// Whether the file is the loop over the members of `list`, in version 2.
fn is_upgraded(file: Option<&[u8]>) -> bool {
    match file {
        Some(file) => file.starts_with(b"OLK2") && file[4..] == LIST[4..],
        None => false,
    }
}

#[test]
fn an_upgraded_file_has_version_2(rt: HostRuntime) -> Result<(), AllocError> {
    let mut outside = outside(rt.alloc(), &FILES)?;
    let upgrade = ["upgrade", "list.olk", "new"];
    gives(&rt, &mut outside, &upgrade, 0, "68 bytes\n", "")?;
    assert!(rt; is_upgraded(bytes(&outside, "new")));
    assert!(rt; bytes(&outside, "list.olk") == Some(LIST));
    Ok(())
}

/// A file that is replaced keeps its mode, and a file that was not there has the mode of a new one.
#[test]
fn a_replaced_file_keeps_its_mode(rt: HostRuntime) -> Result<(), AllocError> {
    let mut outside = outside(rt.alloc(), &FILES)?;
    let empty = Content::File(Vec::new(rt.alloc()));
    outside.files.memory.put("old", empty)?;
    outside.files.memory.set_mode_at("old", 384)?;
    for path in ["old", "new"] {
        let upgrade = ["upgrade", "list.olk", path];
        gives(&rt, &mut outside, &upgrade, 0, "68 bytes\n", "")?;
    }
    assert_eq!(rt; outside.files.memory.mode("old"), Some(384));
    assert_eq!(rt; outside.files.memory.mode("new"), Some(NEW_MODE));
    Ok(())
}

/// Commands, the error of each for a file of 65,536 bytes, and the error for a file of one byte more.
const LONG: [(&[&str], &str, &str); 4] = [
    (
        &["compile", "long", "new"],
        "rules: line 1: BadLine",
        "rules: line 0: TooLong",
    ),
    (
        &["show", "long"],
        "code: BadMagic at 0",
        "code: TooLong at 65536",
    ),
    (
        &["verify", "long"],
        "load: BadMagic at 0",
        "load: TooLong at 65536",
    ),
    (
        &["resolve", "long", ""],
        "registry: line 1",
        "registry: line 0",
    ),
];

/// Puts a file of `count` letters at the path `long`.
fn put_long(outside: &mut Outside, count: usize) -> Result<(), AllocError> {
    let letters = vec![in outside.alloc; b'x'; count]?;
    outside.files.memory.put("long", Content::File(letters))
}

#[test]
fn files_up_to_their_limits(rt: HostRuntime) -> Result<(), AllocError> {
    let mut outside = outside(rt.alloc(), &FILES)?;
    put_long(&mut outside, 65_536)?;
    for (arguments, error, _) in LONG {
        gives(&rt, &mut outside, arguments, 3, "", error)?;
    }
    put_long(&mut outside, 65_537)?;
    for (arguments, _, error) in LONG {
        gives(&rt, &mut outside, arguments, 3, "", error)?;
    }
    Ok(())
}

/// Whether the command, with an output that takes only three bytes, ends with the status and the error of a device.
fn is_narrow(outside: &mut Outside, arguments: &[&str]) -> bool {
    let mut room = [0; 3];
    let mut output = &mut room[..];
    let mut errors = Vec::new(outside.alloc);
    let status = command(outside, arguments, &mut output, &mut errors);
    (status, errors.as_slice()) == (4, b"openlink: device: -\n".as_slice())
}

#[test]
fn an_output_that_fails_is_a_device(rt: HostRuntime) -> Result<(), AllocError> {
    let mut outside = outside(rt.alloc(), &FILES)?;
    outside.ports.peers = Some(Peers::new(rt.alloc()));
    assert!(rt; is_narrow(&mut outside, &["run", "list.olk", "list=red"]));
    assert!(rt; is_narrow(&mut outside, &["serve", "empty", "80", "1"]));
    Ok(())
}

/// Whether this one argument prints the help, and no error.
fn prints_help(outside: &mut Outside, argument: &str) -> Result<bool, AllocError> {
    let given = run(outside, &[argument])?;
    let begins = given
        .output
        .starts_with(b"openlink resolves OpenURL 1.0 requests");
    Ok((given.status, begins, given.errors.is_empty()) == (0, true, true))
}

#[test]
fn three_arguments_print_the_help(rt: HostRuntime) -> Result<(), AllocError> {
    let mut outside = outside(rt.alloc(), &FILES)?;
    for argument in ["--help", "-h", "help"] {
        assert!(rt; prints_help(&mut outside, argument)?, "{argument}");
    }
    Ok(())
}
