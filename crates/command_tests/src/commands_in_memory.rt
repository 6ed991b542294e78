//! Commands over files in memory, with each call that they make failing in turn.

use crate::known_system::Outside;
use crate::{bytes, gives, outside};
use std::alloc::{AllocError, Global};
use std::process::Abort;
use streams_in_memory::Peers;

const RULES: &[u8] = b"rule\nlink http://e.org/{rft.issn}\n";

/// The code that gives `http://e.org/` for every request.
const CODE: &[u8] = b"OLK1\0\0\0\x01\0\x02\0\0\rhttp://e.org/\r\0\0\0\0\0\0\0\x01\0\0\0\0\0\0\0";

const TABLE: &[u8] = b"print_identifier\n1\n";

/// A table whose identifiers are those of online editions.
const ONLINE_TABLE: &[u8] = b"online_identifier\n1\n";

/// Rules and a table that give no warning.
const CLEAN_RULES: &[u8] =
    b"rule\nwhen given rft.volume\nlink https://e.org/{title_id}/{rft.volume}\n";

const CLEAN_TABLE: &[u8] = b"print_identifier\tonline_identifier\ttitle_id\ttitle_url\n\
    2901-0012\t2908-0142\tats\thttps://e.org/ats\n2915-0272\t\thel\thttps://e.org/hel\n";

const FILES: [(&str, &[u8]); 11] = [
    ("a.rules", RULES),
    ("bad.rules", b"rule\n"),
    ("a.olk", CODE),
    ("a.tsv", TABLE),
    ("online.tsv", ONLINE_TABLE),
    ("registry", b"alpha\ta.olk\ta.tsv\n"),
    ("online", b"beta\ta.olk\tonline.tsv"),
    ("clean.rules", CLEAN_RULES),
    ("clean.tsv", CLEAN_TABLE),
    ("empty", b""),
    ("new", b"the old file"),
];

const QUERY: &str = "rft.issn=1";

/// The commands that look into the files of one target.
const INSPECT: &[&str] = &["inspect", "clean.tsv"];

const LINT: &[&str] = &["lint", "clean.rules", "clean.tsv"];

const EXPLAIN: &[&str] = &[
    "explain",
    "clean.rules",
    "clean.tsv",
    "rft.issn=2901-0012&rft.volume=7",
];

/// Commands that succeed, what each prints, and, for each of its calls, the file that the error names if that call
/// fails.
const COMMANDS: [(&[&str], &str, &[&str]); 9] = [
    (
        &["compile", "a.rules", "new"],
        "127 bytes\n",
        &["a.rules", "new", "new", "new", "new", "new", "new"],
    ),
    (
        &["upgrade", "a.olk", "new"],
        "42 bytes\n",
        &["a.olk", "new", "new", "new", "new", "new", "new"],
    ),
    (
        &["link", "a.rules", QUERY],
        "http://e.org/1\n",
        &["a.rules"],
    ),
    (&["run", "a.olk", QUERY], "http://e.org/\n", &["a.olk"]),
    (
        &["show", "a.olk"],
        "OLK1 names 0 literals 1 instructions 2\nliteral 0 link \"http://e.org/\"\n0 EMIT l0\n1 HALT\n",
        &["a.olk"],
    ),
    (
        &["verify", "a.olk"],
        "ok\nsteps 2 + 0*M\nbytes 13 + 0*M + 0*E + 0*M*E\n",
        &["a.olk"],
    ),
    (
        INSPECT,
        "rows 2\nidentifiers 3\nrows of one identifier 1, \"29010012\"\n",
        &["clean.tsv"],
    ),
    (LINT, "rules 1\n", &["clean.rules", "clean.tsv"]),
    (
        EXPLAIN,
        "row 0\n  rule 1 holds: https://e.org/ats/7\n",
        &["clean.rules", "clean.tsv"],
    ),
];

/// The files of the system, of whose calls only this number succeed.
fn outside_with(alloc: Global, calls: usize) -> Result<Outside, AllocError> {
    let mut outside = outside(alloc, &FILES)?;
    outside.files.fail_after(calls);
    Ok(outside)
}

fn has_draft(outside: &Outside) -> bool {
    bytes(outside, "new.new").is_some()
}

fn has_old_file(outside: &Outside) -> bool {
    bytes(outside, "new") == Some(b"the old file".as_slice())
}

/// The command fails at this call, with an error that names the file, and leaves the files as they were.
fn fails_at<R: Abort + AllocGlobal>(
    rt: &R,
    arguments: &[&str],
    calls: usize,
    path: &str,
) -> Result<(), AllocError> {
    let error = format!(in rt.alloc(); "device: {path}")?;
    let mut outside = outside_with(rt.alloc(), calls)?;
    gives(rt, &mut outside, arguments, 4, "", error.as_str())?;
    let left = (has_old_file(&outside), has_draft(&outside));
    assert!(rt; left == (true, false), "{arguments:?}, {calls}");
    Ok(())
}

/// The command succeeds with this number of calls, and leaves no draft.
fn succeeds_with<R: Abort + AllocGlobal>(
    rt: &R,
    arguments: &[&str],
    calls: usize,
    printed: &str,
) -> Result<(), AllocError> {
    let mut outside = outside_with(rt.alloc(), calls)?;
    gives(rt, &mut outside, arguments, 0, printed, "")?;
    assert!(rt; !has_draft(&outside), "{arguments:?}");
    Ok(())
}

#[test]
fn each_call_fails_in_turn(rt: HostRuntime) -> Result<(), AllocError> {
    for (arguments, printed, failing) in COMMANDS {
        for (calls, path) in failing.iter().enumerate() {
            fails_at(&rt, arguments, calls, path)?;
        }
        succeeds_with(&rt, arguments, failing.len(), printed)?;
    }
    Ok(())
}

#[test]
fn reviews_need_keys_for_the_table(rt: HostRuntime) -> Result<(), AllocError> {
    let mut outside = outside(rt.alloc(), &FILES)?;
    outside.keys.numbers = None;
    for arguments in [INSPECT, LINT, EXPLAIN] {
        gives(&rt, &mut outside, arguments, 4, "", "device: clean.tsv")?;
    }
    Ok(())
}

const RESOLVE: &[&str] = &["resolve", "registry", QUERY];

/// How many of its calls succeed, the status, what is printed, and the error.
const RESOLVED: [(usize, u8, &str, &str); 4] = [
    (0, 4, "", "device: registry"),
    (1, 4, "", "target alpha: device: a.olk"),
    (2, 4, "", "target alpha: device: a.tsv"),
    (3, 0, "alpha\thttp://e.org/\n", ""),
];

#[test]
fn resolves(rt: HostRuntime) -> Result<(), AllocError> {
    for (calls, status, printed, error) in RESOLVED {
        let mut outside = outside_with(rt.alloc(), calls)?;
        gives(&rt, &mut outside, RESOLVE, status, printed, error)?;
    }
    let mut others = outside(rt.alloc(), &FILES)?;
    gives(&rt, &mut others, &["resolve", "empty", QUERY], 1, "", "")?;
    others.keys.numbers = None;
    gives(&rt, &mut others, RESOLVE, 4, "", "device: registry")
}

/// `find` makes the calls of `resolve`, and takes a query of any source.
#[test]
fn finds_for_any_source(rt: HostRuntime) -> Result<(), AllocError> {
    let find = ["find", "registry", "issn=1&url_ver=1"];
    for (calls, status, printed, error) in RESOLVED {
        let mut outside = outside_with(rt.alloc(), calls)?;
        gives(&rt, &mut outside, &find, status, printed, error)?;
    }
    let mut others = outside(rt.alloc(), &FILES)?;
    gives(&rt, &mut others, &["find", "empty", QUERY], 1, "", "")?;
    others.keys.numbers = None;
    gives(&rt, &mut others, &find, 4, "", "device: registry")
}

/// A query, and whether it finds the row of a print edition and that of an online edition.
const IDENTIFIERS: [(&str, bool); 9] = [
    ("rft.issn=1", true),
    ("rft.eissn=1", true),
    ("rft.isbn=1", true),
    ("issn=1", false),
    ("eissn=1", false),
    ("isbn=1", false),
    ("rft.issn=2", false),
    ("rft.ISSN=1", false),
    ("rft_id=urn:ISSN:1", false),
];

/// The query finds the target in this registry, or nothing.
fn finds<R: Abort + AllocGlobal>(
    rt: &R,
    outside: &mut Outside,
    registry: &str,
    query: &str,
    link: Option<&str>,
) -> Result<(), AllocError> {
    let (status, printed) = match link {
        Some(link) => (0, link),
        None => (1, ""),
    };
    let resolve = ["resolve", registry, query];
    gives(rt, outside, &resolve, status, printed, "")
}

#[test]
fn three_keys_find_rows(rt: HostRuntime) -> Result<(), AllocError> {
    let mut outside = outside(rt.alloc(), &FILES)?;
    for (query, found) in IDENTIFIERS {
        for (registry, link) in [
            ("registry", "alpha\thttp://e.org/\n"),
            ("online", "beta\thttp://e.org/\n"),
        ] {
            let link = if found { Some(link) } else { None };
            finds(&rt, &mut outside, registry, query, link)?;
        }
    }
    Ok(())
}

/// Commands whose first error is that of a file, the status and the error.
const FILES_FIRST: [(&[&str], u8, &str); 6] = [
    (
        &["link", "bad.rules", "url_ver=1"],
        3,
        "rules: line 1: NoLink",
    ),
    (
        &["link", "no/such.rules", "url_ver=1"],
        4,
        "device: no/such.rules",
    ),
    (&["run", "a.rules", "url_ver=1"], 3, "load: BadMagic at 0"),
    (
        &["resolve", "no/such.tsv", "url_ver=1"],
        4,
        "device: no/such.tsv",
    ),
    (&["find", "no/such.tsv", ""], 4, "device: no/such.tsv"),
    (&["serve", "none.txt", "65535", "1"], 4, "device: none.txt"),
];

#[test]
fn files_come_before_queries_and_ports(rt: HostRuntime) -> Result<(), AllocError> {
    let mut outside = outside(rt.alloc(), &FILES)?;
    for (arguments, status, error) in FILES_FIRST {
        gives(&rt, &mut outside, arguments, status, "", error)?;
    }
    Ok(())
}

/// Two peers, one of which sends a request.
fn two_peers(alloc: Global) -> Result<Peers, AllocError> {
    let mut peers = Peers::new(alloc);
    peers.add(b"GET /x HTTP/1.1\r\nHost: a\r\n\r\n")?;
    peers.add(b"")?;
    Ok(peers)
}

/// Commands that serve the two peers: the status, what is printed, the error, and the error of the same command if the
/// port is in use.
const SERVED: [(&[&str], u8, &str, &str, &str); 3] = [
    (
        &["serve", "registry", "0", "2"],
        0,
        "listening 127.0.0.1:4096\n",
        "1 replied, 1 silent, 0 failed",
        "device: 127.0.0.1:0",
    ),
    (
        &["serve", "registry", "80", "2"],
        0,
        "listening 127.0.0.1:80\n",
        "1 replied, 1 silent, 0 failed",
        "device: 127.0.0.1:80",
    ),
    (
        &["serve", "registry", "080", "3"],
        4,
        "listening 127.0.0.1:80\n",
        "device: 127.0.0.1:080",
        "device: 127.0.0.1:080",
    ),
];

#[test]
fn serves(rt: HostRuntime) -> Result<(), AllocError> {
    let mut outside = outside(rt.alloc(), &FILES)?;
    for (serve, status, printed, error, in_use) in SERVED {
        outside.ports.peers = Some(two_peers(rt.alloc())?);
        gives(&rt, &mut outside, serve, status, printed, error)?;
        gives(&rt, &mut outside, serve, 4, "", in_use)?;
    }
    let none = ["serve", "none", "0", "1"];
    gives(&rt, &mut outside, &none, 4, "", "device: none")
}

/// Arguments of no command.
const OTHERS: [&[&str]; 14] = [
    &[],
    &["expand", "{x}", "--list", "a", "x=1"],
    &["serve", "registry", "+80", "1"],
    &["serve", "registry", "80", "1000001"],
    &["link", "a.rules"],
    &["compile", "a.rules", "new", "x"],
    &["serve", "registry", "65536", "1"],
    &["serve", "registry", "0", "0"],
    &["expand", "--list", "a", "b"],
    &["expand", "--list", "x=1"],
    &["link", "a.rules", "x=1", "y"],
    &["--version", "1"],
    &["help", "serve"],
    &["serve", "registry", "80", ""],
];

#[test]
fn refuses_other_arguments(rt: HostRuntime) -> Result<(), AllocError> {
    let mut outside = outside(rt.alloc(), &FILES)?;
    for arguments in OTHERS {
        gives(&rt, &mut outside, arguments, 2, "", "usage")?;
    }
    gives(&rt, &mut outside, &["--version"], 0, "openlink 0.1.0\n", "")
}
