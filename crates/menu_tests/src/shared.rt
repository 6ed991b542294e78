//! What the tests of several files use: a target's addition, what a watch recorded, and a request with its reply.

use kbart_rows::Table;
use link_menu::Shown;
use registry::{AddError, Registry};
use std::alloc::{AllocError, Global};
use std::test::Fail;
use verifier::load;

/// Two rows of one journal, in two years.
pub(crate) const JOURNAL: &[u8] =
    b"print_identifier\ttitle_url\tdate_first_issue_online\tdate_last_issue_online\n\
1234-567X\thttp://e.org/a\t1990\t1995\n1234-567X\thttp://e.org/b\t2000\t\n";

/// Adds a target with the journal; an error gives its parts back.
pub(crate) fn add(
    alloc: Global,
    registry: &mut Registry,
    name: &str,
    code: &[u8],
) -> Result<Result<(), AddError>, Fail> {
    let code = load(alloc, code)?;
    let table = Table::read(alloc, JOURNAL)?;
    let name = String::from_str(alloc, name)?;
    Ok(registry.add(name, code, table))
}

/// Whether the watch recorded these lists.
pub(crate) fn has_lists(
    alloc: Global,
    recorder: &Shown,
    expected: &str,
) -> Result<bool, AllocError> {
    let lists = recorder.lists();
    let printed = format!(in alloc; "{lists:?}")?;
    Ok(printed.as_str() == expected)
}

/// A request for a path that is none of the pages.
pub(crate) const REQUEST: &[u8; 28] = b"GET /x HTTP/1.1\r\nHost: a\r\n\r\n";

/// The reply to it.
pub(crate) const REPLY: &[u8; 116] =
    b"HTTP/1.1 404 Not Found\r\nContent-Type: text/plain; charset=utf-8\r\n\
    Content-Length: 10\r\nConnection: close\r\n\r\nnot found\n";
