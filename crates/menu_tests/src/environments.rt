//! What an environment accepts: its limits, the places in its buffer, and names that no rule can have.

use kbart_rows::TableError;
use kev_read::KevError;
use registry::AddErrorKind;
use std::alloc::{AllocError, Global};
use std::test::Fail;
use target_vars::{Env, MAX_BYTES, Members, VarsError};

/// Whether it is a member of a list, its name, its text, and whether it is added.
type Addition = (bool, &'static str, &'static str, bool);

/// Adds it, and returns whether that gives what is expected.
fn add(env: &mut Env, addition: Addition) -> Result<bool, VarsError> {
    let (is_member, name, text, is_new) = addition;
    let is_added = if is_member {
        env.add_member(name, text)?
    } else {
        env.put_text(name, text)?
    };
    Ok(is_added == is_new)
}

fn add_all(env: &mut Env, additions: &[Addition]) -> Result<bool, VarsError> {
    for &addition in additions {
        if !add(env, addition)? {
            return Ok(false);
        }
    }
    Ok(true)
}

/// A name, its text, where this is in the buffer, and which spans its members have.
type Named = (
    &'static str,
    Option<&'static str>,
    Option<(u32, u32)>,
    (u32, u32),
);

fn has(env: &Env, named: Named) -> bool {
    let (name, text, place, members) = named;
    (env.text(name), env.text_at(name), env.members_at(name)) == (text, place, members)
}

fn has_all(env: &Env, names: &[Named]) -> bool {
    for &named in names {
        if !has(env, named) {
            return false;
        }
    }
    true
}

fn has_spans(env: &Env, spans: &[(u32, u32)]) -> bool {
    for i in 0..env.members() {
        if spans.get(i).copied() != Some(env.span(i)) {
            return false;
        }
    }
    env.members() == spans.len()
}

/// The first text of a name stays, and so does a text or a list under the name.
const FIRST: &[Addition] = &[
    (false, "a", "x", true),
    (false, "a", "y", false),
    (true, "a", "z", false),
    (true, "b", "q", true),
    (false, "b", "late", false),
];

/// Additions, the names that they give, the buffer, and the spans of the members.
const ENVIRONMENTS: [(&[Addition], &[Named], &str, &[(u32, u32)]); 3] = [
    (
        FIRST,
        &[
            ("a", Some("x"), Some((0, 1)), (0, 0)),
            ("b", None, None, (0, 1)),
        ],
        "xq",
        &[(1, 1)],
    ),
    (
        &[
            (false, "a", "x", true),
            (true, "l", "p", true),
            (false, "b", "y", true),
            (true, "m", "r", true),
            (true, "l", "q", true),
        ],
        &[
            ("a", Some("x"), Some((0, 1)), (0, 0)),
            ("b", Some("y"), Some((2, 1)), (0, 0)),
            ("l", None, None, (0, 2)),
            ("m", None, None, (2, 1)),
            ("c", None, None, (0, 0)),
        ],
        "xpyrq",
        &[(1, 1), (4, 1), (3, 1)],
    ),
    // Any text is a name.
    (
        &[
            (false, "rft.title", "t", true),
            (false, "", "", true),
            (false, "é", "é", true),
            (false, "", "late", false),
            (true, "", "late", false),
            (false, "é", "late", false),
            (true, "é", "late", false),
        ],
        &[
            ("", Some(""), Some((1, 0)), (0, 0)),
            ("é", Some("é"), Some((1, 2)), (0, 0)),
            ("\u{0}", None, None, (0, 0)),
        ],
        "té",
        &[],
    ),
];

#[test]
fn environments_have_what_was_added(rt: HostRuntime) -> Result<(), Fail> {
    for (additions, names, buffer, spans) in ENVIRONMENTS {
        let mut env = Env::new(rt.alloc());
        assert!(rt; add_all(&mut env, additions)?, "{buffer}");
        assert!(rt; has_all(&env, names), "{buffer}");
        assert!(rt; has_spans(&env, spans), "{buffer}");
        assert_eq!(rt; env.buffer(), buffer.as_bytes());
    }
    Ok(())
}

/// What is returned for a text, and how many bytes and members there are then.
type Put = (Result<bool, VarsError>, usize, usize);

/// Adds a text of this number of letters.
fn put_letters(env: &mut Env, alloc: Global, letters: usize) -> Result<Put, AllocError> {
    let text = "x".repeat(alloc, letters)?;
    let put = env.put_text("long", text.as_str());
    Ok((put, env.bytes(), env.members()))
}

/// Adds a text that has one byte too many, and then a text for which there is room.
fn put_both(alloc: Global, additions: &[Addition], room: usize) -> Result<(Put, Put), Fail> {
    let mut env = Env::new(alloc);
    add_all(&mut env, additions)?;
    let too_long = put_letters(&mut env, alloc, room.saturating_add(1))?;
    let longest = put_letters(&mut env, alloc, room)?;
    Ok((too_long, longest))
}

/// Additions, how many bytes of text there is room for then, and how many bytes and members there are.
const ROOMS: [(&[Addition], usize, usize, usize); 2] = [
    (&[], 1_048_576, 0, 0),
    (FIRST, 1_048_574, 2, 1),
];

/// A text that is too long changes nothing.
#[test]
fn room_is_what_is_left(rt: HostRuntime) -> Result<(), Fail> {
    for (additions, room, bytes, members) in ROOMS {
        let (too_long, longest) = put_both(rt.alloc(), additions, room)?;
        assert_eq!(rt; too_long, (Err(VarsError::TooLarge), bytes, members));
        assert_eq!(rt; longest, (Ok(true), 1_048_576, members));
    }
    Ok(())
}

/// Adds empty members to the list `a`, up to the most that there can be.
fn add_empty_members(env: &mut Env) -> Result<bool, VarsError> {
    for _ in 0..65_535 {
        if !env.add_member("a", "")? {
            return Ok(false);
        }
    }
    Ok(true)
}

#[test]
fn too_many_members(rt: HostRuntime) -> Result<(), Fail> {
    let mut env = Env::new(rt.alloc());
    let all = add_empty_members(&mut env)?;
    let more = (env.add_member("a", ""), env.add_member("b", ""));
    let counts = (env.count("a"), env.bytes(), env.members());
    assert_eq!(rt; more, (Err(VarsError::TooLarge), Err(VarsError::TooLarge)));
    assert_eq!(rt; (all, counts), (true, (65_535, 0, 65_535)));
    Ok(())
}

/// What is added, and the members of some names.
const MEMBERS: [Addition; 4] = [
    (false, "rft.title", "Typee", true),
    (true, "rft_id", "info:doi/10.1000/182", true),
    (true, "rft.au", "Melville", true),
    (true, "rft.au", "Hawthorne", true),
];

const LISTS: [(&str, &[&str]); 4] = [
    ("rft.au", &["Melville", "Hawthorne"]),
    ("rft_id", &["info:doi/10.1000/182"]),
    ("rft.title", &[]),
    ("x", &[]),
];

/// Whether each member comes in its turn, and is found by its number.
fn come(members: Members<'_>, expected: &[&str]) -> bool {
    for (i, member) in members.into_iter().enumerate() {
        if members.get(i) != Some(member) || expected.get(i).copied() != Some(member) {
            return false;
        }
    }
    members.get(expected.len()).is_none()
}

fn has_length(members: Members<'_>, length: usize) -> bool {
    let is_empty = length == 0;
    members.len() == length
        && members.is_empty() == is_empty
        && members.split_first().is_none() == is_empty
}

fn is_lent(members: Members<'_>, expected: &[&str]) -> bool {
    come(members, expected) && has_length(members, expected.len())
}

#[test]
fn lists_are_lent(rt: HostRuntime) -> Result<(), Fail> {
    let mut env = Env::new(rt.alloc());
    let all = add_all(&mut env, &MEMBERS)?;
    assert!(rt; all && has_length(Members::none(), 0));
    for (name, expected) in LISTS {
        assert!(rt; is_lent(env.list(name), expected), "{name}");
    }
    Ok(())
}

/// An environment with room for two bytes.
pub(crate) fn nearly_full(alloc: Global) -> Result<Env, Fail> {
    let mut env = Env::new(alloc);
    let text = "x".repeat(alloc, MAX_BYTES - 2)?;
    env.put_text("filler", &text)?;
    Ok(env)
}

/// Whether these names have these texts.
pub(crate) fn has_texts(env: &Env, texts: &[(&str, Option<&str>)]) -> bool {
    for &(name, text) in texts {
        if env.text(name) != text {
            return false;
        }
    }
    true
}

/// Kinds that no command prints.
#[test]
fn errors_print_their_kind(rt: HostRuntime) -> Result<(), AllocError> {
    let printed = format!(in rt.alloc();
        "{} {} {} {} {}",
        VarsError::TooLarge,
        VarsError::NoMemory,
        KevError::NoMemory,
        TableError::NoMemory,
        AddErrorKind::NoMemory
    )?;
    assert_eq!(rt;
        printed.as_str(),
        "TooLarge NoMemory NoMemory NoMemory NoMemory"
    );
    Ok(())
}
