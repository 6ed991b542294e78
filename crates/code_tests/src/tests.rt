//! Code files, environments, and the outcomes of runs, as text.

mod budgets;
mod entry_points;
mod errors;
mod machines;
mod parts;
mod rules;
mod runs;
mod tables;
mod texts;
mod verified;

use self::tables::{COUNTS_OF_TABLES, ENTRIES, OPERATIONS};
use code_file::{Code, Instr};
use interpreter::{Checked, Outcome, run_checked};
use std::alloc::{AllocError, Global};
use std::fmt::Display;
use std::process::Abort;
use std::test::Fail;
use target_vars::{Env, VarsError};

/// Fails unless the texts are equal. A call of this is cheaper to prove than an `assert_eq!`.
fn same<R: Abort>(rt: &R, found: &str, expected: &str) {
    assert_eq!(rt; found, expected);
}

/// The same for the results of `what`.
fn same_of<R: Abort>(rt: &R, what: &str, found: &str, expected: &str) {
    assert_eq!(rt; found, expected, "{what}");
}

/// Whether the entry is a member of a list, its name, its text, and how often the member is added or the text repeated.
type Entry = (bool, &'static str, &'static str, usize);

fn add(alloc: Global, env: &mut Env, entry: Entry) -> Result<(), VarsError> {
    let (list, name, text, times) = entry;
    if list {
        for _ in 0..times {
            env.add_member(name, text)?;
        }
    } else {
        env.put_text(name, &text.repeat(alloc, times)?)?;
    }
    Ok(())
}

fn add_all(alloc: Global, env: &mut Env, entries: &[Entry]) -> Result<(), VarsError> {
    for &entry in entries {
        add(alloc, env, entry)?;
    }
    Ok(())
}

fn environment(alloc: Global, entries: &[Entry]) -> Result<Env, Fail> {
    let mut env = Env::new(alloc);
    add_all(alloc, &mut env, entries)?;
    Ok(env)
}

fn link_text(alloc: Global, link: &str) -> Result<String, AllocError> {
    format!(in alloc; "link {link}")
}

fn checked_text(alloc: Global, outcome: Checked) -> Result<String, AllocError> {
    match outcome {
        Checked::Link(link) => link_text(alloc, link.as_str()),
        Checked::NoLink => String::from_str(alloc, "no link"),
        Checked::Stuck(place) => format!(in alloc; "stuck at {place}"),
    }
}

/// The outcome of the checked machine for the code of a file.
fn checked(alloc: Global, file: &[u8], env: &Env) -> Result<String, Fail> {
    let code = Code::read(alloc, file)?;
    let outcome = run_checked(alloc, &code, env)?;
    Ok(checked_text(alloc, outcome)?)
}

fn outcome_text(alloc: Global, outcome: Outcome) -> Result<String, AllocError> {
    match outcome {
        Outcome::Link(link) => link_text(alloc, link.as_str()),
        Outcome::NoLink => String::from_str(alloc, "no link"),
    }
}

/// The outcome, or the error.
fn result_text<E: Display + Drop>(
    alloc: Global,
    ended: Result<Outcome, E>,
) -> Result<String, AllocError> {
    match ended {
        Ok(outcome) => outcome_text(alloc, outcome),
        Err(error) => format!(in alloc; "{error}"),
    }
}

/// The number of an operand, without its `r`, `n` or `l`; for a mode, 0 or 1.
fn number(operand: &str) -> u16 {
    let digits = operand
        .trim_start_matches('r')
        .trim_start_matches('n')
        .trim_start_matches('l');
    match operand {
        "u" => 0,
        "ur" => 1,
        _ => digits.parse::<u16>().unwrap_or(u16::MAX),
    }
}

fn set(instr: &mut Instr, field: u8, value: u16) {
    let byte = u8::try_from(value).unwrap_or(u8::MAX);
    match field {
        b'o' => instr.op = byte,
        b'a' => instr.a = byte,
        b'b' => instr.b = value,
        b'c' => instr.c = value,
        _ => instr.d = value,
    }
}

/// The number of an operation, and the fields of its operands.
fn operation(word: &str) -> Option<(u8, &'static [u8])> {
    for &(name, op, letters) in &OPERATIONS {
        if name == word {
            return Some((op, letters));
        }
    }
    None
}

/// Sets the next field of the last instruction, and returns the fields after it.
fn set_next(instrs: &mut [Instr], fields: &'static [u8], word: &str) -> &'static [u8] {
    let ([field, rest @ ..], Some(last)) = (fields, instrs.last_mut()) else {
        return fields;
    };
    set(last, *field, number(word));
    rest
}

/// Takes an operation or an operand, and returns the fields of the next operands.
fn push_word(
    instrs: &mut Vec<Instr>,
    fields: &'static [u8],
    word: &str,
) -> Result<&'static [u8], AllocError> {
    let Some((op, letters)) = operation(word) else {
        return Ok(set_next(instrs, fields, word));
    };
    instrs.push(Instr {
        op,
        a: 0,
        b: 0,
        c: 0,
        d: 0,
    })?;
    Ok(letters)
}

fn push_instrs(instrs: &mut Vec<Instr>, text: &str) -> Result<(), AllocError> {
    let mut fields: &'static [u8] = b"";
    for word in text.split_whitespace() {
        fields = push_word(instrs, fields, word.trim_end_matches(','))?;
    }
    Ok(())
}

fn instrs(alloc: Global, text: &str) -> Result<Vec<Instr>, AllocError> {
    let mut instrs = Vec::new(alloc);
    push_instrs(&mut instrs, text)?;
    Ok(instrs)
}

fn push_number(file: &mut Vec<u8>, number: u16) -> Result<(), AllocError> {
    file.extend_from_slice(&[(number >> 8) as u8, (number % 256) as u8])
}

fn push_instr(file: &mut Vec<u8>, instr: Instr) -> Result<(), AllocError> {
    file.extend_from_slice(&[instr.op, instr.a])?;
    push_number(file, instr.b)?;
    push_number(file, instr.c)?;
    push_number(file, instr.d)
}

fn push_head(file: &mut Vec<u8>, version: u8, count: usize) -> Result<(), AllocError> {
    file.extend_from_slice(&[b'O', b'L', b'K', version])?;
    file.extend_from_slice(COUNTS_OF_TABLES)?;
    push_number(file, u16::try_from(count).unwrap_or(u16::MAX))
}

fn push_code(file: &mut Vec<u8>, version: u8, instrs: &[Instr]) -> Result<(), AllocError> {
    push_head(file, version, instrs.len())?;
    file.extend_from_slice(ENTRIES)?;
    for &instr in instrs {
        push_instr(file, instr)?;
    }
    Ok(())
}

/// The file of a version, `1` or `2`, of the tables and these instructions.
fn file(alloc: Global, version: u8, text: &str) -> Result<Vec<u8>, AllocError> {
    let instrs = instrs(alloc, text)?;
    let mut file = Vec::new(alloc);
    push_code(&mut file, version, &instrs)?;
    Ok(file)
}
