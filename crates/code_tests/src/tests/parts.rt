//! Codes that are made from parts, and instructions that are made from fields.

use code_file::CodeErrorKind::{BadLiteral, BadName, NoCode, TooLong, TooMany};
use code_file::{Code, CodeErrorKind, Instr, Literal, Name, instruction, spelling};
use code_model::Instruction::{Count, Cut};
use std::alloc::{AllocError, Global};
use std::test::Fail;

fn instr(op: u8, a: u8, b: u16, c: u16, d: u16) -> Instr {
    Instr { op, a, b, c, d }
}

#[test]
fn reads_an_instruction_whatever_its_unused_fields(rt: HostRuntime) {
    let cut = instr(15, 1, 2, 3, 4);
    assert!(rt; matches!(instruction(1, cut), Some(Cut(1, 2, 3))));
    assert!(rt; spelling(Cut(1, 2, 3)) == instr(15, 1, 2, 3, 0));
    let count = instr(19, 1, 2, 3, 4);
    assert!(rt; instruction(1, count).is_none());
    assert!(rt; matches!(instruction(2, count), Some(Count(1, 2))));
    assert!(rt; spelling(Count(1, 2)) == instr(19, 1, 2, 0, 0));
    assert!(rt; instruction(2, instr(20, 0, 0, 0, 0)).is_none());
}

/// The fault of one name, one link text, and a number of equal instructions, if there is one.
fn fault(
    alloc: Global,
    letters: usize,
    link: &str,
    instrs: usize,
) -> Result<Option<CodeErrorKind>, AllocError> {
    let text = "a".repeat(alloc, letters)?;
    let list = false;
    let names = vec![in alloc; Name { list, text }]?;
    let bytes = Vec::from_slice(alloc, link.as_bytes())?;
    let compared = false;
    let literals = vec![in alloc; Literal { compared, bytes }]?;
    let instrs = vec![in alloc; instr(19, 1, 2, 3, 4); instrs]?;
    Ok(Code::from_parts(names, literals, instrs).err())
}

/// Whether these parts have this fault.
fn has_fault(
    alloc: Global,
    parts: (usize, &str, usize),
    expected: Option<CodeErrorKind>,
) -> Result<bool, AllocError> {
    Ok(fault(alloc, parts.0, parts.1, parts.2)? == expected)
}

/// How many letters a name has, a link text, how many instructions there are, and the fault. What the instructions do
/// is not examined.
const FAULTS: [(usize, &str, usize, Option<CodeErrorKind>); 7] = [
    (1, ",", 1, None),
    (1, ",", 0, Some(NoCode)),
    (1, "%", 1, Some(BadLiteral)),
    (255, ",", 4_096, None),
    (256, ",", 1, Some(BadName)),
    (1, ",", 4_097, Some(TooMany)),
    (1, ",", 8_191, Some(TooLong)), // of more than 65,536 bytes
];

#[test]
fn refuses_parts_that_spell_no_file(rt: HostRuntime) -> Result<(), AllocError> {
    for (letters, link, instrs, expected) in FAULTS {
        let is_so = has_fault(rt.alloc(), (letters, link, instrs), expected)?;
        assert!(rt; is_so, "{letters}, {link}, {instrs}");
    }
    Ok(())
}

/// Names, and whether they are lists.
const NAMES: [(bool, &str); 5] = [
    (true, "b"),
    (false, "x"),
    (true, "a"),
    (true, "b"),
    (false, "a"),
];

fn push_names(alloc: Global, names: &mut Vec<Name>) -> Result<(), AllocError> {
    for (list, text) in NAMES {
        let text = String::from_str(alloc, text)?;
        names.push(Name { list, text })?;
    }
    Ok(())
}

/// Code with these names, which halts.
fn code_with_names(alloc: Global) -> Result<Code, Fail> {
    let mut names = Vec::new(alloc);
    push_names(alloc, &mut names)?;
    let halt = vec![in alloc; instr(1, 0, 0, 0, 0)]?;
    Ok(Code::from_parts(names, Vec::new(alloc), halt)?)
}

fn has_lists(alloc: Global, code: &Code, expected: &[&str]) -> Result<bool, AllocError> {
    let lists = code.lists(alloc)?;
    Ok(lists.as_slice() == expected)
}

#[test]
fn lists_are_in_table_order_and_as_often_as_there(rt: HostRuntime) -> Result<(), Fail> {
    let code = code_with_names(rt.alloc())?;
    assert!(rt; has_lists(rt.alloc(), &code, &["b", "a", "b"])?);
    Ok(())
}
