//! Code as its tables and its instructions.

ghost use Rattle.std.specs.Prelude.{◌≡◌, ◌<◌, ◌++◌, ℕ, All, length, slice_get, IfOk, IfErr, OnOk, map, filter};
ghost use Rattle.std.specs.Prelude.{string_bytes};
ghost use Rattle.std.specs.List.{flat_map};
ghost use Rattle.code_model.specs.Code.{upgraded};
ghost use Rattle.code_file.specs.Grammar.{IsVersion, IsCode, IsCodeFile, IsInstr, header_field, header_of, name_field};
ghost use Rattle.code_file.specs.Grammar.{literal_field, instr_field, spelled, code_with};
ghost use Rattle.code_file.specs.Fault.{fault, IsFirstFault, IsRefusal};
ghost use Rattle.code_file.specs.Listing.{listing};

use crate::build::{read_instrs, read_literals, read_names};
use crate::copy::{copy_literals, copy_names};
use crate::entry::{Literal, Name};
use crate::error::{CodeError, CodeErrorKind};
use crate::header::magic;
use crate::limits::{MAX_BYTES, MAX_INSTRS, MAX_LITERALS, MAX_NAME_BYTES, MAX_NAMES};
use crate::listing::{push_first_line, push_instr_lines, push_literal_lines, push_name_lines};
use crate::parts::parts_fault;
use crate::tables::Tables;
use crate::write::{push_instrs, push_literals, push_names, push_number};
use code_model::Instr;
use std::alloc::{AllocError, Global};
use std::marker::Model;

/// A code of version 1 or 2: at most 256 names, at most 1,024 literals, and 1 to 4,096 instructions,
/// whose file has at most 65,536 bytes.
#[derive(Drop)]
pub struct Code {
    version: u8,
    names: Vec<Name>,
    literals: Vec<Literal>,
    instrs: Vec<Instr>,
}

impl Model for Code {
    ghost use Rattle.code_model.specs.Code as code;
    ghost use Rattle.code_file.specs.Grammar as grammar;

    ghost Value = { code.Code };

    ghost view = { λ c. record {
      version = c.version;
      names = c.names.items;
      literals = c.literals.items;
      instrs = c.instrs.items;
    } };

    ghost invariant = { λ c. grammar.IsCode
        (record {
          version = c.version;
          names = c.names.items;
          literals = c.literals.items;
          instrs = c.instrs.items;
        }) };
}

impl Code {
    /// Reads a code file of at most 65,536 bytes. The error is the first one of the bytes, with its place. It is found
    /// before anything is allocated, so `NoMemory` is returned only for bytes that are a code file.
    pub fn read(alloc: Global, bytes: &[u8]) -> Result<Code, CodeError>
        ensures code { IfOk result (IsCodeFile bytes.now) }
        ensures refused { IfErr result (IsRefusal bytes.now) }
    {
        let tables = Tables::find(bytes)?;
        let names = read_names(alloc, tables.names, tables.header.names)?;
        let literals = read_literals(alloc, tables.literals, tables.header.literals)?;
        let instrs = read_instrs(alloc, tables.instrs, tables.header.instrs)?;
        Ok(Code {
            version: tables.header.version,
            names,
            literals,
            instrs,
        })
    }

    /// The code of version 1 of these parts, or the kind of the first error in the file that they would make, in which
    /// a name may have any length. Rejected parts are dropped.
    pub fn from_parts(
        names: Vec<Name>,
        literals: Vec<Literal>,
        instrs: Vec<Instr>,
    ) -> Result<Code, CodeErrorKind>
        ensures code { IfOk result (λ c. (c ≡ code_with 1 names.items literals.items instrs.items) × IsCode c) }
        ensures refused { IfErr result (λ kind. (at : ℕ)
            × IsFirstFault (spelled (code_with 1 names.items literals.items instrs.items)) (fault kind at)) }
    {
        Code::of_parts(1, names, literals, instrs)
    }

    /// The code of version 2 of these parts, or the kind of the first error, as in [`Code::from_parts`].
    pub fn from_parts2(
        names: Vec<Name>,
        literals: Vec<Literal>,
        instrs: Vec<Instr>,
    ) -> Result<Code, CodeErrorKind>
        ensures code { IfOk result (λ c. (c ≡ code_with 2 names.items literals.items instrs.items) × IsCode c) }
        ensures refused { IfErr result (λ kind. (at : ℕ)
            × IsFirstFault (spelled (code_with 2 names.items literals.items instrs.items)) (fault kind at)) }
    {
        Code::of_parts(2, names, literals, instrs)
    }

    fn of_parts(
        version: u8,
        names: Vec<Name>,
        literals: Vec<Literal>,
        instrs: Vec<Instr>,
    ) -> Result<Code, CodeErrorKind>
        requires { IsVersion version }
        ensures code { IfOk result (λ c. (c ≡ code_with version names.items literals.items instrs.items) × IsCode c) }
        ensures refused { IfErr result (λ kind. (at : ℕ)
            × IsFirstFault (spelled (code_with version names.items literals.items instrs.items)) (fault kind at)) }
    {
        if let Some(kind) = parts_fault(version, &names, &literals, &instrs) {
            return Err(kind);
        }
        Ok(Code {
            version,
            names,
            literals,
            instrs,
        })
    }

    /// The same tables and instructions as a code of version 2. Upgrading a code of version 2 gives a copy of it.
    pub fn upgrade(&self, alloc: Global) -> Result<Code, AllocError>
        ensures upgraded { IfOk result (λ c. c ≡ upgraded self.now) }
        ensures again { IfOk result (λ c. self.now.version ≡ 2 → c ≡ self.now) }
    {
        let names = copy_names(alloc, &self.names)?;
        let literals = copy_literals(alloc, &self.literals)?;
        let instrs = Vec::from_slice(alloc, &self.instrs)?;
        Ok(Code {
            version: 2,
            names,
            literals,
            instrs,
        })
    }

    /// The version of the code, 1 or 2, which determines the meaning of its instructions.
    pub fn version(&self) -> u8
        ensures value { result ≡ self.now.version }
        ensures known { IsVersion result }
    {
        self.version
    }

    /// The table of names; an instruction names an entry by its index.
    pub fn names(&self) -> &[Name]
        ensures { result.now ≡ self.now.names }
    {
        self.names.as_slice()
    }

    /// The name at a place of its table.
    pub fn name(&self, i: usize) -> &Name
        requires { i < length self.now.names }
        ensures { slice_get self.now.names i ≡ Some result.now }
    {
        &self.names[i]
    }

    /// The table of literals.
    pub fn literals(&self) -> &[Literal]
        ensures { result.now ≡ self.now.literals }
    {
        self.literals.as_slice()
    }

    /// The literal at a place of its table.
    pub fn literal(&self, i: usize) -> &Literal
        requires { i < length self.now.literals }
        ensures { slice_get self.now.literals i ≡ Some result.now }
    {
        &self.literals[i]
    }

    /// The number of instructions. The clause `is_code` says what holds for each code: its version, its limits, and
    /// what its names, literals and fields may be; `limits` says what the limits are.
    pub fn len(&self) -> usize
        ensures count { result ≡ length self.now.instrs }
        ensures is_code { IsCode self.now }
        ensures limits { (MAX_BYTES ≡ 65536) × (MAX_NAMES ≡ 256) × (MAX_LITERALS ≡ 1024) × (MAX_INSTRS ≡ 4096)
            × (MAX_NAME_BYTES ≡ 255) }
    {
        self.instrs.len()
    }

    /// The instruction at a place.
    pub fn instr(&self, i: usize) -> Instr
        requires { i < length self.now.instrs }
        ensures { slice_get self.now.instrs i ≡ Some result }
    {
        self.instrs[i]
    }

    /// The names of list kind, in the order of their table; a name that is listed twice appears twice.
    pub fn lists(&self, alloc: Global) -> Result<Vec<&str>, AllocError>
        ensures { IfOk result
            (λ v. map (λ s. s.now) v.items ≡ map (λ n. n.text) (filter (λ n. n.list) self.now.names)) }
    {
        let mut lists = Vec::new(alloc);
        for name in &self.names {
            if name.list {
                lists.push(name.text.as_str())?;
            }
        }
        Ok(lists)
    }

    /// The bytes of the code's file. A code has exactly one file.
    pub fn write(&self, alloc: Global) -> Result<Vec<u8>, AllocError>
        ensures { IfOk result (λ v. IsCodeFile v.items self.now) }
    {
        let mut out = Vec::new(alloc);
        self.push_header(&mut out)?;
        self.push_tables(&mut out)?;
        Ok(out)
    }

    fn push_header(&self, out: &mut Vec<u8>) -> Result<(), AllocError>
        ensures spells { OnOk result (out.new.items ≡ out.old.items ++ header_field (header_of self.now)) }
        ensures is_code { IsCode self.now }
    {
        out.extend_from_slice(magic(self.version).as_bytes())?;
        push_number(out, self.names.len() as u16)?;
        push_number(out, self.literals.len() as u16)?;
        push_number(out, self.instrs.len() as u16)
    }

    fn push_tables(&self, out: &mut Vec<u8>) -> Result<(), AllocError>
        ensures spells { OnOk result (out.new.items ≡ out.old.items
            ++ (flat_map name_field self.now.names
            ++ (flat_map literal_field self.now.literals ++ flat_map instr_field self.now.instrs))) }
        ensures fields { OnOk result (All IsInstr self.now.instrs) }
    {
        push_names(out, &self.names)?;
        push_literals(out, &self.literals)?;
        push_instrs(out, &self.instrs)
    }

    /// The listing: the counts, the tables and the instructions, a line each.
    #[tactic(auto, unfolding(crate::specs::Listing::listing))]
    pub fn listing(&self, alloc: Global) -> Result<String, AllocError>
        ensures { IfOk result (λ text. string_bytes text ≡ listing self.now) }
    {
        let mut out = String::new(alloc);
        let version = self.version;
        push_first_line(
            &mut out,
            version,
            self.names.len(),
            self.literals.len(),
            self.len(),
        )?;
        push_name_lines(&mut out, &self.names)?;
        push_literal_lines(&mut out, &self.literals)?;
        push_instr_lines(&mut out, version, &self.instrs)?;
        Ok(out)
    }
}
