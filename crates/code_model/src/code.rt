//! Code as data: an instruction as a code file has it, and what it says to do.

/// One instruction as a code file has it: the number of an operation, and four fields.
#[derive(Clone, Copy, PartialEq, Eq)]
pub struct Instr {
    /// The number of the operation.
    pub op: u8,
    pub a: u8,
    pub b: u16,
    pub c: u16,
    pub d: u16,
}

/// What an instruction says to do, with the fields that its operation uses, in the order in which a
/// listing has them. Registers come first, then an entry of a table or a count, then a mode, then
/// the place of a jump.
#[derive(Clone, Copy, PartialEq, Eq)]
pub enum Instruction {
    /// Ends with the output as the link.
    Halt,
    /// Ends without a link.
    Fail,
    /// Goes to a place.
    Jump(u16),
    /// Loads the text of a name, or Undefined, into a register.
    Text(u8, u16),
    /// Loads the members of a name into a register.
    List(u8, u16),
    /// Loads a comparison text into a register.
    Const(u8, u16),
    /// Loads the leading number of the second register's text into the first; jumps if it has none.
    Number(u8, u16, u16),
    /// Jumps if the register is Undefined.
    Undef(u8, u16),
    /// Jumps if the register's text is empty.
    Empty(u8, u16),
    /// Jumps if the register's list has no member.
    NoList(u8, u16),
    /// Jumps if the texts of two registers are not equal.
    Differ(u8, u16, u16),
    /// Jumps if the first register's number is below the second's.
    Less(u8, u16, u16),
    /// Appends a link text to the output.
    Emit(u16),
    /// Appends the register's text, percent-encoded as a mode says.
    Put(u8, u16),
    /// Appends the first items of the register's text, percent-encoded as a mode says.
    Cut(u8, u16, u16),
    /// Begins a loop over the second register's list, with the element in the first.
    Each(u8, u16, u16),
    /// Appends a link text to the output, except in the first turn of a loop.
    Sep(u16),
    /// Continues with the loop's next member, or leaves the loop.
    Next,
    /// Loads the number of members of the second register's list into the first (only version 2).
    Count(u8, u16),
}
