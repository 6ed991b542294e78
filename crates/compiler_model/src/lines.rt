//! Lines of code whose names, texts and places have no numbers yet.

use text_model::Writing;
use uri_grammar::Text;

/// An instruction that continues with the next place.
#[derive(Drop)]
pub enum Action {
    /// TEXT: the text of a name into a register.
    LoadText(u8, Text),
    /// LIST: the members of a name into a register.
    LoadList(u8, Text),
    /// CONST: a comparison text into a register.
    LoadConst(u8, Text),
    /// COUNT: the number of members of the second register's list into the first.
    CountMembers(u8, u8),
    /// EMIT: a link text.
    Emits(Text),
    /// SEP: a link text, except in the first turn of a loop.
    Separates(Text),
    /// PUT: a register's text.
    Puts(u8, Writing),
    /// CUT: the first items of a register's text.
    Cuts(u8, u16, Writing),
}

/// An instruction that jumps if its test holds, and otherwise continues with the next place.
#[derive(Clone, Copy)]
pub enum Test {
    /// UNDEF: the register is Undefined.
    IsUndefined(u8),
    /// EMPTY: the register's text is empty.
    IsEmpty(u8),
    /// NOLIST: the register's list has no member.
    HasNoMember(u8),
    /// NUMBER: the second register's text has no number; if it has one, the number is loaded into the first.
    HasNoNumber(u8, u8),
    /// DIFFER: the texts of the two registers are not equal.
    Differs(u8, u8),
    /// LESS: the first register's number is below the second's.
    IsLess(u8, u8),
}

/// Where a jump leads.
#[derive(Clone, Copy)]
pub enum Target {
    /// That many places after its own.
    Ahead(usize),
    /// The place after the rule.
    Away,
}

/// An instruction, with a text instead of an index into a table, and a target instead of a place.
#[derive(Drop)]
pub enum Line {
    /// An action.
    Acts(Action),
    /// A test, and where it jumps if it holds.
    Tests(Test, Target),
    /// JUMP
    Jumps(Target),
    /// EACH: the register of the element, that of the list, and how many places after its own the loop ends.
    Begins(u8, u8, usize),
    /// NEXT
    Turns,
    /// HALT
    Halts,
    /// FAIL
    Fails,
}
