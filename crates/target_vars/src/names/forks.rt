//! The steps of the search for a name.

ghost use Rattle.std.specs.Prelude.{◌≡◌, ◌≢◌, ◌⊎◌, ◌<◌, length, vec_len, vec_capacity};
ghost use Rattle.text_model.specs.Texts.{Text};
ghost use Rattle.target_vars.specs.Private.NamesValue.{code_at, is_set, branch_of, turned, AreForward, Leads, IsForked};
ghost use Rattle.target_vars.specs.declared.names.forks.Branch.TheVariants.{Ends};

/// A step of the search for a name, which tests one bit of the name's code at one place.
#[derive(Clone, Copy)]
pub(crate) struct Fork {
    at: usize,
    bit: u32,
    low: Branch,
    high: Branch,
}

/// Where a search continues: at a later fork, or with the only name that can still be the right one.
#[derive(Clone, Copy)]
pub(crate) enum Branch {
    Further(usize),
    Ends(usize),
}

impl Fork {
    /// The fork of the first name, at which every search ends with it.
    pub(crate) fn of_first() -> Fork
        ensures { (text : Text) → branch_of result text ≡ Ends 0 }
    {
        Fork {
            at: 0,
            bit: 0,
            low: Branch::Ends(0),
            high: Branch::Ends(0),
        }
    }

    /// A fork that separates two names.
    pub(crate) fn between(name: &[u8], number: usize, other: &[u8], other_number: usize) -> Fork
        requires { name.now ≢ other.now }
        ensures own { branch_of result name.now ≡ Ends number }
        ensures other { branch_of result other.now ≡ Ends other_number }
        ensures ends { (text : Text) → (branch_of result text ≡ Ends number)
            ⊎ (branch_of result text ≡ Ends other_number) }
    {
        let at = first_difference(name, other);
        let code = code_at(name, at);
        let bit = differing_bit(code, code_at(other, at));
        let own = Branch::Ends(number);
        let others = Branch::Ends(other_number);
        let (low, high) = if is_set(code, bit) {
            (others, own)
        } else {
            (own, others)
        };
        Fork { at, bit, low, high }
    }

    /// Where the search for the name continues.
    pub(crate) fn branch(self, name: &[u8]) -> Branch
        ensures { result ≡ branch_of self name.now }
    {
        if is_set(code_at(name, self.at), self.bit) {
            self.high
        } else {
            self.low
        }
    }

    /// The fork with another branch for the name.
    fn turned(self, name: &[u8], branch: Branch) -> Fork
        ensures { result ≡ turned self name.now branch }
    {
        if is_set(code_at(name, self.at), self.bit) {
            Fork {
                high: branch,
                ..self
            }
        } else {
            Fork {
                low: branch,
                ..self
            }
        }
    }
}

/// One more than the byte at a place of the name, and 0 past its end.
fn code_at(name: &[u8], at: usize) -> u16
    ensures { result ≡ code_at name.now at }
{
    match name.get(at) {
        Some(byte) => u16::from(*byte) + 1,
        None => 0,
    }
}

fn is_set(code: u16, bit: u32) -> bool
    ensures { result ≡ is_set code bit }
{
    (code >> (bit % 16)) % 2 == 1
}

/// The first place at which the names have different codes.
fn first_difference(name: &[u8], other: &[u8]) -> usize
    requires { name.now ≢ other.now }
    ensures { code_at name.now result ≢ code_at other.now result }
{
    let mut at = 0;
    while code_at(name, at) == code_at(other, at) {
        at += 1;
    }
    at
}

/// The lowest bit in which the codes differ.
fn differing_bit(code: u16, other: u16) -> u32
    requires { code ≢ other }
    ensures { is_set code result ≢ is_set other result }
{
    let mut bit = 0;
    while is_set(code, bit) == is_set(other, bit) {
        bit += 1;
    }
    bit
}

/// The last fork that the search for the name reaches, and the number of the name with which it ends.
pub(crate) fn search(forks: &[Fork], name: &[u8]) -> (usize, usize)
    requires some { 0 < length forks.now }
    requires forward { AreForward forks.now }
    ensures leads { Leads forks.now name.now result.0 result.1 }
    ensures known { result.1 < length forks.now }
{
    let mut at = 0;
    loop {
        match forks[at].branch(name) {
            Branch::Further(next) => at = next,
            Branch::Ends(number) => return (at, number),
        }
    }
}

/// Adds the fork of a new name. The search for the name reaches it from its gap.
pub(crate) fn put_fork(forks: &mut Vec<Fork>, name: &[u8], gap: usize, fork: Fork)
    requires { vec_len forks.old < vec_capacity forks.old }
    ensures { IsForked forks.old.items name.now gap fork forks.new.items }
{
    let number = forks.len();
    if gap < number {
        let last = forks[gap];
        forks[gap] = last.turned(name, Branch::Further(number));
    }
    forks.push_reserved(fork);
}
