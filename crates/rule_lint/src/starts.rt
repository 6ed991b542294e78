//! Where a search for a name that resembles another can begin.
//!
//! Two names resemble each other if they are the same in lower case, or after the `rft.` of one, or after one edit. For
//! each of these, both have a key in common, and a map leads from each key to the first name that has it. Names without
//! a common key differ, and those with one resemble each other, unless two hashes are the same by chance: nobody who
//! writes names knows the multiplier.

ghost use Rattle.std.specs.Prelude.{◌≡◌, ℕ, ◌+◌, ◌<◌, ◌≤◌, IfOk, OnOk, fold, get_or, length};
ghost use Rattle.text_model.specs.Texts.{texts_of};
ghost use Rattle.rule_lint.specs.Private.Starts as spec;

use kbart_rows::Keys;
use std::alloc::{AllocError, Global};
use std::collections::HashMap;
use std::hash::{BuildHasher, Hasher};

/// From each key to the first of the names that has it.
pub(crate) type Firsts = HashMap<u64, usize, Keys>;

/// A prime that is one more than twice another prime.
const MODULUS: u64 = 4_294_967_087;

/// The secret multiplier of hashes. No result depends on it.
pub(crate) fn multiplier_of(keys: Keys) -> u64 {
    keys.build_hasher().finish()
}

fn next_hash(multiplier: u64, hash: u64, next: u64) -> u64
    ensures { result ≡ spec.next_hash multiplier hash next }
{
    (hash % MODULUS)
        .wrapping_mul(multiplier % MODULUS)
        .wrapping_add(next)
}

/// The hash of a text, of which the bytes before these have this hash.
fn hash_on(multiplier: u64, start: u64, bytes: &[u8]) -> u64
    ensures { result ≡ fold (spec.next_hash multiplier) start bytes.now }
{
    let mut hash = start;
    for byte in bytes {
        hash = next_hash(multiplier, hash, *byte as u64);
    }
    hash
}

fn hash_without(multiplier: u64, name: &[u8], i: usize) -> u64
    requires { i < length name.now }
    ensures { result ≡ spec.name_hash multiplier (spec.without name.now i) }
{
    let (before, after) = (&name[..i], &name[i + 1..]);
    hash_on(multiplier, hash_on(multiplier, 0, before), after)
}

fn hash_in_lower_case(multiplier: u64, name: &[u8]) -> u64
    ensures { result ≡ spec.name_hash multiplier (spec.lower_case name.now) }
{
    let mut hash = 0;
    for byte in name {
        hash = next_hash(multiplier, hash, byte.to_ascii_lowercase() as u64);
    }
    hash
}

/// The key of a hash, of one kind, at a place.
fn key_at(multiplier: u64, hash: u64, kind: u64, place: usize) -> u64
    ensures { result ≡ spec.key_at multiplier hash kind place }
{
    next_hash(multiplier, next_hash(multiplier, hash, kind), place as u64)
}

/// The first name that has the key, or one past all names.
fn first_with(firsts: &Firsts, key: u64) -> usize
    ensures { result ≡ spec.first_with firsts.now key }
{
    firsts.get(&key).copied().unwrap_or(usize::MAX)
}

/// The name at this place has the key.
fn mark(firsts: &mut Firsts, place: usize, key: u64) -> Result<(), AllocError>
    ensures marked { OnOk result (spec.first_with firsts.new key ≤ place) }
    ensures kept { OnOk result ((k : ℕ) → spec.first_with firsts.new k ≤ spec.first_with firsts.old k) }
{
    if first_with(firsts, key) > place {
        firsts.insert(key, place)?;
    }
    Ok(())
}

/// The name at this place has the keys of what is left of it without one byte.
fn mark_without(
    firsts: &mut Firsts,
    multiplier: u64,
    place: usize,
    name: &[u8],
    i: usize,
) -> Result<(), AllocError>
    requires { i < length name.now }
    ensures shorter { OnOk result
        (spec.first_with firsts.new (spec.shorter_key multiplier (spec.without name.now i) i) ≤ place) }
    ensures exchanged { OnOk result (spec.first_with firsts.new
        (spec.exchanged_key multiplier (spec.without name.now i) (get_or name.now i 0) i) ≤ place) }
    ensures kept { OnOk result ((k : ℕ) → spec.first_with firsts.new k ≤ spec.first_with firsts.old k) }
{
    let hash = hash_without(multiplier, name, i);
    let with_byte = next_hash(multiplier, hash, name[i] as u64);
    mark(firsts, place, key_at(multiplier, hash, 2, i))?;
    mark(firsts, place, key_at(multiplier, with_byte, 3, i))
}

fn mark_name(
    firsts: &mut Firsts,
    multiplier: u64,
    place: usize,
    name: &[u8],
) -> Result<(), AllocError>
    ensures marked { OnOk result (spec.IsMarked multiplier firsts.new place name.now) }
    ensures kept { OnOk result ((k : ℕ) → spec.first_with firsts.new k ≤ spec.first_with firsts.old k) }
{
    let (whole, lowered) = (
        hash_on(multiplier, 0, name),
        hash_in_lower_case(multiplier, name),
    );
    mark(firsts, place, key_at(multiplier, whole, 0, 0))?;
    mark(firsts, place, key_at(multiplier, lowered, 1, 0))?;
    for i in 0..name.len() {
        mark_without(firsts, multiplier, place, name, i)?;
    }
    Ok(())
}

fn mark_names(firsts: &mut Firsts, multiplier: u64, names: &[&str]) -> Result<(), AllocError>
    ensures { OnOk result (spec.AreSearchStarts multiplier firsts.new (texts_of names.now)) }
{
    for place in 0..names.len() {
        mark_name(firsts, multiplier, place, names[place].as_bytes())?;
    }
    Ok(())
}

/// From each key to the first of the names that has it.
pub(crate) fn starts_of(
    alloc: Global,
    names: &[&str],
    keys: Keys,
    multiplier: u64,
) -> Result<Firsts, AllocError>
    ensures { IfOk result (λ firsts. spec.AreSearchStarts multiplier firsts (texts_of names.now)) }
{
    let mut firsts = HashMap::with_hasher(alloc, keys);
    mark_names(&mut firsts, multiplier, names)?;
    Ok(firsts)
}

/// The first name that has a key of what is left of this one without one byte.
fn first_without(firsts: &Firsts, multiplier: u64, name: &[u8], i: usize) -> usize
    requires { i < length name.now }
    ensures shorter { result ≤ spec.first_with firsts.now (spec.whole_key multiplier (spec.without name.now i)) }
    ensures replaced { result
        ≤ spec.first_with firsts.now (spec.shorter_key multiplier (spec.without name.now i) i) }
    ensures exchanged { result ≤ spec.first_with firsts.now
        (spec.exchanged_key multiplier (spec.without name.now i) (get_or name.now i 0) (i + 1)) }
{
    let hash = hash_without(multiplier, name, i);
    let with_byte = next_hash(multiplier, hash, name[i] as u64);
    first_with(firsts, key_at(multiplier, hash, 0, 0))
        .min(first_with(firsts, key_at(multiplier, hash, 2, i)))
        .min(first_with(firsts, key_at(multiplier, with_byte, 3, i + 1)))
}

/// From which place on a name can resemble this one.
pub(crate) fn start_of(firsts: &Firsts, multiplier: u64, name: &[u8]) -> usize
    ensures { spec.IsStart multiplier firsts.now name.now result }
{
    let hash = hash_on(multiplier, 0, name);
    let lowered = hash_in_lower_case(multiplier, name);
    let prefixed = hash_on(multiplier, hash_on(multiplier, 0, "rft.".as_bytes()), name);
    let mut start = first_with(firsts, key_at(multiplier, hash, 2, name.len()))
        .min(first_with(firsts, key_at(multiplier, lowered, 1, 0)))
        .min(first_with(firsts, key_at(multiplier, prefixed, 0, 0)));
    for i in 0..name.len() {
        start = start
            .min(first_with(firsts, key_at(multiplier, hash, 2, i)))
            .min(first_without(firsts, multiplier, name, i));
    }
    start
}
