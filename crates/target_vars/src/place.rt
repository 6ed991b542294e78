//! Where texts and members are in the environment's buffer.

ghost use Rattle.std.specs.Prelude.{◌≡◌, ◌<◌, ◌≤◌, ◌+◌, [], ◌∷◌, ◌++◌, length, vec_len, vec_capacity};
ghost use Rattle.std.specs.Prelude.{MatchOption, IfOk, OnOk, OnErr};
ghost use Rattle.std.specs.List.Sorted.{IsNonDecreasingBy};
ghost use Rattle.target_vars.specs.Layout.{part_bytes, HasList, IsPart, IsPutLast, AreAdjacent};
ghost use Rattle.target_vars.specs.Private.ListPlaces.{HasText, IsListPlace};
ghost use Rattle.target_vars.specs.Private.NamesValue.{IsGap};

use crate::env::MAX_BYTES;
use crate::names::Names;
use crate::room::{FIRST_NAMES, reserve_items};
use std::alloc::AllocError;

/// A part of the buffer, in bytes.
#[derive(Clone, Copy)]
pub(crate) struct Part {
    pub(crate) start: u32,
    pub(crate) len: u32,
}

/// Where a member is, and the number of the name of its list.
#[derive(Clone, Copy)]
pub(crate) struct Span {
    pub(crate) list: usize,
    pub(crate) part: Part,
}

/// What a name denotes: a text, or a list, whose spans have the name's number.
#[derive(Clone, Copy)]
pub(crate) enum Place {
    One(Part),
    Many,
}

impl Part {
    /// Where a text will be that is appended to the buffer.
    pub(crate) fn at_end(buffer: &str, text: &str) -> Part
        requires { length buffer.now + length text.now ≤ MAX_BYTES }
        ensures start { result.start ≡ length buffer.now }
        ensures len { result.len ≡ length text.now }
    {
        Part {
            start: buffer.len() as u32,
            len: text.len() as u32,
        }
    }

    pub(crate) fn of(self, buffer: &str) -> &str
        requires { IsPart buffer.now self }
        ensures { result.now ≡ part_bytes buffer.now self }
    {
        let start = self.start as usize;
        &buffer[start..start + self.len as usize]
    }
}

/// Adds a name with its place.
pub(crate) fn enter(
    names: &mut Names,
    places: &mut Vec<Place>,
    name: &str,
    gap: usize,
    place: Place,
) -> Result<(), AllocError>
    requires { IsGap names.old name.now gap }
    ensures names { OnOk result (names.new.listed ≡ names.old.listed ++ name.now ∷ []) }
    ensures places { OnOk result (places.new.items ≡ places.old.items ++ place ∷ []) }
    ensures err { OnErr result ((names.new.listed ≡ names.old.listed) × (places.new.items ≡ places.old.items)) }
{
    reserve_items(places, 1, FIRST_NAMES)?;
    names.add(name, gap)?;
    places.push_reserved(place);
    Ok(())
}

/// The number of the name's list, or the gap for an undefined name. `None` if the name denotes a text.
pub(crate) fn find_list(names: &Names, places: &[Place], name: &str) -> Option<Result<usize, usize>>
    requires { length places.now ≡ length names.now.listed }
    ensures { MatchOption result (HasText names.now places.now name.now)
        (IsListPlace names.now places.now name.now) }
{
    match names.find(name) {
        Err(gap) => Some(Err(gap)),
        Ok(number) => match places[number] {
            Place::One(_) => None,
            Place::Many => Some(Ok(number)),
        },
    }
}

/// The number of the name's list, which is a new one if the name was not found.
pub(crate) fn list_of(
    names: &mut Names,
    places: &mut Vec<Place>,
    name: &str,
    found: Result<usize, usize>,
) -> Result<usize, AllocError>
    requires found { IsListPlace names.old places.old.items name.now found }
    requires one_each { length places.old.items ≡ length names.old.listed }
    ensures ok { IfOk result (HasList names.old.listed places.old.items name.now names.new.listed places.new.items) }
    ensures err { OnErr result ((names.new.listed ≡ names.old.listed) × (places.new.items ≡ places.old.items)) }
{
    match found {
        Ok(number) => Ok(number),
        Err(gap) => {
            let number = places.len();
            enter(names, places, name, gap, Place::Many)?;
            Ok(number)
        }
    }
}

/// Where the spans of the list begin, and how many there are.
pub(crate) fn run_of(spans: &[Span], list: usize) -> (usize, usize)
    requires { IsNonDecreasingBy (λ s. s.list) spans.now }
    ensures { AreAdjacent spans.now list result.0 result.1 }
{
    let first = spans.partition_point(|span| span.list < list);
    let count = spans[first..].partition_point(|span| span.list <= list);
    (first, count)
}

/// Inserts the span as the last one of its list.
pub(crate) fn put_last(spans: &mut Vec<Span>, span: Span)
    requires in_order { IsNonDecreasingBy (λ s. s.list) spans.old.items }
    requires room { vec_len spans.old < vec_capacity spans.old }
    ensures { IsPutLast spans.old.items span spans.new.items }
{
    let end = spans.partition_point(|other| other.list <= span.list);
    spans.insert(end, span).unwrap();
}
