//! The values that a request has under its keys.

ghost use Rattle.std.specs.Prelude.{◌≡◌, ◌+◌, ◌-◌, ◌<◌, ◌≤◌, ◌*◌, [], IfOk, List, Some, drop, false, length, slice_get};
ghost use Rattle.std.specs.Prelude.{◌==◌, not, sum_by, take, true};
ghost use Rattle.text_model.specs.Texts.{Text};
ghost use Rattle.environment_model.specs.Environment.{byte_count, member_count, members_of};
ghost use Rattle.environment_model.specs.Lists as lists;
ghost use Rattle.target_vars.specs.EnvValue.{IsWithin, piece_at};
ghost use Rattle.target_vars.specs.declared.env.TheConstants.{MAX_BYTES, MAX_MEMBERS};
ghost use Rattle.row_laws.specs.Shadowing.{requested};
ghost use Rattle.row_scope.specs.Bindings.{IsBound, laid_in};
ghost use Rattle.row_scope.specs.RequestValues.{AreValues, IsApart, AreValuesAt, bytes_of_key, members_of_key};
ghost use Rattle.row_scope.specs.RequestValues.{has_key_among};
ghost use Rattle.kev_read.specs.Pairs.{all_of};
ghost use Rattle.kbart_rows.specs.NameSets.{has};
ghost use Rattle.row_scope.specs.Private.Kept.{AreEnds};

use crate::binding::Binding;
use kbart_rows::NameSet;
use kev_read::{KeyValues, Request};
use row_laws::{requests_by_keys, sums_by_values};
use std::alloc::{AllocError, Global};
use std::marker::Model;

/// A request, with the values of each of its keys next to each other. Contracts see the pairs, and where the values
/// are.
#[derive(Drop)]
pub struct RequestValues<'a> {
    request: &'a Request,
    values: KeyValues<'a>,
    // How many bytes of values come before each span, and how many there are in all.
    ends: Vec<u64>,
    // E (bytes) and M (members) of the request if no list is declared.
    bytes: usize,
    members: usize,
    // Whether a key may be the name of a column.
    meets: bool,
}

impl<'a> Model for RequestValues<'a> {
    ghost use Rattle.row_scope.specs.RequestValues.{RequestValue};
    ghost use Rattle.row_scope.specs.Private.Kept.{IsRequest};

    ghost Value = { RequestValue };

    ghost view = { λ r. record { pairs = r.request.now.pairs; values = r.values; meets = r.meets } };

    ghost invariant = { λ r. IsRequest (record { pairs = r.request.now.pairs; values = r.values; meets = r.meets })
        r.ends.items r.bytes r.members };
}

impl<'a> RequestValues<'a> {
    /// The values of a request, for tables whose columns are among these.
    ///
    /// `AllocError` if an allocation failed.
    pub fn new(
        alloc: Global,
        request: &'a Request,
        columns: &NameSet,
    ) -> Result<RequestValues<'a>, AllocError>
        ensures pairs { IfOk result (λ values. values.pairs ≡ request.now.pairs) }
        ensures meets { IfOk result (λ values. values.meets ≡ has_key_among columns.now.names request.now.pairs) }
        ensures apart { IfOk result (λ values. IsApart values (has columns.now.names)) }
    {
        let _known = request.pairs();
        let values = request.values_by_key(alloc)?;
        let _known = values.buffer();
        let ends = ends_of(alloc, &values)?;
        let (bytes, members) = sums_without_lists(request);
        let meets = names_a_column(request, &values, columns);
        Ok(RequestValues {
            request,
            values,
            ends,
            bytes,
            members,
            meets,
        })
    }

    /// Whether a key may be the name of a column.
    pub(crate) fn meets_columns(&self) -> bool
        ensures { result ≡ self.now.meets }
    {
        self.meets
    }

    /// E and M of the request if no list is declared: the bytes of all texts and members, and the number of members.
    pub(crate) fn sums(&self) -> (usize, usize)
        ensures bytes { result.0 ≡ byte_count (requested [] self.now.pairs) }
        ensures members { result.1 ≡ member_count (requested [] self.now.pairs) }
        ensures known { AreValues self.now }
    {
        (self.bytes, self.members)
    }

    /// How many bytes all values have.
    pub(crate) fn size(&self) -> usize
        ensures value { result ≡ length self.now.values.buffer }
        ensures known { AreValues self.now }
    {
        self.values.buffer().len()
    }

    /// The bytes from `start` to before `end`.
    pub(crate) fn piece(&self, start: usize, end: usize) -> &[u8]
        requires forward { start ≤ end }
        requires within { end ≤ length self.now.values.buffer }
        ensures { result.now ≡ piece_at self.now.values.buffer (start, end - start) }
    {
        &self.values.buffer()[start..end]
    }

    /// Where a value is: its offset and its length, in bytes.
    pub(crate) fn span(&self, i: usize) -> (u32, u32)
        requires { i < length self.now.values.spans }
        ensures value { slice_get self.now.values.spans i ≡ Some (result.0, result.1) }
        ensures within { IsWithin self.now.values (result.0, result.1) }
    {
        self.values.span(i)
    }

    /// Where the values of a key are: the first span, and the number of spans.
    pub(crate) fn values_of(&self, key: &str) -> (u32, u32)
        ensures place { AreValuesAt self.now key.now result.0 result.1 }
        ensures known { AreValues self.now }
    {
        self.values.members_at(key)
    }

    /// What a name is bound to in the request without a row, as a list or as a text, if its values are at these spans:
    /// the first, and the number of spans.
    pub(crate) fn binding(&self, first: u32, count: u32, is_list: bool) -> Binding
        requires { first + count ≤ length self.now.values.spans }
        ensures { (name : Text) (declared : List Text) → AreValuesAt self.now name first count
            → is_list ≡ lists.is_list declared name
            → IsBound (laid_in self.now.values (requested declared self.now.pairs)) name result }
    {
        requests_by_keys();
        if count == 0 {
            Binding::Nothing
        } else if is_list {
            Binding::List(first, count)
        } else {
            let (start, len) = self.span(first as usize);
            Binding::Text(start, len)
        }
    }

    /// How many bytes and members the request has under a key, as a list or as a text.
    pub(crate) fn sums_of(&self, key: &str, is_list: bool) -> (usize, usize)
        ensures bytes { result.0 ≡ bytes_of_key self.now.pairs is_list key.now }
        ensures members { result.1 ≡ members_of_key self.now.pairs is_list key.now }
        ensures small { (result.0 ≤ MAX_BYTES * MAX_MEMBERS) × (result.1 ≤ MAX_MEMBERS) }
    {
        let (first, count) = self.values_of(key);
        if count == 0 {
            (0, 0)
        } else if is_list {
            (self.bytes_of_spans(first, count), count as usize)
        } else {
            (self.span(first as usize).1 as usize, 0)
        }
    }

    /// How many bytes the values at some spans have.
    fn bytes_of_spans(&self, first: u32, count: u32) -> usize
        requires { first + count ≤ length self.now.values.spans }
        ensures value { result ≡ sum_by (λ span. span.1) (take count (drop first self.now.values.spans)) }
        ensures small { result ≤ MAX_BYTES * MAX_MEMBERS }
    {
        let first = first as usize;
        (self.ends[first + count as usize] - self.ends[first]) as usize
    }
}

/// Whether a key of a request is the name of one of the columns. It looks each column's name up in the request, or each
/// key among the columns, whichever are fewer.
fn names_a_column(request: &Request, values: &KeyValues, columns: &NameSet) -> bool
    requires { (key : Text) → members_of values.now.entries key ≡ all_of request.now.pairs key }
    ensures { result ≡ has_key_among columns.now.names request.now.pairs }
{
    if columns.len() < request.pairs() {
        columns
            .as_slice()
            .iter()
            .any(|name| is_key(values, name.as_str()))
    } else {
        any_key_is_a_column(request, columns)
    }
}

/// Whether a request has a value under the name.
fn is_key(values: &KeyValues, name: &str) -> bool
    ensures { result ≡ not (length (members_of values.now.entries name.now) == 0) }
{
    values.members_at(name).1 > 0
}

/// Whether a key of a request is the name of one of the columns, which are searched for each key.
fn any_key_is_a_column(request: &Request, columns: &NameSet) -> bool
    ensures { result ≡ has_key_among columns.now.names request.now.pairs }
{
    for index in 0..request.pairs() {
        if columns.contains(request.pair(index).0) {
            return true;
        }
    }
    false
}

/// How many bytes of members come before each span, and how many there are in all.
fn ends_of(alloc: Global, values: &KeyValues) -> Result<Vec<u64>, AllocError>
    ensures { IfOk result (λ ends. AreEnds values.now.spans ends.items) }
{
    let count = values.len();
    let mut ends = Vec::with_capacity(alloc, count + 1)?;
    let mut end: u64 = 0;
    ends.push(end)?;
    for i in 0..count {
        end += values.span(i).1 as u64;
        ends.push(end)?;
    }
    Ok(ends)
}

/// E and M of a request if no list is declared.
fn sums_without_lists(request: &Request) -> (usize, usize)
    ensures bytes { result.0 ≡ byte_count (requested [] request.now.pairs) }
    ensures members { result.1 ≡ member_count (requested [] request.now.pairs) }
{
    sums_by_values();
    request.sums()
}
