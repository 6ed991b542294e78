//! The environment.

ghost use Rattle.std.specs.Prelude.{◌≡◌, ℕ, ◌++◌, ◌+◌, ◌<◌, ◌≤◌, ◌↔◌, ◌⊎◌, true, false, not, [], length, slice_get};
ghost use Rattle.std.specs.Prelude.{IfOk, IfSome, IsTrue, MatchOption, insert, if◌then◌else◌, All, OnOk, OnErr, IsUtf8};
ghost use Rattle.std.specs.Option.{option_copied};
ghost use Rattle.environment_model.specs.Environment.{is_there, text_of, members_of, byte_count, member_count};
ghost use Rattle.environment_model.specs.Environment.{with_text, with_member};
ghost use Rattle.target_vars.specs.EnvValue.{EachNameOnce, denotes_text, IsWithin, IsTextAt, AreMembersAt};
ghost use Rattle.target_vars.specs.EnvValue.{IsInOrder};
ghost use Rattle.target_vars.specs.Layout.{IsTextPart};
ghost use Rattle.target_vars.specs.Members.{members_left};

use crate::error::VarsError;
use crate::members::Members;
use crate::names::Names;
use crate::place::{Part, Place, Span, enter, find_list, list_of, put_last, run_of};
use crate::room::reserve;
use std::alloc::Global;
use std::marker::Model;

/// The maximum total length of all texts and members of an [`Env`], in bytes.
pub const MAX_BYTES: usize = 1_048_576;

/// The maximum total number of members in all lists of an [`Env`].
pub const MAX_MEMBERS: usize = 65_535;

/// Variables, in the order in which their names were added. Each name denotes a text or a list of texts; once a name is
/// defined, it stays a text or a list.
#[derive(Drop)]
pub struct Env {
    buffer: String,
    spans: Vec<Span>,
    names: Names,
    places: Vec<Place>,
}

impl Model for Env {
    ghost use Rattle.target_vars.specs.EnvValue.{EnvValue};

    ghost Value = { EnvValue };

    ghost use Rattle.std.specs.Prelude.{string_bytes};
    ghost use Rattle.target_vars.specs.Layout.{laid_entries, laid_spans, IsLaid};

    ghost view = { λ env. record {
      entries = laid_entries (string_bytes env.buffer) env.spans.items env.names.listed
          env.places.items;
      buffer = string_bytes env.buffer;
      seam = 0;
      spans = laid_spans env.spans.items;
    } };

    ghost invariant = { λ env. IsLaid (string_bytes env.buffer) env.spans.items env.names.listed env.places.items };
}

impl Env {
    /// The empty environment. The clause `limits` says what the limits of every environment are.
    pub fn new(alloc: Global) -> Env
        ensures value { result.entries ≡ [] }
        ensures limits { (MAX_BYTES ≡ 1048576) × (MAX_MEMBERS ≡ 65535) }
    {
        Env {
            buffer: String::new(alloc),
            spans: Vec::new(alloc),
            names: Names::new(alloc),
            places: Vec::new(alloc),
        }
    }

    /// Adds the name with its text at the end and returns `true`. A name that is already defined, as a text or as a
    /// list, stays as it is, and the result is `false`.
    ///
    /// `TooLarge` if all texts and members would have more than [`MAX_BYTES`] bytes; `NoMemory` if an allocation
    /// failed. After an error nothing has changed.
    pub fn put_text(&mut self, name: &str, text: &str) -> Result<bool, VarsError>
        ensures answer { IfOk result (λ is_new. is_new ≡ not (is_there self.old.entries name.now)) }
        ensures ok { OnOk result (self.new.entries ≡ with_text self.old.entries name.now text.now) }
        ensures known { is_there self.old.entries name.now ≡ true → result ≡ Ok false }
        ensures too_large { (result ≡ Err VarsError.TooLarge)
            ↔ ((is_there self.old.entries name.now ≡ false)
            × (MAX_BYTES < byte_count self.old.entries + length text.now)) }
        ensures err { OnErr result (self.new.entries ≡ self.old.entries) }
        ensures buffer { IfOk result
            (λ is_new. self.new.buffer ≡ (if is_new then self.old.buffer ++ text.now else self.old.buffer)) }
        ensures spans { self.new.spans ≡ self.old.spans }
        ensures unmoved { OnErr result (self.new.buffer ≡ self.old.buffer) }
    {
        let Err(gap) = self.names.find(name) else {
            return Ok(false);
        };
        if self.is_too_long(text) {
            return Err(VarsError::TooLarge);
        }
        reserve(&mut self.buffer, text.len())?;
        let part = Part::at_end(&self.buffer, text);
        enter(
            &mut self.names,
            &mut self.places,
            name,
            gap,
            Place::One(part),
        )?;
        self.buffer.push_str(text).unwrap();
        Ok(true)
    }

    /// Adds the text as the last member of the name's list and returns `true`; an undefined name is added at the end,
    /// with a list of this one member. A name that denotes a text stays as it is, and the result is `false`.
    ///
    /// `TooLarge` if all texts and members would have more than [`MAX_BYTES`] bytes, or all lists more than
    /// [`MAX_MEMBERS`] members; `NoMemory` if an allocation failed. After an error nothing has changed.
    pub fn add_member(&mut self, name: &str, text: &str) -> Result<bool, VarsError>
        ensures answer { IfOk result (λ is_added. is_added ≡ not (denotes_text self.old.entries name.now)) }
        ensures ok { OnOk result (self.new.entries ≡ with_member self.old.entries name.now text.now) }
        ensures known { denotes_text self.old.entries name.now ≡ true → (result ≡ Ok false)
            × (self.new.entries ≡ self.old.entries) }
        ensures too_large { (result ≡ Err VarsError.TooLarge)
            ↔ ((denotes_text self.old.entries name.now ≡ false)
            × ((MAX_BYTES < byte_count self.old.entries + length text.now)
            ⊎ (MAX_MEMBERS < member_count self.old.entries + 1))) }
        ensures err { OnErr result (self.new.entries ≡ self.old.entries) }
        ensures buffer { IfOk result
            (λ is_added. self.new.buffer ≡ (if is_added then self.old.buffer ++ text.now else self.old.buffer)) }
        ensures span { result ≡ Ok true → (place : ℕ) × (place ≤ length self.old.spans)
            × (self.new.spans ≡ insert self.old.spans place (length self.old.buffer, length text.now)) }
        ensures unmoved { OnErr result ((self.new.buffer ≡ self.old.buffer) × (self.new.spans ≡ self.old.spans)) }
        ensures kept { result ≡ Ok false → self.new.spans ≡ self.old.spans }
    {
        let Some(found) = find_list(&self.names, &self.places, name) else {
            return Ok(false);
        };
        if self.is_too_long(text) || self.is_full() {
            return Err(VarsError::TooLarge);
        }
        reserve(&mut self.buffer, text.len())?;
        self.spans.reserve(1)?;
        let list = list_of(&mut self.names, &mut self.places, name, found)?;
        let part = Part::at_end(&self.buffer, text);
        self.buffer.push_str(text).unwrap();
        put_last(&mut self.spans, Span { list, part });
        Ok(true)
    }

    fn is_too_long(&self, text: &str) -> bool
        ensures { IsTrue result ↔ (MAX_BYTES < byte_count self.now.entries + length text.now) }
    {
        text.len() > MAX_BYTES - self.bytes()
    }

    fn is_full(&self) -> bool
        ensures { IsTrue result ↔ (MAX_MEMBERS < member_count self.now.entries + 1) }
    {
        self.members() >= MAX_MEMBERS
    }

    /// The part of the buffer that has the name's text.
    fn part_of(&self, name: &str) -> Option<Part>
        ensures { MatchOption result (text_of self.now.entries name.now ≡ None) (IsTextPart self.now name.now) }
    {
        let Ok(number) = self.names.find(name) else {
            return None;
        };
        match self.places[number] {
            Place::One(part) => Some(part),
            Place::Many => None,
        }
    }

    /// Where the spans of the name's list begin, and how many there are.
    fn run(&self, name: &str) -> (usize, usize)
        ensures value { AreMembersAt self.now name.now result.0 result.1 }
        ensures small { result.0 + result.1 ≤ MAX_MEMBERS }
    {
        let Ok(number) = self.names.find(name) else {
            return (0, 0);
        };
        match self.places[number] {
            Place::One(_) => (0, 0),
            Place::Many => run_of(&self.spans, number),
        }
    }

    /// The text of the name; `None` for a list.
    pub fn text(&self, name: &str) -> Option<&str>
        ensures value { option_copied result ≡ text_of self.now.entries name.now }
        ensures small { IfSome result (λ text. length text.now ≤ MAX_BYTES) }
        ensures utf8 { IfSome result (λ text. IsUtf8 text.now) }
    {
        let part = self.part_of(name)?;
        Some(part.of(&self.buffer))
    }

    /// Where the text of the name is in the buffer: its offset and its length, in bytes. `None` for a list.
    pub fn text_at(&self, name: &str) -> Option<(u32, u32)>
        ensures { MatchOption result (text_of self.now.entries name.now ≡ None)
            (λ at. IsTextAt self.now name.now (at.0, at.1)) }
    {
        let part = self.part_of(name)?;
        Some((part.start, part.len))
    }

    /// How many members the list of the name has; 0 for a text.
    pub fn count(&self, name: &str) -> usize
        ensures value { result ≡ length (members_of self.now.entries name.now) }
        ensures small { result ≤ MAX_MEMBERS }
    {
        self.run(name).1
    }

    /// The members of the list of the name; none for a text.
    pub fn list(&self, name: &str) -> Members<'_>
        ensures { members_left result ≡ members_of self.now.entries name.now }
    {
        let (first, count) = self.run(name);
        Members::new(&self.buffer, &self.spans[first..first + count])
    }

    /// Which spans are those of the name's list: the first, and how many. `(0, 0)` if the name denotes no list.
    pub fn members_at(&self, name: &str) -> (u32, u32)
        ensures value { AreMembersAt self.now name.now result.0 result.1 }
        ensures none { members_of self.now.entries name.now ≡ [] → result ≡ (0, 0) }
    {
        let (first, count) = self.run(name);
        if count == 0 {
            return (0, 0);
        }
        (first as u32, count as u32)
    }

    /// Where the member at a span is in the buffer: its offset and its length, in bytes. The spans of all lists are
    /// counted from 0, and there are [`members`](Env::members) of them.
    pub fn span(&self, i: usize) -> (u32, u32)
        requires { i < member_count self.now.entries }
        ensures value { slice_get self.now.spans i ≡ Some (result.0, result.1) }
        ensures within { IsWithin self.now (result.0, result.1) }
    {
        let part = self.spans[i].part;
        (part.start, part.len)
    }

    /// Member `i` of the list of the name, counted from 0; `None` for a text, and past the last member.
    pub fn member(&self, name: &str, i: usize) -> Option<&str>
        ensures value { option_copied result ≡ slice_get (members_of self.now.entries name.now) i }
        ensures small { IfSome result (λ text. length text.now ≤ MAX_BYTES) }
        ensures utf8 { IfSome result (λ text. IsUtf8 text.now) }
    {
        self.list(name).get(i)
    }

    /// The bytes of all texts and members, in the order in which they were added, without the names.
    pub fn buffer(&self) -> &[u8]
        ensures value { result.now ≡ self.now.buffer }
        ensures len { length result.now ≡ byte_count self.now.entries }
        ensures small { length result.now ≤ MAX_BYTES }
        ensures within { All (IsWithin self.now) self.now.spans }
        ensures in_order { IsInOrder self.now }
        ensures seam { self.now.seam ≡ 0 }
    {
        self.buffer.as_bytes()
    }

    /// How many bytes all texts and members have together; names do not count.
    pub fn bytes(&self) -> usize
        ensures value { result ≡ byte_count self.now.entries }
        ensures small { result ≤ MAX_BYTES }
    {
        self.buffer.len()
    }

    /// How many members all lists have together.
    pub fn members(&self) -> usize
        ensures value { result ≡ member_count self.now.entries }
        ensures small { result ≤ MAX_MEMBERS }
        ensures once { EachNameOnce self.now.entries }
        ensures spans { result ≡ length self.now.spans }
    {
        self.spans.len()
    }
}
