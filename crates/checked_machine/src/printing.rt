//! Instructions that append to the output.

ghost use Rattle.std.specs.Prelude.{◌≡◌, ◌<◌, ◌++◌, Some, IfOk, OnOk, string_bytes, if◌then◌else◌};
ghost use Rattle.text_model.specs.UriText.{IsUriText};
ghost use Rattle.text_model.specs.Writing.{written};
ghost use Rattle.text_model.specs.Cut.{cut};
ghost use Rattle.machine_model.specs.States.{on, printing};
ghost use Rattle.machine_model.specs.Step.{MovesTo};
ghost use Rattle.machine_model.specs.Next.{for_text, in_loop};
ghost use Rattle.checked_machine.specs.Private.Frames.{frame_of, move_in, moves};

use crate::frame::{Frame, Move};
use crate::register::Register;
use crate::value::Value;
use std::alloc::AllocError;
use text_model::Writing;
use uri_text::{cut, encode};

/// Appends a text unchanged.
fn append(out: &mut String, text: &[u8]) -> Result<(), AllocError>
    requires { IsUriText text.now }
    ensures { OnOk result (string_bytes out.new ≡ string_bytes out.old ++ text.now) }
{
    out.push_str(str::from_utf8(text).unwrap())
}

/// Appends a text, percent-encoded as the writing says; each byte becomes at most three.
fn append_written(out: &mut String, text: &[u8], writing: Writing) -> Result<(), AllocError>
    ensures { OnOk result (string_bytes out.new ≡ string_bytes out.old ++ written writing text.now) }
{
    out.reserve(text.len().saturating_mul(3))?;
    encode(out, text, writing);
    Ok(())
}

impl<'a> Frame<'a> {
    /// Appends a link text, and continues.
    pub(crate) fn emit(&mut self, text: &[u8]) -> Result<Move, AllocError>
        requires uri_text { IsUriText text.now }
        requires place { self.old.place < usize.MAX }
        ensures { IfOk result
            (λ to. move_in (frame_of self.new) to ≡ MovesTo (on (printing text.now (frame_of self.old)))) }
    {
        append(&mut self.output, text)?;
        Ok(self.on())
    }

    /// Appends a link text unless this is the loop's first turn, and continues.
    pub(crate) fn separate(&mut self, text: &[u8]) -> Result<Option<Move>, AllocError>
        requires uri_text { IsUriText text.now }
        requires place { self.old.place < usize.MAX }
        ensures { IfOk result (λ to. moves (frame_of self.new) to ≡ in_loop (frame_of self.old).loop
            (λ l. Some (MovesTo (on (if l.first then frame_of self.old else printing text.now (frame_of self.old)))))) }
    {
        let Some(running) = self.running else {
            return Ok(None);
        };
        if !running.first {
            append(&mut self.output, text)?;
        }
        Ok(Some(self.on()))
    }

    /// Appends the register's text, percent-encoded, and continues.
    pub(crate) fn put(
        &mut self,
        register: Register,
        writing: Writing,
    ) -> Result<Option<Move>, AllocError>
        requires { self.old.place < usize.MAX }
        ensures { IfOk result
            (λ to. moves (frame_of self.new) to ≡ for_text ((frame_of self.old).registers register.number)
            (λ t. Some (MovesTo (on (printing (written writing t) (frame_of self.old)))))) }
    {
        let Value::Text(text) = self.value(register) else {
            return Ok(None);
        };
        append_written(&mut self.output, text, writing)?;
        Ok(Some(self.on()))
    }

    /// Appends the first items of the register's text, percent-encoded, and continues.
    pub(crate) fn put_first(
        &mut self,
        register: Register,
        count: u16,
        writing: Writing,
    ) -> Result<Option<Move>, AllocError>
        requires { self.old.place < usize.MAX }
        ensures { IfOk result
            (λ to. moves (frame_of self.new) to ≡ for_text ((frame_of self.old).registers register.number)
            (λ t. Some (MovesTo (on (printing (written writing (cut writing t count)) (frame_of self.old)))))) }
    {
        let Value::Text(text) = self.value(register) else {
            return Ok(None);
        };
        let items = cut(text, count as usize, matches!(writing, Writing::UR));
        append_written(&mut self.output, items, writing)?;
        Ok(Some(self.on()))
    }
}
