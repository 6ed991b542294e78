//! Instructions of loops.

ghost use Rattle.std.specs.Prelude.{◌≡◌, ◌<◌, ◌+◌, ◌==◌, None, nat_lt, if◌then◌else◌};
ghost use Rattle.machine_model.specs.Next.{in_loop, in_no_loop, for_list, each_move, next_move};
ghost use Rattle.checked_machine.specs.Private.Frames.{frame_of, moves};

use crate::frame::{Frame, Loop, Move};
use crate::register::Register;
use crate::value::Value;

impl<'a> Frame<'a> {
    /// Begins a loop over a register's list, with the first member in the element register; jumps to the loop's end if
    /// there is no member. At most one loop runs at a time.
    pub(crate) fn begin_loop(&mut self, element: Register, list: Register, end: u16) -> Option<Move>
        requires { self.old.place < usize.MAX }
        ensures { moves (frame_of self.new) result ≡ in_no_loop (frame_of self.old).loop
            (if nat_lt (self.old.place + 1) end then for_list ((frame_of self.old).registers list.number)
            (each_move (frame_of self.old) element.number end) else None) }
    {
        let start = self.place + 1;
        let end = end as usize;
        if self.running.is_some() || start >= end {
            return None;
        }
        let Value::List(members) = self.value(list) else {
            return None;
        };
        let Some((member, left)) = members.split_first() else {
            return Some(Move::MovesTo(end));
        };
        self.running = Some(Loop {
            start,
            end,
            element,
            left,
            first: true,
        });
        Some(self.load(element, Value::Text(member.as_bytes())))
    }

    /// Puts the loop's next member into the element register and returns to the loop's start; if none is left, ends the
    /// loop and continues.
    pub(crate) fn next_member(&mut self) -> Option<Move>
        requires { self.old.place < usize.MAX }
        ensures { moves (frame_of self.new) result ≡ in_loop (frame_of self.old).loop
            (λ l. if self.old.place + 1 == l.end then next_move (frame_of self.old) l l.left else None) }
    {
        let running = self.running?;
        if self.place + 1 != running.end {
            return None;
        }
        let Some((member, left)) = running.left.split_first() else {
            self.running = None;
            return Some(self.on());
        };
        self.running = Some(Loop {
            start: running.start,
            end: running.end,
            element: running.element,
            left,
            first: false,
        });
        self.hold(running.element, Value::Text(member.as_bytes()));
        Some(Move::Returns(running.start))
    }
}
