//! The sums, in one walk over the instructions.

ghost use Rattle.std.specs.Prelude.{◌≡◌, ◌+◌, ◌<◌, length};
ghost use Rattle.machine_model.specs.Budget.{sums_of, longest_compared as longest_of};
ghost use Rattle.code_file.specs.Grammar.{IsCode};
ghost use Rattle.budget.specs.Small.{IsSmall};
ghost use Rattle.budget.specs.Private.Running.{running_at};
ghost use Rattle.budget.specs.Private.SumsBelow.{sums_below};

use crate::budget::Budget;
use crate::running::{Running, next_running, reading};
use crate::share::{longest_compared, share_of};
use code_file::Code;

/// The budget of a code. It counts every place, even one that no run reaches, and a loop's body once for each member of
/// all lists. It allocates nothing, and its time is proportional to the length of the code.
pub fn budget_of(code: &Code) -> Budget
    ensures value { result ≡ sums_of code.now }
    ensures small { IsSmall result }
{
    let places = code.len();
    let longest = longest_compared(code.literals());
    let mut budget = Budget {
        s0: 0,
        s1: 0,
        o0: 0,
        o1: 0,
        o2: 0,
        o3: 0,
    };
    let mut running = None;
    for place in 0..places {
        add_place(&mut budget, code, longest, place, running);
        running = next_running(code, place, running);
    }
    budget
}

/// Adds what the instruction at a place contributes.
fn add_place(budget: &mut Budget, code: &Code, longest: u16, place: usize, running: Option<Running>)
    requires is_code { IsCode code.now }
    requires place { place < length code.now.instrs }
    requires running { running ≡ running_at code.now place }
    requires longest { longest ≡ longest_of code.now.literals }
    requires sums { budget.old ≡ sums_below code.now place }
    ensures { budget.new ≡ sums_below code.now (place + 1) }
{
    let instruction = reading(code, place);
    let share = share_of(code, longest, instruction);
    match running {
        None => budget.add_outside(share),
        Some(running) => {
            if running.prints_element(instruction) {
                budget.add_element(share);
            } else {
                budget.add_inside(share);
            }
        }
    }
}
