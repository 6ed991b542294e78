//! The needs of instructions against a table of kinds.

ghost use Rattle.std.specs.Prelude.{◌≡◌, ◌<◌, length};
ghost use Rattle.machine_model.specs.Form.{HasGoodForm};
ghost use Rattle.machine_model.specs.Mismatch.{mismatch_at, first_mismatch};
ghost use Rattle.verifier.specs.Private.Checks.{located_of};
ghost use Rattle.verifier.specs.Private.Rows.{table_of};

use crate::layout::Layout;
use crate::row::Row;

/// The register of the first need at a place that the table does not meet.
fn mismatch(layout: &Layout, table: &[Option<Row>], place: usize) -> Option<u16>
    requires form { HasGoodForm layout.now.code.now }
    requires place { place < length layout.now.code.now.instrs }
    requires long { length table.now ≡ length layout.now.code.now.instrs }
    ensures { result ≡ mismatch_at layout.now.code.now (table_of table.now) place }
{
    let Some(row) = table[place] else {
        return None;
    };
    row.unmet(layout.instruction(place))
}

/// The first place with a need that the table does not meet, and the register.
pub(crate) fn first_mismatch(layout: &Layout, table: &[Option<Row>]) -> Option<(u16, usize)>
    requires form { HasGoodForm layout.now.code.now }
    requires long { length table.now ≡ length layout.now.code.now.instrs }
    ensures { located_of result ≡ first_mismatch layout.now.code.now (table_of table.now) }
{
    for place in 0..layout.code.len() {
        if let Some(register) = mismatch(layout, table, place) {
            return Some((register, place));
        }
    }
    None
}
