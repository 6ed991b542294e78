//! The bytes and the members of a request that a row hides.

ghost use Rattle.std.specs.Prelude.{◌≡◌, List, length, sum_by};
ghost use Rattle.std.specs.List.{range_with_len};
ghost use Rattle.text_model.specs.Texts.{Text};
ghost use Rattle.environment_model.specs.Environment.{byte_count, member_count};
ghost use Rattle.kev_read.specs.Pairs.{KeyValue};
ghost use Rattle.kbart_rows.specs.Cells.{Row, named_cells};
ghost use Rattle.row_laws.specs.Shadowing.{requested, row_of, hidden, hidden_bytes_at, hidden_members_at};

/// The bytes and members that a row hides are the sum over the columns of the row's table.
pub fn hidden_by_columns()
    ensures bytes { (header cells : Row) (lists : List Text) (pairs : List KeyValue) →
        byte_count (hidden (row_of (named_cells header cells)) (requested lists pairs))
        ≡ sum_by (hidden_bytes_at header cells lists pairs) (range_with_len 0 (length header)) }
    ensures members { (header cells : Row) (lists : List Text) (pairs : List KeyValue) →
        member_count (hidden (row_of (named_cells header cells)) (requested lists pairs))
        ≡ sum_by (hidden_members_at header cells lists pairs) (range_with_len 0 (length header)) }
{}
