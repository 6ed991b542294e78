//! The entries of a row alone.

ghost use Rattle.std.specs.Prelude.{◌≡◌, List, is_some};
ghost use Rattle.text_model.specs.Texts.{Text};
ghost use Rattle.environment_model.specs.Environment.{is_there, text_of, byte_count, member_count};
ghost use Rattle.kbart_rows.specs.Cells.{NamedCell, Row, cell_of, cell_bytes, named_cells};
ghost use Rattle.row_laws.specs.Shadowing.{row_of};

/// A row alone has, under each name, the defined cell of the first column of the name.
pub fn rows_by_names()
    ensures text { (header cells : Row) (name : Text) →
        text_of (row_of (named_cells header cells)) name ≡ cell_of header cells name }
    ensures there { (header cells : Row) (name : Text) →
        is_there (row_of (named_cells header cells)) name ≡ is_some (cell_of header cells name) }
{}

/// The bytes of a row's entries are those of its defined cells, and a row has no members.
pub fn row_bytes_are_cell_bytes()
    ensures bytes { (header cells : Row) →
        byte_count (row_of (named_cells header cells)) ≡ cell_bytes (named_cells header cells) }
    ensures members { (cells : List NamedCell) → member_count (row_of cells) ≡ 0 }
{}
