//! What a row leaves visible of a request.

ghost use Rattle.std.specs.Prelude.{◌≡◌, ◌+◌, ◌++◌, List, if◌then◌else◌};
ghost use Rattle.text_model.specs.Texts.{Text};
ghost use Rattle.environment_model.specs.Environment.{look_up, is_there, byte_count, member_count};
ghost use Rattle.kev_read.specs.Pairs.{KeyValue};
ghost use Rattle.kev_read.specs.Filling.{filled};
ghost use Rattle.kbart_rows.specs.Cells.{NamedCell};
ghost use Rattle.row_laws.specs.Shadowing.{requested, row_of, visible, hidden};

/// The environment of a row and a request is the row's entries and, after them, the request's own entries except those
/// that a cell hides.
pub fn rows_shadow_requests()
    ensures entries { (lists : List Text) (cells : List NamedCell) (pairs : List KeyValue) →
        filled lists (row_of cells) pairs ≡ row_of cells ++ visible (row_of cells) (requested lists pairs) }
    ensures look_up { (lists : List Text) (cells : List NamedCell) (pairs : List KeyValue) (name : Text) →
        look_up (filled lists (row_of cells) pairs) name
        ≡ (if is_there (row_of cells) name then look_up (row_of cells) name else look_up (requested lists pairs) name) }
{}

/// The bytes of a row over a request are those of the row plus those of the request, minus those of the hidden entries;
/// the members are those of the request, minus those of the hidden entries.
pub fn sums_of_rows_over_requests()
    ensures bytes { (lists : List Text) (cells : List NamedCell) (pairs : List KeyValue) →
        byte_count (filled lists (row_of cells) pairs) + byte_count (hidden (row_of cells) (requested lists pairs))
        ≡ byte_count (row_of cells) + byte_count (requested lists pairs) }
    ensures members { (lists : List Text) (cells : List NamedCell) (pairs : List KeyValue) →
        member_count (filled lists (row_of cells) pairs) + member_count (hidden (row_of cells) (requested lists pairs))
        ≡ member_count (requested lists pairs) }
{}
