//! Which rows of a table are found.

ghost use Rattle.std.specs.Prelude.{◌≡◌, ◌<◌, ℕ, false, true, length};
ghost use Rattle.std.specs.List.{Contains};
ghost use Rattle.text_model.specs.Texts.{Text};
ghost use Rattle.kbart_rows.specs.Cells.{Holdings};
ghost use Rattle.kbart_rows.specs.Identifiers.{ids_of, matching_rows};
ghost use Rattle.table_inspection.specs.Findings.{have_table_warning};
ghost use Rattle.table_inspection.specs.Identifiers.{is_number};
ghost use Rattle.table_inspection.specs.Inspection.{findings_in_identifiers};
ghost use Rattle.menu_laws.specs.OneKey.{by_issn};

/// A clean table has no dead row. If `inspect` has no warning about the identifiers of a table, each of its rows
/// matches a request of one key, `rft.issn=ID`, whose value is an ISSN or an ISBN in normal form, or `ANY`, which
/// stands for any title.
///
/// It is false of a key that is no identifier, such as `rft.title`. A row that is found can still give no link, by the
/// rules.
pub fn clean_tables_have_no_dead_row()
    ensures { (table : Holdings) (row : ℕ) → have_table_warning (findings_in_identifiers table) ≡ false
        → row < length table.rows
        → (id : Text) × (is_number id ≡ true) × Contains (matching_rows table (ids_of (by_issn id))) row }
{}
