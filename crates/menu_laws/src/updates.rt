//! What an update of the tables can change of a menu.

ghost use Rattle.std.specs.Prelude.{◌≡◌, ◌++◌, List, All, false};
ghost use Rattle.std.specs.List.{AllZip};
ghost use Rattle.kev_read.specs.Pairs.{KeyValue};
ghost use Rattle.kbart_rows.specs.Cells.{Row};
ghost use Rattle.menu.specs.Printed.{html, text};
ghost use Rattle.registry.specs.Entries.{menu_of};
ghost use Rattle.registry.specs.Targets.{TargetValue};
ghost use Rattle.menu_laws.specs.Updates.{IsExtended, KeepsCited, KeepsLink};
ghost use Rattle.menu_laws.specs.Updates.{is_cited, unnumbered_menu, with_rows};

/// Rows that are appended to tables keep every link that was there, with the number of its row. They can give a link to
/// a target that had none, or change the reason why it has none.
pub fn appended_rows_keep_links()
    ensures { (old new : List TargetValue) (pairs : List KeyValue) → AllZip IsExtended old new
        → AllZip KeepsLink (menu_of old pairs) (menu_of new pairs) }
{}

/// Rows without any identifier of a request change nothing of its menu but the numbers of rows in the report, however
/// many of them are added, removed or changed, and wherever they are. `added` says that adding such rows is an update
/// of this kind; so is, the other way round, removing them. The law is false if the numbers of rows count.
pub fn other_rows_change_numbers_alone()
    ensures menu { (old new : List TargetValue) (pairs : List KeyValue) → AllZip (KeepsCited pairs) old new
        → unnumbered_menu (menu_of new pairs) ≡ unnumbered_menu (menu_of old pairs) }
    ensures text { (old new : List TargetValue) (pairs : List KeyValue) → AllZip (KeepsCited pairs) old new
        → text (menu_of new pairs) ≡ text (menu_of old pairs) }
    ensures html { (old new : List TargetValue) (pairs : List KeyValue) → AllZip (KeepsCited pairs) old new
        → html (menu_of new pairs) ≡ html (menu_of old pairs) }
    ensures added { (target : TargetValue) (before rows after : List Row) (pairs : List KeyValue)
        → All (λ cells. is_cited target.table.header pairs cells ≡ false) rows
        → KeepsCited pairs (with_rows target (before ++ after)) (with_rows target (before ++ (rows ++ after))) }
{}
