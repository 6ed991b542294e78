//! The columns of holdings tables.

ghost use Rattle.std.specs.Prelude.{◌≡◌};
ghost use Rattle.text_model.specs.Texts.{texts_of};
ghost use Rattle.standard_names.specs.Columns.{column_names, known_columns};

/// The 25 columns of a holdings table for serials and monographs, in their order (NISO RP-9-2014).
pub fn column_names() -> &'static [&'static str]
    ensures { texts_of result.now ≡ column_names }
{
    known_columns().split_at(25).0
}

/// The 25 columns, and those that are added when a table is prepared: `coverage_from` and `coverage_to`.
pub fn known_columns() -> &'static [&'static str]
    ensures { texts_of result.now ≡ known_columns }
{
    &[
        "publication_title",
        "print_identifier",
        "online_identifier",
        "date_first_issue_online",
        "num_first_vol_online",
        "num_first_issue_online",
        "date_last_issue_online",
        "num_last_vol_online",
        "num_last_issue_online",
        "title_url",
        "first_author",
        "title_id",
        "embargo_info",
        "coverage_depth",
        "notes",
        "publisher_name",
        "publication_type",
        "date_monograph_published_print",
        "date_monograph_published_online",
        "monograph_volume",
        "monograph_edition",
        "first_editor",
        "parent_publication_title_id",
        "preceding_publication_title_id",
        "access_type",
        "coverage_from",
        "coverage_to",
    ]
}
