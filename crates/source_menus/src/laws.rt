//! What follows from the definitions. These functions have empty bodies; each contract is a theorem.

ghost use Rattle.std.specs.Prelude.{◌≡◌, ◌≤◌, List, All, Contains, drop, false, filter, length, take};
ghost use Rattle.std.specs.List.{list_any};
ghost use Rattle.text_model.specs.Texts.{Text};
ghost use Rattle.kev_read.specs.Pairs.{KeyValue};
ghost use Rattle.menu_source.specs.Menus.{Menus};
ghost use Rattle.source_menus.specs.Found.{Own, all_links, first_of_each, is_of, is_own, links_by, links_for};

/// Each target has at most one link.
pub fn targets_have_one_link()
    ensures { (menus : Menus) (numbers : List Text) (pairs : List KeyValue) (name : Text)
        → length (filter (is_of name) (links_for menus numbers pairs)) ≤ 1 }
{}

/// A target has a link if a request gives one.
pub fn no_target_is_missing()
    ensures { (menus : Menus) (numbers : List Text) (pairs : List KeyValue) (name : Text)
        → list_any (is_of name) (links_for menus numbers pairs)
        ≡ list_any (is_of name) (all_links menus numbers pairs) }
{}

/// Each link is one that a request gives.
pub fn links_are_those_of_requests()
    ensures { (menus : Menus) (numbers : List Text) (pairs : List KeyValue)
        → All (Contains (all_links menus numbers pairs)) (links_for menus numbers pairs) }
{}

/// The links of the query's own request lead, and no link of another request changes them.
pub fn own_links_lead()
    ensures first { (menus : Menus) (numbers : List Text) (pairs : List KeyValue)
        → take (length (first_of_each (links_by menus pairs Own))) (links_for menus numbers pairs)
        ≡ first_of_each (links_by menus pairs Own) }
    ensures others { (menus : Menus) (numbers : List Text) (pairs : List KeyValue)
        → All (λ link. is_own link.request ≡ false)
        (drop (length (first_of_each (links_by menus pairs Own))) (links_for menus numbers pairs)) }
{}
