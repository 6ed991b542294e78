//! What a request has under its keys, depending on the lists that are declared.

ghost use Rattle.std.specs.Prelude.{◌≡◌, ◌≤◌, ◌+◌, ◌∷◌, [], List, None, true, false, length, sum_by, if◌then◌else◌};
ghost use Rattle.text_model.specs.Texts.{Text};
ghost use Rattle.environment_model.specs.Environment.{text_of, members_of, byte_count, member_count};
ghost use Rattle.environment_model.specs.Lists.{is_list};
ghost use Rattle.kev_read.specs.Pairs.{KeyValue, all_of, first_of, value_bytes};
ghost use Rattle.row_laws.specs.Shadowing.{requested, first_bytes};

/// What a request alone has under a key: a list of all its values, or its first value.
pub fn requests_by_keys()
    ensures text { (lists : List Text) (pairs : List KeyValue) (key : Text) →
        text_of (requested lists pairs) key ≡ (if is_list lists key then None else first_of pairs key) }
    ensures members { (lists : List Text) (pairs : List KeyValue) (key : Text) →
        members_of (requested lists pairs) key ≡ (if is_list lists key then all_of pairs key else []) }
{}

/// What a request gains if one more list is declared: all values of its key instead of the first.
pub fn one_more_list()
    ensures bytes { (l : Text) (lists : List Text) (pairs : List KeyValue) → is_list lists l ≡ false
        → byte_count (requested (l ∷ lists) pairs) + first_bytes (all_of pairs l)
        ≡ byte_count (requested lists pairs) + sum_by length (all_of pairs l) }
    ensures members { (l : Text) (lists : List Text) (pairs : List KeyValue) → is_list lists l ≡ false
        → member_count (requested (l ∷ lists) pairs) ≡ member_count (requested lists pairs) + length (all_of pairs l) }
    ensures known { (l : Text) (lists : List Text) (pairs : List KeyValue) → is_list lists l ≡ true
        → requested (l ∷ lists) pairs ≡ requested lists pairs }
{}

/// Two declarations that make the same keys lists have the same effect.
pub fn same_lists()
    ensures { (lists others : List Text) (pairs : List KeyValue)
        → ((key : Text) → is_list lists key ≡ is_list others key)
        → requested lists pairs ≡ requested others pairs }
{}

/// How many bytes and members a request alone has depends on the values of each key, and not on the order of the keys.
pub fn sums_by_values()
    ensures bytes { (lists : List Text) (pairs others : List KeyValue)
        → ((key : Text) → all_of pairs key ≡ all_of others key)
        → byte_count (requested lists pairs) ≡ byte_count (requested lists others) }
    ensures members { (lists : List Text) (pairs others : List KeyValue)
        → ((key : Text) → all_of pairs key ≡ all_of others key)
        → member_count (requested lists pairs) ≡ member_count (requested lists others) }
{}

/// A request alone has no more bytes than its values have, and no more members than it has pairs.
pub fn requests_are_small()
    ensures bytes { (lists : List Text) (pairs : List KeyValue)
        → byte_count (requested lists pairs) ≤ value_bytes pairs }
    ensures members { (lists : List Text) (pairs : List KeyValue)
        → member_count (requested lists pairs) ≤ length pairs }
{}
