//! What follows from the definitions. These functions have empty bodies; each contract is a theorem.

ghost use Rattle.std.specs.Prelude.{◌≡◌, ◌≤◌, ◌*◌, List, [], length};
ghost use Rattle.form_urlencoded.specs.Form.{extend_pairs};
ghost use Rattle.text_model.specs.Texts.{Text};
ghost use Rattle.query_repair.specs.Repair.{repaired};
ghost use Rattle.query_repair.specs.Settled.{IsSettled, HasNoMarks};

/// A query that needs no repair stays as it is; so does one with no `?`, no `;` and no text that is not in a pair, and
/// one that is encoded as a form (URL Standard, section 5.2).
pub fn settled_queries_stay()
    ensures settled { (query : Text) → IsSettled query → repaired query ≡ query }
    ensures unmarked { (query : Text) → HasNoMarks query → repaired query ≡ query }
    ensures forms { (pairs : List (Text × Text)) → repaired (extend_pairs [] pairs) ≡ extend_pairs [] pairs }
{}

/// A repaired query needs no repair. So repairing twice is repairing once.
pub fn repaired_queries_stay()
    ensures settled { (query : Text) → IsSettled (repaired query) }
    ensures once { (query : Text) → repaired (repaired query) ≡ repaired query }
{}

/// A repaired query has at most twice the bytes: `%26` is written for an `&` only before one byte or more.
pub fn repairs_are_bounded()
    ensures { (query : Text) → length (repaired query) ≤ 2 * length query }
{}
