//! What stays the same when a code is upgraded to version 2.

ghost use Rattle.std.specs.Prelude.{◌≡◌, ◌↔◌, ℕ, ◌⊎◌};
ghost use Rattle.text_model.specs.Texts.{Text};
ghost use Rattle.environment_model.specs.Environment.{Environment};
ghost use Rattle.code_model.specs.Code.{Code, upgraded};
ghost use Rattle.machine_model.specs.States.{State};
ghost use Rattle.machine_model.specs.Runs.{After, EndsWith, Outcome, Link, NoLink};
ghost use Rattle.machine_model.specs.Form.{HasGoodForm};
ghost use Rattle.machine_model.specs.Typable.{IsTypable};
ghost use Rattle.machine_model.specs.Budget.{sums_of};

/// A code that ends with a link or without one ends the same way after it is upgraded to version 2, after the same
/// number of steps and through the same states. If the code has good form, so does the upgraded code, with the same
/// budget, and it is typable exactly if the code is. Code of version 2 is unchanged.
pub fn upgrade_keeps_what_code_does()
    ensures states { (c : Code) (v : Environment) (k : ℕ) (s : State) → After c v k s → After (upgraded c) v k s }
    ensures outcome { (c : Code) (v : Environment) (k : ℕ) (o : Outcome) →
        (o ≡ NoLink) ⊎ ((text : Text) × (o ≡ Link text)) → EndsWith c v k o → EndsWith (upgraded c) v k o }
    ensures form { (c : Code) → HasGoodForm c → HasGoodForm (upgraded c) }
    ensures typable { (c : Code) → HasGoodForm c → IsTypable c ↔ IsTypable (upgraded c) }
    ensures budget { (c : Code) → HasGoodForm c → sums_of (upgraded c) ≡ sums_of c }
    ensures second { (c : Code) → c.version ≡ 2 → upgraded c ≡ c }
{}
