//! What follows from the definitions. These functions have empty bodies; each contract is a theorem.

ghost use Rattle.std.specs.Prelude.{◌≡◌, All, false};
ghost use Rattle.text_model.specs.Texts.{Text};
ghost use Rattle.source_answers.specs.Shown.{has_control, is_control, shown};

/// What is shown of a text has no control character, so it stays within its line and its place in it.
pub fn shown_texts_stay_within_a_line()
    ensures ascii { (text : Text) → All (λ b. is_control b ≡ false) (shown text) }
    ensures others { (text : Text) → has_control (shown text) ≡ false }
{}

/// A text without control characters is shown as it is.
pub fn other_texts_are_shown_as_they_are()
    ensures { (text : Text) → has_control text ≡ false → shown text ≡ text }
{}
