//! What follows from the definition of the encodings U and UR. These functions have empty bodies; each contract is a
//! theorem.

ghost use Rattle.std.specs.Prelude.{◌≡◌, ◌<◌, All};
ghost use Rattle.percent_encoding.specs.Percent.{percent_decode};
ghost use Rattle.text_model.specs.Texts.{Text};
ghost use Rattle.text_model.specs.Writing.{written_u, written_ur};

/// Percent-decoding what U writes for bytes gives the bytes back: U loses nothing, and writes different texts
/// differently (RFC 3986, section 2.1).
pub fn decoding_gives_back_what_u_wrote()
    ensures { (t : Text) → All (λ b. b < 256) t → percent_decode (written_u t) ≡ t }
{}

/// Percent-decoding what UR writes for bytes gives the same as percent-decoding the bytes: UR changes how they are
/// spelled, but not their meaning.
pub fn decoding_does_not_see_what_ur_wrote()
    ensures { (t : Text) → All (λ b. b < 256) t → percent_decode (written_ur t) ≡ percent_decode t }
{}
