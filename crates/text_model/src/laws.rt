//! What follows from the definitions. These functions have empty bodies; each contract is a theorem.

ghost use Rattle.std.specs.Prelude.{◌≡◌, ◌↔◌, ℕ, ◌*◌, ◌≤◌, ◌++◌, List, length, map, take, encode_utf8, encode_utf8_all};
ghost use Rattle.text_model.specs.Texts.{Text};
ghost use Rattle.text_model.specs.Writing.{written};
ghost use Rattle.text_model.specs.UriText.{IsUriText};
ghost use Rattle.text_model.specs.Cut.{code_points, items, joined, cut};
ghost use Rattle.text_model.specs.declared.writing.Writing.{Writing};
ghost use Rattle.text_model.specs.declared.writing.Writing.TheVariants.{U, UR};

/// Encoded text is URI text.
pub fn writing_gives_uri_text()
    ensures { (w : Writing) (t : Text) → IsUriText (written w t) }
{}

/// A text is URI text exactly if encoding it by UR changes nothing.
pub fn uri_text_is_what_ur_keeps()
    ensures { (t : Text) → IsUriText t ↔ (written UR t ≡ t) }
{}

/// A byte is encoded as three bytes at most.
pub fn writing_at_most_triples()
    ensures { (w : Writing) (t : Text) → length (written w t) ≤ 3 * length t }
{}

/// URI texts joined are URI text.
pub fn uri_texts_join()
    ensures { (a b : Text) → IsUriText a → IsUriText b → IsUriText (a ++ b) }
{}

/// The items of a text joined are the text: none is lost, added or moved.
pub fn items_join_to_their_text()
    ensures { (w : Writing) (t : Text) → joined (items w t) ≡ t }
{}

/// The code points of UTF-8 are its characters, each as its bytes (RFC 3629, section 3).
pub fn code_points_are_characters()
    ensures { (cs : List ℕ) → code_points (encode_utf8_all cs) ≡ map encode_utf8 cs }
{}

/// A prefix of UTF-8 under U is its first characters (RFC 6570, section 2.4.1).
pub fn cut_takes_characters()
    ensures { (cs : List ℕ) (n : ℕ) → cut U (encode_utf8_all cs) n ≡ encode_utf8_all (take n cs) }
{}

/// A prefix of at least as many items as the text has is the whole text.
pub fn long_cut_keeps_all()
    ensures { (w : Writing) (t : Text) (n : ℕ) → length (items w t) ≤ n → cut w t n ≡ t }
{}

/// A cut has no more bytes than its text.
pub fn cut_is_no_longer()
    ensures { (w : Writing) (t : Text) (n : ℕ) → length (cut w t n) ≤ length t }
{}
