//! What follows from the definitions. These functions have empty bodies; each contract is a theorem.

ghost use Rattle.std.specs.Prelude.{◌≡◌, ◌⊎◌, [], ◌∷◌, true, false, All};
ghost use Rattle.text_model.specs.Texts.{Text};
ghost use Rattle.standard_numbers.specs.Spellings.{are_digits, right_first};
ghost use Rattle.standard_numbers.specs.Issn.{issns_in, IsIssn, is_right_issn, is_doubtful};
ghost use Rattle.standard_numbers.specs.Isbn.{isbn_digits_in, isbns_in, IsIsbn, isbn13_of, is_right_isbn};

/// What is found as an ISSN has the form of one, as the standard writes it.
pub fn issns_are_issns()
    ensures { (text : Text) → All IsIssn (issns_in text) }
{}

/// An ISSN as the standard writes it is found as it is, and nothing else, unless it is a span of years or zeros. So
/// what was found is found again.
pub fn issns_stay()
    ensures { (issn : Text) → IsIssn issn → is_doubtful issn ≡ false → issns_in issn ≡ issn ∷ [] }
{}

/// An ISSN as the standard writes it is found as it is, or nothing is.
pub fn issns_are_found_alone()
    ensures { (issn : Text) → IsIssn issn → (issns_in issn ≡ issn ∷ []) ⊎ (issns_in issn ≡ []) }
{}

/// ISSNs with a right check digit lead.
pub fn right_issns_lead()
    ensures { (text : Text) → right_first is_right_issn (issns_in text) ≡ issns_in text }
{}

/// What is found as an ISBN is one of 13 digits.
pub fn isbns_are_isbns()
    ensures { (text : Text) → All IsIsbn (isbns_in text) }
{}

/// An ISBN of 13 digits is found as it is, and nothing else. So what was found is found again.
pub fn isbns_stay()
    ensures { (isbn : Text) → IsIsbn isbn → isbns_in isbn ≡ isbn ∷ [] }
{}

/// The digits, ten or 13, of ISBNs with a right check digit lead.
pub fn right_isbns_lead()
    ensures { (text : Text) → right_first is_right_isbn (isbn_digits_in text) ≡ isbn_digits_in text }
{}

/// The ISBN of 13 digits of an ISBN of ten has the right check digit.
pub fn isbns_of_ten_digits_become_right_ones()
    ensures { (digits : Text) → are_digits 10 digits ≡ true → is_right_isbn (isbn13_of digits) ≡ true }
{}
