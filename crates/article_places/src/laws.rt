//! What follows from the definitions. These functions have empty bodies; each contract is a theorem.

ghost use Rattle.std.specs.Prelude.{◌≡◌, ◌≢◌, ◌+◌, ◌++◌, ◌≤◌, [], ◌∷◌, length, None, Some, true};
ghost use Rattle.std.specs.Char.{is_ascii_digit};
ghost use Rattle.std.specs.List.{list_all};
ghost use Rattle.text_model.specs.Texts.{Text};
ghost use Rattle.article_places.specs.Enumerations.{Numbers, alone, numbers_in, short_supplement, written};
ghost use Rattle.article_places.specs.Pages.{Range, only, pages_in};
ghost use Rattle.article_places.specs.Parts.{IsFromFirst, IsPartOf, is_place_byte};

/// What is found is a part of the text: no byte of it is invented.
pub fn numbers_are_parts()
    ensures first { (text number : Text) (n : Numbers) → numbers_in text ≡ Some n → n.first ≡ Some number
        → IsPartOf text number }
    ensures issue { (text number : Text) (n : Numbers) → numbers_in text ≡ Some n → n.issue ≡ Some number
        → IsPartOf text number }
    ensures supplement { (text mark : Text) (n : Numbers) → numbers_in text ≡ Some n → n.supplement ≡ Some mark
        → IsPartOf text mark }
{}

/// A plain number is found as it is, and so is each number that was found.
pub fn numbers_stay()
    ensures plain { (number : Text) → number ≢ [] → list_all is_ascii_digit number ≡ true
        → numbers_in number ≡ Some (alone number) }
    ensures first { (text number : Text) (n : Numbers) → numbers_in text ≡ Some n → n.first ≡ Some number
        → numbers_in number ≡ Some (alone number) }
    ensures issue { (text number : Text) (n : Numbers) → numbers_in text ≡ Some n → n.issue ≡ Some number
        → numbers_in number ≡ Some (alone number) }
{}

/// The numbers in a text are those of the text that they make, such as `53 no. 2 Suppl 1`.
pub fn written_numbers_stay()
    ensures { (text : Text) (n : Numbers) → numbers_in text ≡ Some n → numbers_in (written n) ≡ Some n }
{}

/// A supplement that was found is found again as PubMed writes it, such as `Suppl 1`, alone or after a number.
pub fn supplements_stay()
    ensures alone { (text mark : Text) (n : Numbers) → numbers_in text ≡ Some n → n.supplement ≡ Some mark
        → numbers_in (short_supplement mark) ≡ Some record { first = None; issue = None; supplement = Some mark } }
    ensures after_number { (text mark number : Text) (n : Numbers) → numbers_in text ≡ Some n → n.supplement ≡ Some mark
        → numbers_in number ≡ Some (alone number)
        → numbers_in (number ++ 0x20 ∷ short_supplement mark)
        ≡ Some record { first = Some number; issue = None; supplement = Some mark } }
{}

/// A first page that is found is a part of the text. So is a last page, but for the letters and digits with which the
/// first page begins.
pub fn pages_are_parts()
    ensures first { (text : Text) (pages : Range) → pages_in text ≡ Some pages → IsPartOf text pages.first }
    ensures last { (text last : Text) (pages : Range) → pages_in text ≡ Some pages → pages.last ≡ Some last
        → IsFromFirst text pages.first last }
{}

/// A plain page is found as it is, and so is each page that was found, a last page in full.
pub fn pages_stay()
    ensures plain { (page : Text) → page ≢ [] → list_all is_ascii_digit page ≡ true
        → pages_in page ≡ Some (only page) }
    ensures first { (text : Text) (pages : Range) → pages_in text ≡ Some pages
        → pages_in pages.first ≡ Some (only pages.first) }
    ensures last { (text last : Text) (pages : Range) → pages_in text ≡ Some pages → pages.last ≡ Some last
        → pages_in last ≡ Some (only last) }
{}

/// A part of a text is not longer than the text, and a last page not longer than the first page and the text.
pub fn parts_are_short()
    ensures part { (text part : Text) → IsPartOf text part → length part ≤ length text }
    ensures last { (text first last : Text) → IsFromFirst text first last
        → length last ≤ length first + length text }
{}

/// What is found has letters and digits of ASCII, `-`, `.` and `/`, and no other characters.
pub fn parts_are_plain()
    ensures first { (text number : Text) (n : Numbers) → numbers_in text ≡ Some n → n.first ≡ Some number
        → list_all is_place_byte number ≡ true }
    ensures issue { (text number : Text) (n : Numbers) → numbers_in text ≡ Some n → n.issue ≡ Some number
        → list_all is_place_byte number ≡ true }
    ensures supplement { (text mark : Text) (n : Numbers) → numbers_in text ≡ Some n → n.supplement ≡ Some mark
        → list_all is_place_byte mark ≡ true }
    ensures page { (text : Text) (pages : Range) → pages_in text ≡ Some pages
        → list_all is_place_byte pages.first ≡ true }
    ensures last_page { (text last : Text) (pages : Range) → pages_in text ≡ Some pages → pages.last ≡ Some last
        → list_all is_place_byte last ≡ true }
{}
