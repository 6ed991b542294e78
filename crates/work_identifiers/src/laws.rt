//! What follows from the definitions. These functions have empty bodies; each contract is a theorem.

ghost use Rattle.std.specs.Prelude.{◌≡◌, ◌≢◌, ◌<◌, ◌≤◌, ◌++◌, Some, None, true, false, length};
ghost use Rattle.text_model.specs.Texts.{Text};
ghost use Rattle.work_identifiers.specs.declared.namespace.Namespace.{Namespace};
ghost use Rattle.work_identifiers.specs.Forms.{IsIdentifier};
ghost use Rattle.work_identifiers.specs.Mentions.{digits_of, fewest_digits, is_notice, mention_in};
ghost use Rattle.work_identifiers.specs.Places.{IsPartOf, identifier_alone, identifier_in};
ghost use Rattle.work_identifiers.specs.Uris.{arxiv_doi, arxiv_start, canonical, longest_uri};
ghost use Rattle.work_identifiers.specs.Uris.{registered, uri_of, uri_start};
ghost use Rattle.work_identifiers.specs.Addresses.{doi_in_address};
ghost use Rattle.work_identifiers.specs.declared.namespace.Namespace.TheVariants.{Doi, Arxiv};
ghost use Rattle.uri_text.specs.AnyCase.{begins_in_any_case};
ghost use Rattle.work_identifiers.specs.declared.numbers.StandardNumber.{StandardNumber};
ghost use Rattle.work_identifiers.specs.declared.numbers.StandardNumber.TheVariants.{Issn, Isbn};
ghost use Rattle.work_identifiers.specs.StandardNumbers.{IsSpelled, is_clear, is_number_alone, is_number_named};
ghost use Rattle.work_identifiers.specs.StandardNumbers.{urn_start};

/// What is found has the form of an identifier of its namespace.
pub fn identifiers_are_identifiers()
    ensures named { (namespace : Namespace) (text identifier : Text) → identifier_in namespace text ≡ Some identifier
        → IsIdentifier namespace identifier }
    ensures alone { (namespace : Namespace) (text identifier : Text)
        → identifier_alone namespace text ≡ Some identifier → IsIdentifier namespace identifier }
    ensures mentioned { (namespace : Namespace) (text identifier : Text)
        → mention_in namespace text ≡ Some identifier → IsIdentifier namespace identifier }
{}

/// What is found is a part of the text: no byte of it is invented.
pub fn identifiers_are_parts()
    ensures named { (namespace : Namespace) (text identifier : Text) → identifier_in namespace text ≡ Some identifier
        → IsPartOf text identifier }
    ensures alone { (namespace : Namespace) (text identifier : Text)
        → identifier_alone namespace text ≡ Some identifier → IsPartOf text identifier }
    ensures mentioned { (namespace : Namespace) (text identifier : Text)
        → mention_in namespace text ≡ Some identifier → IsPartOf text identifier }
{}

/// A title with fewer than five digits mentions no identifier, and that of a notice none either.
pub fn titles_mention_few()
    ensures digits { (namespace : Namespace) (text : Text) → digits_of text < fewest_digits
        → mention_in namespace text ≡ None }
    ensures notices { (namespace : Namespace) (text : Text) → is_notice text ≡ true → mention_in namespace text ≡ None }
{}

/// The URI of an identifier has it, in the form that it has there, and an identifier alone is itself. So what was found
/// is found again.
pub fn identifiers_stay()
    ensures named { (namespace : Namespace) (identifier : Text) → IsIdentifier namespace identifier
        → identifier_in namespace (uri_of namespace identifier) ≡ Some (canonical namespace identifier) }
    ensures alone { (namespace : Namespace) (identifier : Text) → IsIdentifier namespace identifier
        → identifier_alone namespace identifier ≡ Some identifier }
{}

/// The URI of an identifier has at most this many bytes: 509 for a DOI, and 51 for any other.
pub fn uris_are_short()
    ensures { (namespace : Namespace) (identifier : Text) → IsIdentifier namespace identifier
        → length (uri_of namespace identifier) ≤ longest_uri namespace }
{}

/// The URI of an identifier has none of another namespace. That of arXiv is the URI of a DOI.
pub fn uris_have_one_namespace()
    ensures { (namespace other : Namespace) (text : Text) → registered other ≢ registered namespace
        → identifier_in other (uri_start namespace ++ text) ≡ None }
{}

/// An identifier of arXiv has a DOI, whose URI is its own, and the URI of no other DOI has an identifier of arXiv.
pub fn preprints_have_dois()
    ensures doi { (identifier : Text) → IsIdentifier Arxiv identifier → IsIdentifier Doi (arxiv_doi identifier) }
    ensures uri { (identifier : Text) → uri_of Arxiv identifier ≡ uri_of Doi (arxiv_doi identifier) }
    ensures others { (text : Text) → begins_in_any_case text arxiv_start ≡ false
        → identifier_in Arxiv (uri_start Doi ++ text) ≡ None }
{}

/// What is found in the address of a page is a DOI, and a part of the address.
pub fn dois_in_addresses_are_dois()
    ensures are { (address doi : Text) → doi_in_address address ≡ Some doi → IsIdentifier Doi doi }
    ensures parts { (address doi : Text) → doi_in_address address ≡ Some doi → IsPartOf address doi }
{}

/// An ISSN or an ISBN is named by its URN, and one alone is a number alone: an ISSN, if it has its hyphen.
pub fn numbers_are_named_by_their_urns()
    ensures named { (number : StandardNumber) (text : Text) → IsSpelled number text
        → is_number_named number (urn_start number ++ text) ≡ true }
    ensures alone { (number : StandardNumber) (text : Text) → IsSpelled number text → is_clear number text ≡ true
        → is_number_alone number text ≡ true }
{}

/// The URN of an ISSN names no ISBN, and that of an ISBN no ISSN.
pub fn urns_name_one_number()
    ensures issn { (text : Text) → is_number_named Isbn (urn_start Issn ++ text) ≡ false }
    ensures isbn { (text : Text) → is_number_named Issn (urn_start Isbn ++ text) ≡ false }
{}
