//! The numbers of journals and books.

ghost use Rattle.std.specs.Prelude.{◌≡◌, ◌++◌, IfOk, OnOk, drop};
ghost use Rattle.std.specs.Option.{option_copied};
ghost use Rattle.text_model.specs.Texts.{texts_of};
ghost use Rattle.openurl_reading.specs.Steps.{taken};
ghost use Rattle.openurl_reading.specs.Numbers as spec;
ghost use Rattle.openurl_reading.specs.Values.{searched};
ghost use Rattle.standard_numbers.specs.Isbn.{isbns_in};
ghost use Rattle.standard_numbers.specs.Issn.{issns_in};

use crate::change::lead;
use crate::pairs::Pairs;
use crate::searched::{in_ascii, searched};
use standard_numbers::{isbns_in, issns_in};
use std::alloc::{AllocError, Global};
use uri_text::Text;

/// The first ISSN leads, as the standard writes it.
pub(crate) fn lead_issn(alloc: Global, pairs: Pairs) -> Result<Pairs, AllocError>
    ensures { IfOk result (λ after. after ≡ taken pairs spec.issn_step) }
{
    let issn = first(issns_under(alloc, &pairs, "rft.issn")?);
    lead(alloc, "rft.issn", issn, pairs)
}

/// The first ISSN of the online edition leads.
pub(crate) fn lead_eissn(alloc: Global, pairs: Pairs) -> Result<Pairs, AllocError>
    ensures { IfOk result (λ after. after ≡ taken pairs spec.eissn_step) }
{
    let issn = first_eissn(alloc, &pairs)?;
    lead(alloc, "rft.eissn", issn, pairs)
}

/// The first ISBN leads, with thirteen digits.
pub(crate) fn lead_isbn(alloc: Global, pairs: Pairs) -> Result<Pairs, AllocError>
    ensures { IfOk result (λ after. after ≡ taken pairs spec.isbn_step) }
{
    let isbn = first_isbn(alloc, &pairs)?;
    lead(alloc, "rft.isbn", isbn, pairs)
}

/// The ISSN of the online edition, which may be the second one of a value.
fn first_eissn(alloc: Global, pairs: &Pairs) -> Result<Option<Text>, AllocError>
    ensures { IfOk result (λ issn. issn ≡ spec.first_eissn pairs.now) }
{
    if pairs.first("rft.eissn").is_some() {
        return Ok(first(issns_under(alloc, pairs, "rft.eissn")?));
    }
    let further = further_issns(alloc, pairs, "rft.issn")?;
    if further.is_empty() {
        return Ok(None);
    }
    let issns = issns_under(alloc, pairs, "rft.issn")?;
    Ok(other_than(first(issns), further))
}

/// The first ISBN of a request.
pub(crate) fn first_isbn(alloc: Global, pairs: &Pairs) -> Result<Option<Text>, AllocError>
    ensures { IfOk result (λ isbn. isbn ≡ spec.first_isbn pairs.now) }
{
    let mut isbns = isbns_under(alloc, pairs, "rft.isbn")?;
    push_all(&mut isbns, isbns_under(alloc, pairs, "rft.eisbn")?)?;
    Ok(first(isbns))
}

/// The ISSNs in a value.
pub(crate) fn issns_of(alloc: Global, value: &str) -> Result<Vec<Text>, AllocError>
    ensures { IfOk result (λ issns. issns.items ≡ issns_in (searched value.now)) }
{
    let text = in_ascii(alloc, value)?;
    issns_in(alloc, searched(&text))
}

/// The ISBNs in a value.
pub(crate) fn isbns_of(alloc: Global, value: &str) -> Result<Vec<Text>, AllocError>
    ensures { IfOk result (λ isbns. isbns.items ≡ isbns_in (searched value.now)) }
{
    let text = in_ascii(alloc, value)?;
    isbns_in(alloc, searched(&text))
}

/// The ISSNs in the values of a key.
pub(crate) fn issns_under(alloc: Global, pairs: &Pairs, key: &str) -> Result<Vec<Text>, AllocError>
    ensures { IfOk result (λ issns. issns.items ≡ spec.issns_under pairs.now key.now) }
{
    let mut issns = Vec::new(alloc);
    for value in &pairs.values(alloc, key)? {
        push_all(&mut issns, issns_of(alloc, value)?)?;
    }
    Ok(issns)
}

/// The ISSNs in the values of a key, without the first one of each value.
fn further_issns(alloc: Global, pairs: &Pairs, key: &str) -> Result<Vec<Text>, AllocError>
    ensures { IfOk result (λ issns. issns.items ≡ spec.further_issns pairs.now key.now) }
{
    let mut issns = Vec::new(alloc);
    for value in &pairs.values(alloc, key)? {
        push_rest(&mut issns, issns_of(alloc, value)?)?;
    }
    Ok(issns)
}

/// The ISBNs in the values of a key.
fn isbns_under(alloc: Global, pairs: &Pairs, key: &str) -> Result<Vec<Text>, AllocError>
    ensures { IfOk result (λ isbns. isbns.items ≡ spec.isbns_under pairs.now key.now) }
{
    let mut isbns = Vec::new(alloc);
    for value in &pairs.values(alloc, key)? {
        push_all(&mut isbns, isbns_of(alloc, value)?)?;
    }
    Ok(isbns)
}

/// Appends texts.
pub(crate) fn push_all(list: &mut Vec<Text>, more: Vec<Text>) -> Result<(), AllocError>
    ensures { OnOk result (list.new.items ≡ list.old.items ++ more.items) }
{
    let mut more = more;
    list.append(&mut more)?;
    Ok(())
}

/// Appends texts without the first one.
fn push_rest(list: &mut Vec<Text>, more: Vec<Text>) -> Result<(), AllocError>
    ensures { OnOk result (list.new.items ≡ list.old.items ++ drop 1 more.items) }
{
    let mut rest = more;
    if rest.is_empty() {
        return Ok(());
    }
    let _first = rest.remove(0);
    list.append(&mut rest)?;
    Ok(())
}

/// The first of the numbers.
pub(crate) fn first(numbers: Vec<Text>) -> Option<Text>
    ensures { result ≡ spec.first_number numbers.items }
{
    numbers.into_iter().next()
}

/// The first of the numbers that is another one than this; `None` without this.
pub(crate) fn other_than(number: Option<Text>, numbers: Vec<Text>) -> Option<Text>
    ensures { result ≡ spec.other_than number numbers.items }
{
    let number = number?;
    numbers
        .into_iter()
        .find(|other| other.as_str() != number.as_str())
}
