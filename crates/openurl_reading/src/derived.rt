//! Keys that the resolver adds for the rules of targets.

ghost use Rattle.std.specs.Prelude.{◌≡◌, ◌++◌, IfOk, OnOk, Some, codes, option_and_then};
ghost use Rattle.std.specs.Option.{option_map};
ghost use Rattle.openurl_reading.specs.EncodedDois.{encoded_doi};
ghost use Rattle.openurl_reading.specs.Sought.{first_in};
ghost use Rattle.openurl_reading.specs.Reading as spec;
ghost use Rattle.openurl_reading.specs.Values.{searched};
ghost use Rattle.publication_dates.specs.Dates.{date_in};
ghost use Rattle.publication_dates.specs.Days.{first_and_last};

use crate::encoded_dois::encoded_doi;
use crate::identifiers::first_in;
use crate::numbers::{first, first_isbn, issns_under, other_than, push_all};
use crate::pairs::{Pair, Pairs, push_pair, push_text};
use crate::searched::{in_ascii, searched};
use crate::sought::sought_under;
use publication_dates::{Days, days_in};
use std::alloc::{AllocError, Global};
use uri_text::Text;
use work_identifiers::Namespace;

/// The pairs after those that are derived from them.
pub(crate) fn with_derived(alloc: Global, pairs: Pairs) -> Result<Pairs, AllocError>
    ensures { IfOk result (λ all. all ≡ spec.with_derived pairs) }
{
    let mut list = derived(alloc, &pairs)?;
    let mut rest = pairs.into_list();
    list.append(&mut rest)?;
    Ok(Pairs::new(list))
}

/// The pairs that are derived from others.
#[tactic(auto, using(crate::proofs::SoughtTexts::first_is_under))]
fn derived(alloc: Global, pairs: &Pairs) -> Result<Vec<Pair>, AllocError>
    ensures { IfOk result (λ list. list.items ≡ spec.derived pairs.now) }
{
    let mut list = Vec::new(alloc);
    let texts = sought_under(alloc, pairs, "rft_id")?;
    let doi = first_in(alloc, Namespace::Doi, &texts)?;
    let encoded = doi_encoded(alloc, &doi)?;
    push_added(alloc, &mut list, "x.doi", doi)?;
    push_identifier(alloc, &mut list, "x.pmid", Namespace::Pmid, &texts)?;
    push_identifier(alloc, &mut list, "x.oclc", Namespace::Oclc, &texts)?;
    push_added(alloc, &mut list, "x.issn", first(issns_of(alloc, pairs)?))?;
    push_added(alloc, &mut list, "x.eissn", second_issn(alloc, pairs)?)?;
    push_added(alloc, &mut list, "x.isbn", first_isbn(alloc, pairs)?)?;
    push_days(alloc, &mut list, pairs)?;
    push_added(alloc, &mut list, "x.doi_encoded", encoded)?;
    Ok(list)
}

/// Appends a pair of the key for the first identifier of a namespace in texts, if there is one.
fn push_identifier(
    alloc: Global,
    list: &mut Vec<Pair>,
    key: &str,
    namespace: Namespace,
    texts: &[Pair],
) -> Result<(), AllocError>
    ensures { OnOk result (list.new.items
        ≡ list.old.items ++ spec.added key.now (first_in namespace texts.now)) }
{
    let identifier = first_in(alloc, namespace, texts)?;
    push_added(alloc, list, key, identifier)
}

/// A DOI, if it has to be encoded for a proxy.
fn doi_encoded(alloc: Global, doi: &Option<Text>) -> Result<Option<Text>, AllocError>
    ensures { IfOk result (λ encoded. encoded ≡ option_and_then encoded_doi doi.now) }
{
    match doi {
        Some(doi) => encoded_doi(alloc, doi.as_str()),
        None => Ok(None),
    }
}

/// The second ISSN of a request.
fn second_issn(alloc: Global, pairs: &Pairs) -> Result<Option<Text>, AllocError>
    ensures { IfOk result (λ issn. issn ≡ spec.second_issn pairs.now) }
{
    let issn = first(issns_of(alloc, pairs)?);
    let issns = issns_of(alloc, pairs)?;
    Ok(other_than(issn, issns))
}

/// The ISSNs of a request, those of the online edition last.
fn issns_of(alloc: Global, pairs: &Pairs) -> Result<Vec<Text>, AllocError>
    ensures { IfOk result (λ issns. issns.items ≡ spec.issns_of pairs.now) }
{
    let mut issns = issns_under(alloc, pairs, "rft.issn")?;
    push_all(&mut issns, issns_under(alloc, pairs, "rft.eissn")?)?;
    Ok(issns)
}

/// The first and the last day of the date of a request.
fn days_of(alloc: Global, pairs: &Pairs) -> Result<Option<Days>, AllocError>
    ensures { IfOk result (λ days. days ≡ spec.days_of pairs.now) }
{
    match pairs.first("rft.date") {
        Some(value) => days_of_value(alloc, value),
        None => Ok(None),
    }
}

fn days_of_value(alloc: Global, value: &str) -> Result<Option<Days>, AllocError>
    ensures { IfOk result (λ days. days ≡ option_map first_and_last (date_in (searched value.now))) }
{
    let date = in_ascii(alloc, value)?;
    days_in(alloc, searched(&date))
}

/// Appends the pairs of the first and the last day of the date, if there is one.
fn push_days(alloc: Global, list: &mut Vec<Pair>, pairs: &Pairs) -> Result<(), AllocError>
    ensures { OnOk result (list.new.items
        ≡ list.old.items ++ spec.added (codes "x.from") (option_map (λ days. days.first) (spec.days_of pairs.now))
        ++ spec.added (codes "x.to") (option_map (λ days. days.last) (spec.days_of pairs.now))) }
{
    match days_of(alloc, pairs)? {
        Some(days) => push_first_and_last(alloc, list, &days),
        None => Ok(()),
    }
}

fn push_first_and_last(alloc: Global, list: &mut Vec<Pair>, days: &Days) -> Result<(), AllocError>
    ensures { OnOk result (list.new.items
        ≡ list.old.items ++ spec.added (codes "x.from") (Some days.now.first)
        ++ spec.added (codes "x.to") (Some days.now.last)) }
{
    push_text(alloc, list, "x.from", days.first())?;
    push_text(alloc, list, "x.to", days.last())
}

/// Appends a pair of the key if there is a value.
fn push_added(
    alloc: Global,
    list: &mut Vec<Pair>,
    key: &str,
    value: Option<Text>,
) -> Result<(), AllocError>
    ensures { OnOk result (list.new.items ≡ list.old.items ++ spec.added key.now value) }
{
    match value {
        Some(value) => push_pair(alloc, list, key, value),
        None => Ok(()),
    }
}
