//! Titles and names, read as text.

ghost use Rattle.std.specs.Prelude.{◌≡◌, IfOk, map};
ghost use Rattle.text_model.specs.Texts.{texts_of};
ghost use Rattle.written_texts.specs.Readings.{written};
ghost use Rattle.openurl_reading.specs.Steps.{after, taken};
ghost use Rattle.openurl_reading.specs.Texts as spec;
ghost use Rattle.openurl_reading.specs.Values.{values_of};

use crate::change::{Change, changed};
use crate::pairs::Pairs;
use std::alloc::{AllocError, Global};
use uri_text::Text;
use written_texts::{Role, read};

/// The titles and the names of a request are read as text.
pub(crate) fn read_texts(alloc: Global, pairs: Pairs) -> Result<Pairs, AllocError>
    ensures { IfOk result (λ texts. texts ≡ after spec.text_steps pairs) }
{
    let pairs = read_under(alloc, Role::Title, title_texts(), pairs)?;
    let pairs = read_under(alloc, Role::Other, other_texts(), pairs)?;
    Ok(pairs)
}

/// The values of each of the keys are read.
fn read_under(alloc: Global, role: Role, keys: &[&str], pairs: Pairs) -> Result<Pairs, AllocError>
    ensures { IfOk result (λ texts. texts ≡ after (map (spec.texting role) (texts_of keys.now)) pairs) }
{
    let mut pairs = pairs;
    for key in keys {
        pairs = read_key(alloc, role, key, pairs)?;
    }
    Ok(pairs)
}

fn read_key(alloc: Global, role: Role, key: &str, pairs: Pairs) -> Result<Pairs, AllocError>
    ensures { IfOk result (λ after. after ≡ taken pairs (spec.texting role key.now)) }
{
    let change = texts_under(alloc, role, key, &pairs)?;
    changed(alloc, key, change, pairs)
}

fn texts_under(alloc: Global, role: Role, key: &str, pairs: &Pairs) -> Result<Change, AllocError>
    ensures { IfOk result (λ change. change ≡ spec.as_texts role (values_of pairs.now key.now)) }
{
    let values = pairs.values(alloc, key)?;
    let change = as_texts(alloc, role, &values)?;
    Ok(change)
}

/// What is read replaces the values, unless all are read as they are.
fn as_texts(alloc: Global, role: Role, values: &[&str]) -> Result<Change, AllocError>
    ensures { IfOk result (λ change. change ≡ spec.as_texts role (texts_of values.now)) }
{
    if are_read(alloc, role, values)? {
        return Ok(Change::unchanged(alloc));
    }
    let texts = texts(alloc, role, values)?;
    Ok(Change::replacing(texts))
}

/// Whether each value is read as it is.
fn are_read(alloc: Global, role: Role, values: &[&str]) -> Result<bool, AllocError>
    ensures { IfOk result (λ are. are ≡ spec.are_read role (texts_of values.now)) }
{
    for value in values {
        let text = read(alloc, role, value)?;
        if text.as_str() != *value {
            return Ok(false);
        }
    }
    Ok(true)
}

fn texts(alloc: Global, role: Role, values: &[&str]) -> Result<Vec<Text>, AllocError>
    ensures { IfOk result (λ texts. texts.items ≡ map (written role) (texts_of values.now)) }
{
    let mut texts = Vec::new(alloc);
    for value in values {
        texts.push(read(alloc, role, value)?)?;
    }
    Ok(texts)
}

/// The keys of titles.
fn title_texts() -> &'static [&'static str]
    ensures { texts_of result.now ≡ spec.title_texts }
{
    &["rft.atitle", "rft.jtitle", "rft.btitle", "rft.title"]
}

/// The keys of names and of other texts.
fn other_texts() -> &'static [&'static str]
    ensures { texts_of result.now ≡ spec.other_texts }
{
    &[
        "rft.stitle",
        "rft.au",
        "rft.aulast",
        "rft.aufirst",
        "rft.aucorp",
        "rft.pages",
    ]
}
