//! The keys of OpenURL 0.1.

ghost use Rattle.std.specs.Prelude.{◌≡◌, IfOk, map};
ghost use Rattle.text_model.specs.Texts.{texts_of};
ghost use Rattle.openurl_reading.specs.Steps.{after, taken};
ghost use Rattle.openurl_reading.specs.Steps as steps;
ghost use Rattle.openurl_reading.specs.OldKeys as spec;

use crate::change::{Change, changed};
use crate::pairs::{Pairs, copy};
use std::alloc::{AllocError, Global};
use uri_text::Text;

/// Each key of OpenURL 0.1 gives its values to that of OpenURL 1.0, unless this has some.
pub(crate) fn copy_old_keys(alloc: Global, pairs: Pairs) -> Result<Pairs, AllocError>
    ensures { IfOk result (λ copied. copied ≡ after spec.copies pairs) }
{
    let mut pairs = pairs;
    for key in old_keys() {
        pairs = copy_key(alloc, key.0, key.1, pairs)?;
    }
    Ok(pairs)
}

/// A key gives its values to another one, unless this has some.
pub(crate) fn copy_key(
    alloc: Global,
    old: &str,
    new: &str,
    pairs: Pairs,
) -> Result<Pairs, AllocError>
    ensures { IfOk result (λ after. after ≡ taken pairs (spec.copy record { old = old.now; new = new.now })) }
{
    let change = copied(alloc, old, new, &pairs)?;
    changed(alloc, new, change, pairs)
}

/// The same, if it is meant.
pub(crate) fn copy_key_if(
    alloc: Global,
    is_meant: bool,
    old: &str,
    new: &str,
    pairs: Pairs,
) -> Result<Pairs, AllocError>
    ensures { IfOk result (λ after. after
        ≡ steps.changed new.now (spec.copied_if is_meant record { old = old.now; new = new.now } pairs) pairs) }
{
    if is_meant {
        copy_key(alloc, old, new, pairs)
    } else {
        Ok(pairs)
    }
}

fn copied(alloc: Global, old: &str, new: &str, pairs: &Pairs) -> Result<Change, AllocError>
    ensures { IfOk result (λ change. change ≡ spec.copied record { old = old.now; new = new.now } pairs.now) }
{
    if pairs.first(new).is_some() {
        return Ok(Change::unchanged(alloc));
    }
    let values = pairs.values(alloc, old)?;
    let values = copies(alloc, &values)?;
    Ok(Change::leading(values))
}

fn copies(alloc: Global, texts: &[&str]) -> Result<Vec<Text>, AllocError>
    ensures { IfOk result (λ copies. copies.items ≡ texts_of texts.now) }
{
    let mut copies = Vec::new(alloc);
    for text in texts {
        copies.push(copy(alloc, text)?)?;
    }
    Ok(copies)
}

/// The keys of OpenURL 0.1, each with the key of OpenURL 1.0 in its place.
fn old_keys() -> &'static [(&'static str, &'static str)]
    ensures { map (λ key. record { old = key.0.now; new = key.1.now }) result.now ≡ spec.old_keys }
{
    &[
        ("genre", "rft.genre"),
        ("issn", "rft.issn"),
        ("eissn", "rft.eissn"),
        ("isbn", "rft.isbn"),
        ("eisbn", "rft.eisbn"),
        ("volume", "rft.volume"),
        ("issue", "rft.issue"),
        ("spage", "rft.spage"),
        ("epage", "rft.epage"),
        ("pages", "rft.pages"),
        ("artnum", "rft.artnum"),
        ("atitle", "rft.atitle"),
        ("jtitle", "rft.jtitle"),
        ("btitle", "rft.btitle"),
        ("stitle", "rft.stitle"),
        ("au", "rft.au"),
        ("aulast", "rft.aulast"),
        ("aufirst", "rft.aufirst"),
        ("auinit", "rft.auinit"),
        ("auinit1", "rft.auinit1"),
        ("aucorp", "rft.aucorp"),
        ("part", "rft.part"),
        ("ssn", "rft.ssn"),
        ("quarter", "rft.quarter"),
        ("sici", "rft.sici"),
        ("coden", "rft.coden"),
        ("pid", "rft_dat"),
    ]
}
