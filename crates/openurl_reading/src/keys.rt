//! The keys of OpenURL in small letters, however a source writes them.

ghost use Rattle.std.specs.Prelude.{◌≡◌, IfOk};
ghost use Rattle.text_model.specs.Texts.{texts_of};
ghost use Rattle.openurl_reading.specs.Keys as spec;

use crate::pairs::copy;
use std::alloc::{AllocError, Global};
use uri_text::Text;

/// A key that is known in small letters is that one; any other key stays as it is.
pub(crate) fn key_of(alloc: Global, key: &str) -> Result<Text, AllocError>
    ensures { IfOk result (λ named. named ≡ spec.key_of key.now) }
{
    let small = key.to_ascii_lowercase(alloc)?;
    if is_known(small.as_str()) {
        return Ok(Text::new(small));
    }
    copy(alloc, key)
}

/// Whether a key is one of those that are read.
#[tactic(auto, unfolding(crate::specs::Keys::is_known))]
fn is_known(key: &str) -> bool
    ensures { result ≡ spec.is_known key.now }
{
    is_one_of(old_names(), key) || is_one_of(referent_keys(), key) || is_one_of(context_keys(), key)
}

/// Whether a text is one of these.
pub(crate) fn is_one_of(texts: &[&str], text: &str) -> bool
    ensures { result ≡ spec.is_one_of (texts_of texts.now) text.now }
{
    for one in texts {
        if *one == text {
            return true;
        }
    }
    false
}

/// The keys of OpenURL 0.1, and other keys of sources and of forms that are read.
fn old_names() -> &'static [&'static str]
    ensures { texts_of result.now ≡ spec.old_names }
{
    &[
        "genre",
        "issn",
        "eissn",
        "isbn",
        "eisbn",
        "volume",
        "issue",
        "spage",
        "epage",
        "pages",
        "artnum",
        "date",
        "year",
        "atitle",
        "jtitle",
        "btitle",
        "stitle",
        "title",
        "au",
        "aulast",
        "aufirst",
        "auinit",
        "auinit1",
        "aucorp",
        "part",
        "ssn",
        "quarter",
        "sici",
        "coden",
        "doi",
        "pmid",
        "pmcid",
        "identifier",
        "id",
        "number",
        "sid",
        "pid",
        "url",
    ]
}

/// The keys of a referent that are read, in OpenURL 1.0 and in Dublin Core.
fn referent_keys() -> &'static [&'static str]
    ensures { texts_of result.now ≡ spec.referent_keys }
{
    &[
        "rft.genre",
        "rft.issn",
        "rft.eissn",
        "rft.isbn",
        "rft.eisbn",
        "rft.volume",
        "rft.issue",
        "rft.spage",
        "rft.epage",
        "rft.pages",
        "rft.artnum",
        "rft.date",
        "rft.year",
        "rft.atitle",
        "rft.jtitle",
        "rft.btitle",
        "rft.stitle",
        "rft.title",
        "rft.au",
        "rft.aulast",
        "rft.aufirst",
        "rft.auinit",
        "rft.auinit1",
        "rft.aucorp",
        "rft.part",
        "rft.ssn",
        "rft.quarter",
        "rft.sici",
        "rft.coden",
        "rft.doi",
        "rft.pmid",
        "rft.pmcid",
        "rft.identifier",
        "rft.creator",
        "rft.source",
        "rft.type",
    ]
}

/// The keys of a context object that are read.
fn context_keys() -> &'static [&'static str]
    ensures { texts_of result.now ≡ spec.context_keys }
{
    &[
        "ctx_ver",
        "ctx_enc",
        "url_ver",
        "url_ctx_fmt",
        "rft_val_fmt",
        "rft_id",
        "rft_dat",
        "rfr_id",
    ]
}
