//! The identifiers of a request.

ghost use Rattle.std.specs.Prelude.{◌≡◌, ◌≤◌, ◌+◌, ◌++◌, ◌∷◌, [], All, IfNone, IfOk, IfSome, OnErr, OnOk};
ghost use Rattle.std.specs.Prelude.{get_or, length, map};
ghost use Rattle.std.specs.List.{list_any};
ghost use Rattle.std.specs.Option.{option_to_list};
ghost use Rattle.std.specs.Str.{bytes_eq};
ghost use Rattle.kbart_rows.specs.Hashing.{hash_of};
ghost use Rattle.kbart_rows.specs.Identifiers as spec;
ghost use Rattle.kbart_rows.specs.Private.Hashed.{IsHashed, id_text};

use crate::identifier::{is_identifier, normalised};
use crate::keys::Keys;
use kev_read::Request;
use std::alloc::{AllocError, Global};
use std::marker::Model;

/// The identifiers of the title that a request cites, at most three; contracts see their texts. Each is hashed once,
/// under keys that the contracts do not see: look-ups in tables with these keys need no other hash.
#[derive(Drop)]
pub struct Ids {
    ids: Vec<Id>,
    keys: Keys,
}

/// A normalised identifier, and its hash.
#[derive(Drop)]
pub(crate) struct Id {
    text: Vec<u8>,
    hash: u64,
}

impl Model for Ids {
    ghost use Rattle.std.specs.Prelude.{◌≤◌, All, List, length, map};
    ghost use Rattle.text_model.specs.Texts.{Text};
    ghost use Rattle.kbart_rows.specs.Private.Hashed.{IsHashed, id_text};

    ghost Value = { List Text };

    ghost view = { λ ids. map id_text ids.ids.items };

    ghost invariant = { λ ids. (length ids.ids.items ≤ 3) × All (IsHashed ids.keys) ids.ids.items };
}

impl Ids {
    /// The first values of `rft.issn`, `rft.eissn` and `rft.isbn`, in this order, without hyphens and spaces and with
    /// ASCII letters in upper case. Those that are then empty are left out. They are hashed under the keys of
    /// [`Table::read`](crate::Table::read).
    ///
    /// Fails if an allocation failed.
    pub fn of(alloc: Global, request: &Request) -> Result<Ids, AllocError>
        ensures { IfOk result (λ ids. ids ≡ spec.ids_of request.now.pairs) }
    {
        Ids::keyed(alloc, request, Keys::new(0, 0))
    }

    /// The same identifiers as of [`of`](Ids::of), hashed under the keys of the tables in which they are looked up. In
    /// tables with other keys the look-ups find the same rows, but take longer.
    ///
    /// Fails if an allocation failed.
    pub fn keyed(alloc: Global, request: &Request, keys: Keys) -> Result<Ids, AllocError>
        ensures { IfOk result (λ ids. ids ≡ spec.ids_of request.now.pairs) }
    {
        let mut ids = Vec::new(alloc);
        add_first(alloc, request, "rft.issn", &keys, &mut ids)?;
        add_first(alloc, request, "rft.eissn", &keys, &mut ids)?;
        add_first(alloc, request, "rft.isbn", &keys, &mut ids)?;
        Ok(Ids { ids, keys })
    }

    /// No identifiers, to be replaced by [`set`](Ids::set). They are hashed under these keys.
    pub fn none(alloc: Global, keys: Keys) -> Ids
        ensures { result ≡ [] }
    {
        Ids {
            ids: Vec::new(alloc),
            keys,
        }
    }

    /// Replaces the identifiers by one, given in normal form ([`write_normal`](crate::write_normal)). Calls share its
    /// memory.
    ///
    /// Fails if an allocation failed; there is no identifier then.
    pub fn set(&mut self, alloc: Global, id: &[u8]) -> Result<(), AllocError>
        ensures ok { OnOk result (self.new ≡ id.now ∷ []) }
        ensures err { OnErr result (self.new ≡ []) }
    {
        let mut text = match self.ids.pop() {
            Some(last) => last.text,
            None => Vec::new(alloc),
        };
        self.ids.clear();
        text.clear();
        text.extend_from_slice(id)?;
        let hash = self.keys.hash(id);
        self.ids.push(Id { text, hash })?;
        Ok(())
    }

    /// The hash of an identifier, counted from 0, under these keys.
    pub(crate) fn hash(&self, at: usize, keys: &Keys) -> Option<u64>
        ensures some { IfSome result (λ hash. hash ≡ hash_of keys.now (get_or self.now at [])) }
        ensures none { IfNone result (length self.now ≤ at) }
        ensures few { length self.now ≤ 3 }
    {
        let id = self.ids.get(at)?;
        if self.keys.is_same(keys) {
            Some(id.hash)
        } else {
            Some(keys.hash(id.text.as_slice()))
        }
    }

    /// Whether a cell has one of the identifiers.
    pub(crate) fn has(&self, cell: &str) -> bool
        ensures { result ≡ list_any (λ id. bytes_eq id (spec.normalised cell.now)) self.now }
    {
        for id in self.ids.iter() {
            if is_identifier(cell, id.text.as_slice()) {
                return true;
            }
        }
        false
    }
}

/// Adds the normalised first value of a key, unless it is then empty.
fn add_first(
    alloc: Global,
    request: &Request,
    key: &str,
    keys: &Keys,
    ids: &mut Vec<Id>,
) -> Result<(), AllocError>
    ensures added { OnOk result (map id_text ids.new.items
        ≡ map id_text ids.old.items ++ option_to_list (spec.id_of request.now.pairs key.now)) }
    ensures few { OnOk result (length ids.new.items ≤ length ids.old.items + 1) }
    ensures hashed { All (IsHashed keys.now) ids.old.items → OnOk result (All (IsHashed keys.now) ids.new.items) }
{
    let Some(value) = request.first(key) else {
        return Ok(());
    };
    let text = normalised(alloc, value)?.into_bytes();
    if !text.is_empty() {
        let hash = keys.hash(text.as_slice());
        ids.push(Id { text, hash })?;
    }
    Ok(())
}
