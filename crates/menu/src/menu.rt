//! A menu.

ghost use Rattle.std.specs.Prelude.{◌≡◌, IfOk, string_bytes};
ghost use Rattle.std.specs.List.{list_any};
ghost use Rattle.menu.specs.Links.{has_link, is_empty};
ghost use Rattle.menu.specs.Printed.{text, html, report};

use crate::entry::MenuEntry;
use crate::html::push_list;
use crate::lines::{push_report_line, push_text_line, text_len};
use std::alloc::{AllocError, Global};
use std::marker::Model;

/// A menu, which contracts see as the list of its entries, one for each target.
#[derive(Drop)]
pub struct Menu<'a> {
    list: Vec<MenuEntry<'a>>,
}

impl<'a> Model for Menu<'a> {
    ghost use Rattle.std.specs.Prelude.{List};
    ghost use Rattle.menu.specs.Entries.{MenuEntry};

    ghost Value = { List MenuEntry };

    ghost view = { λ menu. menu.list.items };
}

fn has_links(entries: &[MenuEntry]) -> bool
    ensures { result ≡ list_any has_link entries.now }
{
    entries.iter().any(|entry| entry.has_link())
}

impl<'a> Menu<'a> {
    /// The menu of these entries, in their order.
    pub fn new(entries: Vec<MenuEntry<'a>>) -> Menu<'a>
        ensures { result ≡ entries.entry.items }
    {
        Menu { list: entries }
    }

    /// The entries, one for each target, in their order.
    pub fn entries(&self) -> &[MenuEntry<'a>]
        ensures { result.now ≡ self.now }
    {
        &self.list
    }

    /// Whether no target has a link.
    #[tactic(auto, using(crate::proofs::LinkLemmas::no_links))]
    pub fn is_empty(&self) -> bool
        ensures { result ≡ is_empty self.now }
    {
        !has_links(&self.list)
    }

    /// The links as plain text: for each link a line with its target's name, a tab and the link. Lines end with LF, and
    /// a menu without links has no lines. The error is out of memory.
    pub fn text(&self, alloc: Global) -> Result<String, AllocError>
        ensures { IfOk result (λ printed. string_bytes printed ≡ text self.now) }
    {
        let mut out = String::with_capacity(alloc, text_len(&self.list))?;
        for entry in &self.list {
            push_text_line(&mut out, entry)?;
        }
        Ok(out)
    }

    /// The outcomes as plain text: for each target a line with its name, a tab and `link R`, where R is the row that
    /// gave the link, counted from 0; or `no row`, `no link`, `not a web link`, or `over budget N`, where N is a number
    /// of bytes. Lines end with LF. The error is out of memory.
    pub fn report(&self, alloc: Global) -> Result<String, AllocError>
        ensures { IfOk result (λ printed. string_bytes printed ≡ report self.now) }
    {
        let mut out = String::new(alloc);
        for entry in &self.list {
            push_report_line(&mut out, entry)?;
        }
        Ok(out)
    }

    /// The links as a page of HTML (HTML Living Standard, section 13.1): a list with an item for each link, whose text
    /// is the target's name, or one paragraph if there is no link. In a link `&` is written `&amp;` and `'` is written
    /// `&#39;`; a name is written unchanged. The error is out of memory.
    pub fn html(&self, alloc: Global) -> Result<String, AllocError>
        ensures { IfOk result (λ printed. string_bytes printed ≡ html self.now) }
    {
        let mut out = String::from_str(alloc, "<!DOCTYPE html>\n<title>Links</title>\n")?;
        if self.is_empty() {
            out.push_str("<p>No links</p>\n")?;
        } else {
            push_list(&mut out, &self.list)?;
        }
        Ok(out)
    }
}
