//! What is known about the names that were already looked up in a request.

ghost use Rattle.std.specs.Prelude.{◌≡◌, IfOk, List};
ghost use Rattle.text_model.specs.Texts.{Text};
ghost use Rattle.environment_model.specs.Lists as lists;
ghost use Rattle.row_laws.specs.Shadowing.{requested};
ghost use Rattle.row_scope.specs.Bindings.{IsBound, laid_in};
ghost use Rattle.row_scope.specs.NameNumbers.{IsOwn};

use crate::binding::Binding;
use crate::request_values::RequestValues;
use kbart_rows::NameSet;
use std::alloc::{AllocError, Global};
use std::marker::Model;

/// What a name, read as a list or as a text, is bound to in a request without a row.
#[derive(Clone, Copy)]
pub struct KnownName {
    is_list: bool,
    binding: Binding,
}

/// A request, and what the names are bound to that were already looked up in it. Contracts see the request and the
/// names that have numbers.
#[derive(Drop)]
pub struct KnownValues<'a> {
    request: &'a RequestValues<'a>,
    numbered: &'a NameSet,
    // Indexed by the numbers of names.
    names: Vec<Option<KnownName>>,
}

impl<'a> Model for KnownValues<'a> {
    ghost use Rattle.row_scope.specs.RowValue.{KnownValue};
    ghost use Rattle.row_scope.specs.Private.Kept.{AreKnown};

    ghost Value = { KnownValue };

    ghost view = { λ known. record { request = known.request.now; numbered = known.numbered.now.names } };

    ghost invariant = { λ known. AreKnown
        (record { request = known.request.now; numbered = known.numbered.now.names }) known.names.items };
}

impl<'a> KnownValues<'a> {
    /// A request in which no name has been looked up yet.
    ///
    /// `AllocError` if an allocation failed.
    pub fn new(
        alloc: Global,
        request: &'a RequestValues<'a>,
        numbered: &'a NameSet,
    ) -> Result<KnownValues<'a>, AllocError>
        ensures { IfOk result (λ known. (known.request ≡ request.now) × (known.numbered ≡ numbered.now.names)) }
    {
        let names: Vec<Option<KnownName>> = vec![in alloc; None; numbered.len()]?;
        Ok(KnownValues {
            request,
            numbered,
            names,
        })
    }

    /// The request.
    pub(crate) fn request(&self) -> &'a RequestValues<'a>
        ensures { result.now ≡ self.now.request }
    {
        self.request
    }

    /// What a name is bound to in the request without a row, as a list or as a text. A name without a number of its own
    /// is looked up anew.
    pub(crate) fn binding(&mut self, number: Option<usize>, name: &str, is_list: bool) -> Binding
        requires { IsOwn self.old.numbered name.now number }
        ensures bound { (declared : List Text) → is_list ≡ lists.is_list declared name.now
            → IsBound (laid_in self.old.request.values (requested declared self.old.request.pairs)) name.now result }
        ensures same { self.new ≡ self.old }
    {
        let Some(number) = number else {
            return looked_up(self.request, name, is_list);
        };
        if let Some(Some(known)) = self.names.get(number) {
            if known.is_list == is_list {
                return known.binding;
            }
        }
        let binding = looked_up(self.request, name, is_list);
        if let Some(known) = self.names.get_mut(number) {
            *known = Some(KnownName { is_list, binding });
        }
        binding
    }
}

fn looked_up(request: &RequestValues, name: &str, is_list: bool) -> Binding
    ensures { (declared : List Text) → is_list ≡ lists.is_list declared name.now
        → IsBound (laid_in request.now.values (requested declared request.now.pairs)) name.now result }
{
    let (first, count) = request.values_of(name);
    request.binding(first, count, is_list)
}
