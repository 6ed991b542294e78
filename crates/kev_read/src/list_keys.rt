//! Which keys name lists.

ghost use Rattle.std.specs.Prelude.{◌≡◌, ◌||◌, ◌<◌, ◌≤◌, ℕ, [], false, All, length, slice_index_or};
ghost use Rattle.environment_model.specs.Environment.{is_among};
ghost use Rattle.environment_model.specs.Lists.{is_list};
ghost use Rattle.text_model.specs.Texts.{texts_of};
ghost use Rattle.kev_read.specs.Private.KeyOrder.{IsKeyOrder, has_index, passes_at};

use crate::key_order::indices_of;
use crate::pairs::Pairs;
use target_vars::{AUTHORS, IDENTIFIERS};

/// The keys that are lists in every request.
const STANDARD_LISTS: [&str; 2] = [AUTHORS, IDENTIFIERS];

/// Whether a name is a list in every request.
pub fn is_standard_list(name: &str) -> bool
    ensures { result ≡ is_list [] name.now }
{
    name == AUTHORS || name == IDENTIFIERS
}

/// Marks each pair whose key names a list; before, no pair is marked. The time grows with the number of lists times the
/// logarithm of the number of pairs, and with the number of marked pairs. It allocates nothing.
pub(crate) fn mark_lists(pairs: &Pairs, order: &[u16], declared: &[&str], marks: &mut [bool])
    requires order { IsKeyOrder pairs.now order.now }
    requires room { length pairs.now ≤ length marks.old }
    requires unmarked { (index : ℕ) → slice_index_or marks.old index false ≡ false }
    ensures { (index : ℕ) → slice_index_or marks.new index false
        ≡ passes_at (is_list (texts_of declared.now)) pairs.now index }
{
    mark_names(pairs, order, &STANDARD_LISTS, marks);
    mark_names(pairs, order, declared, marks);
}

/// Marks the pairs whose key is one of the names.
fn mark_names(pairs: &Pairs, order: &[u16], names: &[&str], marks: &mut [bool])
    requires order { IsKeyOrder pairs.now order.now }
    requires room { length pairs.now ≤ length marks.old }
    ensures { (index : ℕ) → slice_index_or marks.new index false
        ≡ (slice_index_or marks.old index false || passes_at (λ key. is_among key (texts_of names.now)) pairs.now
        index) }
{
    for name in names {
        mark(marks, indices_of(pairs, order, name));
    }
}

fn mark(marks: &mut [bool], indices: &[u16])
    requires { All (λ index. index < length marks.old) indices.now }
    ensures { (index : ℕ) → slice_index_or marks.new index false
        ≡ (slice_index_or marks.old index false || has_index index indices.now) }
{
    for index in indices {
        marks[*index as usize] = true;
    }
}
