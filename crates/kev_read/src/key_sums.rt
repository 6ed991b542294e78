//! How many bytes and members a request has if no further lists are declared.

ghost use Rattle.std.specs.Prelude.{◌≡◌, ◌≤◌, ◌*◌, ◌<◌, ◌||◌, length, not, take, get_or, if◌then◌else◌};
ghost use Rattle.std.specs.List.{list_any};
ghost use Rattle.environment_model.specs.Lists as lists;
ghost use Rattle.kev_read.specs.Pairs as spec;
ghost use Rattle.kev_read.specs.Sums.{AreSums};
ghost use Rattle.kev_read.specs.Private.KeyOrder.{IsKeyOrder, pair_at, pairs_at};
ghost use Rattle.kev_read.specs.declared.read.TheConstants.{MAX_PAIRS, MAX_QUERY_BYTES};

use crate::list_keys::is_standard_list;
use crate::pairs::Pairs;

/// E (bytes) and M (members) of the pairs if no list is declared. The order of the keys shows which values are the
/// first of their key.
pub(crate) fn sums(pairs: &Pairs, order: &[u16]) -> (usize, usize)
    requires order { IsKeyOrder pairs.now order.now }
    requires few { length pairs.now ≤ MAX_PAIRS }
    requires small { spec.value_bytes pairs.now ≤ 3 * MAX_QUERY_BYTES }
    ensures { AreSums pairs.now result.0 result.1 }
{
    let mut bytes = 0;
    let mut members = 0;
    for place in 0..order.len() {
        let pair = pairs.at(order[place] as usize);
        let is_list = is_standard_list(pair.key);
        let is_repeated = repeats(pairs, order, place);
        bytes += added_bytes(is_list, is_repeated, pair.value.len());
        members += added_members(is_list);
    }
    (bytes, members)
}

/// Whether an earlier pair in the order has the same key as the one at the place. If so, the one before it has.
fn repeats(pairs: &Pairs, order: &[u16], place: usize) -> bool
    requires order { IsKeyOrder pairs.now order.now }
    requires within { place < length order.now }
    ensures { result ≡ list_any (spec.has_key (pair_at pairs.now (get_or order.now place 0)).key)
        (take place (pairs_at pairs.now order.now)) }
{
    place > 0 && pairs.at(order[place - 1] as usize).key == pairs.at(order[place] as usize).key
}

/// What a value of this length adds to E: every value of a list counts, and the first of a text.
fn added_bytes(is_list: bool, is_repeated: bool, length: usize) -> usize
    ensures value { result ≡ (if (is_list || not is_repeated) then length else 0) }
    ensures small { result ≤ length }
{
    if is_list || !is_repeated { length } else { 0 }
}

/// What a value adds to M.
fn added_members(is_list: bool) -> usize
    ensures value { result ≡ (if is_list then 1 else 0) }
    ensures small { result ≤ 1 }
{
    if is_list { 1 } else { 0 }
}
