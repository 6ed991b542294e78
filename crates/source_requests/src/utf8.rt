//! The texts of a reading are UTF-8, since they are strings. The model of pairs does not say so; the types of keys and
//! values do.

ghost use Rattle.std.specs.Prelude.{All};
ghost use Rattle.std.specs.Str.{IsUtf8};
ghost use Rattle.source_requests.specs.Requests as spec;

use openurl_reading::Pairs;

/// All keys and values are UTF-8. This reads each pair and does nothing.
pub(crate) fn are_utf8(pairs: &Pairs)
    ensures { All spec.IsUtf8Pair pairs.now }
{
    for index in 0..pairs.len() {
        let (key, value) = pairs.pair(index);
        is_utf8_pair(key, value);
    }
}

/// Strings are UTF-8.
fn is_utf8_pair(key: &str, value: &str)
    ensures { IsUtf8 key.now × IsUtf8 value.now }
{}
