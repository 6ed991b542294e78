//! The version that a request states.

ghost use Rattle.std.specs.Prelude.{◌≡◌};
ghost use Rattle.std.specs.Option.{option_copied};
ghost use Rattle.kev_read.specs.Refusal as spec;

use crate::pairs::Pairs;
use crate::values::Values;

/// The only version of OpenURL that is accepted.
const VERSION: &str = "Z39.88-2004";

/// Whether the first `ctx_ver` (of the context object) or the first `url_ver` (of the transport) is another version.
pub(crate) fn states_other_version(pairs: &Pairs) -> bool
    ensures { result ≡ spec.states_other_version pairs.now }
{
    is_other_version(Values::new(pairs, "ctx_ver").next())
        || is_other_version(Values::new(pairs, "url_ver").next())
}

fn is_other_version(stated: Option<&str>) -> bool
    ensures { result ≡ spec.is_other_version (option_copied stated.entry) }
{
    match stated {
        Some(version) => version != VERSION,
        None => false,
    }
}
