//! One exchange with the menu of a registry.

ghost use Rattle.std.specs.Prelude.{◌≡◌};
ghost use Rattle.registry.specs.Entries.{menu_of};
ghost use Rattle.http_streams.specs.declared.read.TheConstants.{MAX_HEAD_BYTES};
ghost use Rattle.http_exchange.specs.Exchange.{IsExchange};

use http_exchange::{ServeError, Served};
use http_streams::{Input, Output};
use link_menu::RegistryMenus;
use registry::Registry;
use std::alloc::Global;

/// Reads one request and writes its reply, as [`http_exchange::serve_one`] does, with the menu of the registry.
pub fn serve_one<I: Input, O: Output>(
    alloc: Global,
    input: &mut I,
    output: &mut O,
    registry: &Registry,
) -> Result<Served, ServeError>
    ensures exchange { IsExchange (menu_of registry.now) (I.input_state input.old) (O.output_state output.old) result
        (I.input_state input.new) (O.output_state output.new) }
    ensures limit { MAX_HEAD_BYTES ≡ 16384 }
{
    http_exchange::serve_one(alloc, input, output, &RegistryMenus::new(registry))
}
