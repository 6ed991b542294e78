//! `serve REGISTRY PORT COUNT`: menus over HTTP, for programs of this machine.

ghost use Rattle.std.specs.Prelude.{◌≡◌, IfOk, IfErr, string_bytes};
ghost use Rattle.files.specs.Changes.{Unchanged};
ghost use Rattle.commands.specs.Output.{end_of, output_of};
ghost use Rattle.files.specs.Writing.{IsWrittenInPart};
ghost use Rattle.commands.specs.Serving.{IsDeaf, Listens, Serves, ServesMenus, counts_line, listening_line};

use crate::fault::Fault;
use crate::menus::open_registry;
use crate::service::Service;
use crate::world::{System, World};
use files::{Files, write_text};
use http_exchange::{Counts, serve_on};
use http_streams::Ports;
use kbart_rows::KeySource;
use link_menu::RegistryMenus;
use registry::Registry;
use std::alloc::{AllocError, Global};
use std::io::Write;

/// Loads the registry, binds a listener, prints the line that says where it listens, serves the connections, and
/// prints on `errors` how many ended in each way.
pub(crate) fn serve<'a, F: Files, K: KeySource, P: Ports, O: Write, E: Write>(
    rt: &mut System<F, K, P>,
    service: Service<'a>,
    output: &mut O,
    errors: &mut E,
) -> Result<(), Fault<'a>>
    ensures ends { Serves ⟦<System<F, K, P> as World>⟧.told rt.old service.entry rt.new
        (output_of O.contents output.old output.new) (output_of E.contents errors.old errors.new) (end_of result) }
    ensures same { Unchanged (F.at rt.old.files) (F.at rt.new.files) }
{
    let registry = open_registry(rt.alloc, &mut rt.files, &mut rt.keys, service.registry)?;
    serve_menus(rt.alloc, &mut rt.ports, service, &registry, output, errors)
}

/// Binds a listener, prints the line that says where it listens, and serves the connections.
fn serve_menus<'a, P: Ports, O: Write, E: Write>(
    alloc: Global,
    ports: &mut P,
    service: Service<'a>,
    registry: &Registry,
    output: &mut O,
    errors: &mut E,
) -> Result<(), Fault<'a>>
    ensures { ServesMenus P.binds P.fails P.Bound.gives P.Bound.closes P.Bound.fails P.Bound.In.input_state
        P.Bound.Out.output_state ports.old service.entry ports.new registry.now
        (output_of O.contents output.old output.new) (output_of E.contents errors.old errors.new) (end_of result) }
{
    let (mut listener, line) = listen(alloc, ports, service)?;
    let Ok(()) = write_text(output, &line) else {
        return Err(Fault::Device("-"));
    };
    let menus = RegistryMenus::new(registry);
    match serve_on(alloc, &mut listener, service.count, &menus) {
        Ok(counts) => {
            print_counts(alloc, errors, counts);
            Ok(())
        }
        Err(_) => Err(Fault::Port(service.port_text)),
    }
}

/// Prints the line that says how many connections ended in each way, as far as it can be printed: the service has
/// ended, with or without it.
fn print_counts<E: Write>(alloc: Global, errors: &mut E, counts: Counts)
    ensures { IsWrittenInPart (E.contents errors.old) (E.contents errors.new) (counts_line counts) }
{
    if let Ok(line) = counts_line(alloc, counts) {
        let _ = write_text(errors, &line);
    }
}

/// The line that says how many connections ended in each way.
fn counts_line(alloc: Global, counts: Counts) -> Result<String, AllocError>
    ensures { IfOk result (λ line. string_bytes line ≡ counts_line counts) }
{
    let Counts {
        replied,
        nothing,
        faults,
    } = counts;
    format!(in alloc; "openlink: {replied} replied, {nothing} silent, {faults} failed\n")
}

/// A listener at the port, and the line that says where it listens.
fn listen<'a, P: Ports>(
    alloc: Global,
    ports: &mut P,
    service: Service<'a>,
) -> Result<(P::Bound, String), Fault<'a>>
    ensures ok { IfOk result (λ parts. Listens P.binds ports.old service.entry ports.new parts.0
        (string_bytes parts.1)) }
    ensures err { IfErr result (IsDeaf P.binds ports.old service.entry ports.new P.fails) }
{
    let Ok((listener, port)) = ports.bind(service.port) else {
        return Err(Fault::Port(service.port_text));
    };
    let line = listening_line(alloc, port)?;
    Ok((listener, line))
}

/// The line that says where the service listens.
fn listening_line(alloc: Global, port: u16) -> Result<String, AllocError>
    ensures { IfOk result (λ line. string_bytes line ≡ listening_line port) }
{
    format!(in alloc; "listening 127.0.0.1:{port}\n")
}
