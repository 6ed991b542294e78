//! A listener's connections, one after the other.

ghost use Rattle.std.specs.Prelude.{◌≡◌, IfOk, OnErr};
ghost use Rattle.std.specs.Duration.{as_nanos};
ghost use Rattle.http_exchange.specs.Connections.{Connection, IsAccepted, IsServed, ServesAll, StopsEarly, outcome};

use crate::counts::Counts;
use crate::exchange::{ServeError, Served, serve_one};
use http_streams::Listener;
use menu_source::MenuSource;
use std::alloc::Global;
use std::io;
use std::time::Duration;

/// Serves `count` connections of the listener as [`serve_within`] does, with a time-out of 2 seconds.
pub fn serve_on<L: Listener, S: MenuSource>(
    alloc: Global,
    listener: &mut L,
    count: u32,
    source: &S,
) -> io::Result<Counts>
    ensures served { IfOk result
        (ServesAll (S.menus source.now) L.gives L.closes L.In.input_state L.Out.output_state 2_000_000_000 count
        listener.old listener.new) }
    ensures stopped { OnErr result
        (StopsEarly (S.menus source.now) L.gives L.closes L.fails L.In.input_state L.Out.output_state 2_000_000_000
        count listener.old listener.new) }
{
    serve_within(alloc, listener, count, source, Duration::from_secs(2))
}

/// Serves `count` connections of the listener, one at a time: each has one exchange, as [`serve_one`] does it, and is
/// closed before the next is accepted. A read or a write that takes longer than `wait` fails. So a peer that sends
/// nothing blocks the service for one `wait`, and one that sends a byte within each `wait` can block it for up to
/// 16,384 of them. If the time-out cannot be set, as with a `wait` of 0, the connection is not read, and counts with
/// the `faults`.
///
/// The error is that of the listener, if it cannot accept a connection; no further connection is served then.
pub fn serve_within<L: Listener, S: MenuSource>(
    alloc: Global,
    listener: &mut L,
    count: u32,
    source: &S,
    wait: Duration,
) -> io::Result<Counts>
    ensures served { IfOk result
        (ServesAll (S.menus source.now) L.gives L.closes L.In.input_state L.Out.output_state (as_nanos wait) count
        listener.old listener.new) }
    ensures stopped { OnErr result
        (StopsEarly (S.menus source.now) L.gives L.closes L.fails L.In.input_state L.Out.output_state (as_nanos wait)
        count listener.old listener.new) }
{
    let mut counts = Counts::new();
    for _served in 0..count {
        counts.add(serve_next(alloc, listener, source, wait)?);
    }
    Ok(counts)
}

/// Accepts a connection, serves it, and closes it.
fn serve_next<L: Listener, S: MenuSource>(
    alloc: Global,
    listener: &mut L,
    source: &S,
    wait: Duration,
) -> io::Result<Result<Served, ServeError>>
    ensures served { IfOk result (λ exchange. (c : Connection L.In L.Out)
        × IsAccepted L.gives L.closes listener.old c listener.new
        × IsServed (S.menus source.now) L.In.input_state L.Out.output_state (as_nanos wait) c
        × (exchange ≡ outcome c)) }
    ensures stopped { OnErr result (L.fails listener.old listener.new) }
{
    let Some((mut input, mut output)) = listener.accept(wait)? else {
        return Ok(Err(ServeError::ReadFault));
    };
    let served = serve_one(alloc, &mut input, &mut output, source);
    listener.close((input, output));
    Ok(served)
}
