//! How connections are served and counted, over memory and on loopback.

use crate::shared::{REPLY, REQUEST};
use http_exchange::{Counts, serve_on, serve_within};
use http_streams::{Listener, Loopback, Ports};
use link_menu::RegistryMenus;
use registry::Registry;
use std::alloc::{AllocError, Global};
use std::io::{self, Write};
use std::net::{Ipv4Addr, Net, SocketAddr, TcpStream};
use std::test::Fail;
use std::time::Duration;
use streams_in_memory::Peers;

/// What peers send: the first closes the connection at once, and the second stops before its head has ended.
const SENT: [&[u8]; 5] = [b"", b"GET /x HTTP/1.1\r\n", REQUEST, REQUEST, REQUEST];

/// A peer that has sent these bytes.
fn peer<R: Net<Stream = TcpStream>>(
    rt: &R,
    place: SocketAddr,
    bytes: &[u8],
) -> io::Result<TcpStream> {
    let mut stream = TcpStream::connect(rt, place)?;
    stream.write_all(bytes)?;
    Ok(stream)
}

/// Peers that have sent this; those that have sent nothing have closed their connection.
fn peers<R: Net<Stream = TcpStream> + AllocGlobal>(
    rt: &R,
    place: SocketAddr,
) -> Result<Vec<TcpStream>, Fail> {
    let mut peers = Vec::new(rt.alloc());
    for bytes in SENT {
        let peer = peer(rt, place, bytes)?;
        if !bytes.is_empty() {
            peers.push(peer)?;
        }
    }
    Ok(peers)
}

/// How `count` connections ended: with a reply, with nothing, or with an error. A read times out after this number of
/// milliseconds, if it is given.
fn counted<L: Listener>(
    alloc: Global,
    listener: &mut L,
    count: u32,
    wait: Option<u64>,
) -> io::Result<(u32, u32, u32)> {
    let registry = Registry::new(alloc);
    let menus = RegistryMenus::new(&registry);
    let Counts {
        replied,
        nothing,
        faults,
    } = match wait {
        Some(millis) => serve_within(
            alloc,
            listener,
            count,
            &menus,
            Duration::from_millis(millis),
        )?,
        None => serve_on(alloc, listener, count, &menus)?,
    };
    Ok((replied, nothing, faults))
}

/// A number of connections, how many milliseconds a read may take, and how they are counted. A time-out of 0 cannot be
/// set.
const COUNTED: [(u32, Option<u64>, (u32, u32, u32)); 3] = [
    (3, Some(50), (1, 1, 1)),
    (1, Some(0), (0, 0, 1)),
    (1, None, (1, 0, 0)),
];

#[test]
fn counts_each_way(rt: HostRuntime) -> Result<(), Fail> {
    let (mut listener, port) = Loopback::new(&rt).bind(0)?;
    let _peers = peers(&rt, SocketAddr::from((Ipv4Addr::LOCALHOST, port)))?;
    for (count, wait, expected) in COUNTED {
        assert_eq!(rt; counted(rt.alloc(), &mut listener, count, wait)?, expected);
    }
    Ok(())
}

/// Peers in memory that send this.
fn peers_in_memory(alloc: Global) -> Result<Peers, AllocError> {
    let mut peers = Peers::new(alloc);
    for bytes in SENT {
        peers.add(bytes)?;
    }
    Ok(peers)
}

/// The reply to a head that does not end.
const BAD: &[u8] = b"HTTP/1.1 400 Bad Request\r\nContent-Type: text/plain; charset=utf-8\r\n\
    Content-Length: 12\r\nConnection: close\r\n\r\nbad request\n";

/// Whether each of the first three peers has its reply, and the fourth has none.
fn have_replies(peers: &Peers) -> bool {
    for (peer, reply) in [(0, b"".as_slice()), (1, BAD), (2, REPLY)] {
        if peers.reply(peer) != Some(reply) {
            return false;
        }
    }
    peers.reply(3).is_none()
}

#[test]
fn serves_peers_in_memory(rt: HostRuntime) -> Result<(), Fail> {
    let mut peers = peers_in_memory(rt.alloc())?;
    assert_eq!(rt; counted(rt.alloc(), &mut peers, 3, None)?, (2, 1, 0));
    assert!(rt; have_replies(&peers));
    assert_eq!(rt; counted(rt.alloc(), &mut peers, 1, Some(0))?, (0, 0, 1));
    Ok(())
}

#[test]
fn ends_when_no_peer_is_left(rt: HostRuntime) -> Result<(), Fail> {
    let mut peers = peers_in_memory(rt.alloc())?;
    assert!(rt; counted(rt.alloc(), &mut peers, 6, None).is_err());
    assert_eq!(rt; peers.reply(4), Some(REPLY.as_slice()));
    Ok(())
}
