//! Links over sockets of this machine.

use gl_outside::{Came, Link, Put};
use gl_system::TcpLink;
use std::alloc::Global;
use std::io::{ErrorKind, Read, Write};
use std::net::{Net, Shutdown, SocketAddr, TcpStream, ToSocketAddrs};
use std::test::*;
use std::thread;
use std::time::{Clock, Duration};

/// A link that listens on this machine alone, at a port that the system picks, and its address.
fn listening<'a, R: Net + Clock>(
    rt: &'a R,
    alloc: Global,
    peers: &[SocketAddr],
    tick: u32,
) -> Result<(TcpLink<'a, R>, SocketAddr), Fail> {
    let Some(any_port) = "127.0.0.1:0".to_socket_addrs(rt)?.next() else {
        return Err(Fail::from("no port"));
    };
    let link = TcpLink::new(rt, alloc, any_port, peers, tick)?;
    match link.local_addr() {
        Some(address) => Ok((link, address)),
        None => Err(Fail::from("no address")),
    }
}

fn expect(holds: bool, wanted: &str) -> Result<(), Fail> {
    if holds {
        Ok(())
    } else {
        Err(Fail::new(wanted))
    }
}

/// The next bytes that come, over ticks, have to be these.
fn expect_bytes<L: Link>(link: &mut L, conn: u64, wanted: &[u8]) -> Result<(), Fail> {
    for _ in 0..2000 {
        match link.next() {
            Came::Bytes(from, bytes) => {
                return expect(from == conn && bytes.as_slice() == wanted, "other bytes");
            }
            Came::Tick => {}
            _ => break,
        }
    }
    Err(Fail::from("no bytes"))
}

fn expect_tick<L: Link>(link: &mut L) -> Result<(), Fail> {
    expect(matches!(link.next(), Came::Tick), "a tick")
}

fn expect_sent<L: Link>(link: &mut L, conn: u64, frame: &[u8]) -> Result<(), Fail> {
    expect(link.send(conn, frame) == Put::Took(frame.len()), "a send")
}

fn expect_lost<L: Link>(link: &mut L, conn: u64, frame: &[u8]) -> Result<(), Fail> {
    expect(link.send(conn, frame) == Put::Failed, "a lost frame")
}

/// A frame waits until there is a connection, and an answer goes back on the one that it came on.
fn exchange<L: Link>(node: &mut L, peer: &mut L) -> Result<(), Fail> {
    expect_sent(peer, 0, b"from a peer")?;
    expect_tick(peer)?;
    expect_bytes(node, 0, b"from a peer")?;
    expect_sent(node, 0, b"to a peer")?;
    expect_bytes(peer, 0, b"to a peer")
}

#[test]
fn carries_frames_between_peers(rt: HostRuntime) -> Result<(), Fail> {
    let (mut node, address) = listening(&rt, rt.alloc(), &[], 5)?;
    let (mut peer, _) = listening(&rt, rt.alloc(), &[address], 5)?;
    exchange(&mut node, &mut peer)?;
    assert!(rt; (peer.faults, peer.send_faults, peer.broken()) == (0, 0, 0));

    peer.stop();
    assert!(rt; matches!(peer.next(), Came::Ended));
    assert!(rt; peer.ended);
    Ok(())
}

/// A client that sends no more is answered, and two ticks later it is gone. Its number stands after
/// that of the peer.
fn answer<L: Link>(node: &mut L, client: &mut TcpStream) -> Result<(), Fail> {
    expect_bytes(node, 1, b"from a client")?;
    expect_tick(node)?;
    expect_sent(node, 1, b"to a client")?;
    let mut answer = [0; 11];
    client.read_exact(&mut answer)?;
    expect(answer == *b"to a client", "the answer")?;
    expect_tick(node)?;
    expect_tick(node)?;
    expect_lost(node, 1, b"to nobody")
}

#[test]
fn answers_a_client_that_sends_no_more(rt: HostRuntime) -> Result<(), Fail> {
    let (_peer, theirs) = listening(&rt, rt.alloc(), &[], 5)?;
    let (mut node, address) = listening(&rt, rt.alloc(), &[theirs], 5)?;
    let mut client = TcpStream::connect(&rt, address)?;
    client.write_all(b"from a client")?;
    client.shutdown(Shutdown::Write)?;
    answer(&mut node, &mut client)?;
    assert!(rt; (node.faults, node.send_faults, node.broken()) == (0, 1, 0));
    Ok(())
}

/// Sends until a frame is lost.
fn lose<L: Link>(near: &mut L) -> Result<(), Fail> {
    for _ in 0..1000 {
        if near.send(0, b"lost") == Put::Failed {
            return Ok(());
        }
        expect_tick(near)?;
    }
    Err(Fail::from("no frame was lost"))
}

/// Sends until a frame comes to a peer that is back.
fn find_again<L: Link>(near: &mut L, far: &mut L) -> Result<(), Fail> {
    for _ in 0..1000 {
        let _ = near.send(0, b"again");
        expect_tick(near)?;
        if let Came::Bytes(conn, bytes) = far.next() {
            return expect(conn == 0 && bytes.as_slice().starts_with(b"again"), "again");
        }
    }
    Err(Fail::from("it never came back"))
}

#[test]
fn connects_again_to_a_peer_that_is_back(rt: HostRuntime) -> Result<(), Fail> {
    let (mut far, address) = listening(&rt, rt.alloc(), &[], 5)?;
    let (mut near, _) = listening(&rt, rt.alloc(), &[address], 5)?;
    expect_sent(&mut near, 0, b"first")?;
    expect_bytes(&mut far, 0, b"first")?;
    drop(far);
    lose(&mut near)?;
    assert!(rt; near.send_faults == 1);
    assert!(rt; near.broken() > 0);

    let mut far = TcpLink::new(&rt, rt.alloc(), address, &[], 5)?;
    find_again(&mut near, &mut far)
}

/// How many bytes came once a socket has no more to give. They have to be those of the frame over
/// and over again, each of which is the lowest byte of its place's number.
fn count_in_order(from: &mut TcpStream, frame: &[u8], before: usize) -> Result<usize, Fail> {
    let mut all = before;
    let mut buf = [0; 4096];
    for _ in 0..1000 {
        match from.read(&mut buf) {
            Ok(0) => return Err(Fail::from("an early end")),
            Ok(count) => {
                let place = all % 256;
                expect(
                    frame.get(place..place + count) == Some(&buf[..count]),
                    "the order",
                )?;
                all = all.wrapping_add(count);
            }
            Err(error) if error.kind() == ErrorKind::WouldBlock => break,
            Err(error) => return Err(Fail::from(error)),
        }
    }
    Ok(all)
}

/// The frame has to come so many times while the link writes what waits.
fn expect_frames<L: Link>(
    link: &mut L,
    client: &mut TcpStream,
    frame: &[u8],
    times: usize,
) -> Result<(), Fail> {
    let wanted = frame.len().wrapping_mul(times);
    let mut all = 0;
    for _ in 0..100_000 {
        all = count_in_order(client, frame, all)?;
        if all >= wanted {
            break;
        }
        expect_tick(link)?;
    }
    expect(all == wanted, "all bytes")
}

/// Bytes, each of which is the lowest of its place's number.
fn numbered(alloc: Global, len: usize) -> Result<Vec<u8>, Fail> {
    let mut bytes = Vec::from_elem(alloc, 0, len)?;
    for (place, byte) in bytes.iter_mut().enumerate() {
        *byte = (place % 256) as u8;
    }
    Ok(bytes)
}

/// Sends a frame sixteen times to a client that asked for all.
fn send_all<L: Link>(node: &mut L, client: &mut TcpStream, frame: &[u8]) -> Result<(), Fail> {
    client.write_all(b"all")?;
    expect_bytes(node, 0, b"all")?;
    client.set_nonblocking(true)?;
    for _ in 0..16 {
        expect_sent(node, 0, frame)?;
    }
    Ok(())
}

// The sockets take some MiB of sixteen, and the rest waits.
#[test]
fn keeps_what_a_socket_does_not_take_at_once(rt: HostRuntime) -> Result<(), Fail> {
    let (mut node, address) = listening(&rt, rt.alloc(), &[], 5)?;
    let mut client = TcpStream::connect(&rt, address)?;
    let frame = numbered(rt.alloc(), 1 << 20)?;
    send_all(&mut node, &mut client, &frame)?;
    expect_frames(&mut node, &mut client, &frame, 16)?;
    assert!(rt; (node.faults, node.send_faults, node.broken()) == (0, 0, 0));
    Ok(())
}

/// A tick and a piece are due, and come one after the other.
fn take_turns<L: Link>(rt: &HostRuntime, node: &mut L, client: &mut TcpStream) -> Result<(), Fail> {
    for is_tick in [true, false] {
        client.write_all(b"more")?;
        thread::sleep(rt, Duration::from_millis(2));
        expect(matches!(node.next(), Came::Tick) == is_tick, "its turn")?;
    }
    Ok(())
}

#[test]
fn gives_ticks_and_pieces_in_turn(rt: HostRuntime) -> Result<(), Fail> {
    let (mut node, address) = listening(&rt, rt.alloc(), &[], 1)?;
    let mut client = TcpStream::connect(&rt, address)?;
    client.set_nodelay(true)?;
    client.write_all(b"some")?;
    expect_bytes(&mut node, 0, b"some")?;
    for _ in 0..20 {
        take_turns(&rt, &mut node, &mut client)?;
    }
    Ok(())
}

#[test]
fn takes_an_address_once(rt: HostRuntime) -> Result<(), Fail> {
    let (_node, address) = listening(&rt, rt.alloc(), &[], 5)?;
    let second = TcpLink::new(&rt, rt.alloc(), address, &[], 5);
    assert!(rt; second.err().map(|error| error.kind()) == Some(ErrorKind::AddrInUse));
    Ok(())
}

#[test]
fn counts_each_call_without_sockets(rt: HostRuntime) -> Result<(), Fail> {
    let mut none: TcpLink<'_, HostRuntime> = TcpLink::none();
    for _ in 0..2 {
        assert!(rt; matches!(none.next(), Came::Failed));
    }
    expect_lost(&mut none, 0, b"lost")?;
    assert!(rt; (none.calls, none.faults, none.send_faults) == (2, 2, 1));
    assert!(rt; none.local_addr() == None);
    Ok(())
}
