//! What leading words name: the file that is the disk, and the addresses of a node's link.

use gl_commands::{Asked, read_words};
use gl_system::{FileDisk, TcpLink};
use std::alloc::{AllocError, Global};
use std::fmt::{self, Display, Formatter};
use std::io;
use std::net::SocketAddr;

/// How many milliseconds a tick lasts.
const TICK: u32 = 100;

/// What leading words name, and the words after them.
#[derive(Drop)]
pub(crate) struct Invocation<'a> {
    /// The path of the disk's file, the last one if several are named.
    pub(crate) disk: Option<&'a str>,
    /// The address to listen at, the last one if several are named.
    pub(crate) listen: Option<&'a str>,
    /// The addresses of the peers, in their order.
    pub(crate) peers: Vec<&'a str>,
    pub(crate) words: &'a [String],
}

/// What leading words name, of the words after the program's name.
pub(crate) fn invocation_of(alloc: Global, words: &[String]) -> Result<Invocation<'_>, AllocError> {
    let mut called = Invocation {
        disk: None,
        listen: None,
        peers: Vec::new(alloc),
        words: &[],
    };
    for (index, word) in words.iter().enumerate() {
        let word = word.as_str();
        if let Some(path) = word.strip_prefix("@disk=") {
            called.disk = Some(path);
        } else if let Some(address) = word.strip_prefix("@listen=") {
            called.listen = Some(address);
        } else if let Some(address) = word.strip_prefix("@peer=") {
            called.peers.push(address)?;
        } else {
            called.words = &words[index..];
            return Ok(called);
        }
    }
    Ok(called)
}

/// The disk over the file at a path, which is locked for this process. Without one each of its
/// calls fails.
pub(crate) fn disk_at(rt: &HostRuntime, path: Option<&str>) -> FileDisk {
    match path {
        Some(path) => FileDisk::open(rt, path),
        None => FileDisk::none(None),
    }
}

/// Why a node has no link.
#[derive(Debug, Drop)]
enum NoLink<'a> {
    /// So many peers are named, and so many addresses are given.
    Addresses(usize, usize),
    /// No address to listen at is given.
    NoAddress,
    /// The word is no address.
    NotAddress(&'a str),
    /// The system can't listen at the address.
    CannotListen(SocketAddr, io::Error),
    Memory,
}

impl Display for NoLink<'_> {
    fn fmt<W: fmt::Write>(&self, f: &mut Formatter<W>) -> fmt::Result {
        match self {
            NoLink::Addresses(named, given) => {
                write!(
                    f,
                    "{named} peers are named, but @peer gives {given} addresses"
                )
            }
            NoLink::NoAddress => f.write_str("no address to listen at, as @listen names none"),
            NoLink::NotAddress(word) => write!(f, "{word}: no address"),
            NoLink::CannotListen(address, error) => write!(f, "{address}: listen: {error}"),
            NoLink::Memory => f.write_str("memory ran out"),
        }
    }
}

/// The address that a word is.
fn address(word: &str) -> Result<SocketAddr, NoLink<'_>> {
    match word.parse::<SocketAddr>() {
        Ok(address) => Ok(address),
        Err(_) => Err(NoLink::NotAddress(word)),
    }
}

/// The addresses that these words are.
fn addresses<'a>(alloc: Global, words: &[&'a str]) -> Result<Vec<SocketAddr>, NoLink<'a>> {
    let mut found = Vec::new(alloc);
    for word in words {
        if found.push(address(word)?).is_err() {
            return Err(NoLink::Memory);
        }
    }
    Ok(found)
}

/// How many peers a node is to have, where the words ask for one.
fn peer_count(alloc: Global, words: &[String]) -> Option<usize> {
    match read_words(alloc, words) {
        Ok(Asked::Node(node)) => Some(node.peers.as_slice().len()),
        _ => None,
    }
}

/// The link of a node with so many peers: it listens at an address and connects to the peers.
fn open_link<'a, 'b>(
    rt: &'a HostRuntime,
    called: &Invocation<'b>,
    count: usize,
) -> Result<TcpLink<'a, HostRuntime>, NoLink<'b>> {
    if called.peers.len() != count {
        return Err(NoLink::Addresses(count, called.peers.len()));
    }
    let Some(word) = called.listen else {
        return Err(NoLink::NoAddress);
    };
    let listen = address(word)?;
    let peers = addresses(rt.alloc(), &called.peers)?;
    match TcpLink::new(rt, rt.alloc(), listen, &peers, TICK) {
        Ok(link) => Ok(link),
        Err(error) => Err(NoLink::CannotListen(listen, error)),
    }
}

/// Tells on standard error where a link listens, and where its peers do.
fn print_link(rt: &HostRuntime, link: &TcpLink<'_, HostRuntime>, called: &Invocation<'_>) {
    if let Some(address) = link.local_addr() {
        let _printed = eprint!(rt; "listens at {address}\n");
    }
    for (index, peer) in called.peers.iter().enumerate() {
        let _printed = eprint!(rt; "peer {index} at {peer}\n");
    }
}

/// The link over sockets, where the words ask for a node; the standard error tells where it
/// listens. Else, and where it can't be had, which the standard error tells too, each call of the
/// link fails.
pub(crate) fn link_at<'a>(
    rt: &'a HostRuntime,
    called: &Invocation<'_>,
) -> Result<TcpLink<'a, HostRuntime>, AllocError> {
    let Some(count) = peer_count(rt.alloc(), called.words) else {
        return Ok(TcpLink::none());
    };
    match open_link(rt, called, count) {
        Ok(link) => {
            print_link(rt, &link, called);
            Ok(link)
        }
        Err(NoLink::Memory) => Err(AllocError),
        Err(why) => {
            let _printed = eprint!(rt; "link: {why}\n");
            Ok(TcpLink::none())
        }
    }
}
