//! What the options and the words of `node` ask for.

ghost use Rattle.std.specs.Prelude.{◌≡◌, ◌≤◌, Err, IfErr, IfOk, None, Ok, Some, if◌then◌else◌, map, option_map};
ghost use Rattle.std.specs.List.{list_all};
ghost use Rattle.gl_commands.specs.Words.{RefusesOnly, asked_node, asked_peers, asked_ticks, asked_turns, asked_workers, is_node, node_of, number_within};

use crate::digest_word::encoded_digest;
use crate::task::{NodeTask, WordsFault};
use crate::words::number_in;
use clap::error::ErrorKind;
use gl_base::Sequence;
use gl_requests::NodeId;
use std::alloc::{AllocError, Global};

/// So many ticks without word of a leader, where no word says it.
const TICKS: u64 = 10;

/// A number from the least to the greatest.
#[derive(Clone, Copy)]
struct Span {
    least: u64,
    greatest: u64,
}

/// The number that an option asks for, which may not be there.
fn number_within(default: u64, span: Span, word: Option<&str>) -> Result<u64, ErrorKind>
    requires { (span.least ≤ default) × (default ≤ span.greatest) }
    ensures found { IfOk result (λ number. number_within default span.least span.greatest
        (option_map (λ s. s.now) word.entry) ≡ Ok number) }
    ensures within { IfOk result (λ number.
        (span.least ≤ number) × (number ≤ span.greatest)) }
    ensures refused { IfErr result (λ kind. number_within default span.least span.greatest
        (option_map (λ s. s.now) word.entry) ≡ Err kind) }
{
    let Some(word) = word else {
        return Ok(default);
    };
    match number_in(word) {
        Some(number) if span.least <= number && number <= span.greatest => Ok(number),
        _ => Err(ErrorKind::ValueValidation),
    }
}

/// So many ticks without word of a leader make a node stand for election.
fn asked_ticks(word: Option<&str>) -> Result<u32, ErrorKind>
    ensures found { IfOk result (λ ticks.
        asked_ticks (option_map (λ s. s.now) word.entry) ≡ Ok ticks) }
    ensures some { IfOk result (λ ticks. 1 ≤ ticks) }
    ensures refused { IfErr result (λ kind.
        asked_ticks (option_map (λ s. s.now) word.entry) ≡ Err kind) }
{
    let span = Span {
        least: 1,
        greatest: u32::MAX as u64,
    };
    match number_within(TICKS, span, word) {
        Ok(ticks) => Ok(ticks as u32),
        Err(kind) => Err(kind),
    }
}

/// A node serves on its own thread alone as yet: no worker may be asked for.
fn asked_workers(word: Option<&str>) -> Result<u64, ErrorKind>
    ensures found { IfOk result (λ workers.
        asked_workers (option_map (λ s. s.now) word.entry) ≡ Ok workers) }
    ensures refused { IfErr result (λ kind.
        asked_workers (option_map (λ s. s.now) word.entry) ≡ Err kind) }
{
    let none = Span {
        least: 0,
        greatest: 0,
    };
    number_within(0, none, word)
}

/// So often the link may be asked for what comes next.
fn asked_turns(word: Option<&str>) -> Result<u64, ErrorKind>
    ensures found { IfOk result (λ turns.
        asked_turns (option_map (λ s. s.now) word.entry) ≡ Ok turns) }
    ensures refused { IfErr result (λ kind.
        asked_turns (option_map (λ s. s.now) word.entry) ≡ Err kind) }
{
    let span = Span {
        least: 1,
        greatest: u64::MAX,
    };
    number_within(u64::MAX, span, word)
}

/// The identifiers that words encode, if each encodes one.
fn named_nodes(alloc: Global, words: &[&str]) -> Result<Option<Vec<NodeId>>, AllocError>
    ensures { IfOk result (λ found. option_map (λ v. v.items) found
        ≡ (if list_all is_node (map (λ s. s.now) words.now)
        then Some (map node_of (map (λ s. s.now) words.now)) else None)) }
{
    let mut nodes = Vec::new(alloc);
    for word in words {
        match encoded_digest(word) {
            Some(node) => nodes.push(node)?,
            None => return Ok(None),
        }
    }
    Ok(Some(nodes))
}

/// The peers that the words of a command encode.
fn asked_peers(alloc: Global, words: Option<&[&str]>) -> Result<Sequence<NodeId>, WordsFault>
    ensures found { IfOk result (λ peers.
        asked_peers (option_map (λ s. map (λ v. v.now) s.now) words.entry) ≡ Ok peers) }
    ensures refused { IfErr result (RefusesOnly
        (asked_peers (option_map (λ s. map (λ v. v.now) s.now) words.entry))) }
{
    let Some(words) = words else {
        return Ok(Sequence::from(Vec::new(alloc)));
    };
    match named_nodes(alloc, words) {
        Ok(Some(nodes)) => Ok(Sequence::from(nodes)),
        Ok(None) => Err(WordsFault::Refused(ErrorKind::ValueValidation)),
        Err(_) => Err(WordsFault::NoMemory),
    }
}

/// The node that the options and the words of `node` ask for.
pub(crate) fn asked_node(
    alloc: Global,
    ticks: Option<&str>,
    workers: Option<&str>,
    turns: Option<&str>,
    peers: Option<&[&str]>,
) -> Result<NodeTask, WordsFault>
    ensures found { IfOk result (λ node. asked_node (option_map (λ s. s.now) ticks.entry)
        (option_map (λ s. s.now) workers.entry) (option_map (λ s. s.now) turns.entry)
        (option_map (λ s. map (λ v. v.now) s.now) peers.entry) ≡ Ok node) }
    ensures ticks { IfOk result (λ node. 1 ≤ node.ticks) }
    ensures refused { IfErr result (RefusesOnly
        (asked_node (option_map (λ s. s.now) ticks.entry)
        (option_map (λ s. s.now) workers.entry) (option_map (λ s. s.now) turns.entry)
        (option_map (λ s. map (λ v. v.now) s.now) peers.entry))) }
{
    let ticks = asked_ticks(ticks)?;
    let _workers = asked_workers(workers)?;
    let turns = asked_turns(turns)?;
    let peers = asked_peers(alloc, peers)?;
    Ok(NodeTask {
        ticks,
        turns,
        peers,
    })
}
