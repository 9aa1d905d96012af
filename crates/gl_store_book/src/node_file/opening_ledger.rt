//! An opening ledger, read from its bytes.

ghost use Rattle.std.specs.Prelude.{◌≡◌, ◌-◌, ◌<◌, [], length, take, Ok, Err, IfOk, IfErr};
ghost use Rattle.std.specs.List.{flat_map};
ghost use Rattle.gl_entry.specs.Entry.{frame_bytes};
ghost use Rattle.gl_ledger.specs.Audit.{opened_where, signer_of};
ghost use Rattle.gl_ledger.specs.Recordings.{last_entry};
ghost use Rattle.gl_ledger.specs.Past.{is_unopened};
ghost use Rattle.gl_store_book.specs.ServiceStart.{IsNoStart, TakesFrame, service_start, start_after, start_in};

use crate::node_file::opening_batch::suffix;
use crate::whole_ledger::WholeLedger;
use gl_base::OrNoMemory;
use gl_config::NodeId;
use gl_entry::{Content, Entry};
use gl_store::NotOpening;
use std::alloc::Global;

/// An opening ledger, and the node that signed it.
#[derive(Drop)]
pub(crate) struct OpeningLedger {
    pub(crate) ledger: WholeLedger,
    pub(crate) first: NodeId,
}

/// Adds the entry whose frame bytes begin with, and reports how many bytes the frame has.
fn take_frame(
    alloc: Global,
    ledger: &mut WholeLedger,
    bytes: &[u8],
) -> Result<usize, OrNoMemory<NotOpening>>
    requires some { 0 < length bytes.now }
    ensures taken { IfOk result (λ len. TakesFrame ledger.old bytes.now len ledger.new) }
    ensures refused { IfErr result (IsNoStart (start_after ledger.old bytes.now)) }
{
    let fault = OrNoMemory::Fault(NotOpening {
        seqno: ledger.len() + 1,
    });
    let (entry, len) = match Entry::decode(alloc, bytes) {
        Ok(read) => read,
        Err(OrNoMemory::NoMemory) => return Err(OrNoMemory::NoMemory),
        Err(OrNoMemory::Fault(_)) => return Err(fault),
    };
    match ledger.apply(entry) {
        Ok(()) => Ok(len),
        Err(OrNoMemory::NoMemory) => Err(OrNoMemory::NoMemory),
        Err(OrNoMemory::Fault(_)) => Err(fault),
    }
}

/// The ledger whose frames the bytes are, one after the other, and whether a service begins with
/// the entry before its last.
fn read_ledger(alloc: Global, bytes: &[u8]) -> Result<(WholeLedger, bool), OrNoMemory<NotOpening>>
    ensures start { IfOk result (λ read. start_in bytes.now ≡ start_after read.0 []) }
    ensures frames { IfOk result (λ read. bytes.now ≡ flat_map frame_bytes read.0) }
    ensures begun { IfOk result (λ read.
        read.1 ≡ is_unopened (last_entry (take (length read.0 - 1) read.0))) }
    ensures refused { IfErr result (IsNoStart (start_in bytes.now)) }
{
    let mut ledger = WholeLedger::new(alloc)?;
    let mut rest = bytes;
    let mut begun = false;
    while !rest.is_empty() {
        begun = ledger.is_unopened();
        let len = take_frame(alloc, &mut ledger, rest)?;
        rest = suffix(rest, len);
    }
    Ok((ledger, begun))
}

/// The node that signed the last entry, if it is a signature.
fn last_signer(ledger: &WholeLedger) -> Option<NodeId>
    ensures { result ≡ signer_of (last_entry ledger.now) }
{
    match ledger.entries().last() {
        None => None,
        Some(entry) => match &entry.content {
            Content::Signature(signature) => Some(signature.node),
            _ => None,
        },
    }
}

/// The node that signed a ledger that opens a service, where one begins with the entry before the
/// last and the last is a signature.
fn opened_by(begun: bool, signer: Option<NodeId>, seqno: u64) -> Result<NodeId, NotOpening>
    ensures opened { IfOk result (λ first. opened_where begun signer seqno ≡ Ok first) }
    ensures refused { IfErr result (λ fault. opened_where begun signer seqno ≡ Err fault.seqno) }
{
    match signer {
        Some(first) if begun => Ok(first),
        _ => Err(NotOpening { seqno }),
    }
}

/// The opening ledger whose frames the bytes are, one after the other.
pub(crate) fn read_opening(
    alloc: Global,
    bytes: &[u8],
) -> Result<OpeningLedger, OrNoMemory<NotOpening>>
    ensures opened { IfOk result (λ opening.
        start_in bytes.now ≡ Ok (service_start opening.ledger opening.first)) }
    ensures frames { IfOk result (λ opening. bytes.now ≡ flat_map frame_bytes opening.ledger) }
    ensures refused { IfErr result (IsNoStart (start_in bytes.now)) }
{
    let (ledger, begun) = read_ledger(alloc, bytes)?;
    match opened_by(begun, last_signer(&ledger), ledger.len()) {
        Ok(first) => Ok(OpeningLedger { ledger, first }),
        Err(fault) => Err(OrNoMemory::Fault(fault)),
    }
}
