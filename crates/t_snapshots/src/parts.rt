//! The parts of a snapshot that a node gives, against the file that a program in Python makes.

ghost use Rattle.gl_node.specs.Persistence.{StandsForSome};
ghost use Rattle.gl_store_book.specs.Stands.{Stands};

use crate::file::file;
use crate::joiner::{begun, follower, follows, joiner};
use crate::ledger::whole;
use gl_answers::part_of_snapshot;
use gl_replication::Core;
use gl_store::LedgerTail;
use gl_store_book::StoreBook;
use std::alloc::Global;
use std::test::*;

/// Whether it gives the part from an offset on of the file that is owed.
fn gives_part(core: &Core<StoreBook>, owed: &[u8], offset: usize) -> bool {
    match part_of_snapshot(core, offset as u64) {
        Ok(Some(part)) => {
            part.total == owed.len() as u64
                && part.bytes.as_slice() == owed.get(offset..).unwrap_or(&[])
        }
        _ => false,
    }
}

/// Whether it gives the parts from these offsets on: the whole, some bytes, one byte, and none.
fn gives_parts(core: &Core<StoreBook>, owed: &[u8]) -> bool {
    let len = owed.len();
    [0, 1000, len.saturating_sub(1), len, usize::MAX]
        .iter()
        .all(|offset| gives_part(core, owed, *offset))
}

/// Whether it gives them also with the file at hand.
fn gives_again(core: &mut Core<StoreBook>, owed: &[u8]) -> bool {
    gives_parts(core, owed) && core.keep_at_hand().is_ok() && gives_parts(core, owed)
}

/// Whether a node that begins from its snapshot gives the same one, once it has what follows.
fn is_given_on(
    alloc: Global,
    from: &Core<StoreBook>,
    tail: &LedgerTail,
    owed: &[u8],
) -> Option<bool>
    requires { StandsForSome Stands from.now }
{
    let mut node = begun(alloc, from)?;
    Some(follows(&mut node, tail) && gives_again(&mut node, owed))
}

#[test]
fn a_node_gives_the_parts_of_its_snapshot(rt: HostRuntime) -> Result<(), Fail> {
    let tail = whole(rt.alloc()).ok_or("no ledger")?;
    let owed = file(rt.alloc()).ok_or("no file")?;
    let mut node = follower(rt.alloc(), tail.entries()).ok_or("no node")?;
    assert!(rt; is_given_on(rt.alloc(), &node, &tail, &owed) == Some(true));
    assert!(rt; gives_again(&mut node, &owed));
    Ok(())
}

#[test]
fn a_node_without_evidence_gives_none(rt: HostRuntime) -> Result<(), Fail> {
    let node = joiner(rt.alloc()).ok_or("no node")?;
    assert!(rt; matches!(part_of_snapshot(&node, 0), Ok(None)));
    Ok(())
}
