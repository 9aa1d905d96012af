//! The key that signs a recovery: that of the first node, with a leaf left.

ghost use Rattle.std.specs.Prelude.{◌≡◌, ◌<◌, ◌^◌, IfOk, OnOk};
ghost use Rattle.gl_hss.specs.Types.{height};
ghost use Rattle.gl_recovery.specs.ExpectedOutput.{IsFirstKey};
ghost use Rattle.gl_recovery.specs.RecoveryOutput.{has_leaf, is_first_node, private_key};

use crate::opening_ledger::id_of;
use crate::recovering_fault::RecoveringFault;
use gl_hss::{LmsKey, Types};
use gl_journal::Key;
use gl_requests::NewNode;
use std::alloc::{AllocError, Global};

/// The private key that grows from the seed of a key. It takes as many digests as `LmsKey::make`.
pub(crate) fn private_key(alloc: Global, key: &Key) -> Result<LmsKey, AllocError>
    ensures { IfOk result (λ by. by ≡ private_key key.now) }
{
    LmsKey::make(alloc, key.seed, key.types)
}

/// Refuses a key that isn't that of the first node.
pub(crate) fn check_first_node(by: &LmsKey, nodes: &[NewNode]) -> Result<(), RecoveringFault>
    ensures exact { result ≡ is_first_node by.now nodes.now }
    ensures own { OnOk result (IsFirstKey by.now nodes.now) }
{
    let got = id_of(by);
    match nodes.first() {
        None => Err(RecoveringFault::NotFirstNode { want: [0; 32], got }),
        Some(node) if node.key == by.public() => Ok(()),
        Some(node) => Err(RecoveringFault::NotFirstNode {
            want: node.id(),
            got,
        }),
    }
}

/// Refuses a key of these types that has no leaf with this number.
pub(crate) fn check_leaf(types: Types, leaf: u32) -> Result<(), RecoveringFault>
    ensures exact { result ≡ has_leaf types leaf }
    ensures below { OnOk result (leaf < 2 ^ height types) }
{
    if types.leaf_count() <= leaf {
        return Err(RecoveringFault::KeyExhausted { reserved: leaf });
    }
    Ok(())
}
