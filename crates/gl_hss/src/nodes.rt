//! The nodes of a tree (section 5.3).

ghost use Rattle.std.specs.Prelude.{◌≡◌, ◌+◌, ◌*◌, ◌^◌, ◌<◌, ◌≤◌, ◌++◌, length, IfOk, OnOk};
ghost use Rattle.gl_hss.specs.Types.{height};
ghost use Rattle.gl_hss.specs.Secrets.{node, siblings};
ghost use Rattle.gl_hss.specs.Source.{private_of};
ghost use Rattle.gl_hss.specs.Nodes.{HoldsFrom, HoldsTree};

use crate::source::KeySource;
use crate::tree::{inner_node, leaf_node};
use std::alloc::{AllocError, Global};

// Fills in the leaves, each with the digest of its one-time key.
fn fill_leaves(source: &KeySource, nodes: &mut [[u8; 32]])
    requires { length nodes.old ≡ 2 * 2 ^ height source.now.types }
    ensures { HoldsFrom (private_of source.now) nodes.new (2 ^ height source.now.types) }
{
    let count = source.types.leaf_count();
    for q in 0..count {
        let node = count + q;
        let key = source.key_of_leaf(q);
        nodes[node as usize] = leaf_node(&source.identifier, node, &key);
    }
}

// Fills in the inner nodes, from the lowest up to the root.
fn fill_inner(source: &KeySource, nodes: &mut [[u8; 32]])
    requires count { length nodes.old ≡ 2 * 2 ^ height source.now.types }
    requires leaves { HoldsFrom (private_of source.now) nodes.old (2 ^ height source.now.types) }
    ensures { HoldsFrom (private_of source.now) nodes.new 1 }
{
    let count = source.types.leaf_count() as usize;
    for done in 1..count {
        let node = count - done;
        let left = nodes[2 * node];
        let right = nodes[2 * node + 1];
        nodes[node] = inner_node(&source.identifier, node as u32, &left, &right);
    }
}

// All nodes of the tree, `T[r]` at place `r`. Nothing stands at place 0.
pub(crate) fn grow(alloc: Global, source: &KeySource) -> Result<Vec<[u8; 32]>, AllocError>
    ensures { IfOk result (λ nodes. HoldsTree (private_of source.now) nodes.items) }
{
    let mut nodes = vec![in alloc; [0; 32]; 2 * source.types.leaf_count() as usize]?;
    fill_leaves(source, &mut nodes);
    fill_inner(source, &mut nodes);
    Ok(nodes)
}
