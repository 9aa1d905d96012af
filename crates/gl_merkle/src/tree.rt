//! The tree computed from the whole list of leaves.

ghost use Rattle.std.specs.Prelude.{◌≡◌, ℕ, ◌+◌, ◌-◌, ◌*◌, ◌^◌, ◌<◌, ◌≤◌, ◌++◌, length, IfOk, OnOk};
ghost use Rattle.gl_merkle.specs.Tree.{inner_of, root_of};
ghost use Rattle.gl_merkle.specs.Path.{path_of, climb_of, joined};

use crate::Digest;
use sha2::{Digest as _, Sha256};
use std::alloc::{AllocError, Global};

/// One step of the way from a leaf to the root: the sibling, and the side on which it stands.
#[derive(Clone, Copy, Debug, PartialEq, Eq)]
pub enum Step {
    /// The sibling stands on the left.
    Left(Digest),
    /// The sibling stands on the right.
    Right(Digest),
}

// An inner node over its two children.
pub(crate) fn inner(left: &Digest, right: &Digest) -> Digest
    ensures { result ≡ inner_of left.now right.now }
{
    let mut hasher = Sha256::new();
    hasher.update(left);
    hasher.update(right);
    hasher.finalize()
}

// The greatest power of two below `count`.
fn split_of(count: usize) -> usize
    requires { 1 < count }
    ensures power { (k : ℕ) × (result ≡ 2 ^ k) }
    ensures below { result < count }
    ensures greatest { count ≤ 2 * result }
{
    let mut width = 1;
    while width < count - width {
        width *= 2;
    }
    width
}

/// The root of the tree over these leaves. It hashes one node fewer than there are leaves.
pub fn root(leaves: &[Digest]) -> Digest
    requires { 0 < length leaves.now }
    ensures { result ≡ root_of leaves.now }
{
    if leaves.len() == 1 {
        return leaves[0];
    }
    let (first, rest) = leaves.split_at(split_of(leaves.len()));
    inner(&root(first), &root(rest))
}

/// The steps from the leaf at `index`, counted from 1, to the root: the leaf's sibling first.
pub fn path(alloc: Global, leaves: &[Digest], index: usize) -> Result<Vec<Step>, AllocError>
    requires from_one { 1 ≤ index }
    requires within { index ≤ length leaves.now }
    ensures { IfOk result (λ steps. steps.items ≡ path_of leaves.now index) }
{
    let mut steps = Vec::new(alloc);
    push_path(&mut steps, leaves, index)?;
    Ok(steps)
}

// Adds the path of the leaf at `index`, counted from 1.
fn push_path(steps: &mut Vec<Step>, leaves: &[Digest], index: usize) -> Result<(), AllocError>
    requires from_one { 1 ≤ index }
    requires within { index ≤ length leaves.now }
    ensures { OnOk result (steps.new.items ≡ steps.old.items ++ path_of leaves.now index) }
{
    if leaves.len() == 1 {
        return Ok(());
    }
    let (left, right) = leaves.split_at(split_of(leaves.len()));
    if index <= left.len() {
        push_path(steps, left, index)?;
        steps.push(Step::Right(root(right)))?;
    } else {
        push_path(steps, right, index - left.len())?;
        steps.push(Step::Left(root(left)))?;
    }
    Ok(())
}

// The node above `node` and the sibling that the step names.
fn join(node: &Digest, step: &Step) -> Digest
    ensures { result ≡ joined node.now step.now }
{
    match step {
        Step::Left(sibling) => inner(sibling, node),
        Step::Right(sibling) => inner(node, sibling),
    }
}

/// The node at the end of the way that begins at `leaf`: the root, if the steps are its path.
pub fn climb(leaf: Digest, steps: &[Step]) -> Digest
    ensures { result ≡ climb_of leaf steps.now }
{
    let mut node = leaf;
    for step in steps {
        node = join(&node, step);
    }
    node
}
