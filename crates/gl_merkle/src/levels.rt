//! The levels of a frontier: level `k` has the roots of the complete subtrees of `2^k` leaves.
//!
//! Over a base a level leaves out what lies whole below the base, but for a peak. It begins at an
//! even place in any case, so that its nodes pair as the tree's do.

ghost use Rattle.std.specs.Prelude.{◌≡◌, ℕ, ◌+◌, ◌-◌, ◌*◌, ◌/◌, ◌%◌, ◌<◌, ◌≤◌, ◌++◌, Some, None, length, map, reverse, IfOk, OnOk, OnErr, count_ones, vec_len, vec_capacity};
ghost use Rattle.std.specs.List.{AllZip};
ghost use Rattle.gl_merkle.specs.Levels.{nodes_of, rooms_of, AreRoomy, HoldFirst, HasRoom, with_node, cut_to, base_levels, last_node, over_tail, next_tail, tail_of, step_at, steps_of, level_peaks};

use crate::Digest;
use crate::tree::{Step, inner};
use std::alloc::{AllocError, Global};

/// A level's nodes, in order.
pub(crate) type Level = Vec<Digest>;

/// The number of levels: a length has so many bits.
pub(crate) const HEIGHT: usize = 64;

// The levels of a base of so many leaves: they hold its peaks, greatest first, and no more.
pub(crate) fn make_levels(
    alloc: Global,
    base: u64,
    peaks: &[Digest],
) -> Result<Vec<Level>, AllocError>
    requires { length peaks.now ≡ count_ones base }
    ensures { IfOk result (λ levels. nodes_of levels.items ≡ base_levels 64 base peaks.now) }
{
    let mut levels = Vec::with_capacity(alloc, HEIGHT)?;
    let mut base = base;
    let mut peaks = peaks;
    for _height in 0..HEIGHT {
        let mut level = Vec::new(alloc);
        if base % 2 == 1 {
            let greater = peaks.len() - 1;
            level.push(peaks[greater])?;
            peaks = &peaks[..greater];
        }
        levels.push(level)?;
        base /= 2;
    }
    Ok(levels)
}

// Makes room at each level for the nodes of so many leaves.
pub(crate) fn reserve_levels(levels: &mut [Level], base: u64, limit: u64) -> Result<(), AllocError>
    ensures nodes { nodes_of levels.new ≡ nodes_of levels.old }
    ensures grown { AllZip ◌≤◌ (rooms_of levels.old) (rooms_of levels.new) }
    ensures ok { OnOk result (AreRoomy base limit (rooms_of levels.new)) }
{
    let mut base = base;
    let mut limit = limit;
    for level in levels.iter_mut() {
        let count = limit.saturating_sub(base / 2 * 2) as usize;
        level.reserve(count.saturating_sub(level.len()))?;
        base /= 2;
        limit /= 2;
    }
    Ok(())
}

// Adds a leaf, and each node that it completes.
pub(crate) fn push_node(levels: &mut [Level], leaf: Digest)
    requires { HasRoom levels.old }
    ensures nodes { nodes_of levels.new ≡ with_node (nodes_of levels.old) leaf }
    ensures rooms { rooms_of levels.new ≡ rooms_of levels.old }
{
    let mut node = leaf;
    for level in levels.iter_mut() {
        let count = level.len();
        level.push_reserved(node);
        if count % 2 == 0 {
            break;
        }
        node = inner(&level[count - 1], &node);
    }
}

// Cuts the levels to the first so many leaves.
pub(crate) fn cut_levels(levels: &mut [Level], base: u64, to: u64)
    ensures nodes { nodes_of levels.new ≡ cut_to base to (nodes_of levels.old) }
    ensures rooms { rooms_of levels.new ≡ rooms_of levels.old }
{
    let mut base = base;
    let mut to = to;
    for level in levels.iter_mut() {
        level.truncate(to.saturating_sub(base / 2 * 2) as usize);
        base /= 2;
        to /= 2;
    }
}

// The same nodes on levels of their own.
pub(crate) fn copy_levels(alloc: Global, levels: &[Level]) -> Result<Vec<Level>, AllocError>
    ensures { IfOk result (λ copied. nodes_of copied.items ≡ nodes_of levels.now) }
{
    let mut copied = Vec::with_capacity(alloc, levels.len())?;
    for level in levels {
        copied.push(Vec::from_slice(alloc, level)?)?;
    }
    Ok(copied)
}

// The last of the first `size` nodes of a level, and the incomplete one after it, in one node.
fn tail_over(level: &Level, base: u64, size: u64, tail: Option<Digest>) -> Option<Digest>
    requires from_base { base ≤ size }
    requires within { size ≤ vec_len level.now + base / 2 * 2 }
    ensures { result ≡ next_tail level.now.items base size tail }
{
    if size % 2 == 0 {
        return tail;
    }
    let node = &level[(size - 1 - base / 2 * 2) as usize];
    Some(match tail {
        None => *node,
        Some(tail) => inner(node, &tail),
    })
}

// The root of the first `size` leaves; none of no leaf.
pub(crate) fn root_of_levels(levels: &[Level], base: u64, size: u64) -> Option<Digest>
    requires from_base { base ≤ size }
    requires within { HoldFirst base size (nodes_of levels.now) }
    ensures { result ≡ tail_of (nodes_of levels.now) base size None }
{
    let mut base = base;
    let mut size = size;
    let mut tail = None;
    for level in levels {
        tail = tail_over(level, base, size, tail);
        base /= 2;
        size /= 2;
    }
    tail
}

// The step from the node at this place, counted from 0; none from a last node without a neighbour.
fn step_from(level: &Level, base: u64, size: u64, place: u64, tail: Option<Digest>) -> Option<Step>
    requires from_base { base ≤ place }
    requires inside { place ≤ size }
    requires within { size ≤ vec_len level.now + base / 2 * 2 }
    ensures { result ≡ step_at level.now.items base size place tail }
{
    let first = base / 2 * 2;
    if place % 2 == 1 {
        return Some(Step::Left(level[(place - 1 - first) as usize]));
    }
    if place + 1 < size {
        return Some(Step::Right(level[(place + 1 - first) as usize]));
    }
    if place + 1 > size {
        return None;
    }
    match tail {
        None => None,
        Some(tail) => Some(Step::Right(tail)),
    }
}

// The steps from the leaf at this place, counted from 0, to the root of the first `size` leaves.
pub(crate) fn steps_from(
    alloc: Global,
    levels: &[Level],
    base: u64,
    size: u64,
    place: u64,
) -> Result<Vec<Step>, AllocError>
    requires from_base { base ≤ place }
    requires inside { place ≤ size }
    requires within { HoldFirst base size (nodes_of levels.now) }
    ensures { IfOk result (λ steps.
        steps.items ≡ steps_of (nodes_of levels.now) base size place None) }
{
    let mut base = base;
    let mut size = size;
    let mut place = place;
    let mut tail = None;
    let mut steps = Vec::new(alloc);
    for level in levels {
        if let Some(step) = step_from(level, base, size, place, tail) {
            steps.push(step)?;
        }
        tail = tail_over(level, base, size, tail);
        base /= 2;
        size /= 2;
        place /= 2;
    }
    Ok(steps)
}

// The peaks of the first `size` leaves, greatest first.
pub(crate) fn peaks_of_levels(
    alloc: Global,
    levels: &[Level],
    base: u64,
    size: u64,
) -> Result<Vec<Digest>, AllocError>
    requires from_base { base ≤ size }
    requires within { HoldFirst base size (nodes_of levels.now) }
    ensures { IfOk result (λ peaks. peaks.items ≡ level_peaks (nodes_of levels.now) base size) }
{
    let mut base = base;
    let mut size = size;
    let mut peaks = Vec::new(alloc);
    for level in levels {
        if size % 2 == 1 {
            peaks.push(level[(size - 1 - base / 2 * 2) as usize])?;
        }
        base /= 2;
        size /= 2;
    }
    peaks.reverse();
    Ok(peaks)
}
