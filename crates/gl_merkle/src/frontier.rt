//! The frontier: a growing list of leaves whose tree is kept.

use crate::Digest;
use crate::levels::{
    Level, copy_levels, cut_levels, make_levels, peaks_of_levels, push_node, reserve_levels,
    root_of_levels, steps_from,
};
use crate::tree::Step;
use std::alloc::{AllocError, Global};
use std::marker::Model;

/// A list of leaves and its Merkle tree.
///
/// It keeps the roots of all complete subtrees, so that a push hashes twice at most on average, a
/// root, a path and peaks hash a number of nodes that is logarithmic in the length, and a cut
/// hashes nothing. It may begin at a base: then the leaves below the base are known by their peaks
/// alone, which suffices for every root, and for every path of a leaf above the base.
///
/// The length is at most `2^64 - 1`; past it, as past the memory, there is no room.
#[derive(Drop)]
pub struct Frontier {
    alloc: Global,
    base: u64,
    peaks: Vec<Digest>,
    len: u64,
    // the length up to which the levels have room
    limit: u64,
    levels: Vec<Level>,
}

impl Model for Frontier {
    ghost use Rattle.std.specs.Prelude.{◌-◌};
    ghost use Rattle.gl_merkle.specs.Frontier.{Content, leaves_above, AreLevels};

    ghost Value = { Content };

    ghost view = { λ f. record {
      base = f.base;
      peaks = f.peaks.items;
      leaves = leaves_above f.base f.levels.items;
      spare = f.limit - f.len;
    } };

    ghost invariant = { λ f. AreLevels f.base f.peaks.items f.len f.limit f.levels.items };
}

impl Frontier {
    ghost use Rattle.std.specs.Prelude.{◌≡◌, ℕ, ◌+◌, ◌-◌, ◌<◌, ◌≤◌, [], ◌∷◌, ◌++◌, length, take, IfOk, OnOk, OnErr, IsOk, count_ones};
    ghost use Rattle.gl_merkle.specs.Tree.{root_of};
    ghost use Rattle.gl_merkle.specs.Path.{path_of};
    ghost use Rattle.gl_merkle.specs.Peaks.{peaks_of, peaks_over, root_of_peaks};
    ghost use Rattle.gl_merkle.specs.Frontier.{count_of, ForLeaves, HasLeaves, IsUnchanged};

    /// A frontier of no leaf.
    pub fn new(alloc: Global) -> Result<Self, AllocError>
        ensures base { IfOk result (λ f. f.base ≡ 0) }
        ensures peaks { IfOk result (λ f. f.peaks ≡ []) }
        ensures leaves { IfOk result (λ f. f.leaves ≡ []) }
    {
        Frontier::at_base(alloc, 0, &[])
    }

    /// A frontier of `len` leaves that are known by their peaks alone, greatest first.
    pub fn at_base(alloc: Global, len: u64, peaks: &[Digest]) -> Result<Self, AllocError>
        requires { length peaks.now ≡ count_ones len }
        ensures base { IfOk result (λ f. f.base ≡ len) }
        ensures peaks { IfOk result (λ f. f.peaks ≡ peaks.now) }
        ensures leaves { IfOk result (λ f. f.leaves ≡ []) }
    {
        Ok(Frontier {
            alloc,
            base: len,
            peaks: Vec::from_slice(alloc, peaks)?,
            len,
            limit: len,
            levels: make_levels(alloc, len, peaks)?,
        })
    }

    /// How many leaves there are, with those below the base.
    pub fn len(&self) -> u64
        ensures { result ≡ count_of self.now }
    {
        self.len
    }

    /// Makes room: the next `more` pushes take no memory. Where room lacks, as many leaves more as
    /// are held find it too, so that a reserve before each push costs no more than the pushes.
    pub fn reserve(&mut self, more: usize) -> Result<(), AllocError>
        ensures ok { OnOk result (more ≤ self.new.spare) }
        ensures kept { self.old.spare ≤ self.new.spare }
        ensures enough { more ≤ self.old.spare → IsOk result }
        ensures stays { IsUnchanged self.old self.new }
    {
        let Some(limit) = self.len.checked_add(more as u64) else {
            return Err(AllocError);
        };
        if limit > self.limit {
            let limit = limit.max(self.len.saturating_add(self.len - self.base));
            reserve_levels(&mut self.levels, self.base, limit)?;
            self.limit = limit;
        }
        Ok(())
    }

    // Makes room for one more leaf, and where there is none for 16 at least.
    fn make_room(&mut self) -> Result<(), AllocError>
        ensures ok { OnOk result (0 < self.new.spare) }
        ensures kept { self.old.spare ≤ self.new.spare }
        ensures enough { 0 < self.old.spare → IsOk result }
        ensures stays { IsUnchanged self.old self.new }
    {
        if self.len < self.limit {
            return Ok(());
        }
        self.reserve(16)
    }

    /// Adds a leaf at the end. While there is room this takes no memory.
    pub fn push(&mut self, leaf: Digest) -> Result<(), AllocError>
        ensures ok { OnOk result (HasLeaves self.old self.new (self.old.leaves ++ leaf ∷ [])) }
        ensures spare { OnOk result (self.old.spare ≤ self.new.spare + 1) }
        ensures room { 0 < self.old.spare → IsOk result }
        ensures err { OnErr result (IsUnchanged self.old self.new) }
    {
        self.make_room()?;
        push_node(&mut self.levels, leaf);
        self.len += 1;
        Ok(())
    }

    /// The root of the tree over all leaves. Over a base it follows from the base's peaks, whether
    /// or not any leaves have these.
    pub fn root(&self) -> Digest
        requires { 0 < count_of self.now }
        ensures root { ForLeaves self.now (λ leaves. result ≡ root_of leaves) }
        ensures over { result
            ≡ root_of_peaks (peaks_over self.now.base self.now.peaks self.now.leaves) }
    {
        root_of_levels(&self.levels, self.base, self.len).unwrap()
    }

    /// Cuts the list to its first `to` leaves. The room stays.
    pub fn cut(&mut self, to: u64)
        requires from_base { self.old.base ≤ to }
        requires within { to ≤ count_of self.old }
        ensures leaves { HasLeaves self.old self.new (take (to - self.old.base) self.old.leaves) }
        ensures spare { self.new.spare + to ≡ self.old.spare + count_of self.old }
    {
        cut_levels(&mut self.levels, self.base, to);
        self.len = to;
    }

    /// A frontier of its own, with the same base and leaves; of its room nothing is said.
    pub fn copy(&self) -> Result<Self, AllocError>
        ensures { IfOk result (IsUnchanged self.now) }
    {
        Ok(Frontier {
            alloc: self.alloc,
            base: self.base,
            peaks: Vec::from_slice(self.alloc, &self.peaks)?,
            len: self.len,
            limit: self.len,
            levels: copy_levels(self.alloc, &self.levels)?,
        })
    }

    /// The steps from the leaf at `index`, counted from 1, to the root of the first `size` leaves:
    /// the leaf's sibling first. The leaf stands above the base.
    pub fn path_of(&self, index: u64, size: u64) -> Result<Vec<Step>, AllocError>
        requires above_base { self.now.base < index }
        requires inside { index ≤ size }
        requires within { size ≤ count_of self.now }
        ensures { IfOk result (λ steps. ForLeaves self.now (λ leaves.
            steps.items ≡ path_of (take size leaves) index)) }
    {
        steps_from(self.alloc, &self.levels, self.base, size, index - 1)
    }

    /// The peaks of the first `size` leaves, greatest first: the roots of the complete subtrees, as
    /// many as `size` has ones in binary.
    pub fn peaks(&self, size: u64) -> Result<Vec<Digest>, AllocError>
        requires from_base { self.now.base ≤ size }
        requires within { size ≤ count_of self.now }
        ensures count { IfOk result (λ peaks. length peaks.items ≡ count_ones size) }
        ensures peaks { IfOk result (λ peaks. ForLeaves self.now (λ leaves.
            peaks.items ≡ peaks_of (take size leaves))) }
        ensures over { IfOk result (λ peaks. peaks.items ≡ peaks_over self.now.base self.now.peaks
            (take (size - self.now.base) self.now.leaves)) }
    {
        peaks_of_levels(self.alloc, &self.levels, self.base, size)
    }
}
