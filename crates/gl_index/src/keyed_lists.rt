//! A list for each identifier.

ghost use Rattle.std.specs.Prelude.{◌≡◌, ℕ, ◌<◌, ◌≤◌, ◌++◌, ◌∷◌, List, [], false, nat_le, filter, vec_len, IfOk, OnOk};
ghost use Rattle.std.specs.List.{position};
ghost use Rattle.std.specs.List.Sorted.{IsPartitionedBy};
ghost use Rattle.gl_base.specs.Bytes.{same_bytes};
ghost use Rattle.gl_index.specs.Lists.{lists_of, list_at};
ghost use Rattle.gl_index.specs.KeyedLists.{place_of, list_on, HasRoomOn};

use crate::lists::{AtSeqno, copy_lists, cut_lists, list_at, push_at, reserve_at};
use std::alloc::{AllocError, Global};

/// For each identifier a list, empty where it was never named.
#[derive(Drop)]
pub struct KeyedLists<T: Drop> {
    /// The identifiers that were named, in that order.
    pub ids: Vec<[u8; 32]>,
    /// The list of each of these.
    pub lists: Vec<Vec<T>>,
}

/// The place of an identifier among these, if it is one of them.
fn position_of(ids: &[[u8; 32]], id: &[u8; 32]) -> Option<usize>
    ensures { result ≡ position (same_bytes id.now) ids.now }
{
    ids.iter().position(|other| id == other)
}

/// The place of an identifier among these, their number where it isn't one of them.
fn place_of(ids: &[[u8; 32]], id: &[u8; 32]) -> usize
    ensures { result ≡ place_of ids.now id.now }
{
    position_of(ids, id).unwrap_or(ids.len())
}

impl<T: Drop> KeyedLists<T> {
    /// No identifier yet.
    pub fn new(alloc: Global) -> Self
        ensures empty { (id : List ℕ) → list_on result id ≡ [] }
        ensures within { vec_len result.lists ≤ vec_len result.ids }
    {
        KeyedLists {
            ids: Vec::new(alloc),
            lists: Vec::new(alloc),
        }
    }

    /// The list of an identifier.
    pub fn on(&self, id: &[u8; 32]) -> &[T]
        ensures { result.now ≡ list_on self.now id.now }
    {
        list_at(&self.lists, place_of(&self.ids, id))
    }

    /// The place of an identifier, which gets one where it has none.
    fn place_for(&mut self, id: &[u8; 32]) -> Result<usize, AllocError>
        requires { vec_len self.old.lists ≤ vec_len self.old.ids }
        ensures place { IfOk result (λ place. place ≡ place_of self.new.ids.items id.now) }
        ensures known { IfOk result (λ place. place < vec_len self.new.ids) }
        ensures within { vec_len self.new.lists ≤ vec_len self.new.ids }
        ensures lists { self.new.lists ≡ self.old.lists }
        ensures same { (other : List ℕ) → list_on self.new other ≡ list_on self.old other }
    {
        let place = place_of(&self.ids, id);
        if place < self.ids.len() {
            return Ok(place);
        }
        self.ids.push(*id)?;
        Ok(place)
    }

    /// Makes room for one more in the list of an identifier.
    pub fn reserve(&mut self, alloc: Global, id: &[u8; 32]) -> Result<(), AllocError>
        requires { vec_len self.old.lists ≤ vec_len self.old.ids }
        ensures same { (id : List ℕ) → list_on self.new id ≡ list_on self.old id }
        ensures within { vec_len self.new.lists ≤ vec_len self.new.ids }
        ensures room { OnOk result (HasRoomOn self.new id.now) }
    {
        let place = self.place_for(id)?;
        reserve_at(alloc, &mut self.lists, place)
    }

    /// Adds to the list of an identifier, which has room.
    pub fn push(&mut self, id: &[u8; 32], item: T)
        requires { HasRoomOn self.old id.now }
        ensures more { list_on self.new id.now ≡ list_on self.old id.now ++ item ∷ [] }
        ensures others { (other : List ℕ) → same_bytes id.now other ≡ false →
            list_on self.new other ≡ list_on self.old other }
        ensures known { vec_len self.new.lists ≡ vec_len self.old.lists }
        ensures ids { self.new.ids ≡ self.old.ids }
    {
        let place = place_of(&self.ids, id);
        push_at(&mut self.lists, place, item);
    }
}

impl<T: Copy + Drop> KeyedLists<T> {
    /// The same once more, in memory of its own.
    pub fn copy(&self, alloc: Global) -> Result<Self, AllocError>
        ensures { IfOk result (λ copy. (copy.ids.items ≡ self.now.ids.items)
            × (lists_of copy.lists.items ≡ lists_of self.now.lists.items)) }
    {
        Ok(KeyedLists {
            ids: Vec::from_slice(alloc, &self.ids)?,
            lists: copy_lists(alloc, &self.lists)?,
        })
    }
}

impl<T: AtSeqno> KeyedLists<T> {
    /// Cuts each list back to what stands up to a seqno.
    pub fn cut(&mut self, to: u64)
        ensures cut { (id : List ℕ) →
            IsPartitionedBy (λ x. nat_le (T.seqno_at x) to) (list_on self.old id) →
            list_on self.new id
            ≡ filter (λ x. nat_le (T.seqno_at x) to) (list_on self.old id) }
        ensures known { vec_len self.new.lists ≡ vec_len self.old.lists }
        ensures ids { self.new.ids ≡ self.old.ids }
    {
        cut_lists(&mut self.lists, to);
    }
}
