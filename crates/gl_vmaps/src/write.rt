//! What an entry writes to the tables (CCF documentation, "Key-Value Store").

ghost use Rattle.std.specs.Prelude.{◌≡◌, ◌<◌, ◌≤◌, IsTrue, OnOk, OnErr, length, slice_set};
ghost use Rattle.std.specs.List.{insert, list_all};
ghost use Rattle.std.specs.Result.{MatchResult};
ghost use Rattle.gl_vmaps.specs.Writes.{is_write, with_write};

use crate::name::{Key, MapName, Value};
use std::alloc::{AllocError, Global};
use std::cmp::Ordering;
use std::marker::Model;

/// A row set to a value, or removed.
#[derive(Debug, Drop)]
pub struct Write {
    /// The map that holds the row.
    pub map: MapName,
    /// The row's key in that map.
    pub key: Key,
    /// The new value. `None` removes the row.
    pub value: Option<Value>,
}

impl Write {
    ghost use Rattle.std.specs.Prelude.{◌≡◌, IsTrue, IfOk};
    ghost use Rattle.gl_vmaps.specs.Versions.{is_to_map};
    ghost use Rattle.gl_vmaps.specs.Writes.{row_order, is_write};

    /// The same write in memory of its own. Fails only where memory runs out.
    pub fn copy(&self, alloc: Global) -> Result<Self, AllocError>
        ensures { IfOk result (λ write. write ≡ self.now) }
    {
        let value = match &self.value {
            None => None,
            Some(value) => Some(value.copy(alloc)?),
        };
        Ok(Write {
            map: self.map.copy(alloc)?,
            key: self.key.copy(alloc)?,
            value,
        })
    }

    /// Whether the write is to this map.
    pub fn is_to_map(&self, map: &[u8]) -> bool
        ensures { result ≡ is_to_map map.now self.now }
    {
        map == self.map.as_slice()
    }

    /// How the row of this map and key stands to the row of the write, by map, then by key.
    fn order_of(&self, map: &[u8], key: &[u8]) -> Ordering
        ensures { result ≡ row_order map.now key.now self.now }
    {
        map.cmp(self.map.as_slice())
            .then(key.cmp(self.key.as_slice()))
    }

    /// Whether the map, the key and the value are within their limits, as they always are.
    fn is_within(&self) -> bool
        ensures value { result ≡ is_write self.now }
        ensures always { IsTrue result }
    {
        MapName::is_valid(self.map.as_slice())
            && Key::is_valid(self.key.as_slice())
            && self
                .value
                .as_ref()
                .is_none_or(|value| Value::is_valid(value.as_slice()))
    }
}

/// The writes of one entry. They ascend strictly by map, then key, in byte order, so that each row
/// is written once.
#[derive(Debug, Drop)]
pub struct Writes {
    items: Vec<Write>,
}

impl Model for Writes {
    ghost use Rattle.std.specs.Prelude.{List, IsTrue, ◌&&◌};
    ghost use Rattle.std.specs.List.{list_all};
    ghost use Rattle.gl_vmaps.specs.Writes.{is_ordered, is_write};
    ghost use Rattle.gl_vmaps.specs.declared.write.Write.{Write};

    ghost Value = { List Write };

    ghost view = { λ w. w.items.items };

    ghost invariant = { λ w. IsTrue (is_ordered w.items.items && list_all is_write w.items.items) };
}

impl Writes {
    ghost use Rattle.std.specs.Prelude.{◌≡◌, [], IsTrue, IfOk, OnOk, OnErr};
    ghost use Rattle.std.specs.List.{AllByRecursion};
    ghost use Rattle.gl_vmaps.specs.Writes.{is_ordered, is_write, with_write};

    /// No writes.
    pub fn new(alloc: Global) -> Self
        ensures { result ≡ [] }
    {
        Writes {
            items: Vec::new(alloc),
        }
    }

    /// Writes that are in order. Takes no memory.
    pub fn of(items: Vec<Write>) -> Self
        requires { IsTrue (is_ordered items.items) }
        ensures { result ≡ items.items }
    {
        prove!(are_within(&items));
        Writes { items }
    }

    /// The same writes in memory of their own. Fails only where memory runs out.
    pub fn copy(&self, alloc: Global) -> Result<Self, AllocError>
        ensures { IfOk result (λ writes. writes ≡ self.now) }
    {
        let mut items = Vec::new(alloc);
        for write in &self.items {
            items.push(write.copy(alloc)?)?;
        }
        Ok(Writes { items })
    }

    /// The writes, in their order.
    pub fn as_slice(&self) -> &[Write]
        ensures value { result.now ≡ self.now }
        ensures ordered { IsTrue (is_ordered self.now) }
        ensures limits { AllByRecursion (λ write. IsTrue (is_write write)) self.now }
    {
        &self.items
    }

    /// Adds a write at its place. It takes the place of an earlier one to the same row. Running out
    /// of memory leaves the set as it was.
    pub fn put(&mut self, write: Write) -> Result<(), AllocError>
        ensures ok { OnOk result (self.new ≡ with_write self.old write) }
        ensures err { OnErr result (self.new ≡ self.old) }
    {
        prove!(write.is_within());
        put_into(&mut self.items, write)
    }
}

/// Adds a write to writes that are in order. Running out of memory leaves them as they were.
fn put_into(items: &mut Vec<Write>, write: Write) -> Result<(), AllocError>
    ensures ok { OnOk result (items.new.items ≡ with_write items.old.items write) }
    ensures err { OnErr result (items.new.items ≡ items.old.items) }
{
    // most sets have one write
    if items.is_empty() {
        items.reserve_exact(1)?;
    }
    match place_of(items, &write) {
        Ok(place) => items[place] = write,
        Err(place) => items.insert(place, write)?,
    }
    Ok(())
}

/// The place of the write to the same row, or else the one at which the write belongs.
fn place_of(items: &[Write], write: &Write) -> Result<usize, usize>
    ensures within { MatchResult result
        (λ place. place < length items.now) (λ place. place ≤ length items.now) }
    ensures put { MatchResult result
        (λ place. with_write items.now write.now ≡ slice_set items.now place write.now)
        (λ place. with_write items.now write.now ≡ insert items.now place write.now) }
{
    for (place, there) in items.iter().enumerate() {
        match there.order_of(write.map.as_slice(), write.key.as_slice()) {
            Ordering::Less => return Err(place),
            Ordering::Equal => return Ok(place),
            Ordering::Greater => {}
        }
    }
    Err(items.len())
}

/// Whether all writes are within the limits, as they always are.
fn are_within(items: &[Write]) -> bool
    ensures value { result ≡ list_all is_write items.now }
    ensures always { IsTrue result }
{
    items.iter().all(|write| write.is_within())
}
