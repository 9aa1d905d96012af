//! What an operation of a request sees.

ghost use Rattle.std.specs.Prelude.{◌≡◌, ◌≤◌, length, IsTrue, IfSome};
ghost use Rattle.std.specs.Option.{option_copied};
ghost use Rattle.gl_vmaps.specs.Writes.{is_ordered};
ghost use Rattle.gl_vmaps.specs.Name.{is_value};
ghost use Rattle.gl_vmaps.specs.Versions.{is_to_row};
ghost use Rattle.gl_tx.specs.Sees.{write_to};

use crate::lookup::Lookup;
use gl_vmaps::{Write, Writes};
use std::alloc::{AllocError, Global};

/// What an operation of a request sees: what stood before the request, after what its earlier
/// operations wrote.
#[derive(Drop)]
pub struct Overlay<'a, L: Lookup> {
    /// What stood before the request. It stays as it is.
    pub base: &'a L,
    /// The last write to each row that the earlier operations wrote.
    pub writes: Writes,
    ghost ordered: { IsTrue (is_ordered writes) },
    ghost few: { length writes ≤ 64 },
}

impl<'a, L: Lookup> Overlay<'a, L> {
    ghost use Rattle.std.specs.Prelude.{◌+◌, ◌<◌, [], is_some, OnOk, OnErr};
    ghost use Rattle.gl_vmaps.specs.Writes.{with_write};
    ghost use Rattle.gl_tx.specs.Sees.{has_key, seen_after};
    ghost use Rattle.gl_vmaps.specs.Growth.{gains, loses};

    /// What the first operation of a request sees: nothing is written yet. Takes no memory.
    pub fn new(alloc: Global, base: &'a L) -> Self
        ensures base { result.base.now ≡ base.now }
        ensures writes { result.writes ≡ [] }
    {
        Overlay {
            base,
            writes: Writes::new(alloc),
        }
    }

    /// The value of a key in a map, if the map has that key.
    pub fn get(&self, map: &[u8], key: &[u8]) -> Option<&[u8]>
        ensures value { let sees = seen_after (L.sees self.now.base.now) self.now.writes in
            option_copied result ≡ sees.value map.now key.now }
        ensures limit { IfSome result (λ value. IsTrue (is_value value.now)) }
    {
        match write_to(self.writes.as_slice(), map, key) {
            Some(write) => written_value(write),
            None => self.base.get(map, key),
        }
    }

    /// Whether an earlier operation set the row or removed it.
    pub fn wrote(&self, map: &[u8], key: &[u8]) -> bool
        ensures { result ≡ is_some (write_to map.now key.now self.now.writes) }
    {
        write_to(self.writes.as_slice(), map, key).is_some()
    }

    /// Whether the map has the key.
    pub fn has(&self, map: &[u8], key: &[u8]) -> bool
        ensures { let sees = seen_after (L.sees self.now.base.now) self.now.writes in
            result ≡ has_key sees map.now key.now }
    {
        self.get(map, key).is_some()
    }

    /// Whether a write sets a row of the map that was absent.
    fn gains(&self, map: &[u8], write: &Write) -> bool
        ensures { result ≡ gains (L.sees self.now.base.now).value map.now write.now }
    {
        write.is_to_map(map) && write.value.is_some() && !self.had(map, write)
    }

    /// Whether a write removes a row of the map that was there.
    fn loses(&self, map: &[u8], write: &Write) -> bool
        ensures { result ≡ loses (L.sees self.now.base.now).value map.now write.now }
    {
        write.is_to_map(map) && write.value.is_none() && self.had(map, write)
    }

    /// Whether the map had the key of a write before the request.
    fn had(&self, map: &[u8], write: &Write) -> bool
        ensures { result ≡ has_key (L.sees self.now.base.now) map.now write.now.key }
    {
        self.base.get(map, write.key.as_slice()).is_some()
    }

    /// The number of keys that the map has.
    pub fn size(&self, map: &[u8]) -> u64
        ensures { let sees = seen_after (L.sees self.now.base.now) self.now.writes in
            result ≡ sees.size map.now }
    {
        let writes = self.writes.as_slice();
        let gained = writes.iter().filter(|write| self.gains(map, write)).count();
        let lost = writes.iter().filter(|write| self.loses(map, write)).count();
        (self.base.size(map) + gained as u64).saturating_sub(lost as u64)
    }

    /// Writes a row, for the operations that come next. Running out of memory leaves all as it was.
    pub fn put(&mut self, write: Write) -> Result<(), AllocError>
        requires { length self.old.writes < 64 }
        ensures ok { OnOk result (self.new.writes ≡ with_write self.old.writes write) }
        ensures longer { OnOk result (length self.new.writes ≤ length self.old.writes + 1) }
        ensures err { OnErr result (self.new.writes ≡ self.old.writes) }
        ensures same { self.new.base.now ≡ self.old.base.now }
    {
        self.writes.put(write)
    }
}

/// Whether a write is to a row.
fn is_to_row(write: &Write, map: &[u8], key: &[u8]) -> bool
    ensures { result ≡ is_to_row map.now key.now write.now }
{
    map == write.map.as_slice() && key == write.key.as_slice()
}

/// The write to a row, if there is one.
fn write_to<'a>(writes: &'a [Write], map: &[u8], key: &[u8]) -> Option<&'a Write>
    ensures { option_copied result ≡ write_to map.now key.now writes.now }
{
    writes.iter().find(|write| is_to_row(write, map, key))
}

/// The value that a write sets its row to, if it sets it.
fn written_value(write: &Write) -> Option<&[u8]>
    ensures value { option_copied result ≡ write.now.value }
    ensures limit { IfSome result (λ value. IsTrue (is_value value.now)) }
{
    write.value.as_ref().map(|value| value.as_slice())
}
