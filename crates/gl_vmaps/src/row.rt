//! Rows as they stand, each with its value: what a snapshot has of the tables.

ghost use Rattle.std.specs.Prelude.{◌≡◌, List, [], ◌∷◌, ◌++◌, IsTrue, OnOk};
ghost use Rattle.gl_vmaps.specs.Taking.{took_nothing, took_further};
ghost use Rattle.gl_vmaps.specs.Name.{is_map_name, is_key, is_value};
ghost use Rattle.gl_vmaps.specs.declared.row.Row.{Row};

use crate::name::{Key, MapName, Value};
use std::alloc::{AllocError, Global};
use std::marker::Model;

/// A row of a map, with its value.
#[derive(Debug, Drop)]
pub struct Row {
    /// The map that holds the row.
    pub map: MapName,
    /// The row's key in that map.
    pub key: Key,
    /// The row's value.
    pub value: Value,
}

/// Where rows go, one after another.
pub trait RowSink {
    // The first, after it took these rows in order, is the second.
    ghost took: { Self → List Row → Self → Type 0 };

    /// Takes a row after those so far.
    fn put(&mut self, map: &[u8], key: &[u8], value: &[u8]) -> Result<(), AllocError>
        requires map { IsTrue (is_map_name map.now) }
        requires key { IsTrue (is_key key.now) }
        requires value { IsTrue (is_value value.now) }
        ensures { OnOk result (took self.old
            (record { map = map.now; key = key.now; value = value.now } ∷ []) self.new) };

    // Where it took nothing it stays, and what it took in two parts it took.
    ghost nothing: { (s : Self) → took s [] s };

    ghost further: { (s t u : Self) (rows more : List Row) → took s rows t → took t more u →
        took s (rows ++ more) u };
}

/// Rows that are kept as they are put, each in memory of its own.
#[derive(Debug, Drop)]
pub(crate) struct KeptRows {
    pub(crate) alloc: Global,
    pub(crate) items: Vec<Row>,
}

impl RowSink for KeptRows {
    ghost took = { λ old rows new. new.items.items ≡ old.items.items ++ rows };

    ghost nothing = { λ s. took_nothing s.items.items };

    ghost further = { λ s t u rows more first then.
        took_further s.items.items t.items.items u.items.items rows more first then };

    fn put(&mut self, map: &[u8], key: &[u8], value: &[u8]) -> Result<(), AllocError> {
        self.items.push(Row {
            map: MapName::from_slice(self.alloc, map)?,
            key: Key::from_slice(self.alloc, key)?,
            value: Value::from_slice(self.alloc, value)?,
        })?;
        Ok(())
    }
}

/// Rows that ascend strictly by map, then key, in byte order.
#[derive(Debug, Drop)]
pub struct Rows {
    items: Vec<Row>,
}

impl Model for Rows {
    ghost use Rattle.std.specs.Prelude.{List, IsTrue};
    ghost use Rattle.gl_vmaps.specs.Rows.{are_ascending};
    ghost use Rattle.gl_vmaps.specs.declared.row.Row.{Row};

    ghost Value = { List Row };

    ghost view = { λ r. r.items.items };

    ghost invariant = { λ r. IsTrue (are_ascending r.items.items) };
}

impl Rows {
    ghost use Rattle.std.specs.Prelude.{◌≡◌, [], IsTrue};
    ghost use Rattle.gl_vmaps.specs.Rows.{are_ascending};

    /// No rows.
    pub fn new(alloc: Global) -> Self
        ensures { result ≡ [] }
    {
        Rows {
            items: Vec::new(alloc),
        }
    }

    /// Rows that are in order. Takes no memory.
    pub fn of(items: Vec<Row>) -> Self
        requires { IsTrue (are_ascending items.items) }
        ensures { result ≡ items.items }
    {
        Rows { items }
    }

    /// The rows, in their order.
    pub fn as_slice(&self) -> &[Row]
        ensures value { result.now ≡ self.now }
        ensures ascending { IsTrue (are_ascending self.now) }
    {
        &self.items
    }

    /// The rows, in their order.
    pub fn into_vec(self) -> Vec<Row>
        ensures value { result.items ≡ self }
        ensures ascending { IsTrue (are_ascending self) }
    {
        let Rows { items } = self;
        items
    }
}
