//! What is noted of the rows and maps that a request reads.

ghost use Rattle.gl_attempt.specs.Asks.{sees_by};

use gl_tx::Lookup;
use gl_vmaps::{Key, MapName, Value};
use std::alloc::{AllocError, Global};
use std::marker::Model;

/// What a run asks for.
#[derive(Debug, Drop)]
pub enum Ask {
    /// The value of a key in a map.
    Row { map: MapName, key: Key },
    /// The number of a map's keys.
    Map { map: MapName },
}

/// What was found where a run asked.
#[derive(Debug, Drop)]
pub enum Note {
    /// The value of a key in a map, or that it has none.
    Row {
        map: MapName,
        key: Key,
        value: Option<Value>,
    },
    /// The number of a map's keys.
    Map {
        map: MapName,
        size: u64,
    },
}

impl Note {
    ghost use Rattle.std.specs.Prelude.{◌≡◌, IfOk};
    ghost use Rattle.gl_attempt.specs.Asks.{is_of_row, is_of_map};

    /// The same note in memory of its own. Fails only where memory runs out.
    pub fn copy(&self, alloc: Global) -> Result<Self, AllocError>
        ensures { IfOk result (λ note. note ≡ self.now) }
    {
        match self {
            Note::Row { map, key, value } => {
                let value = match value {
                    None => None,
                    Some(value) => Some(value.copy(alloc)?),
                };
                Ok(Note::Row {
                    map: map.copy(alloc)?,
                    key: key.copy(alloc)?,
                    value,
                })
            }
            Note::Map { map, size } => Ok(Note::Map {
                map: map.copy(alloc)?,
                size: *size,
            }),
        }
    }

    fn is_of_row(&self, map: &[u8], key: &[u8]) -> bool
        ensures { result ≡ is_of_row map.now key.now self.now }
    {
        match self {
            Note::Row {
                map: of,
                key: at,
                ..
            } => map == of.as_slice() && key == at.as_slice(),
            Note::Map { .. } => false,
        }
    }

    fn is_of_map(&self, map: &[u8]) -> bool
        ensures { result ≡ is_of_map map.now self.now }
    {
        match self {
            Note::Row { .. } => false,
            Note::Map { map: of, .. } => map == of.as_slice(),
        }
    }
}

impl Ask {
    ghost use Rattle.std.specs.Prelude.{◌≡◌, IfOk, IsTrue};
    ghost use Rattle.gl_attempt.specs.Asks.{note_of, is_note};

    /// What is found where this is asked for.
    pub(crate) fn note<L: Lookup>(self, alloc: Global, found_in: &L) -> Result<Note, AllocError>
        ensures value { IfOk result (λ note. note ≡ note_of (L.sees found_in.now) self) }
        ensures limit { IfOk result (λ note. IsTrue (is_note note)) }
    {
        match self {
            Ask::Row { map, key } => {
                let value = match found_in.get(map.as_slice(), key.as_slice()) {
                    None => None,
                    Some(value) => Some(Value::of(Vec::from_slice(alloc, value)?)),
                };
                Ok(Note::Row { map, key, value })
            }
            Ask::Map { map } => {
                let size = found_in.size(map.as_slice());
                Ok(Note::Map { map, size })
            }
        }
    }
}

/// What a request read, each row and map once, in the order in which it was noted.
#[derive(Debug, Drop)]
pub struct Reads {
    notes: Vec<Note>,
}

impl Model for Reads {
    ghost use Rattle.std.specs.Prelude.{List, IsTrue};
    ghost use Rattle.std.specs.List.{list_all};
    ghost use Rattle.gl_attempt.specs.Asks.{is_note};
    ghost use Rattle.gl_attempt.specs.declared.notes.Note.{Note};

    ghost Value = { List Note };

    ghost view = { λ r. r.notes.items };

    ghost invariant = { λ r. IsTrue (list_all is_note r.notes.items) };
}

impl Reads {
    ghost use Rattle.std.specs.Prelude.{◌≡◌, ◌∷◌, ◌++◌, [], IsTrue, IfOk, OnOk, OnErr};
    ghost use Rattle.std.specs.List.{list_all};
    ghost use Rattle.std.specs.Option.{option_copied};
    ghost use Rattle.gl_attempt.specs.Asks.{is_note, is_noted, note_on};
    ghost use Rattle.gl_attempt.specs.declared.notes.Ask.TheVariants as asks;

    /// Nothing read.
    pub fn new(alloc: Global) -> Self
        ensures { result ≡ [] }
    {
        Reads {
            notes: Vec::new(alloc),
        }
    }

    /// The notes, in their order.
    pub fn as_slice(&self) -> &[Note]
        ensures value { result.now ≡ self.now }
        ensures limits { IsTrue (list_all is_note self.now) }
    {
        &self.notes
    }

    /// The same notes in memory of their own. Fails only where memory runs out.
    pub fn copy(&self, alloc: Global) -> Result<Self, AllocError>
        ensures { IfOk result (λ reads. reads ≡ self.now) }
    {
        let mut notes = Vec::new(alloc);
        for note in &self.notes {
            notes.push(note.copy(alloc)?)?;
        }
        Ok(Reads { notes })
    }

    /// Adds a note. Running out of memory leaves the notes as they were.
    pub(crate) fn push(&mut self, note: Note) -> Result<(), AllocError>
        requires { IsTrue (is_note note) }
        ensures ok { OnOk result (self.new ≡ self.old ++ note ∷ []) }
        ensures err { OnErr result (self.new ≡ self.old) }
    {
        self.notes.push(note)?;
        Ok(())
    }

    /// The note of a row, if there is one.
    fn of_row(&self, map: &[u8], key: &[u8]) -> Option<&Note>
        ensures { option_copied result ≡ note_on self.now (asks.Row map.now key.now) }
    {
        self.notes.iter().find(|note| note.is_of_row(map, key))
    }

    /// The note of the number of a map's keys, if there is one.
    fn of_map(&self, map: &[u8]) -> Option<&Note>
        ensures { option_copied result ≡ note_on self.now (asks.Map map.now) }
    {
        self.notes.iter().find(|note| note.is_of_map(map))
    }

    /// Whether the value of a row is noted, or that it has none.
    pub(crate) fn has_row(&self, map: &[u8], key: &[u8]) -> bool
        ensures { result ≡ is_noted self.now (asks.Row map.now key.now) }
    {
        self.of_row(map, key).is_some()
    }

    /// Whether the number of a map's keys is noted.
    pub(crate) fn has_map(&self, map: &[u8]) -> bool
        ensures { result ≡ is_noted self.now (asks.Map map.now) }
    {
        self.of_map(map).is_some()
    }
}

impl Lookup for Reads {
    ghost sees = { sees_by };

    fn get(&self, map: &[u8], key: &[u8]) -> Option<&[u8]> {
        match self.of_row(map, key) {
            Some(Note::Row { value, .. }) => value.as_ref().map(|value| value.as_slice()),
            _ => None,
        }
    }

    fn size(&self, map: &[u8]) -> u64 {
        let _notes = self.as_slice();
        match self.of_map(map) {
            Some(Note::Map { size, .. }) => *size,
            _ => 0,
        }
    }
}
