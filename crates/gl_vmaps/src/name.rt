//! The names of maps, keys and values, within their limits (CCF documentation, "Key-Value Store").

ghost use Rattle.std.specs.Prelude.{◌≡◌, ◌↔◌, IsTrue, IsSome, IfSome, IfOk};
ghost use Rattle.std.specs.Char.{is_ascii_graphic};
ghost use Rattle.std.specs.List.{list_all};
ghost use Rattle.gl_vmaps.specs.Name.{is_map_name, is_key, is_value};

use std::alloc::{AllocError, Global};
use std::marker::Model;

/// The greatest length of a map's name, in bytes.
pub const MAP_NAME_LIMIT: usize = 128;

/// The greatest length of a key, in bytes.
pub const KEY_LIMIT: usize = 1024;

/// The greatest length of a value, in bytes.
pub const VALUE_LIMIT: usize = 65536;

fn are_printable(bytes: &[u8]) -> bool
    ensures { result ≡ list_all is_ascii_graphic bytes.now }
{
    bytes.iter().all(|byte| byte.is_ascii_graphic())
}

/// The name of a map: 1 to 128 bytes from 21 to 7e (hexadecimal), which are the printable ones of
/// ASCII but for the space. Names that begin with `public:` are public, and those that begin with
/// `public:ccf.gov.` or `public:ccf.internal.` belong to the service.
#[derive(Debug, Drop)]
pub struct MapName {
    bytes: Vec<u8>,
}

impl Model for MapName {
    ghost use Rattle.std.specs.Prelude.{ℕ, List, IsTrue};
    ghost use Rattle.gl_vmaps.specs.Name.{is_map_name};

    ghost Value = { List ℕ };

    ghost view = { λ n. n.bytes.items };

    ghost invariant = { λ n. IsTrue (is_map_name n.bytes.items) };
}

impl MapName {
    /// Whether the bytes are a map's name.
    pub fn is_valid(bytes: &[u8]) -> bool
        ensures { result ≡ is_map_name bytes.now }
    {
        1 <= bytes.len() && bytes.len() <= MAP_NAME_LIMIT && are_printable(bytes)
    }

    /// The name of these bytes, or `None` where they are none.
    pub fn new(bytes: Vec<u8>) -> Option<Self>
        ensures valid { IsSome result ↔ IsTrue (is_map_name bytes.items) }
        ensures value { IfSome result (λ name. name ≡ bytes.items) }
    {
        if Self::is_valid(&bytes) {
            Some(MapName { bytes })
        } else {
            None
        }
    }

    /// The name of bytes that are known to be one. Takes no memory.
    pub fn of(bytes: Vec<u8>) -> Self
        requires { IsTrue (is_map_name bytes.items) }
        ensures { result ≡ bytes.items }
    {
        MapName { bytes }
    }

    /// The same as `of`, in memory of its own. Fails only where memory runs out.
    pub fn from_slice(alloc: Global, bytes: &[u8]) -> Result<Self, AllocError>
        requires { IsTrue (is_map_name bytes.now) }
        ensures { IfOk result (λ name. name ≡ bytes.now) }
    {
        Ok(MapName {
            bytes: Vec::from_slice(alloc, bytes)?,
        })
    }

    /// The same bytes in memory of their own. Fails only where memory runs out.
    pub fn copy(&self, alloc: Global) -> Result<Self, AllocError>
        ensures { IfOk result (λ name. name ≡ self.now) }
    {
        Ok(MapName {
            bytes: Vec::from_slice(alloc, &self.bytes)?,
        })
    }

    /// The bytes, in order.
    pub fn as_slice(&self) -> &[u8]
        ensures value { result.now ≡ self.now }
        ensures valid { IsTrue (is_map_name self.now) }
    {
        &self.bytes
    }
}

/// The key of a row: 1 to 1,024 bytes.
#[derive(Debug, Drop)]
pub struct Key {
    bytes: Vec<u8>,
}

impl Model for Key {
    ghost use Rattle.std.specs.Prelude.{ℕ, List, IsTrue};
    ghost use Rattle.gl_vmaps.specs.Name.{is_key};

    ghost Value = { List ℕ };

    ghost view = { λ k. k.bytes.items };

    ghost invariant = { λ k. IsTrue (is_key k.bytes.items) };
}

impl Key {
    /// Whether the bytes are a key.
    pub fn is_valid(bytes: &[u8]) -> bool
        ensures { result ≡ is_key bytes.now }
    {
        1 <= bytes.len() && bytes.len() <= KEY_LIMIT
    }

    /// The key of these bytes, or `None` where they are none.
    pub fn new(bytes: Vec<u8>) -> Option<Self>
        ensures valid { IsSome result ↔ IsTrue (is_key bytes.items) }
        ensures value { IfSome result (λ key. key ≡ bytes.items) }
    {
        if Self::is_valid(&bytes) {
            Some(Key { bytes })
        } else {
            None
        }
    }

    /// The key of bytes that are known to be one. Takes no memory.
    pub fn of(bytes: Vec<u8>) -> Self
        requires { IsTrue (is_key bytes.items) }
        ensures { result ≡ bytes.items }
    {
        Key { bytes }
    }

    /// The same as `of`, in memory of its own. Fails only where memory runs out.
    pub fn from_slice(alloc: Global, bytes: &[u8]) -> Result<Self, AllocError>
        requires { IsTrue (is_key bytes.now) }
        ensures { IfOk result (λ key. key ≡ bytes.now) }
    {
        Ok(Key {
            bytes: Vec::from_slice(alloc, bytes)?,
        })
    }

    /// The same bytes in memory of their own. Fails only where memory runs out.
    pub fn copy(&self, alloc: Global) -> Result<Self, AllocError>
        ensures { IfOk result (λ key. key ≡ self.now) }
    {
        Ok(Key {
            bytes: Vec::from_slice(alloc, &self.bytes)?,
        })
    }

    /// The bytes, in order.
    pub fn as_slice(&self) -> &[u8]
        ensures value { result.now ≡ self.now }
        ensures valid { IsTrue (is_key self.now) }
    {
        &self.bytes
    }
}

/// The value of a row: 0 to 65,536 bytes.
#[derive(Debug, Drop)]
pub struct Value {
    bytes: Vec<u8>,
}

impl Model for Value {
    ghost use Rattle.std.specs.Prelude.{ℕ, List, IsTrue};
    ghost use Rattle.gl_vmaps.specs.Name.{is_value};

    ghost Value = { List ℕ };

    ghost view = { λ v. v.bytes.items };

    ghost invariant = { λ v. IsTrue (is_value v.bytes.items) };
}

impl Value {
    /// Whether the bytes are a value.
    pub fn is_valid(bytes: &[u8]) -> bool
        ensures { result ≡ is_value bytes.now }
    {
        bytes.len() <= VALUE_LIMIT
    }

    /// The value of these bytes, or `None` where they are none.
    pub fn new(bytes: Vec<u8>) -> Option<Self>
        ensures valid { IsSome result ↔ IsTrue (is_value bytes.items) }
        ensures value { IfSome result (λ value. value ≡ bytes.items) }
    {
        if Self::is_valid(&bytes) {
            Some(Value { bytes })
        } else {
            None
        }
    }

    /// The value of bytes that are known to be one. Takes no memory.
    pub fn of(bytes: Vec<u8>) -> Self
        requires { IsTrue (is_value bytes.items) }
        ensures { result ≡ bytes.items }
    {
        Value { bytes }
    }

    /// The same as `of`, in memory of its own. Fails only where memory runs out.
    pub fn from_slice(alloc: Global, bytes: &[u8]) -> Result<Self, AllocError>
        requires { IsTrue (is_value bytes.now) }
        ensures { IfOk result (λ value. value ≡ bytes.now) }
    {
        Ok(Value {
            bytes: Vec::from_slice(alloc, bytes)?,
        })
    }

    /// The same bytes in memory of their own. Fails only where memory runs out.
    pub fn copy(&self, alloc: Global) -> Result<Self, AllocError>
        ensures { IfOk result (λ value. value ≡ self.now) }
    {
        Ok(Value {
            bytes: Vec::from_slice(alloc, &self.bytes)?,
        })
    }

    /// The bytes, in order.
    pub fn as_slice(&self) -> &[u8]
        ensures value { result.now ≡ self.now }
        ensures valid { IsTrue (is_value self.now) }
    {
        &self.bytes
    }
}
