//! Fields read from the start of bytes.

ghost use Rattle.std.specs.Prelude.{◌≡◌, ◌⊎◌, ℕ, Bool, List, ◌∷◌, ◌+◌, ◌/◌, ◌^◌, ◌<◌, ◌≤◌, ◌++◌, length, position, Option, IsTrue, IfOk, IfErr, IsOkAnd, Ok};
ghost use Rattle.std.specs.Option.{option_copied};
ghost use Rattle.gl_base.specs.LittleEndian.{little_endian};
ghost use Rattle.gl_base.specs.Bytes.{are_bytes};
ghost use Rattle.gl_base.specs.Field.{IsWidth, field_encoding};
ghost use Rattle.gl_base.specs.Cut.{Unread, Gives, bytes_at, number_at, string_at, field_at, FitsField, FitsText, is_no_text, text_at};
ghost use Rattle.gl_base.specs.Code.{ended, flag_byte, flag_at};
ghost use Rattle.gl_base.specs.Row.{map_name_at, key_at, value_at, optional_value_at, map_name_bytes, key_bytes, value_bytes, optional_value_bytes, is_map_name_field, is_key_field, is_value_field, is_optional_value_field};

use crate::fault::{CodeFault, CutFault};
use crate::number::{u8_of, u16_of, u32_of, u48_of, u64_of};
use std::marker::Model;

const MAP_NAME_LIMIT: u64 = 128;

const KEY_LIMIT: u64 = 1024;

/// Bytes of which a prefix was read, field by field. A read that answers a fault leaves the cut as
/// it was. What is read is encoded so (`encoded`), and what is encoded so is read (`only`).
#[derive(Debug, Drop)]
pub struct Cut<'a> {
    rest: &'a [u8],
    at: usize,
}

impl<'a> Model for Cut<'a> {
    ghost Value = { Unread };

    ghost view = { λ c. record { at = c.at; bytes = c.rest.now } };

    ghost invariant = { λ c. c.at + length c.rest.now < 2 ^ 64 };
}

impl<'a> Cut<'a> {
    pub fn new(bytes: &'a [u8]) -> Cut<'a>
        ensures { result ≡ record { at = 0; bytes = bytes.now } }
    {
        Cut { rest: bytes, at: 0 }
    }

    /// A part of other bytes, of which the first stands at this place among all of them.
    pub fn new_at(bytes: &'a [u8], at: usize) -> Cut<'a>
        requires { at + length bytes.now < 2 ^ 64 }
        ensures { result ≡ record { at = at; bytes = bytes.now } }
    {
        Cut { rest: bytes, at }
    }

    /// A cut of its own of the same bytes, of which as much was read.
    pub fn copy(&self) -> Cut<'a>
        ensures { result ≡ self.now }
    {
        Cut {
            rest: self.rest,
            at: self.at,
        }
    }

    /// The place of the next byte, counted from the first of all.
    pub fn at(&self) -> usize
        ensures { result ≡ self.now.at }
    {
        self.at
    }

    /// The bytes that are still to be read.
    pub fn rest(&self) -> &'a [u8]
        ensures { result.now ≡ self.now.bytes }
    {
        self.rest
    }

    #[tactic(auto, unfolding(crate::specs::Cut::bytes_at))]
    fn chunk<const N: usize>(&mut self) -> Result<&'a [u8; N], CutFault>
        ensures { Gives (λ s. s.now) result self.old self.new (bytes_at N self.old) }
    {
        match self.rest.split_first_chunk::<N>() {
            Some((prefix, rest)) => {
                self.rest = rest;
                self.at += N;
                Ok(prefix)
            }
            None => Err(CutFault::Short {
                at: self.at + self.rest.len(),
            }),
        }
    }

    /// So many bytes, without a length.
    pub fn array<const N: usize>(&mut self) -> Result<&'a [u8; N], CutFault>
        ensures exact { Gives (λ s. s.now) result self.old self.new (bytes_at N self.old) }
        ensures encoded { IfOk result (λ s. self.old.bytes ≡ s.now ++ self.new.bytes) }
        ensures only { (xs rest : List ℕ) → length xs ≡ N → self.old.bytes ≡ xs ++ rest →
            IsOkAnd result (λ s. s.now ≡ xs) }
    {
        self.chunk::<N>()
    }
}

#[tactic(auto, using(crate::proofs::Numbers::number_from), unfolding(crate::specs::Cut::number_at))]
impl<'a> Cut<'a> {
    pub fn u8(&mut self) -> Result<u8, CutFault>
        ensures exact { Gives (λ n. n) result self.old self.new (number_at 1 self.old) }
        ensures encoded { IfOk result (λ n. self.old.bytes ≡ little_endian 1 n ++ self.new.bytes) }
        ensures only { (n : ℕ) (rest : List ℕ) → n < 2 ^ 8 →
            self.old.bytes ≡ little_endian 1 n ++ rest → result ≡ Ok n }
    {
        match self.chunk::<1>() {
            Ok(bytes) => Ok(u8_of(bytes)),
            Err(fault) => Err(fault),
        }
    }

    pub fn u16(&mut self) -> Result<u16, CutFault>
        ensures exact { Gives (λ n. n) result self.old self.new (number_at 2 self.old) }
        ensures encoded { IfOk result (λ n. self.old.bytes ≡ little_endian 2 n ++ self.new.bytes) }
        ensures only { (n : ℕ) (rest : List ℕ) → n < 2 ^ 16 →
            self.old.bytes ≡ little_endian 2 n ++ rest → result ≡ Ok n }
    {
        match self.chunk::<2>() {
            Ok(bytes) => Ok(u16_of(bytes)),
            Err(fault) => Err(fault),
        }
    }

    pub fn u32(&mut self) -> Result<u32, CutFault>
        ensures exact { Gives (λ n. n) result self.old self.new (number_at 4 self.old) }
        ensures encoded { IfOk result (λ n. self.old.bytes ≡ little_endian 4 n ++ self.new.bytes) }
        ensures only { (n : ℕ) (rest : List ℕ) → n < 2 ^ 32 →
            self.old.bytes ≡ little_endian 4 n ++ rest → result ≡ Ok n }
    {
        match self.chunk::<4>() {
            Ok(bytes) => Ok(u32_of(bytes)),
            Err(fault) => Err(fault),
        }
    }

    /// A number of six bytes.
    pub fn u48(&mut self) -> Result<u64, CutFault>
        ensures exact { Gives (λ n. n) result self.old self.new (number_at 6 self.old) }
        ensures encoded { IfOk result (λ n. self.old.bytes ≡ little_endian 6 n ++ self.new.bytes) }
        ensures only { (n : ℕ) (rest : List ℕ) → n < 2 ^ 48 →
            self.old.bytes ≡ little_endian 6 n ++ rest → result ≡ Ok n }
    {
        match self.chunk::<6>() {
            Ok(bytes) => Ok(u48_of(bytes)),
            Err(fault) => Err(fault),
        }
    }

    pub fn u64(&mut self) -> Result<u64, CutFault>
        ensures exact { Gives (λ n. n) result self.old self.new (number_at 8 self.old) }
        ensures encoded { IfOk result (λ n. self.old.bytes ≡ little_endian 8 n ++ self.new.bytes) }
        ensures only { (n : ℕ) (rest : List ℕ) → n < 2 ^ 64 →
            self.old.bytes ≡ little_endian 8 n ++ rest → result ≡ Ok n }
    {
        match self.chunk::<8>() {
            Ok(bytes) => Ok(u64_of(bytes)),
            Err(fault) => Err(fault),
        }
    }
}

impl<'a> Cut<'a> {
    #[tactic(auto, unfolding(crate::specs::Cut::bytes_at))]
    fn take(&mut self, count: u64) -> Result<&'a [u8], CutFault>
        ensures { Gives (λ s. s.now) result self.old self.new (bytes_at count self.old) }
    {
        if (self.rest.len() as u64) < count {
            return Err(CutFault::Short {
                at: self.at + self.rest.len(),
            });
        }
        let (prefix, rest) = self.rest.split_at(count as usize);
        self.rest = rest;
        self.at += prefix.len();
        Ok(prefix)
    }

    /// A length of so many bits.
    #[tactic(auto, unfolding(crate::specs::Cut::number_at))]
    fn length(&mut self, width: u32) -> Result<u64, CutFault>
        requires { (width ≡ 8) ⊎ (width ≡ 16) ⊎ (width ≡ 32) }
        ensures exact { Gives (λ n. n) result self.old self.new (number_at (width / 8) self.old) }
        ensures encoded { IfOk result (λ n.
            self.old.bytes ≡ little_endian (width / 8) n ++ self.new.bytes) }
    {
        match width {
            8 => match self.u8() {
                Ok(len) => Ok(u64::from(len)),
                Err(fault) => Err(fault),
            },
            16 => match self.u16() {
                Ok(len) => Ok(u64::from(len)),
                Err(fault) => Err(fault),
            },
            _ => match self.u32() {
                Ok(len) => Ok(u64::from(len)),
                Err(fault) => Err(fault),
            },
        }
    }

    /// A length of so many bits, and that many bytes.
    #[tactic(auto, unfolding(crate::specs::Cut::string_at))]
    fn string(&mut self, width: u32, limit: u64) -> Result<&'a [u8], CutFault>
        requires { (width ≡ 8) ⊎ (width ≡ 16) ⊎ (width ≡ 32) }
        ensures exact { Gives (λ s. s.now) result self.old self.new
            (string_at (width / 8) limit self.old) }
        ensures encoded { IfOk result (λ s. self.old.bytes ≡
            little_endian (width / 8) (length s.now) ++ (s.now ++ self.new.bytes)) }
    {
        let mut ahead = self.copy();
        let len = ahead.length(width)?;
        if len > limit {
            return Err(CutFault::TooLong { at: self.at, len });
        }
        let bytes = ahead.take(len)?;
        *self = ahead;
        Ok(bytes)
    }

    /// Bytes after their length of `width` bits (8, 16 or 32), which is `limit` at most. With the
    /// width 0 there is no length, and `limit` is the number of the bytes.
    pub fn bytes(&mut self, width: u32, limit: u64) -> Result<&'a [u8], CutFault>
        requires { IsWidth width }
        ensures exact { Gives (λ s. s.now) result self.old self.new
            (field_at width limit self.old) }
        ensures encoded { IfOk result (λ s.
            self.old.bytes ≡ field_encoding width s.now ++ self.new.bytes) }
        ensures only { (xs rest : List ℕ) → FitsField width limit xs →
            self.old.bytes ≡ field_encoding width xs ++ rest → IsOkAnd result (λ s. s.now ≡ xs) }
    {
        if width == 0 {
            self.take(limit)
        } else {
            self.string(width, limit)
        }
    }

    #[tactic(auto, unfolding(crate::specs::Cut::text_at))]
    fn name(&mut self, limit: u64) -> Result<&'a [u8], CutFault>
        ensures exact { Gives (λ s. s.now) result self.old self.new (text_at limit self.old) }
        ensures encoded { IfOk result (λ s.
            self.old.bytes ≡ little_endian 1 (length s.now) ++ (s.now ++ self.new.bytes)) }
    {
        let mut ahead = self.copy();
        let name = ahead.string(8, limit)?;
        if let Some(index) = first_no_text(name) {
            return Err(CutFault::NotText {
                at: self.at + 1 + index,
            });
        }
        *self = ahead;
        Ok(name)
    }

    /// A name after its length of 8 bits, which is `limit` at most: visible ASCII characters, 21 to
    /// 7e in hexadecimal. It may be empty.
    pub fn text(&mut self, limit: u64) -> Result<&'a [u8], CutFault>
        ensures exact { Gives (λ s. s.now) result self.old self.new (text_at limit self.old) }
        ensures encoded { IfOk result (λ s.
            self.old.bytes ≡ little_endian 1 (length s.now) ++ (s.now ++ self.new.bytes)) }
        ensures only { (xs rest : List ℕ) → FitsText limit xs →
            self.old.bytes ≡ little_endian 1 (length xs) ++ (xs ++ rest) →
            IsOkAnd result (λ s. s.now ≡ xs) }
    {
        self.name(limit)
    }
}

#[tactic(auto, unfolding(crate::specs::Code::flag_at, crate::specs::LittleEndian::little_endian))]
impl<'a> Cut<'a> {
    fn flag_field(&mut self) -> Result<bool, CodeFault>
        ensures exact { Gives (λ b. b) result self.old self.new (flag_at self.old) }
        ensures encoded { IfOk result (λ b. self.old.bytes ≡ flag_byte b ∷ self.new.bytes) }
    {
        let mut ahead = self.copy();
        match ahead.u8()? {
            0 => {
                *self = ahead;
                Ok(false)
            }
            1 => {
                *self = ahead;
                Ok(true)
            }
            _ => Err(CodeFault::Value { at: self.at }),
        }
    }
}

impl<'a> Cut<'a> {
    /// A byte 0 for no, or 1 for yes.
    pub fn flag(&mut self) -> Result<bool, CodeFault>
        ensures exact { Gives (λ b. b) result self.old self.new (flag_at self.old) }
        ensures encoded { IfOk result (λ b. self.old.bytes ≡ flag_byte b ∷ self.new.bytes) }
        ensures only { (b : Bool) (rest : List ℕ) → self.old.bytes ≡ flag_byte b ∷ rest →
            IsOkAnd result (λ said. said ≡ b) }
    {
        self.flag_field()
    }

    /// Nothing may be left.
    pub fn end(&self) -> Result<(), CodeFault>
        ensures { result ≡ ended (tt, self.now) }
    {
        if self.rest.is_empty() {
            Ok(())
        } else {
            Err(CodeFault::Trailing { at: self.at })
        }
    }

    #[tactic(auto, unfolding(crate::specs::Row::map_name_at))]
    fn map_name_field(&mut self) -> Result<&'a [u8], CodeFault>
        ensures exact { Gives (λ name. name.now) result self.old self.new (map_name_at self.old) }
        ensures valid { IfOk result (λ name. IsTrue (is_map_name_field name.now)) }
        ensures encoded { IfOk result (λ name.
            self.old.bytes ≡ map_name_bytes name.now ++ self.new.bytes) }
    {
        let mut ahead = self.copy();
        let text = ahead.text(MAP_NAME_LIMIT)?;
        let name = at_least(1, self.at, text)?;
        *self = ahead;
        Ok(name)
    }

    /// A map's name after its length of one byte: 1 to 128 visible ASCII characters.
    pub fn map_name(&mut self) -> Result<&'a [u8], CodeFault>
        ensures exact { Gives (λ name. name.now) result self.old self.new (map_name_at self.old) }
        ensures valid { IfOk result (λ name. IsTrue (is_map_name_field name.now)) }
        ensures encoded { IfOk result (λ name.
            self.old.bytes ≡ map_name_bytes name.now ++ self.new.bytes) }
        ensures only { (xs rest : List ℕ) → IsTrue (is_map_name_field xs) →
            self.old.bytes ≡ map_name_bytes xs ++ rest → IsOkAnd result (λ name. name.now ≡ xs) }
    {
        self.map_name_field()
    }

    #[tactic(auto, unfolding(crate::specs::Row::key_at))]
    fn key_field(&mut self) -> Result<&'a [u8], CodeFault>
        ensures exact { Gives (λ key. key.now) result self.old self.new (key_at self.old) }
        ensures valid { IfOk result (λ key. IsTrue (is_key_field key.now)) }
        ensures encoded { IfOk result (λ key.
            self.old.bytes ≡ key_bytes key.now ++ self.new.bytes) }
    {
        let mut ahead = self.copy();
        let bytes = ahead.bytes(16, KEY_LIMIT)?;
        let key = at_least(1, self.at, bytes)?;
        *self = ahead;
        Ok(key)
    }

    /// A key after its length of two bytes: 1 to 1,024 bytes.
    pub fn key(&mut self) -> Result<&'a [u8], CodeFault>
        ensures exact { Gives (λ key. key.now) result self.old self.new (key_at self.old) }
        ensures valid { IfOk result (λ key. IsTrue (is_key_field key.now)) }
        ensures encoded { IfOk result (λ key.
            self.old.bytes ≡ key_bytes key.now ++ self.new.bytes) }
        ensures only { (xs rest : List ℕ) → IsTrue (is_key_field xs) →
            self.old.bytes ≡ key_bytes xs ++ rest → IsOkAnd result (λ key. key.now ≡ xs) }
    {
        self.key_field()
    }

    #[tactic(auto, unfolding(crate::specs::Row::value_at))]
    fn value_field(&mut self, limit: u64) -> Result<&'a [u8], CodeFault>
        ensures exact { Gives (λ value. value.now) result self.old self.new
            (value_at limit self.old) }
        ensures valid { IfOk result (λ value. IsTrue (is_value_field limit value.now)) }
        ensures encoded { IfOk result (λ value.
            self.old.bytes ≡ value_bytes value.now ++ self.new.bytes) }
    {
        let mut ahead = self.copy();
        let bytes = ahead.bytes(32, limit)?;
        let value = at_least(0, self.at, bytes)?;
        *self = ahead;
        Ok(value)
    }

    /// A value after its length of four bytes, which is `limit` at most.
    pub fn value(&mut self, limit: u64) -> Result<&'a [u8], CodeFault>
        requires { limit < 2 ^ 32 }
        ensures exact { Gives (λ value. value.now) result self.old self.new
            (value_at limit self.old) }
        ensures valid { IfOk result (λ value. IsTrue (is_value_field limit value.now)) }
        ensures encoded { IfOk result (λ value.
            self.old.bytes ≡ value_bytes value.now ++ self.new.bytes) }
        ensures only { (xs rest : List ℕ) → IsTrue (is_value_field limit xs) →
            self.old.bytes ≡ value_bytes xs ++ rest → IsOkAnd result (λ value. value.now ≡ xs) }
    {
        self.value_field(limit)
    }

    #[tactic(auto, unfolding(crate::specs::Row::optional_value_at))]
    fn optional_value_field(&mut self, limit: u64) -> Result<Option<&'a [u8]>, CodeFault>
        requires { limit < 2 ^ 32 }
        ensures exact { Gives option_copied result self.old self.new
            (optional_value_at limit self.old) }
        ensures valid { IfOk result (λ value.
            IsTrue (is_optional_value_field limit (option_copied value))) }
        ensures encoded { IfOk result (λ value.
            self.old.bytes ≡ optional_value_bytes (option_copied value) ++ self.new.bytes) }
    {
        let mut ahead = self.copy();
        match ahead.u8()? {
            0 => {
                *self = ahead;
                Ok(None)
            }
            1 => {
                let value = ahead.value(limit)?;
                *self = ahead;
                Ok(Some(value))
            }
            _ => Err(CodeFault::Value { at: self.at }),
        }
    }

    /// A byte 0 and no value, or a byte 1 and a value of `limit` bytes at most.
    pub fn optional_value(&mut self, limit: u64) -> Result<Option<&'a [u8]>, CodeFault>
        requires { limit < 2 ^ 32 }
        ensures exact { Gives option_copied result self.old self.new
            (optional_value_at limit self.old) }
        ensures valid { IfOk result (λ value.
            IsTrue (is_optional_value_field limit (option_copied value))) }
        ensures encoded { IfOk result (λ value.
            self.old.bytes ≡ optional_value_bytes (option_copied value) ++ self.new.bytes) }
        ensures only { (v : Option (List ℕ)) (rest : List ℕ) →
            IsTrue (is_optional_value_field limit v) →
            self.old.bytes ≡ optional_value_bytes v ++ rest →
            IsOkAnd result (λ value. option_copied value ≡ v) }
    {
        self.optional_value_field(limit)
    }
}

/// The bytes of a field that begins at `at`, of which there must be so many at least.
fn at_least<'a>(least: usize, at: usize, bytes: &'a [u8]) -> Result<&'a [u8], CodeFault>
    ensures ok { IfOk result (λ s. (s.now ≡ bytes.now) × (least ≤ length bytes.now)) }
    ensures err { IfErr result (λ fault.
        (fault ≡ CodeFault.Value at) × (length bytes.now < least)) }
    ensures each { IsTrue (are_bytes bytes.now) }
{
    if bytes.len() < least {
        return Err(CodeFault::Value { at });
    }
    Ok(bytes)
}

fn first_no_text(bytes: &[u8]) -> Option<usize>
    ensures { result ≡ position is_no_text bytes.now }
{
    bytes.iter().position(|byte| !byte.is_ascii_graphic())
}
