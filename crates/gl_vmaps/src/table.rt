//! The rows of one map, each with its versions.

ghost use Rattle.std.specs.Prelude.{None, IsTrue, is_some, if◌then◌else◌, ◌^◌, ◌<◌, ◌≤◌, ◌≡◌, ◌+◌, ◌-◌, ◌∷◌, [], ◌++◌, IfOk, OnOk, OnErr, take, length};
ghost use Rattle.std.specs.Option.{option_copied, option_and_then};
ghost use Rattle.std.specs.List.{last_or};
ghost use Rattle.std.specs.List.Sorted.{IsNonDecreasingBy};
ghost use Rattle.gl_vmaps.specs.Kept.{last_value};
ghost use Rattle.gl_vmaps.specs.Chains.{chains_by, chain_of, with_chain, is_first_below, trimmed};
ghost use Rattle.gl_vmaps.specs.Journal.{IsInOrder};
ghost use Rattle.gl_vmaps.specs.Standing.{versions_up_to};
ghost use Rattle.gl_vmaps.specs.RowsUpTo.{row_up_to};

use crate::name::Value;
use crate::row::RowSink;
use std::alloc::{AllocError, Global};
use std::collections::{BTreeMap, VecDeque};
use std::marker::Model;

/// What was written to a row at a place.
#[derive(Debug, Drop)]
pub struct Version {
    /// The place of the entry that wrote it. A row that stood at the base has place 0.
    pub place: u64,
    /// The value, or `None` where the row was removed.
    pub value: Option<Value>,
}

impl Version {
    ghost use Rattle.std.specs.Prelude.{◌≡◌, IfOk};

    /// The same version in memory of its own. Fails only where memory runs out.
    pub fn copy(&self, alloc: Global) -> Result<Self, AllocError>
        ensures { IfOk result (λ version. version ≡ self.now) }
    {
        let value = match &self.value {
            None => None,
            Some(value) => Some(value.copy(alloc)?),
        };
        Ok(Version {
            place: self.place,
            value,
        })
    }
}

/// To each key its versions, oldest first. A row has one at least.
type Rows = BTreeMap<Vec<u8>, VecDeque<Version>>;

/// The last version of a row, if it has one.
fn last_of<'a>(rows: &'a Rows, key: &[u8]) -> Option<&'a Version>
    ensures { option_copied result ≡ last_or None (chain_of (chains_by rows.now.entries) key.now) }
{
    match rows.get(key) {
        None => None,
        Some(chain) => chain.back(),
    }
}

/// Adds a version after those of a row, and reports whether the row had a value. Running out of
/// memory leaves the rows as they were.
fn push_into(
    rows: &mut Rows,
    alloc: Global,
    key: &[u8],
    version: Version,
) -> Result<bool, AllocError>
    ensures ok { OnOk result (let old = chains_by rows.old.entries in
        chains_by rows.new.entries ≡
        with_chain old key.now (chain_of old key.now ++ version ∷ [])) }
    ensures had { IfOk result (λ had.
        had ≡ is_some (last_value (chain_of (chains_by rows.old.entries) key.now))) }
    ensures err { OnErr result (chains_by rows.new.entries ≡ chains_by rows.old.entries) }
{
    match rows.get_mut(key) {
        Some(chain) => {
            let had = has_value(chain.back());
            chain.push_back(version)?;
            Ok(had)
        }
        None => {
            // most rows are written once
            let mut chain = VecDeque::with_capacity(alloc, 1)?;
            chain.push_back(version)?;
            rows.insert(Vec::from_slice(alloc, key)?, chain)?;
            Ok(false)
        }
    }
}

/// Takes back the last version of a row, and reports whether no other is left.
fn shorten(rows: &mut Rows, key: &[u8]) -> bool
    ensures rows { let old = chains_by rows.old.entries in let chain = chain_of old key.now in
        chains_by rows.new.entries ≡ with_chain old key.now (take (length chain - 1) chain) }
    ensures emptied { IsTrue result → chain_of (chains_by rows.new.entries) key.now ≡ [] }
{
    match rows.get_mut(key) {
        None => false,
        Some(chain) => {
            let _ = chain.pop_back();
            chain.is_empty()
        }
    }
}

/// Takes back the last version of a row, and the row with its only one.
fn pop_from(rows: &mut Rows, key: &[u8])
    ensures { let old = chains_by rows.old.entries in let chain = chain_of old key.now in
        chains_by rows.new.entries ≡ with_chain old key.now (take (length chain - 1) chain) }
{
    if shorten(rows, key) {
        let _ = rows.remove(key);
    }
}

/// Whether the first of these versions is below a place.
fn is_first_below(chain: &VecDeque<Version>, place: u64) -> bool
    ensures { result ≡ is_first_below place chain.now.items }
{
    match chain.front() {
        None => false,
        Some(first) => first.place < place,
    }
}

/// Lets go of the first version, if another stands after it and it is below a place.
fn trim(chain: &mut VecDeque<Version>, place: u64)
    ensures { chain.new.items ≡ trimmed place chain.old.items }
{
    if chain.len() > 1 && is_first_below(chain, place) {
        let _ = chain.pop_front();
    }
}

/// Lets go of the first version of a row, if another stands after it and it is below a place.
fn trim_in(rows: &mut Rows, key: &[u8], place: u64)
    ensures { let old = chains_by rows.old.entries in
        chains_by rows.new.entries ≡ with_chain old key.now (trimmed place (chain_of old key.now)) }
{
    match rows.get_mut(key) {
        None => {}
        Some(chain) => trim(chain, place),
    }
}

fn copy_chain(alloc: Global, chain: &VecDeque<Version>) -> Result<VecDeque<Version>, AllocError>
    ensures { IfOk result (λ copy. copy.items ≡ chain.now.items) }
{
    let mut copy = VecDeque::new(alloc);
    for version in chain.iter() {
        copy.push_back(version.copy(alloc)?)?;
    }
    Ok(copy)
}

fn copy_rows(alloc: Global, rows: &Rows) -> Result<Rows, AllocError>
    ensures { IfOk result (λ copy. chains_by copy.entries ≡ chains_by rows.now.entries) }
{
    let mut copy = BTreeMap::new(alloc);
    for (key, chain) in rows {
        let key = Vec::from_slice(alloc, key)?;
        let chain = copy_chain(alloc, chain)?;
        copy.insert(key, chain)?;
    }
    Ok(copy)
}

/// The value that a row had at a place, if it had one.
fn value_up_to(chain: &VecDeque<Version>, to: u64) -> Option<&Value>
    requires { IsNonDecreasingBy (λ version. version.place) chain.now.items }
    ensures { option_copied result ≡ last_value (versions_up_to to chain.now.items) }
{
    let count = chain.partition_point(|version| version.place <= to);
    if count == 0 {
        return None;
    }
    match chain.get(count - 1) {
        None => None,
        Some(version) => version.value.as_ref(),
    }
}

/// Puts a row with the value that it had at a place, if it had one.
fn put_row<S: RowSink>(
    sink: &mut S,
    map: &[u8],
    key: &[u8],
    chain: &VecDeque<Version>,
    to: u64,
) -> Result<(), AllocError>
    requires { IsInOrder map.now key.now chain.now.items }
    ensures { OnOk result (S.took sink.old (row_up_to to map.now key.now chain.now.items)
        sink.new) }
{
    match value_up_to(chain, to) {
        None => Ok(()),
        Some(value) => sink.put(map, key, value.as_slice()),
    }
}

/// Whether there is a version, and it has a value.
fn has_value(last: Option<&Version>) -> bool
    ensures { result ≡ is_some (option_and_then (λ v. v.value) (option_copied last.entry)) }
{
    match last {
        None => false,
        Some(version) => version.value.is_some(),
    }
}

/// A count of rows that have a value, after a change of one of them.
fn recount(count: u64, had: bool, has: bool) -> u64
    requires room { count < 2 ^ 63 }
    requires some { IsTrue had → 1 ≤ count }
    ensures { result ≡ (if has then (if had then count else count + 1)
        else (if had then count - 1 else count)) }
{
    match (had, has) {
        (false, true) => count + 1,
        (true, false) => count - 1,
        _ => count,
    }
}

/// The rows of one map: to each key its versions. It knows how many rows have a value, and the
/// greatest version.
#[derive(Debug, Drop)]
pub(crate) struct Table {
    rows: Rows,
    count: u64,
    newest: u64,
}

impl Model for Table {
    ghost use Rattle.gl_vmaps.specs.Kept.{Chains, chains_code};

    ghost Value = { Chains };

    ghost coded = { chains_code };

    ghost use Rattle.std.specs.Prelude.{◌≡◌};
    ghost use Rattle.gl_vmaps.specs.Chains.{chains_by, present, newest_place};

    ghost view = { λ t. chains_by t.rows.entries };

    ghost invariant = { λ t. record {
      counted : t.count ≡ present (chains_by t.rows.entries);
      topped : t.newest ≡ newest_place (chains_by t.rows.entries);
    } };
}

impl Table {
    ghost use Rattle.std.specs.Prelude.{◌≡◌, ◌^◌, ◌<◌, ◌≤◌, ◌-◌, ℕ, List, [], ◌∷◌, ◌++◌, IsTrue, IfOk, OnOk, OnErr, take, length};
    ghost use Rattle.std.specs.FinMap as finite;
    ghost use Rattle.gl_vmaps.specs.Chains.{chain_of, present, newest_place, with_chain, trimmed};
    ghost use Rattle.gl_vmaps.specs.Journal.{IsInOrder};
    ghost use Rattle.gl_vmaps.specs.RowsUpTo.{rows_up_to};

    /// No rows.
    pub(crate) fn new(alloc: Global) -> Self
        ensures { result ≡ finite.empty }
    {
        Table {
            rows: BTreeMap::new(alloc),
            count: 0,
            newest: 0,
        }
    }

    /// The last version of a row, if it has one.
    pub(crate) fn last(&self, key: &[u8]) -> Option<&Version>
        ensures { option_copied result ≡ last_or None (chain_of self.now key.now) }
    {
        last_of(&self.rows, key)
    }

    /// The number of rows that have a value.
    pub(crate) fn size(&self) -> u64
        ensures value { result ≡ present self.now }
        ensures few { result < 2 ^ 63 }
    {
        prove!(self.count as usize <= self.rows.len());
        self.count
    }

    /// The greatest version of the rows.
    pub(crate) fn newest(&self) -> u64
        ensures { result ≡ newest_place self.now }
    {
        self.newest
    }

    /// Whether no row is left.
    pub(crate) fn is_empty(&self) -> bool
        ensures { IsTrue result → self.now ≡ finite.empty }
    {
        self.rows.is_empty()
    }

    /// Adds a version after those of a row. Running out of memory leaves the rows as they were.
    pub(crate) fn push(
        &mut self,
        alloc: Global,
        key: &[u8],
        version: Version,
    ) -> Result<(), AllocError>
        requires { newest_place self.old ≤ version.place }
        ensures ok { OnOk result (self.new ≡
            with_chain self.old key.now (chain_of self.old key.now ++ version ∷ [])) }
        ensures err { OnErr result (self.new ≡ self.old) }
    {
        let count = self.size();
        let has = version.value.is_some();
        let place = version.place;
        let had = push_into(&mut self.rows, alloc, key, version)?;
        self.count = recount(count, had, has);
        self.newest = place;
        Ok(())
    }

    /// Takes back the last version of a row. The greatest version is then the one that it was
    /// before.
    pub(crate) fn pop(&mut self, key: &[u8], before: u64)
        requires { let chain = chain_of self.old key.now in
            before ≡ newest_place (with_chain self.old key.now (take (length chain - 1) chain)) }
        ensures { let chain = chain_of self.old key.now in
            self.new ≡ with_chain self.old key.now (take (length chain - 1) chain) }
    {
        let count = self.size();
        let had = has_value(self.last(key));
        pop_from(&mut self.rows, key);
        let left = has_value(last_of(&self.rows, key));
        self.count = recount(count, had, left);
        self.newest = before;
    }

    /// Lets go of the first version of a row, if another stands after it and it is below a place.
    pub(crate) fn trim(&mut self, key: &[u8], place: u64)
        ensures { self.new ≡
            with_chain self.old key.now (trimmed place (chain_of self.old key.now)) }
    {
        trim_in(&mut self.rows, key, place);
    }

    /// Puts the rows that the map with this name had at a place, each with its value. Fails only
    /// where the sink does.
    pub(crate) fn put_rows<S: RowSink>(
        &self,
        sink: &mut S,
        map: &[u8],
        to: u64,
    ) -> Result<(), AllocError>
        requires { (key : List ℕ) → IsInOrder map.now key (chain_of self.now key) }
        ensures { OnOk result (S.took sink.old (rows_up_to to map.now (finite.entries self.now))
            sink.new) }
    {
        for (key, chain) in &self.rows {
            put_row(sink, map, key, chain, to)?;
        }
        Ok(())
    }

    /// The same rows in memory of their own. Fails only where memory runs out.
    pub(crate) fn copy(&self, alloc: Global) -> Result<Self, AllocError>
        ensures { IfOk result (λ table. table ≡ self.now) }
    {
        Ok(Table {
            rows: copy_rows(alloc, &self.rows)?,
            count: self.count,
            newest: self.newest,
        })
    }
}
