//! Runs of the whole program, over objects in memory. They are data: each run is a row of a table
//! (`run.rt`), and one test plays the tables of a subject. The README of this crate tells how a row
//! is added.

use crate::tests::table::Table;
use gl_load::LoadObserver;
use gl_serve::{NodeStatus, Observer};
use std::test::Fail;

mod audits;
mod dealings;
mod expected;
mod founding;
mod keys;
mod lives;
mod loads;
mod members;
mod nodes;
mod part;
mod play;
mod receipts;
mod recoveries;
mod roles;
mod run;
mod schedules;
mod serve;
mod signatures;
mod stops;
mod table;
mod told;
mod turns;
mod words;

/// Nobody looks on.
#[derive(Clone, Copy)]
struct Unwatched;

impl Observer for Unwatched {
    fn observe(&mut self, _standing: NodeStatus) {}
}

impl LoadObserver for Unwatched {
    fn taken(&mut self, _requests: u32) {}
}

#[test]
fn words_that_ask_for_nothing(rt: HostRuntime) -> Result<(), Fail> {
    let mut table = Table::new(rt.alloc());
    words::play(&rt, &mut table)?;
    Ok(())
}

#[test]
fn schedules_of_one_node(rt: HostRuntime) -> Result<(), Fail> {
    let mut table = Table::new(rt.alloc());
    schedules::play(&rt, &mut table)?;
    Ok(())
}

#[test]
fn what_is_no_schedule(rt: HostRuntime) -> Result<(), Fail> {
    let mut table = Table::new(rt.alloc());
    schedules::play_faults(&rt, &mut table)?;
    Ok(())
}

#[test]
fn schedules_of_many_nodes(rt: HostRuntime) -> Result<(), Fail> {
    let mut table = Table::new(rt.alloc());
    nodes::play(&rt, &mut table)?;
    Ok(())
}

#[test]
fn schedules_of_each_role(rt: HostRuntime) -> Result<(), Fail> {
    let mut table = Table::new(rt.alloc());
    roles::play(&rt, &mut table)?;
    Ok(())
}

#[test]
fn schedules_of_members(rt: HostRuntime) -> Result<(), Fail> {
    let mut table = Table::new(rt.alloc());
    members::play(&rt, &mut table)?;
    Ok(())
}

#[test]
fn receipts_that_are_verified(rt: HostRuntime) -> Result<(), Fail> {
    let mut table = Table::new(rt.alloc());
    receipts::play(&rt, &mut table)?;
    Ok(())
}

#[test]
fn ledgers_that_are_audited(rt: HostRuntime) -> Result<(), Fail> {
    let mut table = Table::new(rt.alloc());
    audits::play(&rt, &mut table)?;
    Ok(())
}

#[test]
fn dealings_and_loads(rt: HostRuntime) -> Result<(), Fail> {
    let mut table = Table::new(rt.alloc());
    dealings::play(&rt, &mut table)?;
    loads::play(&rt, &mut table)?;
    Ok(())
}

#[test]
fn keys_that_begin(rt: HostRuntime) -> Result<(), Fail> {
    let mut table = Table::new(rt.alloc());
    keys::play(&rt, &mut table)?;
    Ok(())
}

#[test]
fn what_keys_of_files_sign(rt: HostRuntime) -> Result<(), Fail> {
    let mut table = Table::new(rt.alloc());
    founding::play(&rt, &mut table)?;
    signatures::play(&rt, &mut table)?;
    Ok(())
}

#[test]
fn serves_of_one_node(rt: HostRuntime) -> Result<(), Fail> {
    let mut table = Table::new(rt.alloc());
    founding::play(&rt, &mut table)?;
    serve::play(&rt, &mut table)?;
    Ok(())
}

#[test]
fn serves_of_a_follower(rt: HostRuntime) -> Result<(), Fail> {
    let mut table = Table::new(rt.alloc());
    founding::play(&rt, &mut table)?;
    serve::play_followed(&rt, &mut table)?;
    Ok(())
}

#[test]
fn recoveries_of_a_ledger(rt: HostRuntime) -> Result<(), Fail> {
    let mut table = Table::new(rt.alloc());
    founding::play(&rt, &mut table)?;
    recoveries::play(&rt, &mut table)?;
    Ok(())
}

#[test]
fn shares_that_open_a_recovered_service(rt: HostRuntime) -> Result<(), Fail> {
    let mut table = Table::new(rt.alloc());
    founding::play(&rt, &mut table)?;
    recoveries::play_with_members(&rt, &mut table)?;
    Ok(())
}

#[test]
fn stops_of_a_genesis(rt: HostRuntime) -> Result<(), Fail> {
    let mut table = Table::new(rt.alloc());
    founding::play(&rt, &mut table)?;
    lives::play_founding(&rt, &mut table)?;
    Ok(())
}

#[test]
fn stops_of_serves(rt: HostRuntime) -> Result<(), Fail> {
    let mut table = Table::new(rt.alloc());
    founding::play(&rt, &mut table)?;
    lives::play_serves(&rt, &mut table)?;
    Ok(())
}

#[test]
fn stops_of_signatures(rt: HostRuntime) -> Result<(), Fail> {
    let mut table = Table::new(rt.alloc());
    founding::play(&rt, &mut table)?;
    lives::play_signatures(&rt, &mut table)?;
    Ok(())
}
