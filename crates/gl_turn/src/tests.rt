//! A counter on which turns are taken.
ghost use Rattle.std.specs.Prelude.{◌≡◌, ◌+◌, ◌%◌, ◌^◌, length};
ghost use Rattle.gl_turn.specs.View.{IsIdle, IsSamePass};

use crate::pass::Pass;
use crate::shared::{Shared, Stands};
use crate::turn::Turn;
use std::snapshot::Snapshot;
use std::sync::Wait;
use std::test::Fail;

#[derive(Drop)]
struct Counter {
    value: u64,
}

impl Stands for Counter {
    type Entry = Snapshot<u64>;

    ghost stands = { λ first start trail now. now.value ≡ (start.value + length trail) % 2 ^ 64 };
}

/// Adds one, in a turn.
fn add<R: Wait>(rt: &R, shared: &Shared<Counter>, pass: &mut Pass<Counter>)
    requires own { pass.old.table_id ≡ shared.now.table.shared.table_id }
    requires idle { IsIdle pass.old.me }
    ensures pass { IsSamePass pass.old pass.new }
    ensures idle { IsIdle pass.new.me }
{
    let mut turn = Turn::take(shared, rt, pass);
    let state = turn.state();
    state.value = state.value.wrapping_add(1);
    let note = Snapshot::of(&state.value);
    turn.give(&[note]);
}

#[test]
fn counts_the_turns_of_two_passes(rt: HostRuntime) -> Result<(), Fail> {
    let Ok((shared, mut pass)) = Shared::new(rt.alloc(), Counter { value: 7 }, 0) else {
        return Err("no memory")?;
    };
    let mut other = shared.split(&mut pass);
    add(&rt, &shared, &mut pass);
    add(&rt, &shared, &mut other);
    add(&rt, &shared, &mut pass);
    shared.join(&mut pass, other);
    let Ok(counter) = shared.close(pass) else {
        return Err("a turn is out")?;
    };
    assert!(rt; counter.value == 10);
    Ok(())
}
