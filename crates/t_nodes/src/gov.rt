//! A service's requests against `examples/governance/model.py`, which keeps tables in place of a
//! history and counts no ballot again: what each request answers, and a digest of all rows.

use bench::{Bench, Row, play};
use std::test::Fail;

mod bench;
mod founding;
mod members;
mod nodes;
mod recovery;

const LIFE: [&[Row<'static>]; 14] = [
    &founding::FOUND,
    &founding::ACKNOWLEDGE,
    &members::BAD,
    &members::OPEN,
    &members::COME_LATE,
    &members::REJECT,
    &members::REMOVE_MEMBER,
    &nodes::JOIN,
    &nodes::REPLACE,
    &nodes::REFORM,
    &nodes::FAIL,
    &recovery::RECOVER,
    &recovery::GIVE_IN_VAIN,
    &recovery::GIVE,
];

#[test]
fn governs_a_service(rt: HostRuntime) -> Result<(), Fail> {
    let mut bench = Bench::new(rt.alloc(), 2, 7, 6)?;
    for rows in LIFE {
        play(&mut bench, rows)?;
    }
    recovery::know_service(&bench)?;
    recovery::know_members(&bench)?;
    recovery::know_nodes(&bench)?;
    recovery::know_proposals(&bench)
}
