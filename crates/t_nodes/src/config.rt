//! Majorities, active configurations and stages of retirement, as tables.

use gl_config::{Active, Configuration, NodeId, NodeSet, Stage, are_distinct, majority};
use std::alloc::{AllocError, Global};
use std::test::Fail;
use t_checks::same;

// The identifier of the node that a number names.
fn id(number: u8) -> NodeId {
    [number; 32]
}

// The set of the nodes that distinct numbers name.
fn set(alloc: Global, numbers: &[u8]) -> Result<NodeSet, AllocError> {
    let mut nodes = Vec::new(alloc);
    for number in numbers {
        nodes.push(id(*number))?;
    }
    if are_distinct(&nodes) {
        Ok(NodeSet::new(nodes))
    } else {
        Ok(NodeSet::new(Vec::new(alloc)))
    }
}

#[test]
fn more_than_half(rt: HostRuntime) -> Result<(), Fail> {
    let cases: [(&[u8], &[u8], bool); 7] = [
        (&[1, 2], &[1, 2, 3], true),
        (&[1], &[1, 2, 3], false),
        (&[1], &[1, 2], false),
        (&[1, 2], &[2, 1], true),
        (&[1], &[1], true),
        (&[4, 5], &[1, 2, 3], false),
        (&[1], &[], false),
    ];
    for (votes, configuration, is_majority) in cases {
        let votes = set(rt.alloc(), votes)?;
        let configuration = set(rt.alloc(), configuration)?;
        same!(majority(&votes, &configuration), is_majority);
    }
    Ok(())
}

// The nodes 1, 2 and 3 begin; at seqno 7 nodes 3, 4 and 5 are trusted in their place. At commit 2
// both count, and the old nodes have no majority of the new ones; at commit 8 the new ones count
// alone.
#[test]
fn nodes_are_replaced(rt: HostRuntime) -> Result<(), Fail> {
    let configurations = [
        Configuration {
            seqno: 1,
            nodes: set(rt.alloc(), &[1, 2, 3])?,
        },
        Configuration {
            seqno: 7,
            nodes: set(rt.alloc(), &[3, 4, 5])?,
        },
    ];
    // Each commit, who votes, up to which seqno configurations are asked, and whether it is enough.
    let votes: [(u64, &[u8], Option<u64>, bool); 7] = [
        (2, &[1, 2, 3], None, false),
        (2, &[1, 2, 3, 4], None, true),
        (2, &[1, 2, 3], Some(6), true),
        (2, &[1, 2, 3], Some(8), false),
        (2, &[1, 2, 3, 4], Some(8), true),
        (8, &[1, 2, 3], None, false),
        (8, &[3, 4], None, true),
    ];
    for (commit, voters, upto, is_enough) in votes {
        let voters = set(rt.alloc(), voters)?;
        let active = Active::of(&configurations, commit);
        let reported = match upto {
            None => active.quorum(&voters),
            Some(seqno) => active.quorum_upto(&voters, seqno),
        };
        same!(reported, is_enough);
    }
    for (commit, number, is_held) in [
        (2, 1, true),
        (2, 5, true),
        (2, 6, false),
        (8, 1, false),
        (8, 3, true),
    ] {
        let active = Active::of(&configurations, commit);
        same!(active.holds(&id(number)), is_held);
    }
    Ok(())
}

// A removal at seqno 5, signatures at 2, 6 and 8, a mark at 7.
#[test]
fn stages_in_their_order() -> Result<(), Fail> {
    for (removal, mark, last_signature, commit, stage) in [
        (None, None, 2, 2, None),
        (Some(5), None, 2, 2, Some(Stage::Ordered)),
        (Some(5), None, 6, 2, Some(Stage::Signed)),
        (Some(5), None, 6, 6, Some(Stage::Completed)),
        (Some(5), Some(7), 8, 6, Some(Stage::Completed)),
        (Some(5), Some(7), 8, 8, Some(Stage::RetiredCommitted)),
    ] {
        same!(Stage::of(removal, mark, last_signature, commit), stage);
    }
    Ok(())
}
