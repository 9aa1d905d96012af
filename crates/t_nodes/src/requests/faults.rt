//! The first fault of bytes that encode no request, with places worked out by hand.

use super::encoded::{all_actions, genesis, runs};
use gl_base::{CodeFault, CutFault, OrNoMemory};
use gl_requests::GovernanceRequest;
use std::alloc::Global;
use std::test::Fail;
use t_checks::holds;

/// Whether this is the first fault of bytes that are read as a request.
fn is_fault(alloc: Global, bytes: &[u8], fault: CodeFault) -> bool {
    GovernanceRequest::decode(alloc, bytes).err() == Some(OrNoMemory::Fault(fault))
}

fn bad_value(at: usize) -> CodeFault {
    CodeFault::Value { at }
}

fn short(at: usize) -> CodeFault {
    CodeFault::Cut(CutFault::Short { at })
}

fn too_long(at: usize) -> CodeFault {
    CodeFault::Cut(CutFault::TooLong { at, len: 1_048_577 })
}

#[test]
fn reports_values_that_are_not_allowed(rt: HostRuntime) -> Result<(), Fail> {
    let alloc = rt.alloc();
    let faults: [(&[(u8, usize)], usize); 10] = [
        // A tag, a state, and the number of a member.
        (&[(0, 1)], 0),
        (&[(10, 1)], 0),
        (&[(1, 1), (3, 1)], 1),
        (&[(5, 1), (0, 2)], 1),
        // The count of actions, an action's number, and the number of a member in an action.
        (&[(6, 1), (1, 1), (0, 1)], 2),
        (&[(6, 1), (1, 1), (17, 1), (6, 17)], 2),
        (&[(6, 1), (1, 2), (0, 1)], 3),
        (&[(6, 1), (1, 2), (8, 1)], 3),
        (&[(6, 1), (1, 2), (2, 1), (0, 1)], 4),
        // A ballot's answer.
        (&[(7, 1), (1, 1), (11, 32), (2, 1)], 34),
    ];
    for (bytes, at) in &faults {
        let bytes = runs(alloc, bytes)?;
        holds!(is_fault(alloc, &bytes, bad_value(*at)), at);
    }
    Ok(())
}

#[test]
fn reports_lengths_that_do_not_fit(rt: HostRuntime) -> Result<(), Fail> {
    let alloc = rt.alloc();
    let faults: [(&[(u8, usize)], CodeFault); 6] = [
        (&[], short(0)),
        // An endorsement of 5 bytes, of which 4 are there.
        (&[(3, 1), (7, 56), (5, 1), (0, 3), (170, 4)], short(65)),
        // 1,048,576 and 1,048,577 bytes of an endorsement, and of a signature.
        (&[(3, 1), (7, 56), (0, 2), (16, 1), (0, 1)], short(61)),
        (
            &[(3, 1), (7, 56), (1, 1), (0, 1), (16, 1), (0, 1)],
            too_long(57),
        ),
        (&[(5, 1), (1, 2), (0, 1), (16, 1), (0, 1)], too_long(2)),
        // A byte after a mark.
        (&[(4, 1), (11, 33)], CodeFault::Trailing { at: 33 }),
    ];
    for (bytes, fault) in &faults {
        let bytes = runs(alloc, bytes)?;
        holds!(is_fault(alloc, &bytes, *fault), fault);
    }
    Ok(())
}

#[test]
fn is_short_wherever_it_is_cut(rt: HostRuntime) -> Result<(), Fail> {
    let alloc = rt.alloc();
    for bytes in [genesis(alloc)?, all_actions(alloc)?] {
        for end in 0..bytes.len() {
            holds!(is_fault(alloc, &bytes[..end], short(end)), end);
        }
    }
    Ok(())
}
