//! Replies by hand.

use gl_answers::given_bytes;
use gl_gov_rules::{ProposalState, ProposalStatus};
use gl_ledger::Response;
use std::test::Fail;
use t_checks::same;

#[test]
fn answers_governance(rt: HostRuntime) -> Result<(), Fail> {
    let alloc = rt.alloc();
    let none = given_bytes(alloc, &Response::Governed(None))?;
    same!(none.len(), 0);
    let status = ProposalStatus {
        id: [7; 32],
        state: ProposalState::Accepted,
    };
    let proposal = given_bytes(alloc, &Response::Governed(Some(status)))?;
    same!(proposal.len(), 33);
    same!(proposal.as_slice().first(), Some(&7));
    same!(proposal.as_slice().last(), Some(&2));
    Ok(())
}
