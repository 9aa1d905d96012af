//! The rows of the governance tables, put into a set one by one.

ghost use Rattle.std.specs.Prelude.{◌≡◌, ◌≤◌, ◌<◌, ◌^◌, ◌+◌, ◌++◌, ◌∷◌, [], length, filter, map, IfOk, IfSome, OnOk, true};
ghost use Rattle.std.specs.List.{AllByRecursion};
ghost use Rattle.gl_vmaps.specs.Changes.{row, set_from, write_set};
ghost use Rattle.gl_requests.specs.Ranges.{is_dealing, are_rules};
ghost use Rattle.gl_gov_rules.specs.Service.{constitution, dealing, shares_given};
ghost use Rattle.gl_gov_rules.specs.Rows.{service_row, service_write, member_row, member_rows, member_write, node_row, node_rows, node_write, proposal_row, proposal_write, proposal_writes, rule_writes_from, rule_writes_of, dealing_write, share_write, write_of, all_rows};
ghost use Rattle.gl_gov_rules.specs.Nodes.{nodes};
ghost use Rattle.gl_gov_rules.specs.Proposals.{proposals};
ghost use Rattle.gl_gov_rules.specs.Governed.{IsBoundedProposal, IsBounded};
ghost use Rattle.gl_gov.specs.Touched.{is_selected};

use crate::rows::{
    dealing_write, member_row, member_write, node_row, node_write, proposal_row, proposal_write,
    rule_write, service_row, service_write, share_write,
};
use crate::touched::Selection;
use gl_gov_rules::{History, Proposal, RecordedNode};
use gl_requests::{NewMember, Rule};
use gl_shares::Share;
use gl_vmaps::Writes;
use std::alloc::{AllocError, Global};

/// Puts the rows of rules, from that of action 1 on.
fn put_rules(alloc: Global, writes: &mut Writes, rules: &[Rule]) -> Result<(), AllocError>
    requires { length rules.now ≡ 7 }
    ensures { OnOk result (writes.new ≡ set_from writes.old (rule_writes_from 1 rules.now)) }
{
    for (i, rule) in rules.iter().enumerate() {
        writes.put(rule_write(alloc, i as u8 + 1, rule)?)?;
    }
    Ok(())
}

fn put_constitution(alloc: Global, writes: &mut Writes, past: &History) -> Result<(), AllocError>
    requires { IfSome (constitution past.now) (λ rules. are_rules rules ≡ true) }
    ensures { OnOk result (writes.new
        ≡ set_from writes.old (rule_writes_of (constitution past.now))) }
{
    match past.constitution() {
        None => Ok(()),
        Some(rules) => put_rules(alloc, writes, rules),
    }
}

fn put_dealing(alloc: Global, writes: &mut Writes, past: &History) -> Result<(), AllocError>
    requires { IfSome (dealing past.now) (λ d. is_dealing d ≡ true) }
    ensures { OnOk result (writes.new
        ≡ set_from writes.old (write_of dealing_write (dealing past.now))) }
{
    match past.dealing() {
        None => Ok(()),
        Some(dealing) => {
            writes.put(dealing_write(alloc, dealing)?)?;
            Ok(())
        }
    }
}

fn put_shares(alloc: Global, writes: &mut Writes, shares: &[Share]) -> Result<(), AllocError>
    ensures { OnOk result (writes.new ≡ set_from writes.old (map share_write shares.now)) }
{
    for share in shares {
        writes.put(share_write(alloc, share)?)?;
    }
    Ok(())
}

fn put_service(alloc: Global, writes: &mut Writes, past: &History) -> Result<(), AllocError>
    ensures { OnOk result (writes.new
        ≡ set_from writes.old (write_of service_write (service_row past.now))) }
{
    match service_row(past) {
        None => Ok(()),
        Some(service) => {
            writes.put(service_write(alloc, &service)?)?;
            Ok(())
        }
    }
}

/// Puts a member's row, where it is selected.
fn put_member(
    alloc: Global,
    writes: &mut Writes,
    past: &History,
    selection: &Selection,
    member: &NewMember,
) -> Result<(), AllocError>
    ensures { OnOk result (writes.new ≡ set_from writes.old (filter (is_selected selection.now)
        (member_write (member_row past.now member.now) ∷ []))) }
{
    if !selection.has_member(member.number) {
        return Ok(());
    }
    let row = member_row(past, member);
    writes.put(member_write(alloc, &row)?)?;
    Ok(())
}

#[tactic(auto, unfolding(gl_gov_rules::specs::Rows::member_rows))]
fn put_members(
    alloc: Global,
    writes: &mut Writes,
    past: &History,
    selection: &Selection,
) -> Result<(), AllocError>
    ensures { OnOk result (writes.new ≡ set_from writes.old (filter (is_selected selection.now)
        (map member_write (member_rows past.now)))) }
{
    for member in past.members() {
        put_member(alloc, writes, past, selection, member)?;
    }
    Ok(())
}

/// Puts the row of the node with a number in the order of nodes, where it is selected.
fn put_node(
    alloc: Global,
    writes: &mut Writes,
    past: &History,
    selection: &Selection,
    order: u16,
    node: &RecordedNode,
) -> Result<(), AllocError>
    requires { length node.now.node.endorsement ≤ 2508 }
    ensures { OnOk result (writes.new ≡ set_from writes.old (filter (is_selected selection.now)
        (node_write (node_row past.now order node.now) ∷ []))) }
{
    if !selection.has_node(&node.id) {
        return Ok(());
    }
    let row = node_row(alloc, past, order, node)?;
    writes.put(node_write(alloc, &row)?)?;
    Ok(())
}

#[tactic(auto, unfolding(gl_gov_rules::specs::Rows::node_rows))]
fn put_nodes(
    alloc: Global,
    writes: &mut Writes,
    past: &History,
    selection: &Selection,
) -> Result<(), AllocError>
    requires few { length (nodes past.now) < 2 ^ 16 }
    requires small { AllByRecursion (λ node. length node.node.endorsement ≤ 2508)
        (nodes past.now) }
    ensures { OnOk result (writes.new ≡ set_from writes.old (filter (is_selected selection.now)
        (map node_write (node_rows past.now)))) }
{
    for (i, node) in past.nodes().iter().enumerate() {
        put_node(alloc, writes, past, selection, i as u16 + 1, node)?;
    }
    Ok(())
}

/// Puts a proposal's row, where it is selected.
fn put_proposal(
    alloc: Global,
    writes: &mut Writes,
    past: &History,
    selection: &Selection,
    proposal: &Proposal,
) -> Result<(), AllocError>
    requires { IsBoundedProposal proposal.now }
    ensures { OnOk result (writes.new ≡ set_from writes.old (filter (is_selected selection.now)
        (proposal_write proposal.now.id (proposal_row past.now proposal.now) ∷ []))) }
{
    if !selection.has_proposal(&proposal.id) {
        return Ok(());
    }
    let row = proposal_row(alloc, past, proposal)?;
    writes.put(proposal_write(alloc, &proposal.id, &row)?)?;
    Ok(())
}

#[tactic(auto, unfolding(gl_gov_rules::specs::Rows::proposal_writes))]
fn put_proposals(
    alloc: Global,
    writes: &mut Writes,
    past: &History,
    selection: &Selection,
) -> Result<(), AllocError>
    requires { AllByRecursion IsBoundedProposal (proposals past.now) }
    ensures { OnOk result (writes.new ≡ set_from writes.old (filter (is_selected selection.now)
        (proposal_writes past.now))) }
{
    for proposal in past.proposals() {
        put_proposal(alloc, writes, past, selection, proposal)?;
    }
    Ok(())
}

/// Puts the rows of the constitution and the dealing, where they are selected.
fn put_rules_and_dealing(
    alloc: Global,
    writes: &mut Writes,
    past: &History,
    selection: &Selection,
) -> Result<(), AllocError>
    requires rules { IfSome (constitution past.now) (λ rules. are_rules rules ≡ true) }
    requires dealt { IfSome (dealing past.now) (λ d. is_dealing d ≡ true) }
    ensures { OnOk result (writes.new ≡ set_from writes.old (filter (is_selected selection.now)
        (rule_writes_of (constitution past.now) ++ write_of dealing_write (dealing past.now)))) }
{
    if !selection.has_settings() {
        return Ok(());
    }
    put_constitution(alloc, writes, past)?;
    put_dealing(alloc, writes, past)?;
    Ok(())
}

/// Puts the rows of the service and of the shares that were given, where they are selected.
fn put_service_and_shares(
    alloc: Global,
    writes: &mut Writes,
    past: &History,
    selection: &Selection,
) -> Result<(), AllocError>
    ensures { OnOk result (writes.new ≡ set_from writes.old (filter (is_selected selection.now)
        (write_of service_write (service_row past.now)
        ++ map share_write (shares_given past.now)))) }
{
    if !selection.has_settings() {
        return Ok(());
    }
    put_service(alloc, writes, past)?;
    put_shares(alloc, writes, &past.shares_given(alloc)?)?;
    Ok(())
}

/// The selected rows of the governance tables, ascending by map and key.
pub fn selected_rows(
    alloc: Global,
    past: &History,
    selection: &Selection,
) -> Result<Writes, AllocError>
    requires bounded { IsBounded past.now }
    ensures { IfOk result (λ writes. writes
        ≡ write_set (filter (is_selected selection.now) (all_rows past.now))) }
{
    let mut writes = Writes::new(alloc);
    put_rules_and_dealing(alloc, &mut writes, past, selection)?;
    put_members(alloc, &mut writes, past, selection)?;
    put_nodes(alloc, &mut writes, past, selection)?;
    put_proposals(alloc, &mut writes, past, selection)?;
    put_service_and_shares(alloc, &mut writes, past, selection)?;
    Ok(writes)
}
