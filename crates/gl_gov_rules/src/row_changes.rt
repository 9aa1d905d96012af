//! The changes that rows stand for.

ghost use Rattle.std.specs.Prelude.{◌≡◌, ◌++◌, map, filter_map, IfOk, OnOk};
ghost use Rattle.std.specs.Option.{option_to_list};
ghost use Rattle.gl_requests.specs.declared.action.Action.TheVariants as actions;
ghost use Rattle.gl_gov_rules.specs.declared.change.Change.TheVariants as the_changes;
ghost use Rattle.gl_gov_rules.specs.declared.change.Change as a_change;
ghost use Rattle.gl_gov_rules.specs.declared.row.RuleAt as a_rule;
ghost use Rattle.gl_gov_rules.specs.declared.row.MemberRow as a_member;
ghost use Rattle.gl_gov_rules.specs.Changes.{changed_at, set_member};
ghost use Rattle.gl_gov_rules.specs.GovernedRows.{recovered_if, founded_by, dealt_by, member_of_row, member_removed_by, settled_row, node_removed_by, changes_at_base, changes_of_rows};

use crate::change::{Change, Changed, ProposalState};
use crate::refusal::MemberStatus;
use crate::row::{GovernedRows, MemberRow, NodeRow, ProposalAt, RuleAt, ServiceRow};
use gl_base::Sequence;
use gl_index::push_some;
use gl_requests::{Action, Dealing, NewMember};
use std::alloc::{AllocError, Global};

/// The recovery that the service's row tells.
fn recovered_if(service: &Option<ServiceRow>) -> Option<Change>
    ensures { option_to_list result ≡ recovered_if service.now }
{
    match service {
        Some(row) if row.is_recovered => Some(Change::Recovered(row.identity)),
        _ => None,
    }
}

/// The founding that the service's row tells.
fn founded_by(service: &Option<ServiceRow>) -> Option<Change>
    ensures { option_to_list result ≡ founded_by service.now }
{
    match service {
        None => None,
        Some(row) => Some(Change::Founded(row.state, row.identity)),
    }
}

/// The constitution that rows tell.
fn constitution_set(alloc: Global, rows: &[RuleAt]) -> Result<Change, AllocError>
    ensures { IfOk result (λ change. change ≡ the_changes.Applied
        (actions.SetConstitution (map (λ (r : a_rule.RuleAt). r.rule) rows.now))) }
{
    let mut rules = Vec::new(alloc);
    for row in rows {
        rules.push(row.rule)?;
    }
    Ok(Change::Applied(Action::SetConstitution(Sequence::from(rules))))
}

/// The dealing that its row tells.
fn dealt_by(alloc: Global, dealing: &Option<Dealing>) -> Result<Option<Change>, AllocError>
    ensures { IfOk result (λ change. option_to_list change ≡ dealt_by dealing.now) }
{
    match dealing {
        None => Ok(None),
        Some(dealing) => {
            let dealing = dealing.copy(alloc)?;
            Ok(Some(Change::Applied(Action::SetRecoveryThreshold(dealing))))
        }
    }
}

/// Adds the members whom rows tell.
fn push_members(changes: &mut Vec<Change>, rows: &[MemberRow]) -> Result<(), AllocError>
    ensures { OnOk result (changes.new.items ≡ changes.old.items
        ++ map (λ (m : a_member.MemberRow). set_member (member_of_row m)) rows.now) }
{
    for row in rows {
        let member = NewMember {
            number: row.number,
            key: row.key,
        };
        changes.push(Change::Applied(Action::SetMember(member)))?;
    }
    Ok(())
}

/// The removal of a member that its row tells.
fn member_removed_by(row: &MemberRow) -> Option<Change>
    ensures { result ≡ member_removed_by row.now }
{
    match row.status {
        MemberStatus::Removed => Some(Change::Applied(Action::RemoveMember(row.number))),
        _ => None,
    }
}

/// Adds the removals of members that rows tell.
fn push_removed(changes: &mut Vec<Change>, rows: &[MemberRow]) -> Result<(), AllocError>
    ensures { OnOk result
        (changes.new.items ≡ changes.old.items ++ filter_map member_removed_by rows.now) }
{
    for row in rows {
        push_some(changes, member_removed_by(row))?;
    }
    Ok(())
}

/// What settled a proposal, as its row tells.
fn settled_row(row: &ProposalAt) -> Option<Change>
    ensures { result ≡ settled_row row.now }
{
    match row.row.state {
        ProposalState::Open => None,
        state => Some(Change::Settled(row.id, state)),
    }
}

/// Adds what settled the proposals that rows tell.
fn push_settled(changes: &mut Vec<Change>, rows: &[ProposalAt]) -> Result<(), AllocError>
    ensures { OnOk result
        (changes.new.items ≡ changes.old.items ++ filter_map settled_row rows.now) }
{
    for row in rows {
        push_some(changes, settled_row(row))?;
    }
    Ok(())
}

/// The changes that stand at the seqno 0.
fn changes_at_base(alloc: Global, rows: &GovernedRows) -> Result<Vec<Change>, AllocError>
    ensures { IfOk result (λ changes. changes.items ≡ changes_at_base rows.now) }
{
    let mut changes = Vec::new(alloc);
    push_some(&mut changes, recovered_if(&rows.service))?;
    push_some(&mut changes, founded_by(&rows.service))?;
    changes.push(constitution_set(alloc, rows.rules.as_slice())?)?;
    push_some(&mut changes, dealt_by(alloc, &rows.dealing)?)?;
    push_members(&mut changes, rows.members.as_slice())?;
    push_removed(&mut changes, rows.members.as_slice())?;
    push_settled(&mut changes, rows.proposals.as_slice())?;
    Ok(changes)
}

/// The changes at the seqno 0.
fn changed_first(alloc: Global, changes: Vec<Change>) -> Result<Vec<Changed>, AllocError>
    ensures { IfOk result (λ changed. changed.items ≡ map (changed_at 0) changes.items) }
{
    let mut changed = Vec::new(alloc);
    for change in changes {
        changed.push(Changed { seqno: 0, change })?;
    }
    Ok(changed)
}

/// The removal of a node that its row tells, not above the base.
fn node_removed_by(base: u64, row: &NodeRow) -> Option<Changed>
    ensures { result ≡ node_removed_by base row.now }
{
    if row.removal == 0 {
        return None;
    }
    Some(Changed {
        seqno: row.removal.min(base),
        change: Change::Applied(Action::RemoveNode(row.id)),
    })
}

/// Adds the removals of nodes that rows tell.
fn push_removals(changed: &mut Vec<Changed>, base: u64, rows: &[NodeRow]) -> Result<(), AllocError>
    ensures { OnOk result
        (changed.new.items ≡ changed.old.items ++ filter_map (node_removed_by base) rows.now) }
{
    for row in rows {
        push_some(changed, node_removed_by(base, row))?;
    }
    Ok(())
}

/// The changes that rows stand for.
pub(crate) fn changes_of_rows(
    alloc: Global,
    rows: &GovernedRows,
) -> Result<Vec<Changed>, AllocError>
    ensures { IfOk result (λ changed. changed.items ≡ changes_of_rows rows.now) }
{
    let mut changed = changed_first(alloc, changes_at_base(alloc, rows)?)?;
    push_removals(&mut changed, rows.seqno, rows.nodes.as_slice())?;
    Ok(changed)
}
