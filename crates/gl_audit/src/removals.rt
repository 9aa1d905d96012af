//! Which commits aren't below the removals of marked nodes.

ghost use Rattle.std.specs.Prelude.{◌≡◌, option_map};
ghost use Rattle.std.specs.List.{list_all};
ghost use Rattle.gl_gov_rules.specs.declared.change.Changed as a_change;
ghost use Rattle.gl_gov_rules.specs.declared.change.RecordedNode as a_node;
ghost use Rattle.gl_gov_rules.specs.Nodes.{mark, nodes, retirement};
ghost use Rattle.gl_ledger.specs.Broken.{is_above_removal};

use gl_gov_rules::History;

/// Of a node that is marked after a seqno, the removal is not above a commit.
fn is_above_removal(mark: Option<u64>, removal: Option<u64>, seqno: u64, commit: u64) -> bool
    ensures { result ≡ is_above_removal mark removal seqno commit }
{
    match (mark, removal) {
        (Some(mark), Some(removal)) => mark <= seqno || removal <= commit,
        _ => true,
    }
}

/// The same of all recorded nodes, each asked.
fn are_all_above(past: &History, seqno: u64, commit: u64) -> bool
    ensures { result ≡ list_all (λ (n : a_node.RecordedNode). is_above_removal
        (mark past.now n.id) (option_map (λ (c : a_change.Changed). c.seqno)
        (retirement past.now n)) seqno commit) (nodes past.now) }
{
    past.nodes().iter().all(|node| {
        is_above_removal(past.mark(&node.id), past.removal(node), seqno, commit)
    })
}

/// The same of all recorded nodes. Where none was marked after the seqno, none is asked.
pub(crate) fn are_above_removals(past: &History, seqno: u64, commit: u64) -> bool
    ensures { result ≡ list_all (λ (n : a_node.RecordedNode). is_above_removal
        (mark past.now n.id) (option_map (λ (c : a_change.Changed). c.seqno)
        (retirement past.now n)) seqno commit) (nodes past.now) }
{
    !past.has_mark_after(seqno) || are_all_above(past, seqno, commit)
}
