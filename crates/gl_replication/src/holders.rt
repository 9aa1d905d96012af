//! Majorities of the nodes that are known to hold the log up to a seqno.

ghost use Rattle.std.specs.Prelude.{◌≡◌, ◌≤◌, ◌<◌, length, AllPairs};
ghost use Rattle.gl_rules.specs.Majority.{majority, quorum, tally};
ghost use Rattle.gl_config.specs.Active.{active_of, sets_of};
ghost use Rattle.gl_replication.specs.Pairs.{held, holds};

use gl_config::{Active, Configuration, NodeId, NodeSet};

/// The seqno that the first pair of a node has, 0 where it has none.
#[tactic(auto, unfolding(gl_rules::specs::Identity::same))]
pub(crate) fn held(pairs: &[(NodeId, u64)], y: &NodeId) -> u64
    ensures { result ≡ held pairs.now y.now }
{
    match pairs.split_first() {
        None => 0,
        Some((pair, rest)) => {
            if *y == pair.0 {
                return pair.1;
            }
            held(rest, y)
        }
    }
}

/// Whether y holds the log up to a seqno, as far as the leader knows.
#[tactic(auto, unfolding(gl_rules::specs::Identity::same))]
fn is_holding(me: &NodeId, seqno: u64, matched: &[(NodeId, u64)], y: &NodeId) -> bool
    ensures { result ≡ holds me.now seqno (held matched.now) y.now }
{
    y == me || seqno <= held(matched, y)
}

/// How many of these nodes hold the log up to a seqno.
fn tally_holding(me: &NodeId, seqno: u64, matched: &[(NodeId, u64)], nodes: &[NodeId]) -> usize
    ensures value { result ≡ tally (holds me.now seqno (held matched.now)) nodes.now }
    ensures within { result ≤ length nodes.now }
{
    nodes
        .iter()
        .filter(|y| is_holding(me, seqno, matched, y))
        .count()
}

/// Whether more than half of the configuration hold the log up to a seqno.
fn is_majority_holding(
    me: &NodeId,
    seqno: u64,
    matched: &[(NodeId, u64)],
    configuration: &NodeSet,
) -> bool
    ensures { result ≡ majority (holds me.now seqno (held matched.now)) configuration.now }
{
    2 * tally_holding(me, seqno, matched, configuration.as_slice()) > configuration.len()
}

/// Whether a majority of each active configuration holds the log up to a seqno. Takes no memory.
pub(crate) fn is_quorum_holding(
    me: &NodeId,
    seqno: u64,
    matched: &[(NodeId, u64)],
    configurations: &[Configuration],
    commit: u64,
) -> bool
    requires { AllPairs (λ c d. c.seqno < d.seqno) configurations.now }
    ensures { result ≡ quorum (holds me.now seqno (held matched.now))
        (sets_of (active_of configurations.now commit)) }
{
    Active::of(configurations, commit).as_slice().iter().all(|configuration| is_majority_holding(
        me,
        seqno,
        matched,
        &configuration.nodes,
    ))
}
