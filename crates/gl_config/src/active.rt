//! The configurations that are active at a commit.

ghost use Rattle.std.specs.Prelude.{◌≡◌, ◌<◌, filter, nat_le, AllPairs};
ghost use Rattle.gl_rules.specs.Identity.{member};
ghost use Rattle.gl_rules.specs.Majority.{quorum};
ghost use Rattle.gl_rules.specs.Configuration.{in_some};
ghost use Rattle.gl_config.specs.Active.{active_of, sets_of, upto};

use crate::configuration::Configuration;
use crate::node_set::{NodeId, NodeSet, majority};
use std::marker::Model;

/// The configurations that are active at a commit: the last one at or below it, and all later ones.
/// They are borrowed from a ledger's list, and no call takes memory.
#[derive(Debug, Drop)]
pub struct Active<'a> {
    configurations: &'a [Configuration],
}

impl<'a> Model for Active<'a> {
    ghost use Rattle.std.specs.Prelude.{List};
    ghost use Rattle.gl_config.specs.declared.configuration.Configuration.{Configuration};

    ghost Value = { List Configuration };

    ghost view = { λ a. a.configurations.now };
}

impl<'a> Active<'a> {
    /// The active ones of a ledger's configurations, which stand in the order of their seqnos.
    pub fn of(configurations: &'a [Configuration], commit: u64) -> Active<'a>
        requires ascending { AllPairs (λ c d. c.seqno < d.seqno) configurations.now }
        ensures { result ≡ active_of configurations.now commit }
    {
        let mut rest = configurations;
        while rest.len() > 1 && rest[1].seqno <= commit {
            rest = &rest[1..];
        }
        Active {
            configurations: rest,
        }
    }

    /// The active configurations, in the order of their seqnos.
    pub fn as_slice(&self) -> &[Configuration]
        ensures { result.now ≡ self.now }
    {
        self.configurations
    }

    /// Whether these nodes are a majority in each active configuration: so a candidate wins.
    pub fn quorum(&self, votes: &NodeSet) -> bool
        ensures { result ≡ quorum (λ y. member y votes.now) (sets_of self.now) }
    {
        self.configurations
            .iter()
            .all(|configuration| majority(votes, &configuration.nodes))
    }

    /// Whether these nodes are a majority in each active configuration at or below a seqno: so what
    /// they hold up to it may be committed.
    pub fn quorum_upto(&self, votes: &NodeSet, seqno: u64) -> bool
        ensures { result ≡ quorum (λ y. member y votes.now) (sets_of (upto seqno self.now)) }
    {
        self.configurations.iter().all(|configuration| configuration.seqno > seqno
            || majority(votes, &configuration.nodes))
    }

    /// Whether a node is in an active configuration.
    pub fn holds(&self, node: &NodeId) -> bool
        ensures { result ≡ in_some node.now (sets_of self.now) }
    {
        self.configurations
            .iter()
            .any(|configuration| configuration.nodes.holds(node))
    }
}
