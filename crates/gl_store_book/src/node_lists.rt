//! The configurations of a ledger and the nodes that it records, as they are kept beside it.

ghost use Rattle.std.specs.Prelude.{◌≡◌, ◌≤◌, ◌+◌, ◌-◌, ◌<◌, ℕ, suc, [], take, IfOk, OnOk, OnErr};
ghost use Rattle.gl_config.specs.Active.{upto};
ghost use Rattle.gl_audit.specs.GovState.{Governed, IsGoverned, governed_up_to, ungoverned};

use crate::configurations::{copy_configurations, count_upto, push_configuration, trusted_nodes};
use crate::recorded::{self, push_recorded};
use gl_audit::GovState;
use gl_config::{Configuration, NodeId, NodeSet};
use std::alloc::{AllocError, Global};

/// Two lists, both in the order of the ledger.
#[derive(Drop)]
pub(crate) struct NodeLists {
    pub(crate) configurations: Vec<Configuration>,
    pub(crate) recorded: Vec<NodeId>,
}

impl NodeLists {
    ghost use Rattle.gl_store_book.specs.Lists.{AreListsBefore, AreListsOf, StandBehind, nodes_of};

    /// Those of no entries.
    pub fn new(alloc: Global) -> Self
        ensures { AreListsOf 0 ungoverned 0 result }
    {
        NodeLists {
            configurations: Vec::new(alloc),
            recorded: Vec::new(alloc),
        }
    }

    /// Those of no entries behind a base that is above 0.
    pub fn at_base(alloc: Global, gov: &GovState, base: u64) -> Result<Self, AllocError>
        requires above { 0 < base }
        requires governed { IsGoverned gov.now }
        requires none { gov.now.requests ≡ [] }
        ensures { IfOk result (λ lists. AreListsOf base gov.now 0 lists) }
    {
        let mut configurations = Vec::new(alloc);
        let nodes = trusted_nodes(alloc, gov.history())?;
        configurations.push(Configuration {
            seqno: base,
            nodes: NodeSet::new(nodes),
        })?;
        let mut recorded = Vec::new(alloc);
        push_recorded(&mut recorded, gov.history().nodes())?;
        Ok(NodeLists {
            configurations,
            recorded,
        })
    }

    /// The configurations of the ledger cut to a seqno, which is not below the base.
    pub fn configurations(&self, seqno: u64) -> &[Configuration]
        ensures prefix { (n : ℕ) × (result.now ≡ take n self.now.configurations.items) }
        ensures upto { (base count : ℕ) (g : Governed) → AreListsOf base g count self.now →
            base ≤ seqno → result.now ≡ upto seqno self.now.configurations.items }
    {
        let count = count_upto(&self.configurations, seqno);
        &self.configurations[..count]
    }

    /// The nodes that the ledger records which ends with the entry at a seqno, cut to another one,
    /// which is not below the base.
    pub fn recorded_nodes(&self, gov: &GovState, last: u64, upto: u64) -> &[NodeId]
        requires { self.now.recorded.items ≡ nodes_of gov.now }
        ensures { (base count : ℕ) → StandBehind base gov.now count → last ≡ base + count →
            base ≤ upto → result.now ≡ nodes_of (governed_up_to upto gov.now) }
    {
        if upto >= last {
            return &self.recorded;
        }
        let count = recorded::count_upto(gov.history().nodes(), upto);
        &self.recorded[..count]
    }

    /// Takes in what the last entry of a ledger, at a seqno, changes. Running out of memory leaves
    /// both lists as they were.
    pub(crate) fn push_last(
        &mut self,
        alloc: Global,
        gov: &GovState,
        seqno: u64,
    ) -> Result<(), AllocError>
        requires { (base : ℕ) × (count : ℕ) × (seqno ≡ base + suc count)
            × AreListsBefore base count gov.now self.old }
        ensures pushed { OnOk result ((base count : ℕ) → seqno ≡ base + suc count →
            AreListsBefore base count gov.now self.old →
            AreListsOf base gov.now (suc count) self.new) }
        ensures configurations { OnErr result
            (self.new.configurations.items ≡ self.old.configurations.items) }
        ensures recorded { OnErr result (self.new.recorded.items ≡ self.old.recorded.items) }
    {
        let count = self.recorded.len();
        push_recorded(&mut self.recorded, gov.history().nodes())?;
        if let Err(error) = push_configuration(alloc, &mut self.configurations, gov, seqno) {
            self.recorded.truncate(count);
            return Err(error);
        }
        Ok(())
    }

    /// Cuts both as the ledger is to be cut to a seqno, which is not below the base. Takes no
    /// memory.
    pub fn cut(&mut self, gov: &GovState, to: u64)
        ensures { (base count : ℕ) → StandBehind base gov.now count →
            AreListsOf base gov.now count self.old → base ≤ to → to ≤ base + count →
            AreListsOf base (governed_up_to to gov.now) (to - base) self.new }
    {
        let configurations = count_upto(&self.configurations, to);
        let recorded = recorded::count_upto(gov.history().nodes(), to);
        self.configurations.truncate(configurations);
        self.recorded.truncate(recorded);
    }

    /// The same in memory of their own.
    pub fn copy(&self, alloc: Global) -> Result<Self, AllocError>
        ensures configurations { IfOk result (λ lists.
            lists.configurations.items ≡ self.now.configurations.items) }
        ensures recorded { IfOk result (λ lists.
            lists.recorded.items ≡ self.now.recorded.items) }
    {
        Ok(NodeLists {
            configurations: copy_configurations(alloc, &self.configurations)?,
            recorded: Vec::from_slice(alloc, &self.recorded)?,
        })
    }
}
