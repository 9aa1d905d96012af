//! What lines ask of a node, which changes nothing.

ghost use Rattle.gl_lines.specs.declared.line.Line.TheVariants as lines;
ghost use Rattle.std.specs.Prelude.{◌≡◌, OnOk};
ghost use Rattle.gl_schedule.specs.Play.{PrintsAnywhere};
ghost use Rattle.gl_schedule.specs.Output.{effect_of};

use super::Machine;
use crate::numbers::node_number;
use crate::text::{put_ids, put_ledger, put_stage, put_status, put_unnamed};
use gl_base::TxId;
use gl_world::WorldNode;
use std::alloc::AllocError;

impl<N: WorldNode> Machine<N> {
    /// The status of a transaction at a node.
    pub(super) fn print_status(
        &self,
        node: u128,
        id: TxId,
        out: &mut Vec<u8>,
    ) -> Result<(), AllocError>
        ensures prints { OnOk result (PrintsAnywhere (λ s t. effect_of s t (lines.Status node id))
            self.now self.now out.old.items out.new.items) }
    {
        let node = node_number(node);
        if !self.world.has_node(node) {
            return put_unnamed(out);
        }
        put_status(out, self.world.status(node, id))
    }

    /// How far the retirement of another node has come, as a node sees it.
    pub(super) fn print_stage(
        &self,
        node: u128,
        other: u128,
        out: &mut Vec<u8>,
    ) -> Result<(), AllocError>
        ensures prints { OnOk result (PrintsAnywhere (λ s t. effect_of s t (lines.Stage node other))
            self.now self.now out.old.items out.new.items) }
    {
        let node = node_number(node);
        if !self.world.has_node(node) {
            return put_unnamed(out);
        }
        let other = node_number(other);
        if !self.world.has_node(other) {
            return put_unnamed(out);
        }
        put_stage(out, self.world.stage(node, other))
    }

    /// The identifiers of a node's committed ledger.
    pub(super) fn print_ids(&self, node: u128, out: &mut Vec<u8>) -> Result<(), AllocError>
        ensures prints { OnOk result (PrintsAnywhere (λ s t. effect_of s t (lines.Ids node))
            self.now self.now out.old.items out.new.items) }
    {
        let node = node_number(node);
        if !self.world.has_node(node) {
            return put_unnamed(out);
        }
        put_ids(out, self.world.committed_entries(node))
    }

    /// The entries of a node's log.
    pub(super) fn print_ledger(&self, node: u128, out: &mut Vec<u8>) -> Result<(), AllocError>
        ensures prints { OnOk result (PrintsAnywhere (λ s t. effect_of s t (lines.Ledger node))
            self.now self.now out.old.items out.new.items) }
    {
        let node = node_number(node);
        if !self.world.has_node(node) {
            return put_unnamed(out);
        }
        put_ledger(self.alloc, out, self.world.entries(node))
    }
}
