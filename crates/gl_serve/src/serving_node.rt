//! A node as a serve knows it.

use crate::observer::{NodeStatus, Observer};
use crate::payload::{Payload, payload_in};
use crate::served::{handle, own};
use crate::{Outcome, OwnEvent, ServedNode};
use gl_answers::ClientBook;
use gl_election::Role;
use gl_node::{KeptBook, Replica};
use gl_outside::Disk;
use std::alloc::AllocError;
use std::marker::Model;

/// A node that serves peers and clients from a file, and who looks on. It is seen as the node.
#[derive(Drop)]
pub struct ServingNode<D: Disk, B: KeptBook + ClientBook, O: Observer> {
    replica: Replica<D, B>,
    observer: O,
}

impl<D: Disk, B: KeptBook + ClientBook, O: Observer> Model for ServingNode<D, B, O> {
    ghost use Rattle.gl_serve.specs.Types.{NodeSeen};

    ghost Value = { NodeSeen D B };

    ghost view = { λ s. s.replica };
}

impl<D: Disk, B: KeptBook + ClientBook, O: Observer> ServingNode<D, B, O> {
    ghost use Rattle.std.specs.Prelude.{◌≡◌};

    pub fn new(replica: Replica<D, B>, observer: O) -> Self
        ensures { result ≡ replica }
    {
        ServingNode { replica, observer }
    }

    /// Tells who looks on where the node stands.
    fn report(&mut self)
        ensures { self.new ≡ self.old }
    {
        let core = self.replica.core();
        let node_status = NodeStatus {
            role: core.peer.role,
            view: core.peer.view,
            commit: core.commit,
        };
        self.observer.observe(node_status);
    }

    /// The node.
    pub fn replica(&self) -> &Replica<D, B>
        ensures { result.now ≡ self.now }
    {
        &self.replica
    }

    /// The node, which serves no more.
    pub fn into_replica(self) -> Replica<D, B>
        ensures { result ≡ self }
    {
        self.replica
    }
}

impl<D: Disk, B: KeptBook + ClientBook, O: Observer> ServedNode for ServingNode<D, B, O> {
    ghost use Rattle.gl_serve.specs.NodeWork.{serving_rules};

    type Payload = Payload;

    ghost rules = { serving_rules B.stands B.goes_on D.honest D.bytes D.past D.faults };

    fn read(&self, payload: &[u8]) -> Result<Option<Payload>, AllocError> {
        payload_in(self.replica.core().alloc, payload)
    }

    fn handle(&mut self, payload: Payload) -> Outcome {
        let outcome = handle(&mut self.replica, payload);
        self.report();
        outcome
    }

    fn own(&mut self, event: OwnEvent) -> Outcome {
        let outcome = own(&mut self.replica, event);
        self.report();
        outcome
    }

    fn leads(&self) -> bool {
        matches!(self.replica.core().peer.role, Role::Leader)
    }
}
