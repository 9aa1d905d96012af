//! The keys of a service and of its nodes.

ghost use Rattle.std.specs.Prelude.{◌≡◌, ◌≤◌, ◌+◌, IfOk};
ghost use Rattle.gl_world.specs.Founding.{node_ids};
ghost use Rattle.gl_world.specs.Keyed.{HasKeysOf};

use crate::keys::service_key;
use crate::node_key::{NodeKey, node_ids, node_keys};
use crate::settings::Settings;
use gl_entry::NodeId;
use gl_hss::LmsKey;
use std::alloc::{AllocError, Global};

/// The keys of a service and of its nodes.
#[derive(Drop)]
pub struct ServiceKeys {
    /// The service's key, which endorses those of its nodes.
    pub service: LmsKey,
    /// The keys of the nodes that start and of those that join, in the order of their numbers.
    pub nodes: Vec<NodeKey>,
}

impl ServiceKeys {
    /// Grows the tree of each of the keys, which takes some 35,000 digests.
    pub fn make(alloc: Global, settings: &Settings) -> Result<ServiceKeys, AllocError>
        requires few { settings.now.starting + settings.now.joiners ≤ 32 }
        ensures { IfOk result (λ keys. HasKeysOf settings.now keys) }
    {
        let service = service_key(alloc, settings)?;
        let count = settings.starting + settings.joiners;
        let nodes = node_keys(alloc, settings, &service, count)?;
        Ok(ServiceKeys { service, nodes })
    }

    /// The identifiers of the nodes, in the order of their numbers.
    pub fn node_ids(&self, alloc: Global, settings: &Settings) -> Result<Vec<NodeId>, AllocError>
        requires { HasKeysOf settings.now self.now }
        ensures { IfOk result (λ ids. ids.items ≡ node_ids settings.now) }
    {
        node_ids(alloc, settings, &self.nodes)
    }
}
