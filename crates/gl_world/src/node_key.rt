//! The keys of a service's nodes.

ghost use Rattle.std.specs.Prelude.{◌≡◌, ◌≤◌, ◌+◌, ℕ, length, map, IfOk};
ghost use Rattle.sha2.specs.Sha256.{sha256};
ghost use Rattle.gl_hss.specs.Secrets.{public_of};
ghost use Rattle.gl_hss.specs.Tree.{key_bytes};
ghost use Rattle.gl_world.specs.Founding.{node_ids, node_of, numbers_from};
ghost use Rattle.gl_world.specs.Keyed.{AreKeysOf, IsKeyOf};
ghost use Rattle.gl_world.specs.Keys.{private_key, service_seed};

use crate::keys::{node_seed, private_key};
use crate::settings::Settings;
use gl_base::{Bytes, Sequence};
use gl_entry::NodeId;
use gl_hss::LmsKey;
use gl_requests::NewNode;
use sha2::{Digest, Sha256};
use std::alloc::{AllocError, Global};

/// The key of a node, and the service's endorsement of it.
#[derive(Drop)]
pub struct NodeKey {
    pub key: LmsKey,
    pub endorsement: Vec<u8>,
}

impl NodeKey {
    /// The key of the node with a number, which the service's key endorses.
    fn make(
        alloc: Global,
        settings: &Settings,
        service: &LmsKey,
        number: u8,
    ) -> Result<NodeKey, AllocError>
        requires service { service.now ≡ private_key (service_seed settings.now) }
        requires some { 1 ≤ number }
        requires few { number ≤ 32 }
        ensures { IfOk result (λ node. IsKeyOf settings.now number node) }
    {
        let key = private_key(alloc, &node_seed(settings, number))?;
        let endorsement = service.sign_leaf(u32::from(number - 1), &key.public())?;
        Ok(NodeKey { key, endorsement })
    }

    /// The identifier of the node.
    fn id(&self) -> NodeId
        ensures { result ≡ sha256 (key_bytes (public_of self.now.key)) }
    {
        Sha256::digest(&self.key.public())
    }

    /// The node as a genesis names it.
    fn new_node(&self, alloc: Global) -> Result<NewNode, AllocError>
        ensures { IfOk result (λ node. node ≡ record {
          key = key_bytes (public_of self.now.key);
          endorsement = self.now.endorsement.items;
        }) }
    {
        Ok(NewNode {
            key: self.key.public(),
            endorsement: Bytes::from(Vec::from_slice(alloc, &self.endorsement)?),
        })
    }
}

/// The keys of the first so many nodes, in the order of their numbers.
pub(crate) fn node_keys(
    alloc: Global,
    settings: &Settings,
    service: &LmsKey,
    count: u8,
) -> Result<Vec<NodeKey>, AllocError>
    requires service { service.now ≡ private_key (service_seed settings.now) }
    requires few { count ≤ 32 }
    ensures { IfOk result (λ keys. AreKeysOf settings.now count keys.items) }
{
    let mut keys = Vec::new(alloc);
    for i in 0..count {
        keys.push(NodeKey::make(alloc, settings, service, i + 1)?)?;
    }
    Ok(keys)
}

/// The identifiers of the nodes with these keys.
pub(crate) fn node_ids(
    alloc: Global,
    settings: &Settings,
    keys: &[NodeKey],
) -> Result<Vec<NodeId>, AllocError>
    requires { AreKeysOf settings.now (settings.now.starting + settings.now.joiners) keys.now }
    ensures { IfOk result (λ ids. ids.items ≡ node_ids settings.now) }
{
    let mut ids = Vec::new(alloc);
    for i in 0..usize::from(settings.starting) + usize::from(settings.joiners) {
        ids.push(keys[i].id())?;
    }
    Ok(ids)
}

/// The first so many nodes, as a genesis names them.
pub(crate) fn new_nodes(
    alloc: Global,
    settings: &Settings,
    keys: &[NodeKey],
    count: u8,
) -> Result<Sequence<NewNode>, AllocError>
    requires keys { (all : ℕ) × AreKeysOf settings.now all keys.now }
    requires there { count ≤ length keys.now }
    ensures { IfOk result (λ nodes.
        nodes ≡ map (node_of settings.now) (numbers_from 1 count)) }
{
    let mut nodes = Vec::new(alloc);
    for i in 0..count {
        nodes.push(keys[usize::from(i)].new_node(alloc)?)?;
    }
    Ok(Sequence::from(nodes))
}

/// The node with a number as it asks to join: its key, which the service's key endorses.
pub fn joining_node(
    alloc: Global,
    settings: &Settings,
    service: &LmsKey,
    number: u8,
) -> Result<NewNode, AllocError>
    requires service { service.now ≡ private_key (service_seed settings.now) }
    requires some { 1 ≤ number }
    requires few { number ≤ 32 }
    ensures { IfOk result (λ node. node ≡ node_of settings.now number) }
{
    NodeKey::make(alloc, settings, service, number)?.new_node(alloc)
}
