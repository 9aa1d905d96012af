//! The service of a load: its genesis, and its node's key.

ghost use Rattle.std.specs.Prelude.{◌≡◌, ◌∷◌, ◌<◌, ◌^◌, [], IfOk};
ghost use Rattle.gl_hss.specs.Secrets.{public_of};
ghost use Rattle.gl_hss.specs.Tree.{key_bytes};
ghost use Rattle.gl_hss.specs.Types.{height};
ghost use Rattle.gl_world.specs.Founding.{endorsement_by, genesis_of};
ghost use Rattle.gl_world.specs.Group.{IsGroup};
ghost use Rattle.gl_world.specs.Keys.{node_seed};
ghost use Rattle.gl_load.specs.Founding.{load_settings};

use gl_base::{Bytes, Sequence};
use gl_hss::{LmsKey, Types};
use gl_requests::{Genesis, NewNode, ServiceState};
use gl_world::{Founding, ServiceKeys, Settings, node_seed, service_key};
use std::alloc::{AllocError, Global};

/// The settings of a schedule with one node, one member and an open service.
fn settings(seed: &[u8; 32]) -> Settings
    ensures { result ≡ load_settings seed.now }
{
    Settings {
        starting: 1,
        joiners: 0,
        members: 1,
        state: ServiceState::Open,
        seed: *seed,
    }
}

/// The seed of the node's key: that of node 1 of these settings.
pub(crate) fn key_seed(seed: &[u8; 32]) -> [u8; 32]
    ensures { result ≡ node_seed (load_settings seed.now) 1 }
{
    node_seed(&settings(seed), 1)
}

/// A node with this key, which the service's key endorses with its first leaf.
fn endorsed_node(alloc: Global, service: &LmsKey, key: &LmsKey) -> Result<NewNode, AllocError>
    requires { 0 < 2 ^ height service.now.types }
    ensures { IfOk result (λ node. node ≡ record {
      key = key_bytes (public_of key.now);
      endorsement = endorsement_by service.now 0 (key_bytes (public_of key.now));
    }) }
{
    let public = key.public();
    let endorsement = service.sign_leaf(0, &public)?;
    Ok(NewNode {
        key: public,
        endorsement: Bytes::from(endorsement),
    })
}

/// A genesis with this node in place of its nodes.
fn with_node(alloc: Global, genesis: Genesis, node: NewNode) -> Result<Genesis, AllocError>
    ensures { IfOk result (λ g. g ≡ record genesis { nodes = node ∷ [] }) }
{
    let mut nodes = Vec::new(alloc);
    nodes.push(node)?;
    let Genesis {
        state,
        identity,
        members,
        dealing,
        ..
    } = genesis;
    Ok(Genesis {
        state,
        identity,
        nodes: Sequence::from(nodes),
        members,
        dealing,
    })
}

/// The genesis of a schedule with these settings.
fn schedule_genesis(alloc: Global, settings: &Settings) -> Result<Genesis, AllocError>
    requires { IsGroup settings.now }
    ensures { IfOk result (λ genesis. genesis ≡ genesis_of settings.now) }
{
    let keys = ServiceKeys::make(alloc, settings)?;
    let founding = Founding::make(alloc, settings, keys)?;
    Ok(founding.genesis)
}

/// The service of a load.
#[derive(Drop)]
pub struct LoadFounding {
    /// The key of its node.
    pub key: LmsKey,
    /// The request that founds it.
    pub genesis: Genesis,
}

impl LoadFounding {
    ghost use Rattle.gl_ledger.specs.NodeKeys.{service_layers};
    ghost use Rattle.gl_ledger.specs.OpeningLedger.{Founds};
    ghost use Rattle.gl_load.specs.Founding.{load_genesis, load_id, load_key, load_keys};

    /// The service of this seed, which its node can found. Making it grows each key once, that of
    /// its node by some million digests. Fails only where memory runs out.
    pub fn make(alloc: Global, seed: &[u8; 32]) -> Result<LoadFounding, AllocError>
        ensures key { IfOk result (λ f. f.key ≡ load_key seed.now) }
        ensures genesis { IfOk result (λ f. f.genesis ≡ load_genesis seed.now) }
        ensures founds { IfOk result (λ f.
            Founds service_layers (load_keys seed.now) f.genesis (load_id seed.now)) }
    {
        let settings = settings(seed);
        let genesis = schedule_genesis(alloc, &settings)?;
        let service = service_key(alloc, &settings)?;
        let key = LmsKey::make(alloc, key_seed(seed), Types::H10W4)?;
        let node = endorsed_node(alloc, &service, &key)?;
        let genesis = with_node(alloc, genesis, node)?;
        Ok(LoadFounding { key, genesis })
    }
}
