//! The genesis of a service of any number of nodes, and the keys of its nodes.

ghost use Rattle.std.specs.Prelude.{◌≡◌, ◌≤◌, ◌+◌, ◌-◌, suc, true, IfOk};
ghost use Rattle.std.specs.List.{list_any};
ghost use Rattle.gl_requests.specs.Ranges.{is_genesis};
ghost use Rattle.gl_gov_rules.specs.Actions.{has_key};
ghost use Rattle.gl_world.specs.Founding.{member_of, members_from, genesis_of, has_distinct_keys};
ghost use Rattle.gl_world.specs.Group.{IsGroup};
ghost use Rattle.gl_world.specs.Keyed.{AreKeysOf, HasKeysOf};

use crate::dealing::dealing;
use crate::keys::{hss_key, member_seed};
use crate::node_key::{NodeKey, new_nodes};
use crate::service_keys::ServiceKeys;
use crate::settings::Settings;
use gl_base::Sequence;
use gl_hss::{HssPublic, Levels, LmsKey, identifier_of};
use gl_requests::{Genesis, HssPublicKey, NewMember, NewNode};
use std::alloc::{AllocError, Global};

fn member_key(alloc: Global, settings: &Settings, number: u8) -> Result<HssPublicKey, AllocError>
    ensures { IfOk result (λ key. key ≡ (member_of settings.now number).key) }
{
    hss_key(alloc, Levels::One, &member_seed(settings, number))
}

fn member(alloc: Global, settings: &Settings, number: u8) -> Result<NewMember, AllocError>
    ensures { IfOk result (λ member. member ≡ member_of settings.now number) }
{
    Ok(NewMember {
        number,
        key: member_key(alloc, settings, number)?,
    })
}

/// Whether two members have one key. A key holds the identifier I that its seed gives, so where
/// these differ no tree is grown.
fn have_one_key(
    alloc: Global,
    settings: &Settings,
    number: u8,
    other: u8,
) -> Result<bool, AllocError>
    ensures { IfOk result (λ same. same
        ≡ has_key (member_of settings.now number).key (member_of settings.now other)) }
{
    if identifier_of(&member_seed(settings, other))
        != identifier_of(&member_seed(settings, number))
    {
        return Ok(false);
    }
    Ok(member_key(alloc, settings, other)? == member_key(alloc, settings, number)?)
}

/// Whether a member after this one has its key.
fn is_key_repeated(alloc: Global, settings: &Settings, number: u8) -> Result<bool, AllocError>
    requires { number ≤ settings.now.members }
    ensures { IfOk result (λ repeated. repeated
        ≡ list_any (has_key (member_of settings.now number).key)
        (members_from settings.now (suc number) (settings.now.members - number))) }
{
    for i in number..settings.members {
        if have_one_key(alloc, settings, number, i + 1)? {
            return Ok(true);
        }
    }
    Ok(false)
}

/// Whether no two members have one key. Each member is compared with all after it, which takes four
/// digests each time, and memory only where the identifiers I of two keys are the same.
pub fn has_distinct_keys(alloc: Global, settings: &Settings) -> Result<bool, AllocError>
    ensures { IfOk result (λ distinct. distinct ≡ has_distinct_keys settings.now) }
{
    for i in 0..settings.members {
        if is_key_repeated(alloc, settings, i + 1)? {
            return Ok(false);
        }
    }
    Ok(true)
}

/// The members, numbered from 1.
fn members(alloc: Global, settings: &Settings) -> Result<Sequence<NewMember>, AllocError>
    ensures { IfOk result (λ members. members ≡ (genesis_of settings.now).members) }
{
    let mut members = Vec::new(alloc);
    for i in 0..settings.members {
        members.push(member(alloc, settings, i + 1)?)?;
    }
    Ok(Sequence::from(members))
}

/// The genesis of a service, with its key and these nodes.
fn genesis(
    alloc: Global,
    settings: &Settings,
    identity: HssPublicKey,
    nodes: Sequence<NewNode>,
) -> Result<Genesis, AllocError>
    requires some { 1 ≤ settings.now.members }
    requires identity { identity ≡ (genesis_of settings.now).identity }
    requires nodes { nodes ≡ (genesis_of settings.now).nodes }
    ensures { IfOk result (λ genesis. genesis ≡ genesis_of settings.now) }
{
    Ok(Genesis {
        state: settings.state,
        identity,
        nodes,
        members: members(alloc, settings)?,
        dealing: dealing(alloc, settings)?,
    })
}

/// What a service begins with. Making it grows the tree of each member's key.
#[derive(Drop)]
pub struct Founding {
    /// The request that founds the service.
    pub genesis: Genesis,
    /// The keys of the nodes that start and of those that join, in the order of their numbers.
    pub keys: Vec<NodeKey>,
    /// The service's key.
    pub service: LmsKey,
}

impl Founding {
    /// Founds a service of such settings, which has these keys. The genesis fits its format.
    pub fn make(
        alloc: Global,
        settings: &Settings,
        keys: ServiceKeys,
    ) -> Result<Founding, AllocError>
        requires group { IsGroup settings.now }
        requires keys { HasKeysOf settings.now keys }
        ensures genesis { IfOk result (λ f. f.genesis ≡ genesis_of settings.now) }
        ensures keys { IfOk result (λ f. AreKeysOf settings.now
            (settings.now.starting + settings.now.joiners) f.keys.items) }
        ensures service { IfOk result (λ f. f.service ≡ keys.service) }
        ensures fits { IfOk result (λ f. is_genesis f.genesis ≡ true) }
    {
        let ServiceKeys {
            service,
            nodes: keys,
        } = keys;
        let nodes = new_nodes(alloc, settings, &keys, settings.starting)?;
        let identity = service.hss_public(Levels::Two);
        let genesis = genesis(alloc, settings, identity, nodes)?;
        Ok(Founding {
            genesis,
            keys,
            service,
        })
    }
}
