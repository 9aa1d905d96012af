//! The bytes of requests. Numbers have their least significant byte first, bytes of no fixed length
//! stand after their length, and parts of one kind after their count.

ghost use Rattle.std.specs.Prelude.{◌≡◌, ℕ, ◌+◌, ◌*◌, ◌≤◌, ◌<◌, ◌^◌, Bool, true, List, ◌++◌, length, IfOk, OnOk};
ghost use Rattle.std.specs.List.{flat_map, list_all};
ghost use Rattle.gl_base.specs.Field.{with_u32_length};
ghost use Rattle.gl_requests.specs.Encoding.{state_byte, node_id, counted_bytes, node_bytes, member_bytes, share_bytes, dealing_bytes, rule_bytes, action_number, action_fields, action_bytes, act_tag, act_fields, act_bytes, request_bytes, signed_bytes, proposal_id};
ghost use Rattle.gl_requests.specs.Ranges.{are_counted, is_node, is_member, is_share, is_dealing, is_rule, is_action, is_act, is_member_request, is_genesis, is_request};

use crate::action::{Action, Rule};
use crate::genesis::{
    Dealing, Digest, Genesis, NewMember, NewNode, NodeId, Recovery, ServiceState, ShareDigest,
};
use crate::request::{GovernanceRequest, MemberAct, MemberRequest};
use gl_base::{put_bytes, put_flag, put_u8, put_u16, put_u32};
use sha2::{Digest as _, Sha256};
use std::alloc::{AllocError, Global};

/// The tag of the request that founds a service.
pub(crate) const GENESIS_TAG: u8 = 1;

/// The tag of the request that recovers a service.
pub(crate) const RECOVER_TAG: u8 = 2;

/// The tag of the request that a node be recorded.
pub(crate) const JOIN_TAG: u8 = 3;

/// The tag of the request that a node be marked.
pub(crate) const MARK_TAG: u8 = 4;

/// The tag of a member's acknowledgement.
pub(crate) const ACK_TAG: u8 = 5;

/// The tag of a proposal.
pub(crate) const PROPOSE_TAG: u8 = 6;

/// The tag of a ballot.
pub(crate) const BALLOT_TAG: u8 = 7;

/// The tag of a proposal's withdrawal.
pub(crate) const WITHDRAW_TAG: u8 = 8;

/// The tag of a recovery share.
pub(crate) const SHARE_TAG: u8 = 9;

/// A part of which a request has several, one after the other.
trait Encode: Drop {
    ghost bytes: { Self → List ℕ };

    ghost fits: { Self → Bool };

    /// Writes the part after what the list holds.
    fn put(&self, out: &mut Vec<u8>) -> Result<(), AllocError>
        requires { fits self.now ≡ true }
        ensures { OnOk result (out.new.items ≡ out.old.items ++ bytes self.now) };
}

fn put_all<T: Encode>(out: &mut Vec<u8>, parts: &[T]) -> Result<(), AllocError>
    requires { list_all T.fits parts.now ≡ true }
    ensures { OnOk result (out.new.items ≡ out.old.items ++ flat_map T.bytes parts.now) }
{
    for part in parts {
        part.put(out)?;
    }
    Ok(())
}

/// Writes the parts after their count.
fn put_counted<T: Encode>(out: &mut Vec<u8>, parts: &[T]) -> Result<(), AllocError>
    requires { are_counted T.fits parts.now ≡ true }
    ensures { OnOk result (out.new.items ≡ out.old.items ++ counted_bytes T.bytes parts.now) }
{
    put_u8(out, parts.len() as u8)?;
    put_all(out, parts)
}

/// Writes the bytes after their length.
fn put_sized(out: &mut Vec<u8>, bytes: &[u8]) -> Result<(), AllocError>
    requires { length bytes.now < 2 ^ 32 }
    ensures { OnOk result (out.new.items ≡ out.old.items ++ with_u32_length bytes.now) }
{
    put_u32(out, bytes.len() as u32)?;
    put_bytes(out, bytes)
}

impl Encode for NewNode {
    ghost bytes = { node_bytes };

    ghost fits = { is_node };

    fn put(&self, out: &mut Vec<u8>) -> Result<(), AllocError> {
        put_bytes(out, &self.key)?;
        put_sized(out, self.endorsement.as_slice())
    }
}

impl Encode for NewMember {
    ghost bytes = { member_bytes };

    ghost fits = { is_member };

    fn put(&self, out: &mut Vec<u8>) -> Result<(), AllocError> {
        out.push(self.number)?;
        put_bytes(out, &self.key)
    }
}

impl Encode for ShareDigest {
    ghost bytes = { share_bytes };

    ghost fits = { is_share };

    fn put(&self, out: &mut Vec<u8>) -> Result<(), AllocError> {
        out.push(self.member)?;
        put_bytes(out, &self.digest)
    }
}

impl Encode for Rule {
    ghost bytes = { rule_bytes };

    ghost fits = { is_rule };

    fn put(&self, out: &mut Vec<u8>) -> Result<(), AllocError> {
        put_u16(out, self.num)?;
        put_u16(out, self.den)
    }
}

fn put_dealing(out: &mut Vec<u8>, dealing: &Dealing) -> Result<(), AllocError>
    requires { is_dealing dealing.now ≡ true }
    ensures { OnOk result (out.new.items ≡ out.old.items ++ dealing_bytes dealing.now) }
{
    out.push(dealing.threshold)?;
    put_bytes(out, &dealing.secret_digest)?;
    put_counted(out, dealing.shares.as_slice())
}

fn put_action_fields(out: &mut Vec<u8>, action: &Action) -> Result<(), AllocError>
    requires { is_action action.now ≡ true }
    ensures { OnOk result (out.new.items ≡ out.old.items ++ action_fields action.now) }
{
    match action {
        Action::SetMember(member) => member.put(out),
        Action::RemoveMember(number) => {
            out.push(*number)?;
            Ok(())
        }
        Action::SetRecoveryThreshold(dealing) => put_dealing(out, dealing),
        Action::TransitionNodeToTrusted(id) | Action::RemoveNode(id) => put_bytes(out, id),
        Action::TransitionServiceToOpen => Ok(()),
        Action::SetConstitution(rules) => put_all(out, rules.as_slice()),
    }
}

impl Encode for Action {
    ghost bytes = { action_bytes };

    ghost fits = { is_action };

    fn put(&self, out: &mut Vec<u8>) -> Result<(), AllocError> {
        out.push(self.number())?;
        put_action_fields(out, self)
    }
}

fn put_proposal(out: &mut Vec<u8>, actions: &[Action]) -> Result<(), AllocError>
    requires count { length actions.now ≤ 16 }
    requires fits { list_all is_action actions.now ≡ true }
    ensures { OnOk result (out.new.items
        ≡ out.old.items ++ counted_bytes action_bytes actions.now) }
{
    put_u8(out, actions.len() as u8)?;
    put_all(out, actions)
}

impl MemberAct {
    /// The tag of a request that asks for this.
    fn tag(&self) -> u8
        ensures { result ≡ act_tag self.now }
    {
        match self {
            MemberAct::Ack => ACK_TAG,
            MemberAct::Propose(_) => PROPOSE_TAG,
            MemberAct::Ballot { .. } => BALLOT_TAG,
            MemberAct::Withdraw { .. } => WITHDRAW_TAG,
            MemberAct::Share { .. } => SHARE_TAG,
        }
    }
}

fn put_act_fields(out: &mut Vec<u8>, act: &MemberAct) -> Result<(), AllocError>
    requires { is_act act.now ≡ true }
    ensures { OnOk result (out.new.items ≡ out.old.items ++ act_fields act.now) }
{
    match act {
        MemberAct::Ack => Ok(()),
        MemberAct::Propose(actions) => put_proposal(out, actions.as_slice()),
        MemberAct::Ballot { proposal, agrees } => {
            put_bytes(out, proposal)?;
            put_flag(out, *agrees)
        }
        MemberAct::Withdraw { proposal } => put_bytes(out, proposal),
        MemberAct::Share { share } => put_bytes(out, share),
    }
}

/// Writes a member's request without its signature.
fn put_act(out: &mut Vec<u8>, member: u8, act: &MemberAct) -> Result<(), AllocError>
    requires { is_act act.now ≡ true }
    ensures { OnOk result (out.new.items ≡ out.old.items ++ act_bytes member act.now) }
{
    out.push(act.tag())?;
    out.push(member)?;
    put_act_fields(out, act)
}

fn put_genesis(out: &mut Vec<u8>, genesis: &Genesis) -> Result<(), AllocError>
    requires { is_genesis genesis.now ≡ true }
    ensures { OnOk result (out.new.items
        ≡ out.old.items ++ request_bytes (GovernanceRequest.Genesis genesis.now)) }
{
    out.push(GENESIS_TAG)?;
    out.push(genesis.state.byte())?;
    put_bytes(out, &genesis.identity)?;
    put_counted(out, genesis.nodes.as_slice())?;
    put_counted(out, genesis.members.as_slice())?;
    put_dealing(out, &genesis.dealing)
}

fn put_recovery(out: &mut Vec<u8>, recovery: &Recovery) -> Result<(), AllocError>
    requires { is_request (GovernanceRequest.Recover recovery.now) ≡ true }
    ensures { OnOk result (out.new.items
        ≡ out.old.items ++ request_bytes (GovernanceRequest.Recover recovery.now)) }
{
    out.push(RECOVER_TAG)?;
    put_bytes(out, &recovery.identity)?;
    put_counted(out, recovery.nodes.as_slice())
}

fn put_member_request(out: &mut Vec<u8>, request: &MemberRequest) -> Result<(), AllocError>
    requires { is_member_request request.now ≡ true }
    ensures { OnOk result (out.new.items
        ≡ out.old.items ++ request_bytes (GovernanceRequest.Member request.now)) }
{
    put_act(out, request.member, &request.act)?;
    put_sized(out, request.signature.as_slice())
}

fn put_request(out: &mut Vec<u8>, request: &GovernanceRequest) -> Result<(), AllocError>
    requires { is_request request.now ≡ true }
    ensures { OnOk result (out.new.items ≡ out.old.items ++ request_bytes request.now) }
{
    match request {
        GovernanceRequest::Genesis(genesis) => put_genesis(out, genesis),
        GovernanceRequest::Recover(recovery) => put_recovery(out, recovery),
        GovernanceRequest::Join(node) => {
            out.push(JOIN_TAG)?;
            node.put(out)
        }
        GovernanceRequest::Mark(id) => {
            out.push(MARK_TAG)?;
            put_bytes(out, id)
        }
        GovernanceRequest::Member(request) => put_member_request(out, request),
    }
}

/// The bytes of actions, one after the other, without their count.
pub fn actions_bytes(alloc: Global, actions: &[Action]) -> Result<Vec<u8>, AllocError>
    requires fits { list_all is_action actions.now ≡ true }
    ensures bytes { IfOk result (λ bytes. bytes.items ≡ flat_map action_bytes actions.now) }
{
    let mut out = Vec::new(alloc);
    put_all(&mut out, actions)?;
    Ok(out)
}

impl ServiceState {
    /// The byte that encodes the state.
    pub fn byte(self) -> u8
        ensures byte { result ≡ state_byte self }
        ensures range { (1 ≤ result) × (result ≤ 3) }
    {
        match self {
            ServiceState::Opening => 1,
            ServiceState::Open => 2,
            ServiceState::WaitingForRecoveryShares => 3,
        }
    }
}

impl NewNode {
    /// The node's identifier: the SHA-256 digest of its key.
    pub fn id(&self) -> NodeId
        ensures id { result ≡ node_id self.now }
    {
        Sha256::digest(&self.key)
    }
}

impl Dealing {
    /// The dealing's bytes.
    #[tactic(auto, using(crate::proofs::Sizes::dealing_sizes))]
    pub fn bytes(&self, alloc: Global) -> Result<Vec<u8>, AllocError>
        requires fits { is_dealing self.now ≡ true }
        ensures bytes { IfOk result (λ bytes. bytes.items ≡ dealing_bytes self.now) }
        ensures size { IfOk result (λ bytes.
            length bytes.items ≡ 34 + 33 * length self.now.shares) }
    {
        let mut out = Vec::new(alloc);
        put_dealing(&mut out, self)?;
        Ok(out)
    }
}

impl Rule {
    /// The rule's bytes: its two numbers.
    #[tactic(auto, using(crate::proofs::Sizes::sizes))]
    pub fn bytes(&self, alloc: Global) -> Result<Vec<u8>, AllocError>
        ensures bytes { IfOk result (λ bytes. bytes.items ≡ rule_bytes self.now) }
        ensures size { IfOk result (λ bytes. length bytes.items ≡ 4) }
    {
        let mut out = Vec::new(alloc);
        put_u16(&mut out, self.num)?;
        put_u16(&mut out, self.den)?;
        Ok(out)
    }
}

impl Action {
    /// The action's number, from 1 to 7, under which its rule stands in the constitution.
    pub fn number(&self) -> u8
        ensures number { result ≡ action_number self.now }
        ensures range { (1 ≤ result) × (result ≤ 7) }
    {
        match self {
            Action::SetMember(_) => 1,
            Action::RemoveMember(_) => 2,
            Action::SetRecoveryThreshold(_) => 3,
            Action::TransitionNodeToTrusted(_) => 4,
            Action::RemoveNode(_) => 5,
            Action::TransitionServiceToOpen => 6,
            Action::SetConstitution(_) => 7,
        }
    }
}

impl MemberRequest {
    /// The bytes of the whole request, with its signature.
    pub fn encode(&self, alloc: Global) -> Result<Vec<u8>, AllocError>
        requires fits { is_member_request self.now ≡ true }
        ensures bytes { IfOk result (λ bytes.
            bytes.items ≡ request_bytes (GovernanceRequest.Member self.now)) }
    {
        let mut out = Vec::new(alloc);
        put_member_request(&mut out, self)?;
        Ok(out)
    }

    /// The identifier of the proposal that the request makes: the SHA-256 digest of its bytes.
    pub fn proposal_id(&self, alloc: Global) -> Result<Digest, AllocError>
        requires fits { is_member_request self.now ≡ true }
        ensures id { IfOk result (λ id. id ≡ proposal_id self.now) }
    {
        let bytes = self.encode(alloc)?;
        Ok(Sha256::digest(&bytes))
    }

    /// What the member signs, in a service with this key: a word, the key, and the request's bytes
    /// before the signature.
    pub fn signed_bytes(&self, alloc: Global, identity: &[u8]) -> Result<Vec<u8>, AllocError>
        requires fits { is_act self.now.act ≡ true }
        ensures bytes { IfOk result (λ bytes. bytes.items ≡ signed_bytes identity.now self.now) }
    {
        let mut out = Vec::new(alloc);
        put_bytes(&mut out, b"gl-gov1")?;
        put_bytes(&mut out, identity)?;
        put_act(&mut out, self.member, &self.act)?;
        Ok(out)
    }
}

impl GovernanceRequest {
    /// The bytes of the request.
    pub fn encode(&self, alloc: Global) -> Result<Vec<u8>, AllocError>
        requires fits { is_request self.now ≡ true }
        ensures bytes { IfOk result (λ bytes. bytes.items ≡ request_bytes self.now) }
    {
        let mut out = Vec::new(alloc);
        put_request(&mut out, self)?;
        Ok(out)
    }
}
