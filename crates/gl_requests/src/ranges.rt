//! Which requests of governance bytes encode: each field is in its range.

ghost use Rattle.std.specs.Prelude.{◌≡◌, ◌==◌, nat_lt};
ghost use Rattle.std.specs.List.{list_all};
ghost use Rattle.gl_base.specs.Bytes as bytes;
ghost use Rattle.gl_requests.specs.Ranges as ranges;

use crate::action::{Action, Rule};
use crate::genesis::{
    Dealing, Digest, Genesis, HssPublicKey, LmsPublicKey, NewMember, NewNode, ServiceState,
    ShareDigest,
};
use crate::request::{GovernanceRequest, MemberAct, MemberRequest};
use gl_base::MEBIBYTE;

fn is_byte(number: u8) -> bool
    ensures { result ≡ bytes.is_byte number }
{
    number <= u8::MAX
}

fn is_digest(digest: Digest) -> bool
    ensures { result ≡ bytes.is_digest digest }
{
    digest.len() == 32
}

fn is_lms_key(key: LmsPublicKey) -> bool
    ensures { result ≡ bytes.are_sized 56 key }
{
    key.len() == 56
}

fn is_hss_key(key: HssPublicKey) -> bool
    ensures { result ≡ bytes.are_sized 60 key }
{
    key.len() == 60
}

fn is_member_number(number: u8) -> bool
    ensures { result ≡ ranges.is_member_number number }
{
    number > 0
}

/// Whether a byte counts so many parts of one kind.
fn is_count(count: usize) -> bool
    ensures { result ≡ nat_lt count 256 }
{
    count < 256
}

/// Whether a constitution has so many rules: one for each action.
fn is_rule_count(count: usize) -> bool
    ensures { result ≡ (count == 7) }
{
    count == 7
}

/// Whether a proposal may have so many actions.
fn is_action_count(count: usize) -> bool
    ensures { result ≡ ranges.is_action_count count }
{
    (1..=16).contains(&count)
}

/// Whether an endorsement or a signature is no longer than it may be.
fn is_signature_field(bytes: &[u8]) -> bool
    ensures { result ≡ ranges.is_signature_field bytes.now }
{
    bytes.len() as u64 <= MEBIBYTE
}

fn is_node(node: &NewNode) -> bool
    ensures { result ≡ ranges.is_node node.now }
{
    is_lms_key(node.key) && is_signature_field(node.endorsement.as_slice())
}

fn all_nodes(nodes: &[NewNode]) -> bool
    ensures { result ≡ list_all ranges.is_node nodes.now }
{
    nodes.iter().all(|node| is_node(node))
}

fn are_nodes(nodes: &[NewNode]) -> bool
    ensures { result ≡ ranges.are_counted ranges.is_node nodes.now }
{
    is_count(nodes.len()) && all_nodes(nodes)
}

fn is_member(member: &NewMember) -> bool
    ensures { result ≡ ranges.is_member member.now }
{
    is_member_number(member.number) && is_hss_key(member.key)
}

fn all_members(members: &[NewMember]) -> bool
    ensures { result ≡ list_all ranges.is_member members.now }
{
    members.iter().all(|member| is_member(member))
}

fn are_members(members: &[NewMember]) -> bool
    ensures { result ≡ ranges.are_counted ranges.is_member members.now }
{
    is_count(members.len()) && all_members(members)
}

fn is_share(share: &ShareDigest) -> bool
    ensures { result ≡ ranges.is_share share.now }
{
    is_member_number(share.member) && is_digest(share.digest)
}

fn all_shares(shares: &[ShareDigest]) -> bool
    ensures { result ≡ list_all ranges.is_share shares.now }
{
    shares.iter().all(|share| is_share(share))
}

fn are_shares(shares: &[ShareDigest]) -> bool
    ensures { result ≡ ranges.are_counted ranges.is_share shares.now }
{
    is_count(shares.len()) && all_shares(shares)
}

fn is_dealing(dealing: &Dealing) -> bool
    ensures { result ≡ ranges.is_dealing dealing.now }
{
    is_byte(dealing.threshold)
        && is_digest(dealing.secret_digest)
        && are_shares(dealing.shares.as_slice())
}

fn is_rule(rule: Rule) -> bool
    ensures { result ≡ ranges.is_rule rule }
{
    rule.num <= u16::MAX && rule.den <= u16::MAX
}

fn all_rules(rules: &[Rule]) -> bool
    ensures { result ≡ list_all ranges.is_rule rules.now }
{
    rules.iter().all(|rule| is_rule(*rule))
}

fn are_rules(rules: &[Rule]) -> bool
    ensures { result ≡ ranges.are_rules rules.now }
{
    is_rule_count(rules.len()) && all_rules(rules)
}

fn is_action(action: &Action) -> bool
    ensures { result ≡ ranges.is_action action.now }
{
    match action {
        Action::SetMember(member) => is_member(member),
        Action::RemoveMember(number) => is_member_number(*number),
        Action::SetRecoveryThreshold(dealing) => is_dealing(dealing),
        Action::TransitionNodeToTrusted(id) => is_digest(*id),
        Action::RemoveNode(id) => is_digest(*id),
        Action::TransitionServiceToOpen => true,
        Action::SetConstitution(rules) => are_rules(rules.as_slice()),
    }
}

fn all_actions(actions: &[Action]) -> bool
    ensures { result ≡ list_all ranges.is_action actions.now }
{
    actions.iter().all(|action| is_action(action))
}

fn are_actions(actions: &[Action]) -> bool
    ensures { result ≡ ranges.are_actions actions.now }
{
    is_action_count(actions.len()) && all_actions(actions)
}

fn is_act(act: &MemberAct) -> bool
    ensures { result ≡ ranges.is_act act.now }
{
    match act {
        MemberAct::Ack => true,
        MemberAct::Propose(actions) => are_actions(actions.as_slice()),
        MemberAct::Ballot {
            proposal,
            agrees: _,
        } => is_digest(*proposal),
        MemberAct::Withdraw { proposal } => is_digest(*proposal),
        MemberAct::Share { share } => is_digest(*share),
    }
}

fn is_member_request(request: &MemberRequest) -> bool
    ensures { result ≡ ranges.is_member_request request.now }
{
    is_member_number(request.member)
        && is_act(&request.act)
        && is_signature_field(request.signature.as_slice())
}

/// Whether a service may be founded in this state.
fn is_first_state(state: ServiceState) -> bool
    ensures { result ≡ ranges.is_first_state state }
{
    matches!(state, ServiceState::Opening | ServiceState::Open)
}

fn is_genesis(genesis: &Genesis) -> bool
    ensures { result ≡ ranges.is_genesis genesis.now }
{
    is_first_state(genesis.state)
        && is_hss_key(genesis.identity)
        && are_nodes(genesis.nodes.as_slice())
        && are_members(genesis.members.as_slice())
        && is_dealing(&genesis.dealing)
}

/// Whether bytes encode the request: each field is in its range.
pub fn is_request(request: &GovernanceRequest) -> bool
    ensures { result ≡ ranges.is_request request.now }
{
    match request {
        GovernanceRequest::Genesis(genesis) => is_genesis(genesis),
        GovernanceRequest::Recover(recovery) => {
            is_hss_key(recovery.identity) && are_nodes(recovery.nodes.as_slice())
        }
        GovernanceRequest::Join(node) => is_node(node),
        GovernanceRequest::Mark(id) => is_digest(*id),
        GovernanceRequest::Member(request) => is_member_request(request),
    }
}
