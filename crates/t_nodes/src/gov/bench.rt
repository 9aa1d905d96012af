//! A service whose requests are made byte by byte, and what comes of each.

ghost use Rattle.std.specs.Prelude.{◌≡◌, ◌≤◌, true, is_none, IfOk};
ghost use Rattle.gl_requests.specs.Ranges.{is_request};
ghost use Rattle.gl_gov_rules.specs.Governed.{is_founding};
ghost use Rattle.gl_gov_base.specs.GovernedOver.{is_unfounded};
ghost use Rattle.gl_audit.specs.GovState.{IsLater};

use gl_audit::{GovState, is_founding};
use gl_base::OrNoMemory;
use gl_gov_rules::{Cause, GovernanceRefusal};
use gl_hss::{HssPublic, HssSigner, Levels, LmsKey, Types};
use gl_recovery::{FinishFault, finish};
use gl_requests::GovernanceRequest;
use sha2::{Digest, Sha256};
use std::alloc::{AllocError, Global};
use std::test::Fail;
use t_checks::same;

/// What came of a request.
#[derive(Clone, Copy, Debug, PartialEq, Eq)]
pub enum Outcome {
    /// An action that can't be, by its place from 1 on. A founding counts as the action 0.
    Bad(u64, Cause),
    Refused(GovernanceRefusal),
    /// The first eight bytes of the digest of all rows.
    Rows(u64),
    /// The recovery is finished, or why it isn't.
    Finished(Result<(), FinishFault>),
}

fn outcome_of(why: GovernanceRefusal) -> Outcome {
    match why {
        GovernanceRefusal::BadAction { index, cause } => Outcome::Bad(index, cause),
        other => Outcome::Refused(other),
    }
}

/// A dealing of shares to members: how many of them join to the secret, and who gets one.
pub type Dealt<'a> = (u8, &'a [u8]);

/// What a member proposes, by the numbers of members and nodes.
#[derive(Clone, Copy)]
pub enum Act<'a> {
    /// Takes a member in, with the key of the second number.
    SetMember(u8, u8),
    RemoveMember(u8),
    Deal(Dealt<'a>),
    /// A dealing whose shares join to another secret than it names.
    Misdeal(Dealt<'a>),
    Trust(u8),
    RemoveNode(u8),
    Open,
    /// The fractions of the first six actions, and that of the seventh.
    Rules([u16; 2], [u16; 2]),
}

/// Which proposal is meant: one of two that are kept in mind, or one that nobody made.
#[derive(Clone, Copy)]
pub enum Meant {
    P,
    Q,
    Rejection,
}

/// What the service is asked for, by the numbers of members and nodes.
#[derive(Clone, Copy)]
pub enum Ask<'a> {
    /// An opening service with these nodes and members.
    Found(&'a [u8], &'a [u8], Dealt<'a>),
    /// One whose nodes the service's key with a number endorses. Each member is a number and that
    /// of its key.
    FoundBy(u8, &'a [u8], &'a [(u8, u8)], Dealt<'a>),
    /// The service again, with its second key.
    Recover(&'a [u8]),
    /// A node, which the service's key with the second number endorses.
    Join(u8, u8),
    Mark(u8),
    /// The last request once more.
    Again,
    Ack(u8),
    /// An Ack of the second member that the first one signs.
    AckBy(u8, u8),
    Propose(u8, &'a [Act<'a>]),
    /// A proposal that is kept in mind as P.
    ProposeP(u8, &'a [Act<'a>]),
    /// A proposal that is kept in mind as Q.
    ProposeQ(u8, &'a [Act<'a>]),
    Yes(u8, Meant),
    No(u8, Meant),
    Withdraw(u8, Meant),
    /// The share that was dealt to the second member, by the first one.
    Give(u8, u8),
    /// Whether the recovery is finished.
    Finish,
}

/// A request, and what is to come of it.
pub type Row<'a> = (Ask<'a>, Outcome);

/// Asks for one thing after the other, and compares what comes of each.
pub fn play(bench: &mut Bench, rows: &[Row<'_>]) -> Result<(), Fail> {
    for (place, (ask, due)) in rows.iter().enumerate() {
        let reported = bench.ask(*ask)?;
        same!(reported, *due, place);
    }
    Ok(())
}

// The secret whose shares `share` gives. Two of them join to it.
fn secret() -> [u8; 32] {
    Sha256::digest(b"secret")
}

// The share of a member whose number is below 4: the bytes of the secret, to each of which the
// number times its place, from 1 on, is added. No such product is large enough to be reduced.
fn share(member: u8) -> [u8; 32] {
    let mut share = secret();
    for (byte, second) in share.iter_mut().zip(1..=32u8) {
        if member % 2 == 1 {
            *byte ^= second;
        }
        if member >= 2 {
            *byte ^= second.wrapping_mul(2);
        }
    }
    share
}

// Writes a length with so many bytes, the least significant first.
fn put_length(out: &mut Vec<u8>, width: usize, length: usize) -> Result<(), AllocError>
    requires { width ≤ 8 }
{
    let bytes = (length as u64).to_le_bytes();
    out.extend_from_slice(&bytes[..width])
}

fn put_sized(out: &mut Vec<u8>, width: usize, bytes: &[u8]) -> Result<(), AllocError>
    requires { width ≤ 8 }
{
    put_length(out, width, bytes.len())?;
    out.extend_from_slice(bytes)
}

fn put_rule(out: &mut Vec<u8>, rule: [u16; 2]) -> Result<(), AllocError> {
    let [num, den] = rule;
    out.extend_from_slice(&num.to_le_bytes())?;
    out.extend_from_slice(&den.to_le_bytes())
}

// A dealing of the secret with this digest.
fn put_dealing(out: &mut Vec<u8>, dealt: Dealt<'_>, digest: [u8; 32]) -> Result<(), AllocError> {
    let (threshold, holders) = dealt;
    out.push(threshold)?;
    out.extend_from_slice(&digest)?;
    put_length(out, 1, holders.len())?;
    for member in holders {
        out.push(*member)?;
        out.extend_from_slice(&Sha256::digest(&share(*member)))?;
    }
    Ok(())
}

fn rows_of(alloc: Global, state: &GovState) -> Result<Outcome, Fail> {
    let rows = state.rows()?;
    let mut bytes = Vec::new(alloc);
    for row in rows.as_slice() {
        let value = row.value.as_ref().ok_or("a row without a value")?;
        put_sized(&mut bytes, 1, row.map.as_slice())?;
        put_sized(&mut bytes, 2, row.key.as_slice())?;
        put_sized(&mut bytes, 4, value.as_slice())?;
    }
    let digest = Sha256::digest(&bytes);
    let mut first = [0; 8];
    first.copy_from_slice(&digest[..8]);
    Ok(Outcome::Rows(u64::from_be_bytes(first)))
}

// The seqno of the next request: there is a signature at 2.
fn next_seqno(state: &GovState) -> Result<u64, Fail>
    ensures { IfOk result (λ seqno. IsLater seqno state.now) }
{
    let last = state.last_seqno();
    let next = last.checked_add(1).ok_or("no seqno is left")?;
    if last == 0 {
        return Ok(next);
    }
    Ok(next.max(3))
}

// What comes of the request in a copy that records it where it is told what it would do.
fn record(
    alloc: Global,
    state: &GovState,
    seqno: u64,
    request: &GovernanceRequest,
) -> Result<Outcome, Fail>
    requires above { IsLater seqno state.now }
    requires founding { is_founding request.now
        ≡ is_unfounded state.now.base state.now.requests }
    requires fits { is_request request.now ≡ true }
{
    let mut copy = state.copy()?;
    match copy.effect(seqno, request) {
        Ok(_) => {
            copy.record(seqno, request.copy(alloc)?)?;
            rows_of(alloc, &copy)
        }
        Err(OrNoMemory::Fault(why)) => Ok(outcome_of(why)),
        Err(OrNoMemory::NoMemory) => Err(Fail::from("out of memory")),
    }
}

// What comes of the request in the state itself.
fn reported(
    alloc: Global,
    state: &mut GovState,
    seqno: u64,
    request: &GovernanceRequest,
) -> Result<Outcome, Fail>
    requires above { IsLater seqno state.old }
    requires founding { is_founding request.now
        ≡ is_unfounded state.old.base state.old.requests }
    requires fits { is_request request.now ≡ true }
    ensures { state.new.base ≡ state.old.base }
{
    match state.step(seqno, request) {
        Ok(_) => rows_of(alloc, state),
        Err(OrNoMemory::Fault(why)) => Ok(outcome_of(why)),
        Err(OrNoMemory::NoMemory) => Err(Fail::from("out of memory")),
    }
}

fn step(alloc: Global, state: &mut GovState, request: &GovernanceRequest) -> Result<Outcome, Fail>
    requires { is_request request.now ≡ true }
    ensures { state.new.base ≡ state.old.base }
{
    let seqno = next_seqno(state)?;
    if is_founding(request) == state.is_founded() {
        return Err(Fail::from("another request than a genesis at first, or one later"));
    }
    let known = record(alloc, state, seqno, request)?;
    let reported = reported(alloc, state, seqno, request)?;
    if reported != known {
        return Err(Fail::from("a record differs from a step"));
    }
    Ok(reported)
}

// The keys of the numbers from 1 on, each from a seed.
fn keys(alloc: Global, word: &[u8], count: u8) -> Result<Vec<LmsKey>, AllocError> {
    let mut keys = Vec::new(alloc);
    for number in 1..=count {
        let mut seed = Sha256::new();
        seed.update(word);
        seed.update(&[number]);
        keys.push(LmsKey::make(alloc, seed.finalize(), Types::H5W8)?)?;
    }
    Ok(keys)
}

// The place of what is numbered from 1 on. No list has one for 0.
fn place(number: u8) -> usize {
    usize::from(number).wrapping_sub(1)
}

/// A service, with the keys of its own and of all who ask it for something.
#[derive(Drop)]
pub struct Bench {
    pub state: GovState,
    /// The identifiers of the last proposals that were to be kept in mind.
    pub p: [u8; 32],
    pub q: [u8; 32],
    alloc: Global,
    services: Vec<LmsKey>,
    members: Vec<HssSigner>,
    nodes: Vec<[u8; 56]>,
    /// The number of the service's key.
    service: u8,
    last: Vec<u8>,
    /// The service stands on no base, so that it can be cut to any seqno.
    ghost unbased: { is_none state.base ≡ true },
}

impl Bench {
    /// A service with so many keys for itself, for members and for nodes.
    pub fn new(alloc: Global, services: u8, members: u8, nodes: u8) -> Result<Bench, AllocError> {
        let mut signers = Vec::new(alloc);
        for key in keys(alloc, b"member", members)? {
            signers.push(HssSigner::new(key, None, 0))?;
        }
        let mut public = Vec::new(alloc);
        for key in keys(alloc, b"node", nodes)? {
            public.push(key.public())?;
        }
        Ok(Bench {
            state: GovState::new(alloc),
            p: [0; 32],
            q: [0; 32],
            alloc,
            services: keys(alloc, b"service", services)?,
            members: signers,
            nodes: public,
            service: 1,
            last: Vec::new(alloc),
        })
    }

    fn service_key(&self, number: u8) -> Result<&LmsKey, Fail> {
        Ok(self.services.get(place(number)).ok_or("no such service")?)
    }

    /// The service's key.
    pub fn identity(&self) -> Result<[u8; 60], Fail> {
        Ok(self.service_key(self.service)?.hss_public(Levels::Two))
    }

    /// A member's key. One who asks for nothing has some bytes as a key.
    pub fn member_key(&self, number: u8) -> [u8; 60] {
        match self.members.get(place(number)) {
            Some(signer) => signer.key().hss_public(Levels::One),
            None => [number; 60],
        }
    }

    pub fn node_key(&self, number: u8) -> Result<[u8; 56], Fail> {
        Ok(*self.nodes.get(place(number)).ok_or("no such node")?)
    }

    pub fn node_id(&self, number: u8) -> Result<[u8; 32], Fail> {
        Ok(Sha256::digest(&self.node_key(number)?))
    }

    /// The endorsement of a node by the service's key with a number.
    pub fn endorsement(&self, service: u8, node: u8) -> Result<Vec<u8>, Fail> {
        let key = self.service_key(service)?;
        let leaf = u32::from(node);
        if leaf >= key.types().leaf_count() {
            return Err(Fail::from("no such leaf"));
        }
        Ok(key.sign_leaf(leaf, &self.node_key(node)?)?)
    }

    fn put_node(&self, out: &mut Vec<u8>, service: u8, node: u8) -> Result<(), Fail> {
        out.extend_from_slice(&self.node_key(node)?)?;
        put_sized(out, 4, &self.endorsement(service, node)?)?;
        Ok(())
    }

    fn put_nodes(&self, out: &mut Vec<u8>, service: u8, nodes: &[u8]) -> Result<(), Fail> {
        put_length(out, 1, nodes.len())?;
        for node in nodes {
            self.put_node(out, service, *node)?;
        }
        Ok(())
    }

    fn put_action(&self, out: &mut Vec<u8>, action: Act<'_>) -> Result<(), Fail> {
        match action {
            Act::SetMember(number, key) => {
                out.extend_from_slice(&[1, number])?;
                out.extend_from_slice(&self.member_key(key))?;
            }
            Act::RemoveMember(number) => out.extend_from_slice(&[2, number])?,
            Act::Deal(dealt) => {
                out.push(3)?;
                put_dealing(out, dealt, Sha256::digest(&secret()))?;
            }
            Act::Misdeal(dealt) => {
                out.push(3)?;
                put_dealing(out, dealt, Sha256::digest(b"another"))?;
            }
            Act::Trust(node) => {
                out.push(4)?;
                out.extend_from_slice(&self.node_id(node)?)?;
            }
            Act::RemoveNode(node) => {
                out.push(5)?;
                out.extend_from_slice(&self.node_id(node)?)?;
            }
            Act::Open => out.push(6)?,
            Act::Rules(rule, last) => {
                out.push(7)?;
                for _ in 0..6 {
                    put_rule(out, rule)?;
                }
                put_rule(out, last)?;
            }
        }
        Ok(())
    }

    // Takes the request that these bytes encode.
    fn take(&mut self, bytes: Vec<u8>) -> Result<Outcome, Fail> {
        let request = GovernanceRequest::decode(self.alloc, &bytes)?;
        self.last = bytes;
        step(self.alloc, &mut self.state, &request)
    }

    /// Takes back the requests above a seqno.
    pub fn cut(&mut self, to: u64) {
        self.state.cut(to);
    }

    // Takes the last request once more.
    fn again(&mut self) -> Result<Outcome, Fail> {
        let bytes = Vec::from_slice(self.alloc, &self.last)?;
        self.take(bytes)
    }

    pub fn alloc(&self) -> Global {
        self.alloc
    }

    /// What the rows are now.
    pub fn rows(&self) -> Result<Outcome, Fail> {
        rows_of(self.alloc, &self.state)
    }

    fn found_by(
        &mut self,
        endorser: u8,
        nodes: &[u8],
        members: &[(u8, u8)],
        dealt: Dealt<'_>,
    ) -> Result<Outcome, Fail> {
        let mut bytes = Vec::from_slice(self.alloc, &[1, 1])?;
        bytes.extend_from_slice(&self.identity()?)?;
        self.put_nodes(&mut bytes, endorser, nodes)?;
        put_length(&mut bytes, 1, members.len())?;
        for (number, key) in members {
            bytes.push(*number)?;
            bytes.extend_from_slice(&self.member_key(*key))?;
        }
        put_dealing(&mut bytes, dealt, Sha256::digest(&secret()))?;
        self.take(bytes)
    }

    fn found(&mut self, nodes: &[u8], members: &[u8], dealt: Dealt<'_>) -> Result<Outcome, Fail> {
        let mut pairs = Vec::new(self.alloc);
        for member in members {
            pairs.push((*member, *member))?;
        }
        self.found_by(1, nodes, &pairs, dealt)
    }

    fn recover(&mut self, nodes: &[u8]) -> Result<Outcome, Fail> {
        let mut bytes = Vec::from_slice(self.alloc, &[2])?;
        bytes.extend_from_slice(&self.service_key(2)?.hss_public(Levels::Two))?;
        self.put_nodes(&mut bytes, 2, nodes)?;
        let reported = self.take(bytes)?;
        if let Outcome::Rows(_) = reported {
            self.service = 2;
        }
        Ok(reported)
    }

    fn join(&mut self, node: u8, service: u8) -> Result<Outcome, Fail> {
        let mut bytes = Vec::from_slice(self.alloc, &[3])?;
        self.put_node(&mut bytes, service, node)?;
        self.take(bytes)
    }

    fn mark(&mut self, node: u8) -> Result<Outcome, Fail> {
        let mut bytes = Vec::from_slice(self.alloc, &[4])?;
        bytes.extend_from_slice(&self.node_id(node)?)?;
        self.take(bytes)
    }

    // What a member signs for a request that begins so.
    fn message(&self, request: &[u8]) -> Result<Vec<u8>, Fail> {
        let mut message = Vec::from_slice(self.alloc, b"gl-gov1")?;
        message.extend_from_slice(&self.identity()?)?;
        message.extend_from_slice(request)?;
        Ok(message)
    }

    // A request that begins so, signed by the next leaf of a member's key.
    fn ask_by(&mut self, signer: u8, request: Vec<u8>) -> Result<Outcome, Fail> {
        let message = self.message(&request)?;
        let signer = self.members.get_mut(place(signer)).ok_or("no such signer")?;
        signer.reserve()?;
        let signature = signer.sign(&message)?;
        let mut bytes = request;
        put_sized(&mut bytes, 4, &signature)?;
        self.take(bytes)
    }

    fn ack_by(&mut self, signer: u8, member: u8) -> Result<Outcome, Fail> {
        let request = Vec::from_slice(self.alloc, &[5, member])?;
        self.ask_by(signer, request)
    }

    fn propose(&mut self, member: u8, actions: &[Act<'_>]) -> Result<Outcome, Fail> {
        let mut request = Vec::from_slice(self.alloc, &[6, member])?;
        put_length(&mut request, 1, actions.len())?;
        for action in actions {
            self.put_action(&mut request, *action)?;
        }
        self.ask_by(member, request)
    }

    fn ballot(&mut self, member: u8, meant: Meant, agrees: u8) -> Result<Outcome, Fail> {
        let mut request = Vec::from_slice(self.alloc, &[7, member])?;
        request.extend_from_slice(&self.id(meant))?;
        request.push(agrees)?;
        self.ask_by(member, request)
    }

    fn withdraw(&mut self, member: u8, meant: Meant) -> Result<Outcome, Fail> {
        let mut request = Vec::from_slice(self.alloc, &[8, member])?;
        request.extend_from_slice(&self.id(meant))?;
        self.ask_by(member, request)
    }

    fn give(&mut self, member: u8, holder: u8) -> Result<Outcome, Fail> {
        let mut request = Vec::from_slice(self.alloc, &[9, member])?;
        request.extend_from_slice(&share(holder))?;
        self.ask_by(member, request)
    }

    // The identifier of a proposal.
    fn id(&self, meant: Meant) -> [u8; 32] {
        match meant {
            Meant::P => self.p,
            Meant::Q => self.q,
            Meant::Rejection => [0; 32],
        }
    }

    /// Asks for something, and tells what comes of it.
    pub fn ask(&mut self, ask: Ask<'_>) -> Result<Outcome, Fail> {
        match ask {
            Ask::Found(nodes, members, dealt) => self.found(nodes, members, dealt),
            Ask::FoundBy(endorser, nodes, members, dealt) => {
                self.found_by(endorser, nodes, members, dealt)
            }
            Ask::Recover(nodes) => self.recover(nodes),
            Ask::Join(node, service) => self.join(node, service),
            Ask::Mark(node) => self.mark(node),
            Ask::Again => self.again(),
            Ask::Finish => Ok(Outcome::Finished(finish(&self.state))),
            other => self.ask_as_member(other),
        }
    }

    // What a member asks for. Others ask for the rest.
    fn ask_as_member(&mut self, ask: Ask<'_>) -> Result<Outcome, Fail> {
        match ask {
            Ask::Ack(member) => self.ack_by(member, member),
            Ask::AckBy(signer, member) => self.ack_by(signer, member),
            Ask::Yes(member, meant) => self.ballot(member, meant, 1),
            Ask::No(member, meant) => self.ballot(member, meant, 0),
            Ask::Withdraw(member, meant) => self.withdraw(member, meant),
            Ask::Give(member, holder) => self.give(member, holder),
            other => self.ask_by_proposal(other),
        }
    }

    // What a member proposes.
    fn ask_by_proposal(&mut self, ask: Ask<'_>) -> Result<Outcome, Fail> {
        let (member, actions) = match ask {
            Ask::Propose(member, actions)
            | Ask::ProposeP(member, actions)
            | Ask::ProposeQ(member, actions) => (member, actions),
            _ => return Err(Fail::from("no proposal")),
        };
        let reported = self.propose(member, actions)?;
        let id = Sha256::digest(&self.last);
        match ask {
            Ask::ProposeP(_, _) => self.p = id,
            Ask::ProposeQ(_, _) => self.q = id,
            _ => {}
        }
        Ok(reported)
    }
}
