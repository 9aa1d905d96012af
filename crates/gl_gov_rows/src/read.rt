//! The rows of governance read off the rows of a snapshot.

ghost use Rattle.std.specs.Prelude.{◌≡◌, ◌&&◌, length, nat_lt};
ghost use Rattle.std.specs.Option.{ok_or};
ghost use Rattle.gl_base.specs.Answers.{Answers};
ghost use Rattle.gl_gov_rules.specs.Rows.{service_map, members_map, nodes_map, proposals_map, constitution_map, dealing_map, shares_map};
ghost use Rattle.gl_gov_rules.specs.GovernedRows.{is_one_byte, has_room, is_node_row, no_rows, with_row, numbered_from, ended_rows, governed_rows};
ghost use Rattle.gl_gov_rows.specs.Reading.{with_governed};

use crate::limits::{
    first_byte, is_node, is_one_byte, is_proposal, is_removed, is_rule_key, required, spelled,
    with_one_more,
};
use crate::numbered::numbered;
use crate::values::{
    read_dealing_value, read_member, read_node_row, read_proposal, read_rule_value, read_service,
    read_share,
};
use gl_base::{OrNoMemory, Sequence, same_bytes};
use gl_gov_rules::{GovernedRows, MemberRow, NodeRow, ProposalAt, RuleAt, ServiceRow};
use gl_requests::Dealing;
use gl_shares::Share;
use gl_vmaps::Row;
use std::alloc::Global;
use std::marker::Model;

/// The most members that are present at once.
const MEMBERS_LIMIT: usize = 64;

/// The most nodes that are numbered.
const NODES_LIMIT: usize = 65_535;

/// What was read so far.
#[derive(Drop)]
struct Gathered {
    seqno: u64,
    service: Option<ServiceRow>,
    members: Vec<MemberRow>,
    /// How many of the members are present.
    present: usize,
    nodes: Vec<NodeRow>,
    proposals: Vec<ProposalAt>,
    rules: Vec<RuleAt>,
    dealing: Option<Dealing>,
    shares: Vec<Share>,
}

impl Model for Gathered {
    ghost use Rattle.std.specs.Prelude.{◌≡◌, filter, length, not};
    ghost use Rattle.gl_gov_rules.specs.GovernedRows.{is_removed_status};
    ghost use Rattle.gl_gov_rules.specs.declared.row.GovernedRows.{GovernedRows};
    ghost use Rattle.gl_gov_rules.specs.declared.row.MemberRow.{MemberRow};

    ghost Value = { GovernedRows };

    ghost view = { λ g. record {
      seqno = g.seqno;
      service = g.service;
      members = g.members.items;
      nodes = g.nodes.items;
      proposals = g.proposals.items;
      rules = g.rules.items;
      dealing = g.dealing;
      shares = g.shares.items;
    } };

    ghost invariant = { λ g. g.present
        ≡ length (filter (λ (m : MemberRow). not (is_removed_status m.status)) g.members.items) };
}

// Each answers the index of a row that doesn't spell.
impl Gathered {
    fn new(alloc: Global, seqno: u64) -> Self
        ensures { result ≡ no_rows seqno }
    {
        Gathered {
            seqno,
            service: None,
            members: Vec::new(alloc),
            present: 0,
            nodes: Vec::new(alloc),
            proposals: Vec::new(alloc),
            rules: Vec::new(alloc),
            dealing: None,
            shares: Vec::new(alloc),
        }
    }

    /// Whether one more member may be under a key.
    fn takes_member(&self, key: &[u8], member: &MemberRow) -> bool
        ensures { result ≡ (is_one_byte key.now && has_room self.now member.now) }
    {
        is_one_byte(key) && (is_removed(member) || self.present < MEMBERS_LIMIT)
    }

    /// Whether it may be one more node.
    fn takes_node(&self, node: &NodeRow) -> bool
        ensures { result ≡ (nat_lt (length self.now.nodes) 65535 && is_node_row node.now) }
    {
        self.nodes.len() < NODES_LIMIT && is_node(node)
    }

    fn add_service(&mut self, index: usize, row: &Row) -> Result<(), OrNoMemory<usize>>
        requires { row.now.map ≡ service_map }
        ensures { Answers (λ _. self.new) result (ok_or (with_row self.old row.now) index) }
    {
        let service = spelled(index, read_service(row.value.as_slice()))?;
        required(index, same_bytes(row.key.as_slice(), b"s"))?;
        self.service = Some(service);
        Ok(())
    }

    fn add_member(&mut self, index: usize, row: &Row) -> Result<(), OrNoMemory<usize>>
        requires { row.now.map ≡ members_map }
        ensures { Answers (λ _. self.new) result (ok_or (with_row self.old row.now) index) }
    {
        let key = row.key.as_slice();
        let member = spelled(index, read_member(first_byte(key), row.value.as_slice()))?;
        required(index, self.takes_member(key, &member))?;
        let present = with_one_more(self.present, is_removed(&member));
        self.members.push(member)?;
        self.present = present;
        Ok(())
    }

    fn add_node(&mut self, alloc: Global, index: usize, row: &Row) -> Result<(), OrNoMemory<usize>>
        requires { row.now.map ≡ nodes_map }
        ensures { Answers (λ _. self.new) result (ok_or (with_row self.old row.now) index) }
    {
        let Some(id) = row.key.as_slice().as_array::<32>() else {
            return Err(OrNoMemory::Fault(index));
        };
        let node = spelled(index, read_node_row(alloc, id, row.value.as_slice()))?;
        required(index, self.takes_node(&node))?;
        self.nodes.push(node)?;
        Ok(())
    }

    fn add_proposal(
        &mut self,
        alloc: Global,
        index: usize,
        row: &Row,
    ) -> Result<(), OrNoMemory<usize>>
        requires { row.now.map ≡ proposals_map }
        ensures { Answers (λ _. self.new) result (ok_or (with_row self.old row.now) index) }
    {
        let Some(id) = row.key.as_slice().as_array::<32>() else {
            return Err(OrNoMemory::Fault(index));
        };
        let (proposal, bytes) = spelled(index, read_proposal(alloc, row.value.as_slice()))?;
        required(index, is_proposal(&proposal, bytes))?;
        self.proposals.push(ProposalAt {
            id: *id,
            row: proposal,
        })?;
        Ok(())
    }

    fn add_rule(&mut self, index: usize, row: &Row) -> Result<(), OrNoMemory<usize>>
        requires { row.now.map ≡ constitution_map }
        ensures { Answers (λ _. self.new) result (ok_or (with_row self.old row.now) index) }
    {
        let key = row.key.as_slice();
        let rule = spelled(index, read_rule_value(row.value.as_slice()))?;
        required(index, is_rule_key(key))?;
        self.rules.push(RuleAt {
            number: first_byte(key),
            rule,
        })?;
        Ok(())
    }

    fn add_dealing(
        &mut self,
        alloc: Global,
        index: usize,
        row: &Row,
    ) -> Result<(), OrNoMemory<usize>>
        requires { row.now.map ≡ dealing_map }
        ensures { Answers (λ _. self.new) result (ok_or (with_row self.old row.now) index) }
    {
        let dealing = spelled(index, read_dealing_value(alloc, row.value.as_slice()))?;
        required(index, same_bytes(row.key.as_slice(), b"d"))?;
        self.dealing = Some(dealing);
        Ok(())
    }

    fn add_share(&mut self, index: usize, row: &Row) -> Result<(), OrNoMemory<usize>>
        requires { row.now.map ≡ shares_map }
        ensures { Answers (λ _. self.new) result (ok_or (with_row self.old row.now) index) }
    {
        let key = row.key.as_slice();
        let value = spelled(index, read_share(row.value.as_slice()))?;
        required(index, is_one_byte(key))?;
        self.shares.push(Share {
            member: first_byte(key),
            value,
        })?;
        Ok(())
    }

    /// Adds a row of governance.
    fn add(&mut self, alloc: Global, index: usize, row: &Row) -> Result<(), OrNoMemory<usize>>
        ensures { Answers (λ _. self.new) result (ok_or (with_row self.old row.now) index) }
    {
        let map = row.map.as_slice();
        if same_bytes(map, b"public:ccf.gov.service") {
            self.add_service(index, row)
        } else if same_bytes(map, b"public:ccf.gov.members") {
            self.add_member(index, row)
        } else if same_bytes(map, b"public:ccf.gov.nodes") {
            self.add_node(alloc, index, row)
        } else if same_bytes(map, b"public:ccf.gov.proposals") {
            self.add_proposal(alloc, index, row)
        } else if same_bytes(map, b"public:ccf.gov.constitution") {
            self.add_rule(index, row)
        } else if same_bytes(map, b"public:ccf.gov.dealing") {
            self.add_dealing(alloc, index, row)
        } else if same_bytes(map, b"public:ccf.gov.shares") {
            self.add_share(index, row)
        } else {
            Err(OrNoMemory::Fault(index))
        }
    }

    /// Adds a row, where it is one of governance.
    fn add_governed(
        &mut self,
        alloc: Global,
        index: usize,
        row: &Row,
    ) -> Result<(), OrNoMemory<usize>>
        ensures { Answers (λ _. self.new) result
            (ok_or (with_governed self.old row.now) index) }
    {
        if row
            .map
            .as_slice()
            .starts_with(b"public:ccf.gov.".as_slice())
        {
            self.add(alloc, index, row)
        } else {
            Ok(())
        }
    }

    /// All rows, of which there are so many, with the nodes in the order of their numbers.
    fn finish(self, alloc: Global, count: usize) -> Result<GovernedRows, OrNoMemory<usize>>
        ensures { Answers (λ g. g) result
            (ended_rows count self (numbered_from (length self.nodes) 1 self.nodes)) }
    {
        let Some(nodes) = numbered(alloc, self.nodes)? else {
            return Err(OrNoMemory::Fault(count));
        };
        let is_whole = self.service.is_some() && self.dealing.is_some();
        required(count, is_whole && self.rules.len() == 7)?;
        Ok(GovernedRows {
            seqno: self.seqno,
            service: self.service,
            members: Sequence::from(self.members),
            nodes: Sequence::from(nodes),
            proposals: Sequence::from(self.proposals),
            rules: Sequence::from(self.rules),
            dealing: self.dealing,
            shares: Sequence::from(self.shares),
        })
    }
}

/// The rows of governance among rows, as values, after the entry with a seqno. The fault is the
/// index of the first row of governance that doesn't spell, or else the number of rows where the
/// service, the dealing, a rule or a node's number lacks.
#[tactic(auto, unfolding(gl_gov_rules::specs::GovernedRows::governed_rows))]
pub fn governed_rows(
    alloc: Global,
    seqno: u64,
    rows: &[Row],
) -> Result<GovernedRows, OrNoMemory<usize>>
    ensures { Answers (λ g. g) result (governed_rows seqno rows.now) }
{
    let mut gathered = Gathered::new(alloc, seqno);
    for (index, row) in rows.iter().enumerate() {
        gathered.add_governed(alloc, index, row)?;
    }
    gathered.finish(alloc, rows.len())
}
