//! The proposals of a schedule, which its lines name by numbers.

ghost use Rattle.std.specs.Prelude.{◌≡◌, ◌<◌, ◌^◌, Some, OnOk, IfSome, position};
ghost use Rattle.std.specs.List.{list_any};
ghost use Rattle.gl_base.specs.Bytes.{same_bytes};
ghost use Rattle.gl_lines.specs.References.{id_at};
ghost use Rattle.gl_schedule.specs.Governed.{number_of, numbered_proposal, with_proposal};

use gl_gov_rules::{ProposalState, ProposalStatus};
use gl_requests::Digest;
use std::alloc::{AllocError, Global};
use std::marker::Model;

/// A proposal by its number, and its state.
#[derive(Clone, Copy, Debug)]
pub struct NumberedProposal {
    pub number: u64,
    pub state: ProposalState,
}

/// The proposals that were accepted, by their identifiers, each once and in the order in which that
/// happened first. They are numbered from 1.
#[derive(Drop)]
pub struct Proposals {
    ids: Vec<Digest>,
}

impl Model for Proposals {
    ghost use Rattle.std.specs.Prelude.{ℕ, List};

    ghost Value = { List (List ℕ) };

    ghost view = { λ p. p.ids.items };
}

impl Proposals {
    ghost use Rattle.std.specs.Prelude.{[]};

    /// None yet.
    pub fn new(alloc: Global) -> Self
        ensures { result ≡ [] }
    {
        Proposals {
            ids: Vec::new(alloc),
        }
    }

    /// The identifier of the proposal with a number, if there is one.
    pub fn id(&self, number: u128) -> Option<Digest>
        ensures { result ≡ id_at self.now number }
    {
        if number == 0 || number > self.ids.len() as u128 {
            return None;
        }
        Some(self.ids[(number - 1) as usize])
    }

    /// The place of a proposal, from 0, if it is listed.
    fn place(&self, id: &Digest) -> Option<usize>
        ensures place { result ≡ position (same_bytes id.now) self.now }
        ensures within { IfSome result (λ place. place < 2 ^ 63) }
    {
        self.ids.iter().position(|other| id == other)
    }

    /// The number of a proposal, 0 for one that isn't listed.
    fn number(&self, id: &Digest) -> u64
        ensures { result ≡ number_of self.now id.now }
    {
        match self.place(id) {
            None => 0,
            Some(place) => place as u64 + 1,
        }
    }

    /// A proposal's state, with its number.
    pub fn numbered(&self, status: &ProposalStatus) -> NumberedProposal
        ensures { result ≡ numbered_proposal self.now status.now }
    {
        NumberedProposal {
            number: self.number(&status.id),
            state: status.state,
        }
    }

    fn has(&self, id: &Digest) -> bool
        ensures { result ≡ list_any (same_bytes id.now) self.now }
    {
        self.ids.iter().any(|other| id == other)
    }

    /// Lists a proposal that was accepted, unless it is listed.
    pub fn note(&mut self, id: Digest) -> Result<(), AllocError>
        ensures { OnOk result (self.new ≡ with_proposal self.old (Some id)) }
    {
        if self.has(&id) {
            return Ok(());
        }
        self.ids.push(id)?;
        Ok(())
    }
}
