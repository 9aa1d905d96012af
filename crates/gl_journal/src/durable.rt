//! What a journal holds, folded from its records.

ghost use Rattle.std.specs.Prelude.{◌≡◌, true, false, Option, Some, None, Ok, IsSome, IfSome, option_map};
ghost use Rattle.gl_journal.specs.Durable.{fold_record, fold_next, key_alone};
ghost use Rattle.gl_journal.specs.Records.{Install as InstallOf};
ghost use Rattle.gl_journal.specs.RecordView.{record_value, state_of, StandsOn};

use crate::entry_log::EntryLog;
use crate::key::Key;
use crate::record::Record;
use gl_base::FIRST_VIEW;
use gl_entry::NodeId;
use std::alloc::{AllocError, Global};

/// What a node, a member or a service keeps.
#[derive(Debug, Drop)]
pub struct Durable<L> {
    pub key: Key,
    /// The view that it is in.
    pub view: u32,
    /// The node that it voted for in that view.
    pub vote: Option<NodeId>,
    /// Whether a Vote record was there: also a node that gave no vote may have one.
    pub has_vote_record: bool,
    /// The place after which `log` begins.
    pub base: u64,
    /// The body of the snapshot that stands for the entries up to there.
    pub snapshot: Option<Vec<u8>>,
    pub log: L,
    /// How many leaves of the key are spent or reserved.
    pub reserved: u32,
    /// How many leaves the start of a service spent.
    pub start: Option<u32>,
}

impl<L: EntryLog> Durable<L> {
    /// A key alone.
    fn new(alloc: Global, key: Key) -> Self
        ensures alone { state_of L.frames result ≡ key_alone key }
        ensures stands { StandsOn L.snapshot result }
    {
        Durable {
            key,
            view: FIRST_VIEW,
            vote: None,
            has_vote_record: false,
            base: 0,
            snapshot: None,
            log: L::new(alloc),
            reserved: 0,
            start: None,
        }
    }

    /// Takes a snapshot's body, and answers whether it folds.
    fn install(&mut self, alloc: Global, body: &[u8]) -> Result<bool, AllocError>
        ensures folds { result ≡ Ok true →
            fold_record L.goes_on (state_of L.frames self.old) (InstallOf body.now)
            ≡ Some (state_of L.frames self.new) }
        ensures stands { result ≡ Ok true → StandsOn L.snapshot self.new }
        ensures refuses { result ≡ Ok false →
            fold_record L.goes_on (state_of L.frames self.old) (InstallOf body.now) ≡ None }
    {
        if self.base != 0 || self.log.len() != 0 {
            return Ok(false);
        }
        let Some(at) = self.log.install(alloc, body)? else {
            return Ok(false);
        };
        if self.view < at.view {
            self.view = at.view;
            self.vote = None;
        }
        self.base = at.base;
        self.snapshot = Some(body.to_vec(alloc)?);
        Ok(true)
    }

    /// Takes one record more after the key, and answers whether it folds.
    fn fold_record(&mut self, alloc: Global, one: &Record<'_>) -> Result<bool, AllocError>
        requires stands { StandsOn L.snapshot self.old }
        ensures folds { result ≡ Ok true →
            fold_record L.goes_on (state_of L.frames self.old) (record_value one.now)
            ≡ Some (state_of L.frames self.new) }
        ensures stands { result ≡ Ok true → StandsOn L.snapshot self.new }
        ensures refuses { result ≡ Ok false →
            fold_record L.goes_on (state_of L.frames self.old) (record_value one.now) ≡ None }
    {
        match one {
            Record::Key(_) => Ok(false),
            Record::Vote { view, vote } => {
                if *view < self.view {
                    return Ok(false);
                }
                self.view = *view;
                self.vote = *vote;
                self.has_vote_record = true;
                Ok(true)
            }
            Record::Cut { to } => {
                if *to < self.base || *to - self.base > self.log.len() {
                    return Ok(false);
                }
                self.log.cut(*to - self.base);
                Ok(true)
            }
            Record::Append { frame } => self.log.push(alloc, frame),
            Record::Signer { reserved } => {
                if *reserved < self.reserved || *reserved > self.key.types.leaf_count() {
                    return Ok(false);
                }
                self.reserved = *reserved;
                Ok(true)
            }
            Record::Install { body } => self.install(alloc, body),
            Record::Start { leaves } => {
                if *leaves > self.key.types.leaf_count() {
                    return Ok(false);
                }
                self.start = Some(*leaves);
                Ok(true)
            }
        }
    }
}

/// Takes one record more, which is a key if it is the first, and answers whether it folds.
#[tactic(auto, unfolding(crate::specs::Durable::fold_next))]
pub(crate) fn fold_next<L: EntryLog>(
    state: &mut Option<Durable<L>>,
    alloc: Global,
    one: &Record<'_>,
) -> Result<bool, AllocError>
    requires stands { IfSome state.old (λ d. StandsOn L.snapshot d) }
    ensures folds { result ≡ Ok true →
        fold_next L.goes_on (option_map (state_of L.frames) state.old) (record_value one.now)
        ≡ option_map (state_of L.frames) state.new }
    ensures stands { result ≡ Ok true → IfSome state.new (λ d. StandsOn L.snapshot d) }
    ensures refuses { result ≡ Ok false →
        fold_next L.goes_on (option_map (state_of L.frames) state.old) (record_value one.now)
        ≡ None }
    ensures some { result ≡ Ok true → IsSome (option_map (state_of L.frames) state.new) }
{
    match state {
        Some(durable) => durable.fold_record(alloc, one),
        None => match one {
            Record::Key(key) => {
                *state = Some(Durable::new(alloc, *key));
                Ok(true)
            }
            _ => Ok(false),
        },
    }
}
