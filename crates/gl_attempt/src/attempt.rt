//! A request that reads its rows one at a time, and then runs at once.

use crate::asks::next_ask;
use crate::conflict::{RolledBack, TxFault};
use crate::notes::Reads;
use gl_base::OrNoMemory;
use gl_tx::{Ran, Request, run};
use gl_vmaps::Tables;
use std::alloc::{AllocError, Global};
use std::marker::Model;

/// What a fetch comes to.
#[derive(Clone, Copy, Debug, PartialEq, Eq)]
pub enum Fetched {
    /// One more row or map was noted.
    More,
    /// All that the request reads is noted: the attempt may finish.
    Ready,
}

/// An attempt to run a request whose rows are read one at a time, at different moments. It finishes
/// at one moment, unless what it read has changed by then.
#[derive(Debug, Drop)]
pub struct Attempt {
    began: u64,
    cuts: u64,
    request: Request,
    reads: Reads,
    alloc: Global,
}

impl Model for Attempt {
    ghost use Rattle.gl_attempt.specs.Attempt.{State, IsUnderWay};

    ghost Value = { State };

    ghost view = { λ a. record {
      began = a.began;
      cuts = a.cuts;
      request = a.request;
      noted = a.reads;
    } };

    ghost invariant = { λ a. IsUnderWay a.request a.reads };
}

impl Attempt {
    ghost use Rattle.std.specs.Prelude.{◌≡◌, ◌≤◌, List, [], length, IfOk, OnOk, OnErr};
    ghost use Rattle.std.specs.List.{AllByRecursion};
    ghost use Rattle.gl_base.specs.Answers.{Answers};
    ghost use Rattle.gl_vmaps.specs.Standing.{StandsFor};
    ghost use Rattle.gl_vmaps.specs.Versions.{Placed};
    ghost use Rattle.gl_tx.specs.Sees.{sees_of};
    ghost use Rattle.gl_tx.specs.Run.{run_seeing};
    ghost use Rattle.gl_attempt.specs.Asks.{AreAsked, sees_by};
    ghost use Rattle.gl_attempt.specs.Attempt.{next_of, fetch_answer, with_fetch, versioned_of, versioned_by, finish_result, IsNotedSince};

    /// An attempt that begins at this length of the ledger and this count of cuts. Nothing is noted
    /// yet. Takes no memory.
    pub fn begin(alloc: Global, len: u64, cuts: u64, request: Request) -> Self
        ensures { result ≡ record { began = len; cuts = cuts; request = request; noted = [] } }
    {
        prove!(request.as_slice().len() <= 64);
        Attempt {
            began: len,
            cuts,
            request,
            reads: Reads::new(alloc),
            alloc,
        }
    }

    /// Notes the next row or map that the run on what is noted asks for, as the tables have it now.
    /// This is at most 128 times `More`. Running out of memory leaves the attempt as it was.
    pub fn fetch(&mut self, tables: &Tables) -> Result<Fetched, AllocError>
        ensures answer { IfOk result (λ fetched. fetched ≡ fetch_answer (next_of self.old)) }
        ensures noted { OnOk result (self.new ≡ with_fetch self.old (sees_of tables.now)) }
        ensures ready { result ≡ Ok Fetched.Ready → next_of self.new ≡ None }
        ensures few { length self.new.noted ≤ 128 }
        ensures kept { OnErr result (self.new ≡ self.old) }
    {
        match next_ask(self.alloc, &self.request, &self.reads)? {
            None => Ok(Fetched::Ready),
            Some(ask) => {
                let note = ask.note(self.alloc, tables)?;
                self.reads.push(note)?;
                Ok(Fetched::More)
            }
        }
    }

    /// The length of the ledger when the attempt began.
    pub fn began(&self) -> u64
        ensures { result ≡ self.now.began }
    {
        self.began
    }

    /// The count of cuts when the attempt began.
    pub fn cuts(&self) -> u64
        ensures { result ≡ self.now.cuts }
    {
        self.cuts
    }

    pub fn request(&self) -> &Request
        ensures { result.now ≡ self.now.request }
    {
        &self.request
    }

    /// What was noted, in that order.
    pub fn reads(&self) -> &Reads
        ensures value { result.now ≡ self.now.noted }
        ensures asked { AreAsked self.now.request self.now.noted }
        ensures few { length self.now.noted ≤ 128 }
    {
        &self.reads
    }

    /// Runs the request on the present tables, unless entries were cut away since the attempt
    /// began, or else what was read has been written since. `cuts` is the present count of cuts,
    /// which rises by one at each cut that takes an entry away, and stays at its last value.
    pub fn finish(&self, tables: &Tables, cuts: u64) -> Result<Ran, OrNoMemory<TxFault>>
        requires ready { next_of self.now ≡ None }
        ensures exact { Answers (λ ran. ran) result
            (finish_result self.now (versioned_of tables.now) cuts) }
        ensures stands { (ps : List Placed) → StandsFor tables.now ps →
            Answers (λ ran. ran) result (finish_result self.now (versioned_by ps) cuts) }
        // What ran is what the run on the notes came to.
        ensures noted { (ps : List Placed) → StandsFor tables.now ps →
            AllByRecursion (IsNotedSince self.now.began ps) self.now.noted →
            IfOk result (λ ran. run_seeing self.now.request (sees_by self.now.noted) ≡ Ok ran) }
        ensures few { IfOk result (λ ran. length ran.writes ≤ 64) }
    {
        self.run_if_unchanged(tables, cuts)
    }

    fn run_if_unchanged(&self, tables: &Tables, cuts: u64) -> Result<Ran, OrNoMemory<TxFault>>
        ensures exact { Answers (λ ran. ran) result
            (finish_result self.now (versioned_of tables.now) cuts) }
        ensures few { IfOk result (λ ran. length ran.writes ≤ 64) }
    {
        if let Some(rolled_back) = RolledBack::between(self.cuts, cuts) {
            return Err(OrNoMemory::Fault(TxFault::RolledBack(rolled_back)));
        }
        match self.reads.conflict(self.alloc, self.began, tables)? {
            Some(conflict) => Err(OrNoMemory::Fault(TxFault::Conflict(conflict))),
            None => run(self.alloc, &self.request, tables).map_err(OrNoMemory::widen),
        }
    }
}
