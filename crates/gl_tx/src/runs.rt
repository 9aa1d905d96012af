//! The run of a request.

ghost use Rattle.std.specs.Prelude.{◌≡◌, ◌+◌, ◌<◌, ◌≤◌, List, [], ◌∷◌, suc, length, Ok, IfOk, OnOk, IfErr};
ghost use Rattle.gl_base.specs.Answers.{Answers, Fails};
ghost use Rattle.gl_tx.specs.Sees.{sees_of};
ghost use Rattle.gl_tx.specs.Run.{with_answer, run_from, run_seeing, run};
ghost use Rattle.gl_tx.specs.declared.request.Operation.{Operation};
ghost use Rattle.gl_vmaps.specs.Standing.{StandsFor};
ghost use Rattle.gl_vmaps.specs.Versions.{Placed, written_by};

use crate::abort::Abort;
use crate::lookup::Lookup;
use crate::overlay::Overlay;
use crate::performed::{Performed, perform};
use crate::request::{Answer, Operation, Reply, Request};
use gl_base::OrNoMemory;
use gl_vmaps::{Tables, Writes};
use std::alloc::Global;

/// What a request that ran answers and writes.
#[derive(Debug, Drop)]
pub struct Ran {
    /// One answer for each operation, in order.
    pub reply: Reply,
    /// The last write to each row that the request wrote: at most 64.
    pub writes: Writes,
}

/// Performs the operation with a number, and adds what it writes.
fn step<L: Lookup>(
    alloc: Global,
    overlay: &mut Overlay<'_, L>,
    number: u8,
    operation: &Operation,
) -> Result<Answer, OrNoMemory<Abort>>
    requires { length overlay.old.writes < 64 }
    ensures ok { let sees = L.sees overlay.old.base.now in
        IfOk result (λ answer. (rest : List Operation) →
        run_from number (operation.now ∷ rest) sees overlay.old.writes
        ≡ with_answer answer (run_from (suc number) rest sees overlay.new.writes)) }
    ensures same { OnOk result (overlay.new.base.now ≡ overlay.old.base.now) }
    ensures aborted { IfErr result (λ e. (rest : List Operation) →
        Fails e (run_from number (operation.now ∷ rest)
        (L.sees overlay.old.base.now) overlay.old.writes)) }
    ensures few { OnOk result (length overlay.new.writes ≤ length overlay.old.writes + 1) }
{
    match perform(alloc, overlay, operation) {
        Ok(Performed { answer, write }) => {
            if let Some(write) = write {
                overlay.put(write)?;
            }
            Ok(answer)
        }
        Err(OrNoMemory::NoMemory) => Err(OrNoMemory::NoMemory),
        Err(OrNoMemory::Fault(cause)) => Err(OrNoMemory::Fault(Abort {
            operation: number,
            cause,
        })),
    }
}

/// Performs the operations in order, and adds what they write.
fn answers_to<L: Lookup>(
    alloc: Global,
    overlay: &mut Overlay<'_, L>,
    operations: &[Operation],
) -> Result<Vec<Answer>, OrNoMemory<Abort>>
    requires fresh { overlay.old.writes ≡ [] }
    requires few { length operations.now ≤ 64 }
    ensures ok { IfOk result (λ answers. run_from 1 operations.now (L.sees overlay.old.base.now) []
        ≡ Ok (record { reply = answers.items; writes = overlay.new.writes })) }
    ensures each { IfOk result (λ answers. length answers.items ≡ length operations.now) }
    ensures aborted { IfErr result (λ e.
        Fails e (run_from 1 operations.now (L.sees overlay.old.base.now) [])) }
{
    let mut answers = Vec::new(alloc);
    for (i, operation) in operations.iter().enumerate() {
        answers.push(step(alloc, overlay, i as u8 + 1, operation)?)?;
    }
    Ok(answers)
}

/// Runs a request on what it finds its rows in.
fn run_seeing<L: Lookup>(
    alloc: Global,
    request: &Request,
    found_in: &L,
) -> Result<Ran, OrNoMemory<Abort>>
    ensures exact { Answers (λ ran. ran) result (run_seeing request.now (L.sees found_in.now)) }
    ensures few { IfOk result (λ ran. length ran.writes ≤ 64) }
{
    let mut overlay = Overlay::new(alloc, found_in);
    let answers = answers_to(alloc, &mut overlay, request.as_slice())?;
    Ok(Ran {
        reply: Reply::of(answers),
        writes: overlay.writes,
    })
}

/// Runs a request on tables, which stay as they are: its operations in order, each on what the
/// earlier ones wrote, up to the first that fails.
pub fn run(alloc: Global, request: &Request, tables: &Tables) -> Result<Ran, OrNoMemory<Abort>>
    ensures exact { Answers (λ ran. ran) result (run_seeing request.now (sees_of tables.now)) }
    ensures stands { (ps : List Placed) → StandsFor tables.now ps →
        Answers (λ ran. ran) result (run request.now (written_by ps)) }
    ensures few { IfOk result (λ ran. length ran.writes ≤ 64) }
{
    run_seeing(alloc, request, tables)
}
