//! A body whose rows of governance spell, read from bytes.

ghost use Rattle.std.specs.Prelude.{◌≡◌, ◌+◌, ◌^◌, ◌<◌, ◌≤◌, Ok, IfOk, IsTrue, length, true};
ghost use Rattle.gl_base.specs.Answers.{Answers};
ghost use Rattle.gl_gov_rules.specs.GovernedRows.{governed_rows};
ghost use Rattle.gl_snapshot_body.specs.Body.{body_bytes, is_body, is_counted};
ghost use Rattle.gl_snapshot.specs.Parsing.{governed_by, body_of};

use gl_base::OrNoMemory;
use gl_gov_rows::governed_rows;
use gl_gov_rules::GovernedRows;
use gl_snapshot_body::{Body, ShapeFault, read_body};
use std::alloc::Global;

/// The body of a snapshot, and its rows of governance as values.
#[derive(Debug, Drop)]
pub struct GovernedBody {
    pub body: Body,
    pub governed: GovernedRows,
}

/// All faults of a part that has no places of its own.
pub(crate) fn fault_at(at: usize) -> OrNoMemory<ShapeFault>
    ensures { result ≡ OrNoMemory.Fault (record { at = at }) }
{
    OrNoMemory::Fault(ShapeFault { at })
}

/// The body, which begins at this place, with its rows of governance, where they spell.
fn governed(alloc: Global, at: usize, body: Body) -> Result<GovernedBody, OrNoMemory<ShapeFault>>
    requires counted { IsTrue (is_counted body) }
    requires fits { at + length (body_bytes body) < 2 ^ 64 }
    ensures exact { Answers (λ read. read.body) result
        (governed_by at body (governed_rows body.base body.rows)) }
    ensures same { IfOk result (λ read. read.body ≡ body) }
    ensures governed { IfOk result (λ read.
        governed_rows read.body.base read.body.rows ≡ Ok read.governed) }
{
    match governed_rows(alloc, body.base, body.rows.as_slice()) {
        Ok(governed) => Ok(GovernedBody { body, governed }),
        Err(OrNoMemory::NoMemory) => Err(OrNoMemory::NoMemory),
        Err(OrNoMemory::Fault(index)) => Err(fault_at(body.row_place(at, index))),
    }
}

/// The body that is all of the bytes, of which the first stands at this place among others, and in
/// which each row of governance spells what it is of and none lacks, with these rows as values.
/// Else the place of the first fault: of what is no body, then of the first such row that doesn't
/// spell, or of the body's end where one lacks.
#[tactic(auto, unfolding(crate::specs::Parsing::body_of))]
pub fn read_governed_body(
    alloc: Global,
    at: usize,
    bytes: &[u8],
) -> Result<GovernedBody, OrNoMemory<ShapeFault>>
    requires { at + length bytes.now < 2 ^ 64 }
    ensures exact { Answers (λ read. read.body) result (body_of at bytes.now) }
    ensures body { IfOk result (λ read.
        (is_body read.body ≡ true) × (bytes.now ≡ body_bytes read.body)) }
    ensures governed { IfOk result (λ read.
        governed_rows read.body.base read.body.rows ≡ Ok read.governed) }
{
    let body = read_body(alloc, at, bytes)?;
    governed(alloc, at, body)
}
