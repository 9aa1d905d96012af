//! A receipt read from its one text.

ghost use Rattle.gl_base.specs.Answers.{Answers};
ghost use Rattle.gl_snapshot.specs.Parsing.{receipt_in_text};

use crate::body::fault_at;
use gl_base::{OrNoMemory, same_bytes};
use gl_receipt::{Receipt, read_receipt, write_receipt};
use gl_snapshot_body::ShapeFault;
use std::alloc::Global;

/// The receipt of which this is the text, whose length stands at this place.
#[tactic(auto, unfolding(crate::specs::Parsing::receipt_in_text))]
pub(crate) fn read_receipt_text(
    alloc: Global,
    place: usize,
    text: &[u8],
) -> Result<Receipt, OrNoMemory<ShapeFault>>
    ensures { Answers (λ receipt. receipt) result (receipt_in_text place text.now) }
{
    let receipt = match read_receipt(alloc, text) {
        Ok(receipt) => receipt,
        Err(OrNoMemory::NoMemory) => return Err(OrNoMemory::NoMemory),
        Err(OrNoMemory::Fault(_)) => return Err(fault_at(place)),
    };
    if !same_bytes(text, &write_receipt(alloc, &receipt)?) {
        return Err(fault_at(place));
    }
    Ok(receipt)
}
