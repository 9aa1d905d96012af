//! A receipt written as its JSON text.

ghost use Rattle.std.specs.Prelude.{◌≡◌, Ok, IfOk};
ghost use Rattle.gl_receipt.specs.Form.{receipt_from};
ghost use Rattle.gl_receipt.specs.Tree.{receipt_tree};
ghost use Rattle.serde_json.specs.Written.{compact_text};

use crate::components::Receipt;
use crate::tree::receipt_tree;
use std::alloc::{AllocError, Global};

/// The JSON text of a receipt, without spaces and with each object's members in the order of their
/// names. No newline stands after it.
pub fn write_receipt(alloc: Global, receipt: &Receipt) -> Result<Vec<u8>, AllocError>
    ensures text { IfOk result (λ t. t.items ≡ compact_text (receipt_tree receipt.now)) }
    ensures reads_back { IfOk result (λ t. receipt_from t.items ≡ Ok receipt.now) }
{
    receipt_tree(alloc, receipt)?.to_vec(alloc)
}
