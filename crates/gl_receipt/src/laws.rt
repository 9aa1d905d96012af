//! What holds of every receipt, as the contracts of functions that do nothing.

ghost use Rattle.std.specs.Prelude.{◌≡◌, ℕ, List};
ghost use Rattle.gl_base.specs.declared.tx_id.TxId.{TxId};
ghost use Rattle.gl_merkle.specs.Collision.{HaveSameSides};
ghost use Rattle.gl_receipt.specs.Receipt.{root_of, IsEvidence, Accepts};
ghost use Rattle.gl_receipt.specs.Law.{AreSized, ReceiptsAreBound};
ghost use Rattle.gl_receipt.specs.declared.components.Receipt.{Receipt};

/// A text is the commit evidence of one transaction at most, whatever the key. Two receipts for one
/// root, whose siblings stand on the same sides, show the same components, and so the same
/// transaction, or name two inputs of SHA-256 with one digest.
pub fn law_of_receipts()
    ensures one { (identity other text : List ℕ) (a b : TxId) → IsEvidence identity text a
        → IsEvidence other text b → a ≡ b }
    ensures bound { (r s : Receipt) → AreSized r.leaf_components → AreSized s.leaf_components
        → HaveSameSides r.proof s.proof → root_of r ≡ root_of s → ReceiptsAreBound r s }
{}
