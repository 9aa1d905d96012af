//! The signatures of a node.

ghost use Rattle.std.specs.Prelude.{◌≡◌, ◌<◌, ◌^◌, ◌++◌, ℕ, Some, Ok, Err, IfOk, IfSome, IfNone, OnOk};
ghost use Rattle.gl_base.specs.TxId.{last_seqno};
ghost use Rattle.gl_hss.specs.Types.{height};
ghost use Rattle.gl_hss.specs.Signer.{hss_signature, levels_above};

use crate::store_book::StoreBook;
use gl_base::{Bytes, LAST_SEQNO};
use gl_entry::{Content, Entry, Signature, signed_message};
use gl_hss::bytes::u32str;
use gl_hss::{LMS_KEY_LEN, LmsKey};
use gl_ledger::{Refusal, Rejection};
use gl_vmaps::Writes;
use std::alloc::AllocError;

/// Writes what stands before the signature by a key that another one endorsed (RFC 8554, section
/// 6.2).
#[tactic(auto, unfolding(gl_hss::specs::Signer::levels_above))]
fn push_levels_above(key: &LmsKey, endorsement: &[u8], out: &mut Vec<u8>) -> Result<(), AllocError>
    ensures { OnOk result (out.new.items
        ≡ out.old.items ++ levels_above key.now (Some endorsement.now)) }
{
    out.extend_from_slice(&u32str(1))?;
    out.extend_from_slice(endorsement)?;
    out.extend_from_slice(&key.public())?;
    Ok(())
}

/// The signature of a message by a leaf of a key that another one endorsed. Whoever calls it uses
/// no leaf for two messages.
fn signature(
    key: &LmsKey,
    endorsement: &[u8],
    leaf: u32,
    message: &[u8],
) -> Result<Bytes, AllocError>
    requires leaf { leaf < 2 ^ height key.now.types }
    ensures { IfOk result (λ signature. signature
        ≡ hss_signature key.now (Some endorsement.now) leaf message.now) }
{
    let len = 4 + endorsement.len() + LMS_KEY_LEN + key.types().signature_len();
    let mut out = Vec::with_capacity(key.allocator(), len)?;
    push_levels_above(key, endorsement, &mut out)?;
    key.push_signature(leaf, message, &mut out)?;
    Ok(Bytes::from(out))
}

impl StoreBook {
    ghost use Rattle.gl_ledger.specs.NodeKeys.{NodeKeys};
    ghost use Rattle.gl_ledger.specs.Recordings.{endorsement_found};
    ghost use Rattle.gl_gov_rules.specs.Nodes.{node};
    ghost use Rattle.gl_store_book.specs.BasedLedgers.{IsAudited, len_of, past_of};
    ghost use Rattle.gl_store_book.specs.Stands.{HasKey};
    ghost use Rattle.gl_store_book.specs.Taken.{signed};

    /// Why nothing is signed, if so: there is no entry, or no seqno is left.
    pub(crate) fn refusal_to_sign(&self) -> Option<Rejection>
        ensures refused { IfSome result (λ why. (keys : NodeKeys) (leaf view commit : ℕ) →
            signed keys self.now.ledger self.now.me leaf view commit ≡ Err why) }
        ensures some { IfNone result (0 < len_of self.now.ledger) }
        ensures left { IfNone result (len_of self.now.ledger < last_seqno) }
        ensures valid { IsAudited self.now.ledger }
    {
        match self.ledger.len() {
            0 => Some(Rejection::NoEntry),
            len if len >= LAST_SEQNO => Some(Rejection::ByStore(Refusal::SeqnoLimit)),
            _ => None,
        }
    }

    /// The endorsement of the node's key that stands in its row, no bytes where the ledger doesn't
    /// record the node.
    fn endorsement(&self) -> &[u8]
        ensures { result.now
            ≡ endorsement_found (node (past_of self.now.ledger).history self.now.me) }
    {
        match self.ledger.tail().state().gov.history().node(&self.me) {
            None => &[],
            Some(recorded) => recorded.node.endorsement.as_slice(),
        }
    }

    /// The entry of the node's signature by a leaf, which records a commit.
    pub(crate) fn signature_entry(
        &self,
        leaf: u32,
        view: u32,
        commit: u64,
    ) -> Result<Entry, AllocError>
        requires leaf { leaf < 2 ^ height self.now.key.types }
        requires some { 0 < len_of self.now.ledger }
        requires left { len_of self.now.ledger < last_seqno }
        ensures made { IfOk result (λ entry. (keys : NodeKeys) → HasKey keys self.now →
            signed keys self.now.ledger self.now.me leaf view commit ≡ Ok entry) }
        ensures view { IfOk result (λ entry. entry.view ≡ view) }
    {
        let tail = self.ledger.tail();
        let seqno = tail.ledger_len() + 1;
        let root = tail.state().root();
        let message = signed_message(&root, view, seqno, commit);
        let signature = signature(&self.key, self.endorsement(), leaf, &message)?;
        Ok(Entry {
            view,
            seqno,
            content: Content::Signature(Signature {
                node: self.me,
                commit,
                root,
                signature,
            }),
            writes: Writes::new(self.alloc),
            claims: [0; 32],
        })
    }
}
