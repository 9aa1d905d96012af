//! What a node tells of its ledger.

ghost use Rattle.std.specs.Prelude.{◌≡◌, drop};
ghost use Rattle.std.specs.Option.{option_map};
ghost use Rattle.gl_rules.specs.Log.{entry_at};
ghost use Rattle.gl_rules.specs.Retirement.{stage_at};
ghost use Rattle.gl_rules.specs.Safety.{committed_ledger, reported_status, view_of};
ghost use Rattle.gl_config.specs.Stages.{seen_stage};
ghost use Rattle.gl_replication.specs.Stands.{Reports};

use crate::book::Book;
use crate::node::Core;
use gl_base::{Status, TxId, status};
use gl_config::{NodeId, Stage};
use gl_entry::Entry;

impl<B: Book> Core<B> {
    /// The view of the entry at a seqno, if there is one.
    fn view_of(&self, seqno: u64) -> Option<u32>
        ensures { Reports B.stands self.now (λ b x n. result ≡ view_of b (entry_at n.log seqno)) }
    {
        if seqno == 0 || seqno > self.book.ledger_len() {
            return None;
        }
        Some(self.book.view_at(seqno))
    }

    /// The status of a transaction by what this node holds (CCF documentation, "Transaction
    /// status"). Only Committed and Invalid are final.
    pub fn status(&self, id: TxId) -> Status
        ensures { Reports B.stands self.now (λ b x n. result ≡ reported_status b n id) }
    {
        let committed = match self.view_of(self.commit) {
            None => None,
            Some(view) => Some(TxId {
                view,
                seqno: self.commit,
            }),
        };
        status(id, self.view_of(id.seqno), committed)
    }

    /// How far the retirement of a node has come, as this node sees it. A node that wasn't removed
    /// is at no stage.
    pub fn stage(&self, node: &NodeId) -> Option<Stage>
        ensures { Reports B.stands self.now (λ b x n.
            option_map seen_stage result ≡ stage_at b n node.now) }
    {
        let signed = self.book.last_signature();
        Stage::of(
            self.book.removal(node),
            self.book.mark(node),
            signed.seqno,
            self.commit,
        )
    }

    /// The committed entries above the base, in order.
    pub fn committed(&self) -> &[Entry]
        ensures { Reports B.stands self.now (λ b x n.
            result.now ≡ drop n.base (committed_ledger n)) }
    {
        let entries = self.book.entries();
        let count = self.commit.saturating_sub(self.book.base());
        if count >= entries.len() as u64 {
            return entries;
        }
        &entries[..count as usize]
    }
}
