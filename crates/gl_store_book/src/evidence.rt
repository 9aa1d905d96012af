//! The last evidence of a ledger.

ghost use Rattle.std.specs.Prelude.{◌≡◌, ◌+◌, ◌-◌, ◌<◌, ◌^◌, length, option_map};
ghost use Rattle.gl_rules.specs.Replication.{greatest_evidence};
ghost use Rattle.gl_entry.specs.Entry.{is_evidence};
ghost use Rattle.gl_ledger.specs.LedgerBook.{ledger_book};
ghost use Rattle.gl_ledger.specs.NodeKeys.{NodeKeys, service_layers};

use gl_entry::{Content, Entry};

fn is_evidence(entry: &Entry) -> bool
    ensures { result ≡ is_evidence entry.now.content }
{
    matches!(entry.content, Content::Evidence(_))
}

/// The seqno of the last evidence up to a seqno, if one is among the entries, which stand behind a
/// base. It is searched from there back.
pub(crate) fn last_evidence(entries: &[Entry], base: u64, upto: u64) -> Option<u64>
    requires { base + length entries.now < 2 ^ 64 }
    ensures { (keys : NodeKeys) → result ≡ option_map (λ n. base + n)
        (greatest_evidence (ledger_book service_layers keys) entries.now 0 (upto - base)) }
{
    let mut place = upto.saturating_sub(base).min(entries.len() as u64);
    while place > 0 {
        if is_evidence(&entries[place as usize - 1]) {
            return Some(base + place);
        }
        place -= 1;
    }
    None
}
