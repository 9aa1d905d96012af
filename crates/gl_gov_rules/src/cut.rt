//! How many of the changes stand up to a seqno.

ghost use Rattle.std.specs.Prelude.{◌≡◌, count_by, nat_le};
ghost use Rattle.gl_gov_rules.specs.declared.change.Changed as a_change;

use crate::change::Changed;

/// How many of the changes stand up to a seqno.
pub(crate) fn changes_up_to(to: u64, changes: &[Changed]) -> usize
    ensures { result ≡ count_by (λ (c : a_change.Changed). nat_le c.seqno to) changes.now }
{
    changes.iter().filter(|changed| changed.seqno <= to).count()
}
