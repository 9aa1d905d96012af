//! The transaction that a text of commit evidence names.

ghost use Rattle.std.specs.Prelude.{◌≡◌, drop, position, length};
ghost use Rattle.std.specs.List.{before_first};
ghost use Rattle.gl_receipt.specs.Verdict.{is_colon, transaction_of};

use crate::fault::ReceiptFault;
use gl_base::TxId;
use gl_entry::is_evidence;

fn first_colon(text: &[u8]) -> Option<usize>
    ensures { result ≡ position is_colon text.now }
{
    text.iter().position(|byte| *byte == b':')
}

fn up_to_colon(text: &[u8]) -> &[u8]
    ensures { result.now ≡ before_first is_colon text.now }
{
    match first_colon(text) {
        Some(end) => &text[..end],
        None => text,
    }
}

/// What stands after the first three bytes, up to the next colon.
fn id_text(text: &[u8]) -> &[u8]
    ensures { result.now ≡ before_first is_colon (drop 3 text.now) }
{
    match text {
        [_, _, _, rest @ ..] => up_to_colon(rest),
        _ => &[],
    }
}

/// The transaction of the service with this key whose commit evidence the text is.
#[tactic(auto, unfolding(crate::specs::Verdict::transaction_of))]
pub(crate) fn transaction_of(identity: &[u8; 60], text: &[u8]) -> Result<TxId, ReceiptFault>
    ensures { result ≡ transaction_of identity.now text.now }
{
    match TxId::parse(id_text(text)) {
        Ok(id) if is_evidence(text, identity, id) => Ok(id),
        _ => Err(ReceiptFault::Evidence),
    }
}
