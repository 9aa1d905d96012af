//! Messages in memory of their own. A copy fails only where memory runs out.

ghost use Rattle.std.specs.Prelude.{◌≡◌, IfOk};

use gl_base::Sequence;
use gl_entry::Entry;
use gl_messages::{Body, Message};
use std::alloc::{AllocError, Global};

/// Entries in memory of their own.
fn copy_entries(alloc: Global, entries: &[Entry]) -> Result<Sequence<Entry>, AllocError>
    ensures { IfOk result (λ copied. copied ≡ entries.now) }
{
    let mut copied = Vec::new(alloc);
    for entry in entries {
        copied.push(entry.copy(alloc)?)?;
    }
    Ok(Sequence::from(copied))
}

/// What a message says, in memory of its own.
fn copy_body(alloc: Global, body: &Body) -> Result<Body, AllocError>
    ensures { IfOk result (λ copied. copied ≡ body.now) }
{
    match body {
        Body::RequestVote { last } => Ok(Body::RequestVote { last: *last }),
        Body::VoteReply { granted } => Ok(Body::VoteReply { granted: *granted }),
        Body::Append {
            prev,
            commit,
            entries,
        } => Ok(Body::Append {
            prev: *prev,
            commit: *commit,
            entries: copy_entries(alloc, entries.as_slice())?,
        }),
        Body::AppendReply { ok, seqno } => Ok(Body::AppendReply {
            ok: *ok,
            seqno: *seqno,
        }),
        Body::ProposeVote => Ok(Body::ProposeVote),
    }
}

/// A message in memory of its own.
pub(crate) fn copy_message(alloc: Global, message: &Message) -> Result<Message, AllocError>
    ensures { IfOk result (λ copied. copied ≡ message.now) }
{
    Ok(Message {
        from: message.from,
        to: message.to,
        view: message.view,
        body: copy_body(alloc, &message.body)?,
    })
}
