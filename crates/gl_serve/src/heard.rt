//! Whether a node heard of its service.

ghost use Rattle.std.specs.Prelude.{◌≡◌};
ghost use Rattle.gl_serve.specs.Hearing.{is_heard, reports_of_service};

use gl_messages::{Body, Message};

/// Whether an answer tells that a vote was granted, or that entries of the node's view came.
fn reports_of_service(in_view: bool, sent: &Message) -> bool
    ensures { result ≡ reports_of_service in_view sent.now }
{
    match &sent.body {
        Body::VoteReply { granted } => *granted,
        Body::AppendReply { .. } => in_view,
        Body::RequestVote { .. } | Body::Append { .. } | Body::ProposeVote => false,
    }
}

/// Whether the count of ticks begins again: a vote was granted, or entries of the node's view were
/// answered.
pub(crate) fn is_heard(came: u32, view: u32, sent: &[Message]) -> bool
    ensures { result ≡ is_heard came view sent.now }
{
    let in_view = came == view;
    sent.iter()
        .any(|message| reports_of_service(in_view, message))
}
