//! What nodes send to one another.

ghost use Rattle.std.specs.Prelude.{◌≡◌, ◌++◌, OnOk, IsTrue};
ghost use Rattle.gl_base.specs.Answers.{Answers};
ghost use Rattle.gl_base.specs.Code.{field};
ghost use Rattle.gl_base.specs.Cut.{bytes_at};
ghost use Rattle.gl_messages.specs.Fields.{tag_at};
ghost use Rattle.gl_messages.specs.Message.{body_tag, body_bytes, body_fits};
ghost use Rattle.gl_messages.specs.MessageReading.{part, request_vote_at, vote_reply_at, append_reply_at, body_at, message_at, message_of};

use crate::append::{put_append, read_append};
use crate::fault::MessageFault;
use crate::fields::{put_id, read_id, read_tag};
use gl_base::{CodeFault, Cut, OrNoMemory, Sequence, TxId, put_bytes, put_flag, put_u32, put_u64};
use gl_entry::{Entry, NodeId};
use std::alloc::{AllocError, Global};

/// Entries of a ledger, one after the other.
pub type Entries = Sequence<Entry>;

/// What a message says. A view and a place of a ledger are both 0 where there is no entry.
#[derive(Debug, Drop)]
pub enum Body {
    /// Asks for a vote.
    RequestVote {
        /// The view and the place of the sender's last signature.
        last: TxId,
    },
    /// Answers that.
    VoteReply {
        granted: bool,
    },
    /// Brings entries: 64 at most, and 1,500,000 bytes of frames at most where there are more than
    /// one.
    Append {
        /// The view and the place of the entry before the first of these.
        prev: TxId,
        /// The place up to which the sender knows the ledger committed.
        commit: u64,
        entries: Entries,
    },
    /// Answers that.
    AppendReply {
        ok: bool,
        /// The last seqno that was taken; or, where none was, the one after which to try.
        seqno: u64,
    },
    /// Asks the receiver to campaign for the next view.
    ProposeVote,
}

/// A message of one node to another.
#[derive(Debug, Drop)]
pub struct Message {
    pub from: NodeId,
    pub to: NodeId,
    /// The sender's view.
    pub view: u32,
    pub body: Body,
}

fn body_tag(body: &Body) -> u8
    ensures { result ≡ body_tag body.now }
{
    match body {
        Body::RequestVote { .. } => 1,
        Body::VoteReply { .. } => 2,
        Body::Append { .. } => 3,
        Body::AppendReply { .. } => 4,
        Body::ProposeVote => 5,
    }
}

fn put_body(alloc: Global, out: &mut Vec<u8>, body: &Body) -> Result<(), AllocError>
    requires { IsTrue (body_fits body.now) }
    ensures { OnOk result (out.new.items ≡ out.old.items ++ body_bytes body.now) }
{
    match body {
        Body::RequestVote { last } => put_id(out, *last),
        Body::VoteReply { granted } => put_flag(out, *granted),
        Body::Append {
            prev,
            commit,
            entries,
        } => put_append(alloc, out, *prev, *commit, entries.as_slice()),
        Body::AppendReply { ok, seqno } => {
            put_flag(out, *ok)?;
            put_u64(out, *seqno)
        }
        Body::ProposeVote => Ok(()),
    }
}

#[tactic(auto, unfolding(crate::specs::MessageReading::request_vote_at))]
fn read_request_vote(cut: &mut Cut<'_>) -> Result<Body, OrNoMemory<CodeFault>>
    ensures { Answers (λ body. (body, cut.new)) result (request_vote_at cut.old) }
{
    let last = read_id(cut)?;
    Ok(Body::RequestVote { last })
}

#[tactic(auto, unfolding(crate::specs::MessageReading::vote_reply_at))]
fn read_vote_reply(cut: &mut Cut<'_>) -> Result<Body, OrNoMemory<CodeFault>>
    ensures { Answers (λ body. (body, cut.new)) result (vote_reply_at cut.old) }
{
    let granted = cut.flag()?;
    Ok(Body::VoteReply { granted })
}

#[tactic(auto, unfolding(crate::specs::MessageReading::append_reply_at))]
fn read_append_reply(cut: &mut Cut<'_>) -> Result<Body, OrNoMemory<CodeFault>>
    ensures { Answers (λ body. (body, cut.new)) result (append_reply_at cut.old) }
{
    let ok = cut.flag()?;
    let seqno = cut.u64()?;
    Ok(Body::AppendReply { ok, seqno })
}

/// Reads what stands after a tag from 1 to 5 and the view of the message.
fn read_body(
    alloc: Global,
    tag: u8,
    view: u32,
    cut: &mut Cut<'_>,
) -> Result<Body, OrNoMemory<MessageFault>>
    ensures { Answers (λ body. (body, cut.new)) result (body_at tag view cut.old) }
{
    match tag {
        1 => read_request_vote(cut).map_err(OrNoMemory::widen),
        2 => read_vote_reply(cut).map_err(OrNoMemory::widen),
        3 => read_append(alloc, view, cut),
        4 => read_append_reply(cut).map_err(OrNoMemory::widen),
        _ => Ok(Body::ProposeVote),
    }
}

fn read_node(cut: &mut Cut<'_>) -> Result<NodeId, OrNoMemory<MessageFault>>
    ensures { Answers (λ node. (node, cut.new)) result (part (field (bytes_at 32 cut.old))) }
{
    Ok(*cut.array::<32>()?)
}

fn read_message_tag(cut: &mut Cut<'_>) -> Result<u8, OrNoMemory<MessageFault>>
    ensures { Answers (λ tag. (tag, cut.new)) result (part (tag_at 1 5 cut.old)) }
{
    read_tag(cut, 1, 5).map_err(OrNoMemory::widen)
}

#[tactic(auto, unfolding(crate::specs::MessageReading::message_at))]
fn read_message(alloc: Global, cut: &mut Cut<'_>) -> Result<Message, OrNoMemory<MessageFault>>
    ensures { Answers (λ message. (message, cut.new)) result (message_at cut.old) }
{
    let tag = read_message_tag(cut)?;
    let from = read_node(cut)?;
    let to = read_node(cut)?;
    let view = cut.u32()?;
    let body = read_body(alloc, tag, view, cut)?;
    Ok(Message {
        from,
        to,
        view,
        body,
    })
}

fn read_whole(alloc: Global, bytes: &[u8]) -> Result<Message, OrNoMemory<MessageFault>>
    ensures { Answers (λ message. message) result (message_of bytes.now) }
{
    let mut cut = Cut::new(bytes);
    let message = read_message(alloc, &mut cut)?;
    cut.end()?;
    Ok(message)
}

impl Message {
    ghost use Rattle.std.specs.Prelude.{◌≡◌, ◌≤◌, length, IsTrue, IfOk, Ok};
    ghost use Rattle.gl_base.specs.Answers.{Answers};
    ghost use Rattle.gl_messages.specs.Frames.{frame_limit};
    ghost use Rattle.gl_messages.specs.Message.{message_bytes, body_fits, is_message};
    ghost use Rattle.gl_messages.specs.MessageReading.{message_of};
    ghost use Rattle.gl_messages.specs.declared.message.Message.{Message as Value};

    /// The bytes of the message.
    pub fn encode(&self, alloc: Global) -> Result<Vec<u8>, AllocError>
        requires { IsTrue (body_fits self.now.body) }
        ensures bytes { IfOk result (λ bytes. bytes.items ≡ message_bytes self.now) }
        // They fit a frame.
        ensures fits { IfOk result (λ bytes. length bytes.items ≤ frame_limit) }
    {
        let mut out = Vec::new(alloc);
        out.push(body_tag(&self.body))?;
        put_bytes(&mut out, &self.from)?;
        put_bytes(&mut out, &self.to)?;
        put_u32(&mut out, self.view)?;
        put_body(alloc, &mut out, &self.body)?;
        Ok(out)
    }

    /// The message that the bytes encode, all of them.
    pub fn decode(alloc: Global, bytes: &[u8]) -> Result<Self, OrNoMemory<MessageFault>>
        // What is read is encoded so.
        ensures found { IfOk result (λ message.
            IsTrue (is_message message) × (bytes.now ≡ message_bytes message)) }
        // What is encoded so is read, unless memory runs out.
        ensures only { (m : Value) → IsTrue (is_message m) → bytes.now ≡ message_bytes m →
            Answers (λ message. message) result (Ok m) }
        // Which fault it is.
        ensures exact { Answers (λ message. message) result (message_of bytes.now) }
    {
        read_whole(alloc, bytes)
    }
}
