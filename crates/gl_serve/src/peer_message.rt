//! A message of a peer, as it was read.

use gl_messages::Message;
use std::marker::Model;

/// A message of a peer, which brings so many entries at most as one message may. It is seen as the
/// message.
#[derive(Drop)]
pub struct PeerMessage {
    message: Message,
}

impl Model for PeerMessage {
    ghost use Rattle.std.specs.Prelude.{◌≡◌, true};
    ghost use Rattle.gl_messages.specs.declared.message.Message.{Message as Value_};
    ghost use Rattle.gl_replication.specs.Events.{brings_few};

    ghost Value = { Value_ };

    ghost view = { λ p. p.message };

    ghost invariant = { λ p. brings_few p.message.body ≡ true };
}

impl PeerMessage {
    ghost use Rattle.std.specs.Prelude.{◌≡◌, true};
    ghost use Rattle.gl_replication.specs.Events.{brings_few};

    pub fn new(message: Message) -> Self
        requires { brings_few message.body ≡ true }
        ensures { result ≡ message }
    {
        PeerMessage { message }
    }

    /// The view of its sender.
    pub fn view(&self) -> u32
        ensures { result ≡ self.now.view }
    {
        self.message.view
    }

    pub(crate) fn into_message(self) -> Message
        ensures message { result ≡ self }
        ensures few { brings_few result.body ≡ true }
    {
        self.message
    }
}
