//! What an event makes of a node.

ghost use Rattle.std.specs.Prelude.{◌≡◌, true, IfOk, IfErr, OnErr};
ghost use Rattle.gl_replication.specs.Events.{AreFit, delivery, is_request, IsAccepted, rule_of, takes_memory};
ghost use Rattle.gl_replication.specs.Stands.{IsNoMemory, KeepsAll, Refuses, Steps};

use crate::book::Book;
use crate::done::{Done, Refusal};
use crate::event::Event;
use crate::node::Core;
use gl_messages::Message;

impl<B: Book> Core<B> {
    /// A message at a node. One to another node is dropped.
    #[tactic(auto, unfolding(gl_rules::specs::Identity::same))]
    fn deliver(&mut self, message: &Message) -> Result<Done<B>, Refusal<B>>
        ensures steps { IfOk result (λ done.
            Steps B.stands (delivery message.now) self.old done self.new) }
        ensures refused { IfErr result (λ why.
            Refuses B.stands (delivery message.now) self.old why) }
        ensures err { OnErr result (KeepsAll B.stands self.old self.new) }
        ensures fits { IfOk result (λ done. AreFit done.sent) }
        ensures snapshot { B.base_snapshot self.new.book ≡ B.base_snapshot self.old.book }
    {
        if message.to != self.book.me() {
            return Ok(self.idle());
        }
        self.on_message(message)
    }

    /// What an event makes of a node: the step of its rule.
    pub fn step(&mut self, event: &Event<B>) -> Result<Done<B>, Refusal<B>>
        ensures steps { IfOk result (λ done.
            Steps B.stands (rule_of event.now) self.old done self.new) }
        ensures refused { IfErr result (λ why.
            Refuses B.stands (rule_of event.now) self.old why) }
        ensures err { OnErr result (KeepsAll B.stands self.old self.new) }
        ensures ample { IfErr result (λ why. IsNoMemory why → takes_memory event.now ≡ true) }
        ensures fits { IfOk result (λ done. AreFit done.sent) }
        ensures accepted { IfOk result (λ done.
            is_request event.now ≡ true → IsAccepted B.fits done.outcome) }
        ensures snapshot { B.base_snapshot self.new.book ≡ B.base_snapshot self.old.book }
    {
        match event {
            Event::Timeout => self.timeout(),
            Event::Message(message) => self.deliver(message),
            Event::Submit(request) => self.submit(request),
            Event::Govern(request) => self.govern(request),
            Event::Reserve => self.reserve(),
            Event::Sign => self.sign(),
            Event::Evidence => self.evidence(),
            Event::Replicate(to) => self.replicate(*to),
            Event::Advance => self.advance(),
            Event::StepDown(to) => self.step_down(*to),
        }
    }
}
