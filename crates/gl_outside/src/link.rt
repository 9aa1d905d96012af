ghost use Rattle.std.specs.Prelude.{◌≡◌, ℕ, ◌≤◌, Bool, ◌||◌, List, ◌++◌, [], length, IsTrue};
ghost use Rattle.gl_outside.specs.Fault.{Rose, next_call};
ghost use Rattle.gl_outside.specs.Link.{Inward, Exchange, given_by, gave, is_end, sent_by};

use crate::sink::Put;

/// What comes next over a link.
#[derive(Debug, Drop)]
pub enum Came {
    /// Bytes of a connection.
    Bytes(u64, Vec<u8>),
    /// A while went by.
    Tick,
    /// There is nothing more to come.
    Ended,
    /// The link failed, and counted it. Nothing was given.
    Failed,
    /// There was no memory. Nothing was given.
    NoMemory,
}

/// Connections, whose bytes come in pieces, and over which whole frames are sent.
pub trait Link {
    // Whether the link is honest: what it tells of what came and was sent holds of it.
    ghost honest: { Bool };

    // What was given and sent so far, in order.
    ghost past: { Self → List Exchange };

    // What is still to come, and how `next` went so far.
    ghost inward: { Self → Inward };

    // How often `send` failed, up to the last value of a u64.
    ghost send_faults: { Self → ℕ };

    /// What comes next. It may wait.
    fn next(&mut self) -> Came
        ensures past { IsTrue honest → past self.new ≡ past self.old ++ gave (given_by result) }
        ensures coming { IsTrue honest →
            (inward self.old).coming ≡ given_by result ++ (inward self.new).coming }

        ensures end { IsTrue honest → result ≡ Came.Ended → (inward self.new).coming ≡ [] }
        ensures kept_end { (inward self.new).ended ≡ ((inward self.old).ended || is_end result) }
        ensures calls { (inward self.new).calls ≡ next_call (inward self.old).calls }

        ensures failed { result ≡ Came.Failed →
            Rose (inward self.old).faults (inward self.new).faults }
        ensures quiet { (result ≡ Came.Failed → ⊥) →
            (inward self.new).faults ≡ (inward self.old).faults }
        ensures never_falls { (inward self.old).faults ≤ (inward self.new).faults }
        ensures send_faults { send_faults self.new ≡ send_faults self.old };

    /// Sends a whole frame on a connection. Where it fails, the frame is lost.
    fn send(&mut self, conn: u64, frame: &[u8]) -> Put
        ensures whole { (n : ℕ) → result ≡ Put.Took n → n ≡ length frame.now }
        ensures past { IsTrue honest →
            past self.new ≡ past self.old ++ sent_by conn frame.now result }
        ensures inward { inward self.new ≡ inward self.old }

        ensures failed { result ≡ Put.Failed → Rose (send_faults self.old) (send_faults self.new) }
        ensures quiet { (result ≡ Put.Failed → ⊥) → send_faults self.new ≡ send_faults self.old }
        ensures never_falls { send_faults self.old ≤ send_faults self.new };
}

impl<L: Link> Link for &mut L {
    ghost honest = { L.honest };

    ghost past = { λ l. L.past l.now };

    ghost inward = { λ l. L.inward l.now };

    ghost send_faults = { λ l. L.send_faults l.now };

    fn next(&mut self) -> Came {
        Link::next(&mut **self)
    }

    fn send(&mut self, conn: u64, frame: &[u8]) -> Put {
        Link::send(&mut **self, conn, frame)
    }
}
