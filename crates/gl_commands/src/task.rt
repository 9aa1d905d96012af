//! What words ask for, or why they ask for nothing.

ghost use Rattle.std.specs.Prelude.{◌≡◌};
ghost use Rattle.gl_commands.specs.declared.task.WordsFault.TheVariants.{Refused};

use clap::error::ErrorKind;
use gl_base::Sequence;
use gl_hss::Types;
use gl_journal::KeyKind;
use gl_keyfile::Signing;
use gl_requests::{HssPublicKey, NodeId};

/// What the words ask for.
#[derive(Debug, Drop, PartialEq, Eq)]
pub enum Asked {
    /// A task, which is done once.
    Task(Task),
    /// To serve as the node of a file.
    Node(NodeTask),
    /// To make a ledger of so many requests, and tell of it.
    Load(LoadTask),
}

/// A task that is done once, with what the source gives.
#[derive(Debug, Drop, PartialEq, Eq)]
pub enum Task {
    /// To replay a schedule.
    Replay,
    /// To verify a receipt under a service's key.
    Verify {
        identity: HssPublicKey,
    },
    /// To audit a ledger under a service's key.
    Audit {
        identity: HssPublicKey,
    },
    /// To begin a key file, and tell the public form of its key.
    Keygen {
        kind: KeyKind,
        types: Types,
    },
    /// To deal a recovery secret among the members with these numbers, of which so many give it.
    Deal {
        threshold: u64,
        members: Sequence<u64>,
    },
    /// To sign with the key of a file, and tell what that comes to.
    Sign {
        signing: Signing,
    },
    /// To recover a service with the key of a file, and tell the ledger that opens it.
    Recover,
}

/// How the node of a file is to serve.
#[derive(Debug, Drop, PartialEq, Eq)]
pub struct NodeTask {
    /// So many ticks without word of a leader make the node stand for election.
    pub ticks: u32,
    /// How often the link may be asked for what comes next.
    pub turns: u64,
    /// The peers: the first has the first connection, and so on.
    pub peers: Sequence<NodeId>,
}

/// Which ledger is to be made.
#[derive(Clone, Copy, Debug, PartialEq, Eq)]
pub struct LoadTask {
    /// How many requests it takes.
    pub count: u64,
    /// The seed of its keys and of its requests.
    pub seed: [u8; 32],
}

/// Why words ask for nothing.
#[derive(Clone, Copy, Debug, PartialEq, Eq)]
pub enum WordsFault {
    NoMemory,
    /// They are not those of a command: what `clap` finds wrong with them, or that a word isn't the
    /// hexadecimal or the number that is wanted.
    Refused(ErrorKind),
}

impl From<ErrorKind> for WordsFault {
    ghost from_gives = { λ kind fault. fault ≡ Refused kind };

    fn from(kind: ErrorKind) -> WordsFault {
        WordsFault::Refused(kind)
    }
}
