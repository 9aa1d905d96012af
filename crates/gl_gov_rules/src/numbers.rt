//! The bytes and numbers by which rows and programs tell states, statuses and causes.

use crate::change::ProposalState;
use crate::refusal::{Cause, MemberStatus, NodeStatus};

impl ProposalState {
    ghost use Rattle.std.specs.Prelude.{◌≡◌};
    ghost use Rattle.gl_gov_rules.specs.Rows.{proposal_byte};

    /// The byte that encodes the state.
    pub fn byte(self) -> u8
        ensures byte { result ≡ proposal_byte self }
    {
        match self {
            ProposalState::Open => 1,
            ProposalState::Accepted => 2,
            ProposalState::Rejected => 3,
            ProposalState::Withdrawn => 4,
            ProposalState::Failed => 5,
            ProposalState::Dropped => 6,
        }
    }
}

impl MemberStatus {
    ghost use Rattle.std.specs.Prelude.{◌≡◌};
    ghost use Rattle.gl_gov_rules.specs.Rows.{member_byte};

    /// The byte that encodes the status.
    pub fn byte(self) -> u8
        ensures byte { result ≡ member_byte self }
    {
        match self {
            MemberStatus::Accepted => 1,
            MemberStatus::Active => 2,
            MemberStatus::Removed => 3,
        }
    }
}

impl NodeStatus {
    ghost use Rattle.std.specs.Prelude.{◌≡◌};
    ghost use Rattle.gl_gov_rules.specs.Rows.{node_byte};

    /// The byte that encodes the status.
    pub fn byte(self) -> u8
        ensures byte { result ≡ node_byte self }
    {
        match self {
            NodeStatus::Pending => 1,
            NodeStatus::Trusted => 2,
            NodeStatus::Retired => 3,
            NodeStatus::Marked => 4,
        }
    }
}

impl Cause {
    ghost use Rattle.std.specs.Prelude.{◌≡◌};
    ghost use Rattle.gl_gov_rules.specs.Numbers.{cause_number};

    /// The number by which a program tells the cause, from 1.
    pub fn number(self) -> u8
        ensures number { result ≡ cause_number self }
    {
        match self {
            Cause::NumberUsed => 1,
            Cause::KeyUsed => 2,
            Cause::NotPresent => 3,
            Cause::TooFewHolders => 4,
            Cause::NotRecorded => 5,
            Cause::NodeStatus => 6,
            Cause::LastTrusted => 7,
            Cause::NotOpening => 8,
            Cause::Fraction => 9,
            Cause::Dealing => 10,
            Cause::Full => 11,
        }
    }
}
