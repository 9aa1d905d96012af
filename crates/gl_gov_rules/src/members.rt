//! Who the members are and were, and the status of each.

ghost use Rattle.std.specs.Prelude.{◌≡◌, ◌≤◌, count_by, find, is_some};
ghost use Rattle.std.specs.List.{list_any};
ghost use Rattle.std.specs.Option.{option_copied};
ghost use Rattle.gl_gov_rules.specs.declared.change.Changed as a_change;
ghost use Rattle.gl_gov_rules.specs.declared.request_facts.Signed as a_signed;
ghost use Rattle.gl_gov_rules.specs.Members.{member_named};
ghost use Rattle.gl_gov_rules.specs.RequestFacts.{removed_in};
ghost use Rattle.gl_gov_rules.specs.Index.{last_leaf};

use crate::change::{Change, Changed};
use crate::history::History;
use crate::refusal::MemberStatus;
use crate::request_facts::{Signed, removed_in};
use gl_requests::{Action, NewMember};

/// The member whom the change names.
pub(crate) fn member_named(change: &Change) -> Option<NewMember>
    ensures { result ≡ member_named change.now }
{
    match change {
        Change::Applied(Action::SetMember(member)) => Some(*member),
        _ => None,
    }
}

/// How many members the changes name.
pub(crate) fn named_count(changes: &[Changed]) -> usize
    ensures { result
        ≡ count_by (λ (c : a_change.Changed). is_some (member_named c.change)) changes.now }
{
    changes
        .iter()
        .filter(|changed| member_named(&changed.change).is_some())
        .count()
}

/// How many members the changes remove.
pub(crate) fn removed_count(changes: &[Changed]) -> usize
    ensures { result
        ≡ count_by (λ (c : a_change.Changed). is_some (removed_in c.change)) changes.now }
{
    changes
        .iter()
        .filter(|changed| removed_in(&changed.change).is_some())
        .count()
}

/// 1 plus the leaf of the last of these, or what is carried without one.
fn last_leaf(carried: u32, signed: &[Signed]) -> u32
    ensures { result ≡ last_leaf carried signed.now }
{
    match signed.last() {
        None => carried,
        Some(signed) => signed.next_leaf,
    }
}

impl History {
    ghost use Rattle.gl_gov_rules.specs.Members.{member, is_removed, is_signer, is_acked_by, has_acked, member_status, is_present, is_active, present_count, active_count, leaf_carried, next_leaf};
    ghost use Rattle.gl_gov_rules.specs.Index.{signed, HasSmallLeaves};

    /// The member with this number, if there ever was one.
    #[tactic(auto, unfolding(crate::specs::Members::member))]
    pub fn member(&self, number: u8) -> Option<&NewMember>
        ensures { option_copied result ≡ member self.now number }
    {
        self.members().iter().find(|member| member.number == number)
    }

    /// Whether a removal of the member was applied.
    pub fn is_removed(&self, number: u8) -> bool
        ensures { result ≡ is_removed self.now number }
    {
        self.removed().iter().any(|other| *other == number)
    }

    /// Whether the member's Ack is carried.
    fn is_ack_carried(&self, number: u8) -> bool
        ensures { result ≡ list_any (is_acked_by number) self.now.carried.signed }
    {
        self.carried_signers()
            .iter()
            .any(|signer| signer.member == number && signer.is_ack)
    }

    /// Whether a request is the member's Ack.
    fn is_ack_signed(&self, number: u8) -> bool
        ensures { result ≡ list_any (λ (s : a_signed.Signed). s.is_ack) (signed number self.now) }
    {
        self.signed(number).iter().any(|signed| signed.is_ack)
    }

    /// Whether the member's Ack stands.
    #[tactic(auto, using(crate::proofs::HistoryIndex::acked_is))]
    pub fn has_acked(&self, number: u8) -> bool
        ensures { result ≡ has_acked self.now number }
    {
        self.is_ack_carried(number) || self.is_ack_signed(number)
    }

    /// The member's status.
    #[tactic(auto, unfolding(crate::specs::Members::member_status))]
    pub fn member_status(&self, number: u8) -> MemberStatus
        ensures { result ≡ member_status self.now number }
    {
        if self.is_removed(number) {
            MemberStatus::Removed
        } else if self.has_acked(number) {
            MemberStatus::Active
        } else {
            MemberStatus::Accepted
        }
    }

    /// Whether there is such a member, and it was not removed.
    #[tactic(auto, unfolding(crate::specs::Members::is_present))]
    pub fn is_present(&self, number: u8) -> bool
        ensures { result ≡ is_present self.now number }
    {
        self.member(number).is_some() && !self.is_removed(number)
    }

    /// Whether the member is present, and its Ack stands.
    #[tactic(auto, unfolding(crate::specs::Members::is_active))]
    pub fn is_active(&self, number: u8) -> bool
        ensures { result ≡ is_active self.now number }
    {
        self.is_present(number) && self.has_acked(number)
    }

    /// How many members are present.
    #[tactic(auto, unfolding(crate::specs::Members::present_count))]
    pub fn present_count(&self) -> usize
        ensures { result ≡ present_count self.now }
    {
        self.members()
            .iter()
            .filter(|member| self.is_present(member.number))
            .count()
    }

    /// How many members are active.
    #[tactic(auto, unfolding(crate::specs::Members::active_count))]
    pub fn active_count(&self) -> usize
        ensures { result ≡ active_count self.now }
    {
        self.members()
            .iter()
            .filter(|member| self.is_active(member.number))
            .count()
    }

    /// 1 plus the leaf of the last request that the member signed, as it is carried.
    fn leaf_carried(&self, number: u8) -> u32
        ensures { result ≡ leaf_carried (find (is_signer number) self.now.carried.signed) }
    {
        match self
            .carried_signers()
            .iter()
            .find(|signer| signer.member == number)
        {
            None => 0,
            Some(signer) => signer.next_leaf,
        }
    }

    /// 1 plus the leaf of the last request that the member signed, 0 without one. Behind a base it
    /// is what the member's row tells, until the member signs a request.
    pub fn next_leaf(&self, number: u8) -> u32
        ensures leaf { result ≡ next_leaf self.now number }
        ensures range { HasSmallLeaves self.now.carried → result ≤ 1024 }
    {
        last_leaf(self.leaf_carried(number), self.signed(number))
    }
}
