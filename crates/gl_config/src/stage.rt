//! How far a retirement has come.

ghost use Rattle.std.specs.Prelude.{◌≡◌};
ghost use Rattle.std.specs.Option.{option_map};
ghost use Rattle.gl_rules.specs.Retirement.{stage};
ghost use Rattle.gl_config.specs.Stages.{seen_stage};

/// The stages of a node's retirement, in their order, as another node sees them.
#[derive(Clone, Copy, Debug, PartialEq, Eq)]
pub enum Stage {
    /// The node's removal stands in the log.
    Ordered,
    /// A signature stands above the removal.
    Signed,
    /// The removal is committed.
    Completed,
    /// The node's mark is committed: only now it may be switched off.
    RetiredCommitted,
}

impl Stage {
    /// The last stage that holds, by the seqno of the node's removal and that of its mark, the
    /// seqno of the last signature, 0 where there is none, and commit. A node that wasn't removed
    /// is at no stage.
    #[tactic(auto, unfolding(gl_rules::specs::Retirement::stage))]
    pub fn of(
        removal: Option<u64>,
        mark: Option<u64>,
        last_signature: u64,
        commit: u64,
    ) -> Option<Stage>
        ensures { option_map seen_stage result ≡ stage removal mark last_signature commit }
    {
        let removal = removal?;
        if mark.is_some_and(|seqno| seqno <= commit) {
            Some(Stage::RetiredCommitted)
        } else if removal <= commit {
            Some(Stage::Completed)
        } else if removal < last_signature {
            Some(Stage::Signed)
        } else {
            Some(Stage::Ordered)
        }
    }
}
