//! What a history holds once more, in memory of its own. Each copy fails only where memory runs
//! out.

use crate::change::{Change, Changed, Proposal, Recorded, RecordedNode};
use gl_index::Duplicate;
use gl_requests::copy_actions;
use std::alloc::{AllocError, Global};

impl Duplicate for Recorded {
    fn copy(&self, alloc: Global) -> Result<Recorded, AllocError> {
        let request = self.request.copy(alloc)?;
        Ok(Recorded {
            seqno: self.seqno,
            request,
        })
    }
}

impl Duplicate for Changed {
    fn copy(&self, alloc: Global) -> Result<Changed, AllocError> {
        let seqno = self.seqno;
        let change = match &self.change {
            Change::Founded(state, key) => Change::Founded(*state, *key),
            Change::Recovered(key) => Change::Recovered(*key),
            Change::Applied(action) => Change::Applied(action.copy(alloc)?),
            Change::Settled(id, state) => Change::Settled(*id, *state),
            Change::Completed => Change::Completed,
        };
        Ok(Changed { seqno, change })
    }
}

impl Duplicate for RecordedNode {
    fn copy(&self, alloc: Global) -> Result<RecordedNode, AllocError> {
        let node = self.node.copy(alloc)?;
        Ok(RecordedNode {
            id: self.id,
            seqno: self.seqno,
            is_founding: self.is_founding,
            node,
        })
    }
}

impl Duplicate for Proposal {
    fn copy(&self, alloc: Global) -> Result<Proposal, AllocError> {
        let actions = copy_actions(alloc, self.actions.as_slice())?;
        Ok(Proposal {
            id: self.id,
            seqno: self.seqno,
            proposer: self.proposer,
            actions,
        })
    }
}
