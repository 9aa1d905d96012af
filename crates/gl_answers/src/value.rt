//! A refusal's number, and its values.

ghost use Rattle.std.specs.Prelude.{◌≡◌, map, IfOk};
ghost use Rattle.gl_answers.specs.declared.value.Value.TheVariants.{Number, Digest};

use gl_base::Sequence;
use gl_requests::{Digest, NodeId};
use std::alloc::{AllocError, Global};

/// A value of a refusal.
#[derive(Clone, Copy, Debug, PartialEq, Eq)]
pub enum Value {
    Number(u64),
    Digest(Digest),
    /// Whom a node takes for the leader, if it knows one.
    Leader(Option<NodeId>),
}

/// Why an event is refused.
#[derive(Debug, Drop)]
pub struct Reason {
    /// The number of the refusal.
    pub code: u16,
    /// Its values, in order.
    pub values: Sequence<Value>,
}

fn number_values(alloc: Global, numbers: &[u64]) -> Result<Vec<Value>, AllocError>
    ensures { IfOk result (λ values. values.items ≡ map Number numbers.now) }
{
    numbers.iter().map(|n| Value::Number(*n)).collect(alloc)
}

fn digest_values(alloc: Global, digests: &[Digest]) -> Result<Vec<Value>, AllocError>
    ensures { IfOk result (λ values. values.items ≡ map Digest digests.now) }
{
    digests.iter().map(|d| Value::Digest(*d)).collect(alloc)
}

impl Reason {
    ghost use Rattle.std.specs.Prelude.{◌≡◌, IfOk};
    ghost use Rattle.gl_answers.specs.Reasons.{digests, numbers};

    /// A reason with these values.
    pub(crate) fn new(alloc: Global, code: u16, values: &[Value]) -> Result<Reason, AllocError>
        ensures { IfOk result (λ reason. reason ≡ record { code = code; values = values.now }) }
    {
        let values = Sequence::from(Vec::from_slice(alloc, values)?);
        Ok(Reason { code, values })
    }

    /// A reason with these numbers.
    pub fn numbers(alloc: Global, code: u16, values: &[u64]) -> Result<Reason, AllocError>
        ensures { IfOk result (λ reason. reason ≡ numbers code values.now) }
    {
        let values = Sequence::from(number_values(alloc, values)?);
        Ok(Reason { code, values })
    }

    /// A reason with these digests.
    pub fn digests(alloc: Global, code: u16, values: &[Digest]) -> Result<Reason, AllocError>
        ensures { IfOk result (λ reason. reason ≡ digests code values.now) }
    {
        let values = Sequence::from(digest_values(alloc, values)?);
        Ok(Reason { code, values })
    }
}
