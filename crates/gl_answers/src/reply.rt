//! What a client is answered for an accepted request.

ghost use Rattle.std.specs.Prelude.{◌≡◌, ◌≤◌, length, IfOk};
ghost use Rattle.gl_base.specs.Bytes.{mebibyte};
ghost use Rattle.gl_answers.specs.Limits.{FitsGiven};
ghost use Rattle.gl_answers.specs.Reply.{given_bytes};

use gl_ledger::Response;
use std::alloc::{AllocError, Global};

/// The bytes that a client is answered for what a ledger gave to its request: 1 MiB at most.
pub fn given_bytes(alloc: Global, given: &Response) -> Result<Vec<u8>, AllocError>
    requires { FitsGiven given.now }
    ensures bytes { IfOk result (λ bytes. bytes.items ≡ given_bytes given.now) }
    ensures within { IfOk result (λ bytes. length bytes.items ≤ mebibyte) }
{
    match given {
        Response::Replied(reply) => reply.encode(alloc),
        Response::Governed(None) => Ok(Vec::new(alloc)),
        Response::Governed(Some(status)) => {
            let mut bytes = Vec::from_slice(alloc, &status.id)?;
            bytes.push(status.state.byte())?;
            Ok(bytes)
        }
    }
}
