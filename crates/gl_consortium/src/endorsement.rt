//! The endorsement of a node's key.

ghost use Rattle.std.specs.Prelude.{◌≡◌, ◌<◌, ◌^◌, IfOk};
ghost use Rattle.gl_hss.specs.Types.{height};
ghost use Rattle.gl_consortium.specs.ExpectedOutput.{endorsement_line};

use gl_base::Bytes;
use gl_forms::{KeyForm, write_key};
use gl_hss::LmsKey;
use gl_requests::{LmsPublicKey, NodeId};
use std::alloc::{AllocError, Global};

/// A node's key in its form, endorsed by a leaf of the service's key, and a newline after it.
#[tactic(auto, unfolding(crate::specs::ExpectedOutput::endorsement_line))]
pub(crate) fn endorsement_line(
    alloc: Global,
    by: &LmsKey,
    leaf: u32,
    key: LmsPublicKey,
    node: NodeId,
) -> Result<Vec<u8>, AllocError>
    requires { leaf < 2 ^ height by.now.types }
    ensures { IfOk result (λ line. line.items ≡ endorsement_line by.now leaf key node) }
{
    let endorsement = by.sign_leaf(leaf, &key)?;
    let form = KeyForm::Node {
        key,
        node,
        endorsement: Some(Bytes::from(endorsement)),
    };
    let mut line = write_key(alloc, &form)?;
    line.push(b'\n')?;
    Ok(line)
}
