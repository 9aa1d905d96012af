//! The JSON of the action that sets a dealing.

ghost use Rattle.std.specs.Prelude.{◌≡◌, [], true, Ok, IfOk, map, string_bytes};
ghost use Rattle.hex.specs.Hex.{encode_lower};
ghost use Rattle.gl_consortium.specs.Tree.{share_tree, shares_tree, dealing_tree, action_tree};
ghost use Rattle.gl_forms.specs.Actions.{action_in};
ghost use Rattle.gl_forms.specs.Text.{from_text};
ghost use Rattle.gl_requests.specs.Ranges.{is_dealing};
ghost use Rattle.gl_requests.specs.declared.action.Action.TheVariants.{SetRecoveryThreshold};
ghost use Rattle.serde_json.specs.View.{view};
ghost use Rattle.serde_json.specs.Written.{compact_text};

use gl_requests::{Dealing, Digest, ShareDigest};
use serde_json::{Value, json};
use std::alloc::{AllocError, Global};

/// A digest in lower-case hexadecimal.
fn digest_text(alloc: Global, digest: &Digest) -> Result<String, AllocError>
    ensures { IfOk result (λ text. string_bytes text ≡ encode_lower digest.now) }
{
    hex::encode(alloc, digest.as_slice())
}

fn share_tree(alloc: Global, share: &ShareDigest) -> Result<Value, AllocError>
    ensures { IfOk result (λ v. view v ≡ share_tree share.now) }
{
    let digest = digest_text(alloc, &share.digest)?;
    json!(in alloc; {"digest": digest, "member": share.member})
}

fn shares_tree(alloc: Global, shares: &[ShareDigest]) -> Result<Value, AllocError>
    ensures { IfOk result (λ v. view v ≡ shares_tree shares.now) }
{
    let mut items = Vec::new(alloc);
    for share in shares {
        items.push(share_tree(alloc, share)?)?;
    }
    Ok(Value::Array(items))
}

fn dealing_tree(alloc: Global, dealing: &Dealing) -> Result<Value, AllocError>
    ensures { IfOk result (λ v. view v ≡ dealing_tree dealing.now) }
{
    let secret_digest = digest_text(alloc, &dealing.secret_digest)?;
    let shares = shares_tree(alloc, dealing.shares.as_slice())?;
    let threshold = dealing.threshold;
    json!(in alloc; {"secret_digest": secret_digest, "shares": shares, "threshold": threshold})
}

#[tactic(auto, unfolding(crate::specs::Tree::action_tree))]
fn action_tree(alloc: Global, dealing: &Dealing) -> Result<Value, AllocError>
    ensures { IfOk result (λ v. view v ≡ action_tree dealing.now) }
{
    let args = dealing_tree(alloc, dealing)?;
    json!(in alloc; {"args": args, "name": "set_recovery_threshold"})
}

/// The JSON text of the action that sets the dealing, without spaces and with each object's members
/// in the order of their names. No newline stands after it.
pub fn write_dealing(alloc: Global, dealing: &Dealing) -> Result<Vec<u8>, AllocError>
    ensures text { IfOk result (λ t. t.items ≡ compact_text (action_tree dealing.now)) }
    ensures reads_back { is_dealing dealing.now ≡ true →
        IfOk result (λ t. from_text (action_in []) t.items
        ≡ Ok (SetRecoveryThreshold dealing.now)) }
{
    action_tree(alloc, dealing)?.to_vec(alloc)
}
