//! The public form of a key.

ghost use Rattle.std.specs.Prelude.{◌≡◌, IfOk};
ghost use Rattle.gl_keyfile.specs.Form.{key_form_of};

use gl_forms::KeyForm;
use gl_hss::{HssPublic, Levels, LmsKey};
use gl_journal::{Key, KeyKind};
use sha2::{Digest, Sha256};
use std::alloc::{AllocError, Global};

/// The public form of a key: the HSS public key of a service (two levels) or of a member (one; RFC
/// 8554, section 6.1), or the LMS public key of a node (section 5.3) with its SHA-256 digest and no
/// endorsement.
///
/// It grows the key's tree, which takes as many digests as `LmsKey::make`.
pub fn key_form(alloc: Global, key: &Key) -> Result<KeyForm, AllocError>
    ensures { IfOk result (λ form. form ≡ key_form_of key.now) }
{
    let tree = LmsKey::make(alloc, key.seed, key.types)?;
    match key.kind {
        KeyKind::Service => Ok(KeyForm::Service {
            key: tree.hss_public(Levels::Two),
        }),
        KeyKind::Member => Ok(KeyForm::Member {
            key: tree.hss_public(Levels::One),
        }),
        KeyKind::Node => {
            let public = tree.public();
            Ok(KeyForm::Node {
                key: public,
                node: Sha256::digest(&public),
                endorsement: None,
            })
        }
    }
}
