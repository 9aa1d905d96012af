//! The leaf that a member's signature used (RFC 8554, section 6.3).

ghost use Rattle.std.specs.Prelude.{◌≡◌, ◌<◌};
ghost use Rattle.gl_gov_rules.specs.Signatures.{leaf_of};

/// The leaf that a signature used; 0 where the bytes are none.
#[tactic(auto, unfolding(crate::specs::Signatures::leaf_of))]
pub fn leaf_of(signature: &[u8]) -> u32
    ensures leaf { result ≡ leaf_of signature.now }
    ensures below { result < 1024 }
{
    match gl_hss::leaf_of(signature) {
        Ok(leaf) => leaf,
        Err(_) => 0,
    }
}
