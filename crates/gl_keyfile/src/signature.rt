//! What is to be signed.

ghost use Rattle.std.specs.Prelude.{◌≡◌};
ghost use Rattle.gl_keyfile.specs.SigningRequest.{kind_of, use_of};

use crate::leaf::LeafUse;
use gl_journal::KeyKind;
use gl_requests::HssPublicKey;

/// What is to be signed.
#[derive(Clone, Copy, Debug, PartialEq, Eq)]
pub enum Signing {
    /// The service's endorsement of a node's key (RFC 8554, section 6.3: an LMS signature by the
    /// service's key over the node's key).
    Endorsement,
    /// The opening of a service: the genesis of some settings, and its first signature.
    Opening,
    /// A member's request, to the service with this key.
    Request { identity: HssPublicKey, member: u8 },
}

impl Signing {
    /// The kind of the key that signs.
    pub fn kind(&self) -> KeyKind
        ensures { result ≡ kind_of self.now }
    {
        match self {
            Signing::Endorsement => KeyKind::Service,
            Signing::Opening => KeyKind::Node,
            Signing::Request { .. } => KeyKind::Member,
        }
    }

    /// What the leaf is taken for that signs.
    pub fn leaf_use(&self) -> LeafUse
        ensures { result ≡ use_of self.now }
    {
        match self {
            Signing::Endorsement | Signing::Request { .. } => LeafUse::Signature,
            Signing::Opening => LeafUse::Start,
        }
    }
}
