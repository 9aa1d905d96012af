//! Frames as they are sent, and a stream of them.

ghost use Rattle.std.specs.Prelude.{◌≡◌, ◌+◌, ◌<◌, ◌≤◌, ◌++◌, ◌∷◌, ℕ, List, [], length, OnOk, OnErr};
ghost use Rattle.std.specs.List.{flat_map};
ghost use Rattle.gl_messages.specs.Frames.{frame_limit, framed, prefix, whole, IsNoFrame, payloads, rest};

use std::alloc::AllocError;

/// The most bytes of a payload: 2 MiB.
pub const FRAME_LIMIT: u32 = 2_097_152;

/// Writes a payload after its length in four bytes, the most significant first. Running out of
/// memory leaves the list as it was.
pub fn put_frame(out: &mut Vec<u8>, payload: &[u8]) -> Result<(), AllocError>
    requires { length payload.now ≤ frame_limit }
    ensures put { OnOk result (out.new.items ≡ out.old.items ++ framed payload.now) }
    ensures kept { OnErr result (out.new.items ≡ out.old.items) }
{
    let before = out.len();
    out.extend_from_slice(&(payload.len() as u32).to_be_bytes())?;
    let written = out.extend_from_slice(payload);
    if written.is_err() {
        out.truncate(before);
    }
    written
}

/// A stream has the same payloads however it is cut into pieces, and the payloads that were framed
/// come back.
pub fn law_of_streams()
    // The payloads are found one after the other, up to where no whole frame stands.
    ensures first { (stream payload more : List ℕ) → prefix stream ≡ whole payload more →
        (payloads stream ≡ payload ∷ payloads more) × (rest stream ≡ rest more) }
    ensures none { (stream : List ℕ) → IsNoFrame (prefix stream) →
        (payloads stream ≡ []) × (rest stream ≡ stream) }
    ensures last { (stream : List ℕ) → IsNoFrame (prefix (rest stream)) }
    // What comes after a stream adds to its payloads, and changes none.
    ensures grows { (stream more : List ℕ) →
        (payloads (stream ++ more) ≡ payloads stream ++ payloads (rest stream ++ more))
        × (rest (stream ++ more) ≡ rest (rest stream ++ more)) }
    ensures back { (payload more : List ℕ) → length payload ≤ frame_limit →
        prefix (framed payload ++ more) ≡ whole payload more }
    // No frame is a proper prefix of another.
    ensures one { (a b x y : List ℕ) → length a ≤ frame_limit → length b ≤ frame_limit →
        framed a ++ x ≡ framed b ++ y → (a ≡ b) × (x ≡ y) }
{}
