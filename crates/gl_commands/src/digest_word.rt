//! A word that encodes 32 bytes: a node's identifier, or a seed.

ghost use Rattle.std.specs.Prelude.{◌≡◌};
ghost use Rattle.gl_commands.specs.Words.{encoded_digest};

use gl_lines::is_lower_hex;
use hex::FromHex;

/// The 32 bytes that a word encodes in lower-case hexadecimal.
pub(crate) fn encoded_digest(word: &str) -> Option<[u8; 32]>
    ensures { result ≡ encoded_digest word.now }
{
    if !is_lower_hex(word.as_bytes()) {
        return None;
    }
    <[u8; 32] as FromHex>::from_hex(word).ok()
}
