//! Numbers and strings of bytes (section 3.1).

ghost use Rattle.std.specs.Prelude.{◌≡◌, ◌+◌, ◌*◌, ◌<◌, ◌≤◌, length};
ghost use Rattle.gl_hss.specs.Bytes.{u16str, u32str, number_at, bytes_at, block};

// A number as two bytes.
#[tactic(auto, unfolding(crate::specs::Bytes::u16str))]
pub(crate) fn u16str(n: u16) -> [u8; 2]
    ensures { result ≡ u16str n }
{
    n.to_be_bytes()
}

/// A number as four bytes, the high byte first.
#[tactic(auto, unfolding(crate::specs::Bytes::u32str))]
pub fn u32str(n: u32) -> [u8; 4]
    ensures { result ≡ u32str n }
{
    n.to_be_bytes()
}

/// The `len` bytes from place `at` on.
pub fn bytes_at(bytes: &[u8], at: usize, len: usize) -> &[u8]
    requires { at + len ≤ length bytes.now }
    ensures value { result.now ≡ bytes_at bytes.now at len }
    ensures len { length result.now ≡ len }
{
    &bytes[at..at + len]
}

/// The number that four bytes from place `at` on encode, the high byte first.
#[tactic(auto, unfolding(crate::specs::Bytes::number_at))]
pub fn number_at(bytes: &[u8], at: usize) -> u32
    requires { at + 4 ≤ length bytes.now }
    ensures { result ≡ number_at bytes.now at }
{
    let field = bytes_at(bytes, at, 4);
    u32::from_be_bytes([field[0], field[1], field[2], field[3]])
}

// The 32 bytes from place `32 * i` on.
pub(crate) fn block(bytes: &[u8], i: usize) -> [u8; 32]
    requires { 32 * i + 32 ≤ length bytes.now }
    ensures { result ≡ block bytes.now i }
{
    to_block(bytes_at(bytes, 32 * i, 32))
}

// The 32 bytes as an array.
pub(crate) fn to_block(bytes: &[u8]) -> [u8; 32]
    requires { length bytes.now ≡ 32 }
    ensures { result ≡ bytes.now }
{
    let mut out = [0; 32];
    out.copy_from_slice(bytes);
    out
}
