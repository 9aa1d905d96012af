//! Bytes, compared and counted.

ghost use Rattle.std.specs.Prelude.{◌≡◌, ◌↔◌, IsTrue};
ghost use Rattle.gl_base.specs.Bytes.{same_bytes};

/// 1 MiB: the most bytes of a request, of a reply and of an entry's body.
pub const MEBIBYTE: u64 = 1_048_576;

pub fn same_bytes(a: &[u8], b: &[u8]) -> bool
    ensures value { result ≡ same_bytes a.now b.now }
    ensures same { IsTrue result ↔ (a.now ≡ b.now) }
{
    a == b
}
