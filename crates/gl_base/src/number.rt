//! Numbers from their bytes, the least significant byte first.

ghost use Rattle.std.specs.Prelude.{◌≡◌};
ghost use Rattle.gl_base.specs.LittleEndian.{little_endian, from_little_endian};

#[tactic(auto, unfolding(crate::specs::LittleEndian::little_endian))]
pub(crate) fn u8_of(bytes: &[u8; 1]) -> u8
    ensures value { result ≡ from_little_endian bytes.now }
    ensures encoded { little_endian 1 result ≡ bytes.now }
{
    bytes[0]
}

#[tactic(auto, unfolding(crate::specs::LittleEndian::little_endian))]
pub(crate) fn u16_of(bytes: &[u8; 2]) -> u16
    ensures value { result ≡ from_little_endian bytes.now }
    ensures encoded { little_endian 2 result ≡ bytes.now }
{
    u16::from_le_bytes(*bytes)
}

#[tactic(auto, unfolding(crate::specs::LittleEndian::little_endian))]
pub(crate) fn u32_of(bytes: &[u8; 4]) -> u32
    ensures value { result ≡ from_little_endian bytes.now }
    ensures encoded { little_endian 4 result ≡ bytes.now }
{
    u32::from_le_bytes(*bytes)
}

#[tactic(auto, unfolding(crate::specs::LittleEndian::little_endian))]
pub(crate) fn u48_of(bytes: &[u8; 6]) -> u64
    ensures value { result ≡ from_little_endian bytes.now }
    ensures encoded { little_endian 6 result ≡ bytes.now }
{
    let [a, b, c, d, e, f] = *bytes;
    u64::from_le_bytes([a, b, c, d, e, f, 0, 0])
}

#[tactic(auto, unfolding(crate::specs::LittleEndian::little_endian))]
pub(crate) fn u64_of(bytes: &[u8; 8]) -> u64
    ensures value { result ≡ from_little_endian bytes.now }
    ensures encoded { little_endian 8 result ≡ bytes.now }
{
    u64::from_le_bytes(*bytes)
}
