//! The numbers of nodes and members.

ghost use Rattle.std.specs.Prelude.{◌≡◌, if◌then◌else◌, None, Some};
ghost use Rattle.gl_requests.specs.Ranges.{is_member_number};
ghost use Rattle.gl_schedule.specs.Play.{byte_number};

/// The number of a node as a byte: 0, which names no node, for one that is too large.
pub(crate) fn node_number(number: u128) -> u8
    ensures { result ≡ byte_number number }
{
    if number < 256 { number as u8 } else { 0 }
}

/// The number of a member, if a member may have it.
pub fn member_number(number: u128) -> Option<u8>
    ensures { result ≡ (if is_member_number number then Some number else None) }
{
    if 1 <= number && number <= 255 {
        Some(number as u8)
    } else {
        None
    }
}
