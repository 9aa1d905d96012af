//! Among which members a secret can be dealt.

ghost use Rattle.std.specs.Prelude.{◌≡◌, ◌<◌, All, IfOk};
ghost use Rattle.gl_consortium.specs.Members.{ascend_above, can_deal};

use std::alloc::{AllocError, Global};

/// Whether the numbers are from 1 to 255, each above the one before it.
fn ascend(numbers: &[u64]) -> bool
    ensures { result ≡ ascend_above 0 numbers.now }
{
    let mut last = 0;
    for &number in numbers {
        if number <= last || 255 < number {
            return false;
        }
        last = number;
    }
    true
}

/// Whether a secret can be dealt among the members with these numbers, so that the shares of
/// `threshold` of them give it: the threshold is at least 1, there are as many numbers, and these
/// are from 1 to 255, each above the one before it.
pub fn can_deal(threshold: u64, numbers: &[u64]) -> bool
    ensures { result ≡ can_deal threshold numbers.now }
{
    1 <= threshold && threshold <= numbers.len() as u64 && ascend(numbers)
}

/// The numbers as bytes.
pub(crate) fn member_bytes(alloc: Global, numbers: &[u64]) -> Result<Vec<u8>, AllocError>
    requires { All (λ number. number < 256) numbers.now }
    ensures { IfOk result (λ bytes. bytes.items ≡ numbers.now) }
{
    let mut bytes = Vec::new(alloc);
    for &number in numbers {
        bytes.push(number as u8)?;
    }
    Ok(bytes)
}
