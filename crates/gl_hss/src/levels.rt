//! HSS public keys of one and of two levels (section 6.1).

ghost use Rattle.std.specs.Prelude.{◌≡◌, ◌↔◌, ◌++◌, Some, take};
ghost use Rattle.gl_hss.specs.Bytes.{u32str};
ghost use Rattle.gl_hss.specs.Tree.{key_bytes};
ghost use Rattle.gl_hss.specs.Secrets.{public_of};
ghost use Rattle.gl_hss.specs.Levels.{level_count, levels_named};
ghost use Rattle.gl_hss.specs.Hss.{IsHssKey};

use crate::bytes::{number_at, u32str};
use crate::{LMS_KEY_LEN, LmsKey};

/// The bytes of an HSS public key: the number of levels in four bytes, and an LMS public key.
pub const HSS_KEY_LEN: usize = 60;

/// The number of levels of an HSS key: L of RFC 8554.
#[derive(Clone, Copy, Debug, PartialEq, Eq)]
pub enum Levels {
    /// The key signs messages itself.
    One,
    /// The key signs keys, and these sign messages.
    Two,
}

impl Levels {
    /// L as a number.
    pub fn count(self) -> u32
        ensures { result ≡ level_count self }
    {
        match self {
            Levels::One => 1,
            Levels::Two => 2,
        }
    }

    /// The number of levels that an HSS public key names, if it is one of these.
    pub fn of_key(key: &[u8; HSS_KEY_LEN]) -> Option<Levels>
        ensures { (levels : Levels) →
            (result ≡ Some levels) ↔ (take 4 key.now ≡ u32str (level_count levels)) }
    {
        levels_named(number_at(key, 0))
    }
}

// The levels of this number, if there are such.
fn levels_named(count: u32) -> Option<Levels>
    ensures { result ≡ levels_named count }
{
    match count {
        1 => Some(Levels::One),
        2 => Some(Levels::Two),
        _ => None,
    }
}

/// The HSS public key of so many levels with this LMS public key on top.
pub fn hss_key(levels: Levels, key: &[u8; LMS_KEY_LEN]) -> [u8; HSS_KEY_LEN]
    ensures { result ≡ u32str (level_count levels) ++ key.now }
{
    let mut out = [0; HSS_KEY_LEN];
    let (first_part, back) = out.split_at_mut(4);
    first_part.copy_from_slice(&u32str(levels.count()));
    back.copy_from_slice(key);
    out
}

/// The HSS public keys that stand on an LMS key.
pub trait HssPublic {
    /// The HSS public key of so many levels with this key on top (section 6.1).
    fn hss_public(&self, levels: Levels) -> [u8; HSS_KEY_LEN];
}

impl HssPublic for LmsKey {
    fn hss_public(&self, levels: Levels) -> [u8; HSS_KEY_LEN]
        ensures bytes { result ≡ u32str (level_count levels) ++ key_bytes (public_of self.now) }
        ensures form { IsHssKey result (level_count levels) (public_of self.now) }
    {
        hss_key(levels, &self.public())
    }
}
