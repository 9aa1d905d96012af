//! What a run looks its rows up in.

ghost use Rattle.std.specs.Prelude.{◌≡◌, ◌<◌, ◌^◌, IsTrue, IfSome};
ghost use Rattle.std.specs.Option.{option_copied};
ghost use Rattle.gl_vmaps.specs.Name.{is_value};
ghost use Rattle.gl_tx.specs.Sees.{Sees, sees_of};

use gl_vmaps::Tables;

/// What a run looks its rows up in: rows by their map and key, and the number of each map's keys.
pub trait Lookup {
    /// What is seen of it.
    ghost sees: { Self → Sees };

    /// The value of a key in a map, if the map has that key.
    fn get(&self, map: &[u8], key: &[u8]) -> Option<&[u8]>
        ensures value { option_copied result ≡ (sees self.now).value map.now key.now }
        ensures limit { IfSome result (λ value. IsTrue (is_value value.now)) };

    /// The number of keys that the map has.
    fn size(&self, map: &[u8]) -> u64
        ensures value { result ≡ (sees self.now).size map.now }
        ensures few { result < 2 ^ 63 };
}

impl Lookup for Tables {
    ghost sees = { sees_of };

    fn get(&self, map: &[u8], key: &[u8]) -> Option<&[u8]> {
        self.get(map, key)
    }

    fn size(&self, map: &[u8]) -> u64 {
        self.size(map)
    }
}
