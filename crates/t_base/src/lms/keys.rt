//! Keys of seeds, of each height and of each width, whose roots `examples/lms/keys.py` computes: a
//! program in Python that makes the roots of keys of Bouncy Castle 1.72 and of RFC 8554, appendix
//! F.

use gl_hss::Types;

// The root T[1] of the key that grows from this seed.
#[derive(Clone, Copy)]
pub(super) struct KeyRow {
    pub(super) types: Types,
    pub(super) seed: &'static str,
    pub(super) root: &'static str,
}

pub(super) const KEYS: [KeyRow; 3] = [
    KeyRow {
        types: Types::H5W4,
        seed: "aba88479a873e27153521c083435b99ff2d9d2ab2ee43ff9ab09be14479e14db",
        root: "0385e1228961e981f158cae1000743654ac3b02d9d80c3e7ae59cc888aed4f43",
    },
    KeyRow {
        types: Types::H5W8,
        seed: "922da0f4c79b9e91bda080da1f19d1671517cd6419f54cb10bf14e5e8c5895fd",
        root: "82184ec5aceac2ee1f53771dcaba2d734bca47f2efb53451975481632d30c705",
    },
    KeyRow {
        types: Types::H10W4,
        seed: "de28ee65d47492413d7c9b860641a25df7db9f429c5454099cf49d6a6ae2ce4b",
        root: "15b9bb4994fdbfdc7b1d0d49836968960adbc4f88e4c14e72b43d1bc36237bf8",
    },
];
