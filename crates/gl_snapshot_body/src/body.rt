//! What a snapshot says of the entries up to its base.

ghost use Rattle.std.specs.Prelude.{◌≡◌};
ghost use Rattle.gl_snapshot_body.specs.Body.{no_body, body_with};

use gl_base::Sequence;
use gl_vmaps::Rows;
use std::alloc::Global;

/// The most bytes of a body.
pub const SNAPSHOT_LIMIT: u64 = 4_000_000_000;

/// A SHA-256 digest.
pub type Digest = [u8; 32];

/// From this seqno on entries are of this view.
#[derive(Clone, Copy, Debug, PartialEq, Eq)]
pub struct ViewStart {
    pub view: u32,
    pub seqno: u64,
}

/// What a snapshot says of the entries up to its base.
#[derive(Debug, Drop)]
pub struct Body {
    /// How many entries they are.
    pub base: u64,
    /// The view of the last of them.
    pub view: u32,
    /// The greatest commit that their signatures record.
    pub commit: u64,
    /// Where each view starts, in order.
    pub views: Sequence<ViewStart>,
    /// The peaks of their tree, greatest first.
    pub peaks: Sequence<Digest>,
    /// The rows that they leave.
    pub rows: Rows,
}

/// The fields of a body but for its rows.
#[derive(Clone, Copy, Debug)]
pub struct BodyHead<'a> {
    pub base: u64,
    pub view: u32,
    pub commit: u64,
    pub views: &'a [ViewStart],
    pub peaks: &'a [Digest],
}

impl Body {
    /// What is said of no entries.
    pub fn new(alloc: Global) -> Self
        ensures { result ≡ no_body }
    {
        Body {
            base: 0,
            view: 0,
            commit: 0,
            views: Sequence::from(Vec::new(alloc)),
            peaks: Sequence::from(Vec::new(alloc)),
            rows: Rows::new(alloc),
        }
    }

    /// The fields but for the rows.
    pub fn head(&self) -> BodyHead<'_>
        ensures { body_with result self.now.rows ≡ self.now }
    {
        BodyHead {
            base: self.base,
            view: self.view,
            commit: self.commit,
            views: self.views.as_slice(),
            peaks: self.peaks.as_slice(),
        }
    }
}
