//! What is promised of the leaves of a file through any events, faults and stops: laws, and no
//! code.

ghost use Rattle.gl_node.specs.Leaves.{NoLeafTwice, ReservedBefore};

use crate::kept_book::KeptBook;

/// No leaf of a file signs twice.
pub fn no_leaf_signs_twice<B: KeptBook>()
    ensures { NoLeafTwice B B.Request B.Gov B.Reads B.Response B.Refused }
{}

/// A leaf is reserved in the file before it signs.
pub fn a_leaf_is_reserved_before_it_signs<B: KeptBook>()
    ensures { ReservedBefore B B.Request B.Gov B.Reads B.Response B.Refused }
{}
