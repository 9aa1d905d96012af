//! What a serve is to its node: laws, and no code.

ghost use Rattle.gl_serve.specs.Life.{KeepsThrough, ServesByEvents, SignsOnce, SpendsBeforeTelling};

use gl_answers::ClientBook;
use gl_node::KeptBook;
use gl_outside::Disk;

/// Whatever a serve does at its node is events of the node, one after the other.
pub fn a_serve_is_events_of_its_node<D: Disk, B: KeptBook + ClientBook>()
    ensures { ServesByEvents B.stands B.goes_on D.honest D.bytes D.past D.faults }
{}

/// Through such events no leaf of the node's key signs twice.
pub fn no_leaf_signs_twice_in_a_serve<D: Disk, B: KeptBook + ClientBook>()
    ensures { SignsOnce B.stands B.goes_on D.honest D.bytes D.past D.faults }
{}

/// At every moment of such events a stop leaves what the node's file keeps before one of them or
/// after the last.
pub fn a_stop_leaves_what_an_event_kept<D: Disk, B: KeptBook + ClientBook>()
    ensures { KeepsThrough B.stands B.goes_on D.honest D.bytes D.past D.faults }
{}

/// A leaf is spent in the file before a signature by it is told, and none is told twice.
pub fn a_leaf_is_spent_before_it_is_told<D: Disk, B: KeptBook + ClientBook>()
    ensures { SpendsBeforeTelling B.stands B.goes_on D.honest D.bytes D.past D.faults }
{}
