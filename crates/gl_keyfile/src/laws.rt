//! What is promised of a key file through any calls, faults and stops: a law, and no code.

ghost use Rattle.gl_keyfile.specs.Leaf.{NoLeafTwice};

/// No leaf of a key file is taken twice.
pub fn no_leaf_is_taken_twice()
    ensures { NoLeafTwice }
{}
