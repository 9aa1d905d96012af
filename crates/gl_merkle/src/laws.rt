//! What holds of every tree, as the contracts of functions that do nothing.

ghost use Rattle.std.specs.Prelude.{◌≡◌, ◌≢◌, ℕ, ◌+◌, ◌*◌, ◌-◌, ◌^◌, ◌<◌, ◌≤◌, List, [], ◌∷◌, ◌++◌, length, take, drop, slice_index_or, count_ones, All};
ghost use Rattle.gl_merkle.specs.declared.tree.Step.{Step};
ghost use Rattle.gl_merkle.specs.Tree.{inner_of, root_of};
ghost use Rattle.gl_merkle.specs.Path.{path_of, climb_of};
ghost use Rattle.gl_merkle.specs.Collision.{HaveSameSides, Collide};
ghost use Rattle.gl_merkle.specs.Peaks.{peaks_of, peaks_over, root_of_peaks};
ghost use Rattle.gl_merkle.specs.Reach.{IsDigest, sibling_of, IsReached};

/// The tree is the one of the standard: one leaf is its own root, and several are split at the
/// greatest power of two below their number.
pub fn law_of_split()
    ensures one { (leaf : List ℕ) → root_of (leaf ∷ []) ≡ leaf }
    ensures several { (k : ℕ) (leaves : List (List ℕ)) → 2 ^ k < length leaves →
        length leaves ≤ 2 * 2 ^ k →
        root_of leaves ≡ inner_of (root_of (take (2 ^ k) leaves)) (root_of (drop (2 ^ k) leaves)) }
{}

/// A leaf's path climbs to the root.
pub fn law_of_climb()
    ensures { (leaves : List (List ℕ)) (index : ℕ) → 1 ≤ index → index ≤ length leaves →
        climb_of (slice_index_or leaves (index - 1) []) (path_of leaves index) ≡ root_of leaves }
{}

/// Two ways with their siblings on the same sides, from different leaves to one root, hash two
/// different inputs to one digest. So do the paths of one index in lists of one length.
pub fn law_of_collision()
    ensures sides { (one other : List (List ℕ)) (index : ℕ) → length one ≡ length other →
        HaveSameSides (path_of one index) (path_of other index) }
    ensures collide { (a b : List ℕ) (s t : List Step) → length a ≡ 32 → length b ≡ 32 → a ≢ b →
        HaveSameSides s t → climb_of a s ≡ climb_of b t → Collide a s b t }
{}

/// There are as many peaks as the number of leaves has ones in binary.
pub fn law_of_peaks()
    ensures count { (leaves : List (List ℕ)) →
        length (peaks_of leaves) ≡ count_ones (length leaves) }
{}

/// The peaks of leaves with more after them follow from the peaks of the first and how many those
/// are. So does the root, which is that of the peaks, where there is no leaf too.
pub fn law_of_more_leaves()
    ensures peaks { (leaves more : List (List ℕ)) →
        peaks_of (leaves ++ more) ≡ peaks_over (length leaves) (peaks_of leaves) more }
    ensures root { (leaves : List (List ℕ)) → root_of leaves ≡ root_of_peaks (peaks_of leaves) }
{}

/// A way that ends at the root of a list of leaves is the path of one of them, or two inputs of the
/// hash are named that say otherwise: two that differ and have one digest, one whose digest is
/// where the way begins, or one whose digest is a leaf.
pub fn law_of_reaching()
    ensures { (node : List ℕ) (steps : List Step) (leaves : List (List ℕ)) → IsDigest node →
        All (λ x. IsDigest (sibling_of x)) steps → All IsDigest leaves → 0 < length leaves →
        climb_of node steps ≡ root_of leaves → IsReached node steps leaves }
{}
