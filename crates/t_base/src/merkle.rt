//! The tree against outside values, and the frontier against the plain program.

ghost use Rattle.std.specs.Prelude.{◌≡◌, ◌+◌, ◌<◌, ◌≤◌, length, IfOk};
ghost use Rattle.gl_merkle.specs.Frontier.{count_of};

use gl_merkle::{Digest, Frontier, Step, climb, path, root};
use sha2::{Digest as _, Sha256};
use std::alloc::{AllocError, Global};
use std::process::Abort;
use std::test::Fail;

// The digest of one byte, as a leaf.
fn leaf(byte: u8) -> Digest {
    Sha256::digest([byte].as_slice())
}

// The SHA-256 of two digests in a row, computed apart from the crate.
fn over(left: Digest, right: Digest) -> Digest {
    let mut both = [0; 64];
    both[..32].copy_from_slice(&left);
    both[32..].copy_from_slice(&right);
    Sha256::digest(both.as_slice())
}

// So many leaves, of the bytes from 0 on.
fn leaves(alloc: Global, count: u8) -> Result<Vec<Digest>, AllocError>
    ensures { IfOk result (λ v. length v.items ≡ count) }
{
    let mut leaves = Vec::new(alloc);
    for byte in 0..count {
        leaves.push(leaf(byte))?;
    }
    Ok(leaves)
}

// The roots that an implementation in Python's hashlib gives.
#[test]
fn roots_from_outside(rt: HostRuntime) -> Result<(), Fail> {
    let leaves = leaves(rt.alloc(), 70)?;
    for (count, want) in [
        (
            1,
            [
                0x6e, 0x34, 0x0b, 0x9c, 0xff, 0xb3, 0x7a, 0x98, 0x9c, 0xa5, 0x44, 0xe6, 0xbb, 0x78,
                0x0a, 0x2c, 0x78, 0x90, 0x1d, 0x3f, 0xb3, 0x37, 0x38, 0x76, 0x85, 0x11, 0xa3, 0x06,
                0x17, 0xaf, 0xa0, 0x1d,
            ],
        ),
        (
            2,
            [
                0x30, 0xe1, 0x86, 0x74, 0x24, 0xe6, 0x6e, 0x8b, 0x6d, 0x15, 0x92, 0x46, 0xdb, 0x94,
                0xe3, 0x48, 0x67, 0x78, 0x13, 0x6f, 0x7e, 0x38, 0x6f, 0xf5, 0xf0, 0x01, 0x85, 0x9d,
                0x6b, 0x84, 0x84, 0xab,
            ],
        ),
        (
            3,
            [
                0x77, 0x3a, 0x93, 0xac, 0x37, 0xea, 0x78, 0xb3, 0xf1, 0x4a, 0xc3, 0x18, 0x72, 0xc8,
                0x38, 0x86, 0xb0, 0xa0, 0xf1, 0xfe, 0xc5, 0x62, 0xc4, 0xe8, 0x48, 0xe0, 0x23, 0xc8,
                0x89, 0xc2, 0xce, 0x9f,
            ],
        ),
        (
            5,
            [
                0x51, 0x74, 0xb1, 0x38, 0xf8, 0x22, 0xe5, 0x65, 0x03, 0xc0, 0x4b, 0xce, 0x38, 0xe3,
                0x68, 0x67, 0x25, 0x93, 0xb4, 0xa2, 0x69, 0x44, 0x66, 0xc2, 0xe6, 0x0f, 0x12, 0x16,
                0xca, 0xf2, 0x34, 0xbe,
            ],
        ),
        (
            7,
            [
                0x72, 0x69, 0xbe, 0x49, 0xc4, 0x90, 0xaf, 0x17, 0xec, 0x87, 0xbe, 0x84, 0xf3, 0xdc,
                0x79, 0x1c, 0x5f, 0x99, 0x23, 0xb4, 0xc5, 0x57, 0xfe, 0xfd, 0x83, 0x20, 0x4f, 0x0c,
                0x0f, 0x40, 0xb5, 0xae,
            ],
        ),
        (
            70,
            [
                0x93, 0x25, 0x95, 0xd4, 0x6b, 0x45, 0xaf, 0x71, 0xa3, 0xc3, 0xef, 0x74, 0xb7, 0x36,
                0x2e, 0xdc, 0x97, 0x51, 0x3d, 0x7f, 0x70, 0xc9, 0xcb, 0x8e, 0xf8, 0xe3, 0xdf, 0xbe,
                0x2c, 0x1d, 0xc6, 0x0e,
            ],
        ),
    ] {
        assert!(rt; 0 < count && count <= leaves.len());
        assert!(rt; root(&leaves[..count]) == want, "of {count} leaves");
    }
    Ok(())
}

// The paths of the first, third and fifth of up to five leaves, written out.
#[test]
fn paths_written_out(rt: HostRuntime) -> Result<(), Fail> {
    let [a, b, c, d, e] = [leaf(0), leaf(1), leaf(2), leaf(3), leaf(4)];
    let (ab, cd) = (over(a, b), over(c, d));
    let all = [a, b, c, d, e];
    let alloc = rt.alloc();
    assert!(rt; path(alloc, &all[..1], 1)?.as_slice() == [].as_slice());
    assert!(rt; path(alloc, &all[..2], 1)?.as_slice() == [Step::Right(b)].as_slice());
    assert!(rt;
        path(alloc, &all[..3], 1)?.as_slice() == [Step::Right(b), Step::Right(c)].as_slice()
    );
    assert!(rt;
        path(alloc, &all, 1)?.as_slice()
            == [Step::Right(b), Step::Right(cd), Step::Right(e)].as_slice()
    );
    assert!(rt;
        path(alloc, &all, 3)?.as_slice()
            == [Step::Right(d), Step::Left(ab), Step::Right(e)].as_slice()
    );
    assert!(rt; path(alloc, &all, 5)?.as_slice() == [Step::Left(over(ab, cd))].as_slice());
    assert!(rt; climb(c, path(alloc, &all, 3)?.as_slice()) == root(&all));
    Ok(())
}

// The frontier of these leaves gives the plain program's root, and its paths above the base.
fn agrees(
    rt: &impl Abort,
    alloc: Global,
    frontier: &Frontier,
    leaves: &[Digest],
    base: usize,
) -> Result<(), AllocError>
    requires base { frontier.now.base ≡ base }
    requires count { count_of frontier.now ≡ length leaves.now }
{
    let size = leaves.len();
    assert!(rt; frontier.len() == size as u64);
    if size > 0 {
        assert!(rt;
            frontier.root() == root(leaves),
            "root of {size} over {base}"
        );
    }
    for place in base..size {
        let index = place + 1;
        let want = path(alloc, leaves, index)?;
        let got = frontier.path_of(index as u64, size as u64)?;
        assert!(rt;
            got.as_slice() == want.as_slice(),
            "path of {index} in {size} over {base}"
        );
    }
    Ok(())
}

// The frontier of these leaves.
fn frontier_of(alloc: Global, leaves: &[Digest]) -> Result<Frontier, AllocError>
    ensures base { IfOk result (λ f. f.base ≡ 0) }
    ensures count { IfOk result (λ f. count_of f ≡ length leaves.now) }
{
    let mut frontier = Frontier::new(alloc)?;
    frontier.reserve(leaves.len())?;
    for leaf in leaves {
        frontier.push(*leaf)?;
    }
    Ok(frontier)
}

// The frontier of all these leaves, over a base of the first so many.
fn over_base(alloc: Global, whole: &Frontier, base: usize) -> Result<Frontier, AllocError>
    requires from_base { whole.now.base ≤ base }
    requires within { base ≤ count_of whole.now }
    ensures base { IfOk result (λ f. f.base ≡ base) }
    ensures count { IfOk result (λ f. count_of f ≡ base) }
{
    let peaks = whole.peaks(base as u64)?;
    Frontier::at_base(alloc, base as u64, &peaks)
}

// The peaks of seven leaves, written out, and the root from them.
#[test]
fn peaks_written_out(rt: HostRuntime) -> Result<(), Fail> {
    let alloc = rt.alloc();
    let all = [0, 1, 2, 3, 4, 5, 6].map(leaf);
    let frontier = frontier_of(alloc, &all)?;
    let peaks = frontier.peaks(7)?;
    let four = over(over(all[0], all[1]), over(all[2], all[3]));
    let two = over(all[4], all[5]);
    assert!(rt; peaks.as_slice() == [four, two, all[6]].as_slice());
    assert!(rt; frontier.root() == over(four, over(two, all[6])));
    Ok(())
}

// Every size to 20, every index, and every base below the size.
#[test]
fn frontier_agrees_with_plain(rt: HostRuntime) -> Result<(), Fail> {
    let alloc = rt.alloc();
    let leaves = leaves(alloc, 20)?;
    let whole = frontier_of(alloc, &leaves)?;
    for base in 0..21 {
        let mut frontier = over_base(alloc, &whole, base)?;
        agrees(&rt, alloc, &frontier, &leaves[..base], base)?;
        for size in base..20 {
            frontier.push(leaves[size])?;
            agrees(&rt, alloc, &frontier, &leaves[..size + 1], base)?;
        }
    }
    Ok(())
}

// A cut to every size, and other leaves after it.
#[test]
fn cuts_agree_with_plain(rt: HostRuntime) -> Result<(), Fail> {
    let alloc = rt.alloc();
    let mut leaves = leaves(alloc, 20)?;
    let whole = frontier_of(alloc, &leaves)?;
    for to in 0..21 {
        let mut frontier = whole.copy()?;
        frontier.cut(to as u64);
        agrees(&rt, alloc, &frontier, &leaves[..to], 0)?;
        frontier.push(leaf(255))?;
        if to < 20 {
            let kept = leaves[to];
            leaves[to] = leaf(255);
            agrees(&rt, alloc, &frontier, &leaves[..to + 1], 0)?;
            leaves[to] = kept;
        }
    }
    Ok(())
}
