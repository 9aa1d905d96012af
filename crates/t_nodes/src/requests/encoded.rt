//! Bytes of requests, as runs of one byte. `examples/requests/make.py` prints them.

use std::alloc::{AllocError, Global};

/// The bytes that these runs of a byte make.
pub fn runs(alloc: Global, runs: &[(u8, usize)]) -> Result<Vec<u8>, AllocError> {
    let mut bytes = Vec::new(alloc);
    for (byte, count) in runs {
        for _ in 0..*count {
            bytes.push(*byte)?;
        }
    }
    Ok(bytes)
}

pub fn genesis(alloc: Global) -> Result<Vec<u8>, AllocError> {
    runs(
        alloc,
        &[
            (1, 1),
            (2, 1),
            (9, 60),
            (2, 1),
            (7, 56),
            (1, 1),
            (0, 3),
            (170, 1),
            (8, 56),
            (0, 4),
            (2, 1),
            (4, 1),
            (3, 60),
            (200, 1),
            (32, 60),
            (2, 1),
            (5, 32),
            (2, 1),
            (4, 1),
            (6, 32),
            (200, 1),
            (7, 32),
        ],
    )
}

pub fn recovery(alloc: Global) -> Result<Vec<u8>, AllocError> {
    runs(
        alloc,
        &[
            (2, 1),
            (10, 60),
            (2, 1),
            (7, 56),
            (1, 1),
            (0, 3),
            (170, 1),
            (8, 56),
            (0, 4),
        ],
    )
}

pub fn join(alloc: Global) -> Result<Vec<u8>, AllocError> {
    runs(alloc, &[(3, 1), (7, 56), (1, 1), (0, 3), (170, 1)])
}

pub fn mark(alloc: Global) -> Result<Vec<u8>, AllocError> {
    runs(alloc, &[(4, 1), (11, 32)])
}

pub fn ack(alloc: Global) -> Result<Vec<u8>, AllocError> {
    runs(alloc, &[(5, 1), (1, 1), (3, 1), (0, 3), (204, 3)])
}

pub fn proposal(alloc: Global) -> Result<Vec<u8>, AllocError> {
    runs(
        alloc,
        &[(6, 1), (255, 1), (1, 1), (6, 1), (3, 1), (0, 3), (204, 3)],
    )
}

pub fn all_actions(alloc: Global) -> Result<Vec<u8>, AllocError> {
    runs(
        alloc,
        &[
            (6, 1),
            (4, 1),
            (7, 1),
            (1, 1),
            (9, 1),
            (1, 60),
            (2, 1),
            (200, 1),
            (3, 1),
            (2, 1),
            (5, 32),
            (2, 1),
            (4, 1),
            (6, 32),
            (200, 1),
            (7, 32),
            (4, 1),
            (12, 32),
            (5, 1),
            (13, 32),
            (6, 1),
            (7, 1),
            (1, 1),
            (0, 1),
            (2, 1),
            (0, 1),
            (2, 1),
            (0, 1),
            (3, 1),
            (0, 1),
            (1, 1),
            (2, 1),
            (3, 1),
            (4, 1),
            (0, 2),
            (1, 1),
            (0, 1),
            (255, 4),
            (1, 1),
            (0, 1),
            (1, 1),
            (0, 1),
            (3, 1),
            (0, 1),
            (4, 1),
            (0, 1),
            (3, 1),
            (0, 3),
            (204, 3),
        ],
    )
}

pub fn ballot(alloc: Global) -> Result<Vec<u8>, AllocError> {
    runs(
        alloc,
        &[(7, 1), (200, 1), (14, 32), (1, 1), (3, 1), (0, 3), (204, 3)],
    )
}

pub fn withdrawal(alloc: Global) -> Result<Vec<u8>, AllocError> {
    runs(alloc, &[(8, 1), (4, 1), (14, 32), (3, 1), (0, 3), (204, 3)])
}

pub fn share(alloc: Global) -> Result<Vec<u8>, AllocError> {
    runs(alloc, &[(9, 1), (4, 1), (15, 32), (3, 1), (0, 3), (204, 3)])
}

pub fn signed_ballot(alloc: Global) -> Result<Vec<u8>, AllocError> {
    runs(
        alloc,
        &[
            (103, 1),
            (108, 1),
            (45, 1),
            (103, 1),
            (111, 1),
            (118, 1),
            (49, 1),
            (9, 60),
            (7, 1),
            (200, 1),
            (14, 32),
            (1, 1),
        ],
    )
}

pub fn actions(alloc: Global) -> Result<Vec<u8>, AllocError> {
    runs(
        alloc,
        &[
            (1, 1),
            (9, 1),
            (1, 60),
            (2, 1),
            (200, 1),
            (3, 1),
            (2, 1),
            (5, 32),
            (2, 1),
            (4, 1),
            (6, 32),
            (200, 1),
            (7, 32),
            (4, 1),
            (12, 32),
            (5, 1),
            (13, 32),
            (6, 1),
            (7, 1),
            (1, 1),
            (0, 1),
            (2, 1),
            (0, 1),
            (2, 1),
            (0, 1),
            (3, 1),
            (0, 1),
            (1, 1),
            (2, 1),
            (3, 1),
            (4, 1),
            (0, 2),
            (1, 1),
            (0, 1),
            (255, 4),
            (1, 1),
            (0, 1),
            (1, 1),
            (0, 1),
            (3, 1),
            (0, 1),
            (4, 1),
            (0, 1),
        ],
    )
}

pub fn dealing(alloc: Global) -> Result<Vec<u8>, AllocError> {
    runs(
        alloc,
        &[(2, 1), (5, 32), (2, 1), (4, 1), (6, 32), (200, 1), (7, 32)],
    )
}
