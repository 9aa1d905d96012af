//! The body of a snapshot against bytes worked out by hand.

ghost use Rattle.std.specs.Prelude.{◌<◌, length};

use crate::tables::three_writes;
use gl_base::{OrNoMemory, Sequence};
use gl_snapshot_body::{Body, ShapeFault, ViewStart, put_body, read_body};
use gl_vmaps::Row;
use std::alloc::Global;
use std::test::Fail;

// At 5, in view 3, with commit 2: view 2 from 1 on, and view 3 from 4 on; two peaks, as 5 is 101 in
// binary; two rows, of public:x, a = 01 and b = 02.
const BODY: &[u8] = b"\
    \x05\0\0\0\0\0\0\0\x03\0\0\0\x02\0\0\0\0\0\0\0\
    \x02\0\0\0\
    \x02\0\0\0\x01\0\0\0\0\0\0\0\
    \x03\0\0\0\x04\0\0\0\0\0\0\0\
    \x02\0\0\0\
    \xaa\xaa\xaa\xaa\xaa\xaa\xaa\xaa\xaa\xaa\xaa\xaa\xaa\xaa\xaa\xaa\
    \xaa\xaa\xaa\xaa\xaa\xaa\xaa\xaa\xaa\xaa\xaa\xaa\xaa\xaa\xaa\xaa\
    \xbb\xbb\xbb\xbb\xbb\xbb\xbb\xbb\xbb\xbb\xbb\xbb\xbb\xbb\xbb\xbb\
    \xbb\xbb\xbb\xbb\xbb\xbb\xbb\xbb\xbb\xbb\xbb\xbb\xbb\xbb\xbb\xbb\
    \x02\0\0\0\
    \x08public:x\x01\0a\x01\0\0\0\x01\
    \x08public:x\x01\0b\x01\0\0\0\x02";

const STARTS: [ViewStart; 2] = [
    ViewStart { view: 2, seqno: 1 },
    ViewStart { view: 3, seqno: 4 },
];

const PEAKS: [[u8; 32]; 2] = [[0xaa; 32], [0xbb; 32]];

#[test]
fn encodes_a_body(rt: HostRuntime) -> Result<(), Fail> {
    let body = Body {
        base: 5,
        view: 3,
        commit: 2,
        views: Sequence::from(Vec::from_slice(rt.alloc(), &STARTS)?),
        peaks: Sequence::from(Vec::from_slice(rt.alloc(), &PEAKS)?),
        rows: three_writes(rt.alloc())?.rows(2)?,
    };
    assert!(rt; body.is_counted());
    let mut out = Vec::from_slice(rt.alloc(), b"before")?;
    put_body(&mut out, &body)?;
    assert!(rt; out.len() == 160);
    assert!(rt; &out[..6] == b"before".as_slice());
    assert!(rt; &out[6..] == BODY);
    assert!(rt; body.body_len() == 154);
    assert!(rt; Body::new(rt.alloc()).body_len() == 32);
    Ok(())
}

fn is_row(row: &Row, key: &[u8], value: &[u8]) -> bool {
    row.map.as_slice() == b"public:x".as_slice()
        && row.key.as_slice() == key
        && row.value.as_slice() == value
}

#[test]
fn reads_a_body(rt: HostRuntime) -> Result<(), Fail> {
    let body = read_body(rt.alloc(), 1000, BODY)?;
    assert!(rt; (body.base, body.view, body.commit) == (5, 3, 2));
    assert!(rt; body.views.as_slice() == STARTS.as_slice());
    assert!(rt; body.peaks.as_slice() == PEAKS.as_slice());
    let rows = body.rows.as_slice();
    assert!(rt; rows.len() == 2);
    assert!(rt; is_row(&rows[0], b"a", b"\x01"));
    assert!(rt; is_row(&rows[1], b"b", b"\x02"));
    Ok(())
}

#[test]
fn tells_where_a_row_stands(rt: HostRuntime) -> Result<(), Fail> {
    let body = read_body(rt.alloc(), 0, BODY)?;
    for (index, place) in [(0, 120), (1, 137), (2, 154)] {
        assert!(rt; body.is_counted() && index <= body.rows.as_slice().len());
        assert!(rt; body.body_len() < 1000);
        assert!(rt; body.row_place(1000, index) == 1000 + place);
    }
    Ok(())
}

fn fault_of(alloc: Global, bytes: &[u8]) -> Option<OrNoMemory<ShapeFault>>
    requires { length bytes.now < 1000 }
{
    read_body(alloc, 7, bytes).err()
}

#[test]
fn reports_where_a_body_is_cut(rt: HostRuntime) -> Result<(), Fail> {
    for len in 0..154 {
        let fault = ShapeFault { at: len + 7 };
        assert!(rt; fault_of(rt.alloc(), &BODY[..len]) == Some(OrNoMemory::Fault(fault)));
    }
    Ok(())
}

#[test]
fn reports_the_first_fault_of_a_body(rt: HostRuntime) -> Result<(), Fail> {
    // The body with the byte at a place changed, and the place of the fault.
    let rows = [
        // the base is 0, or above the last seqno; it has three ones
        (0, 0, 0),
        (5, 1, 0),
        (0, 7, 48),
        // the first view starts at 2; the second is no later view, starts no further on, or above
        // the base
        (28, 2, 24),
        (36, 2, 36),
        (40, 1, 36),
        (40, 6, 36),
        // there are three peaks
        (48, 3, 48),
        // there is one row; there are three
        (116, 1, 137),
        (116, 3, 154),
        // the second row is the first, or is before it; it has no map, a map above its limit, or
        // one with a space; no key; a value above its limit
        (148, b'a', 137),
        (145, b'w', 137),
        (137, 0, 137),
        (137, 129, 137),
        (140, b' ', 140),
        (146, 0, 146),
        (151, 2, 149),
    ];
    for (at, byte, place) in rows {
        let mut changed = Vec::from_slice(rt.alloc(), BODY)?;
        assert!(rt; at < changed.len() && changed.len() < 1000 && place < 1000);
        changed[at] = byte;
        let fault = ShapeFault { at: place + 7 };
        assert!(rt;
            fault_of(rt.alloc(), &changed) == Some(OrNoMemory::Fault(fault)),
            "{byte} at {at}"
        );
    }
    let mut longer = Vec::from_slice(rt.alloc(), BODY)?;
    longer.push(0)?;
    let fault = ShapeFault { at: 161 };
    assert!(rt; fault_of(rt.alloc(), &longer) == Some(OrNoMemory::Fault(fault)));
    Ok(())
}
