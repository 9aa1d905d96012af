//! Identifiers, their status, and the fields of formats.

use gl_base::{
    Bytes, CodeFault, Cut, CutFault, FormsFault, OrNoMemory, Pointer, Status, TxId, TxIdFault,
    put_bytes, put_field, put_flag, put_key, put_map_name, put_optional_value, put_u8, put_u16,
    put_u32, put_u48, put_u64, put_value, same_bytes, status,
};
use std::test::*;

#[test]
fn reads_identifiers_and_reports_the_first_fault(rt: HostRuntime) {
    let rows: [(&[u8], Result<TxId, TxIdFault>); 18] = [
        (b"2.3", Ok(TxId { view: 2, seqno: 3 })),
        (
            b"4294967295.1",
            Ok(TxId {
                view: 4_294_967_295,
                seqno: 1,
            }),
        ),
        (
            b"2.1099511627775",
            Ok(TxId {
                view: 2,
                seqno: 1_099_511_627_775,
            }),
        ),
        (b"", Err(TxIdFault::Empty)),
        (b"2", Err(TxIdFault::NoDot)),
        (b"x", Err(TxIdFault::NoDot)),
        (b".3", Err(TxIdFault::Empty)),
        (b"2.", Err(TxIdFault::Empty)),
        (b"+2.3", Err(TxIdFault::Digit { at: 0 })),
        (b"2.3.4", Err(TxIdFault::Digit { at: 3 })),
        (b"0x.y", Err(TxIdFault::Digit { at: 1 })),
        (b"02.3", Err(TxIdFault::LeadingZero { at: 0 })),
        (b"2.03", Err(TxIdFault::LeadingZero { at: 2 })),
        (b"4294967296.0", Err(TxIdFault::TooBig)),
        (b"2.1099511627776", Err(TxIdFault::TooBig)),
        (
            b"2.99999999999999999999999999999999",
            Err(TxIdFault::TooBig),
        ),
        (b"0.3", Err(TxIdFault::Zero)),
        (b"2.0", Err(TxIdFault::Zero)),
    ];
    for (text, want) in rows {
        assert!(rt; TxId::parse(text) == want, "of {text:?}");
    }
}

#[test]
fn writes_the_longest_identifier(rt: HostRuntime) {
    let mut out = [0; 24];
    let id = TxId {
        view: 4_294_967_295,
        seqno: 1_099_511_627_775,
    };
    assert!(rt; id.text_into(&mut out) == 24);
    assert!(rt; out.as_slice() == b"4294967295.1099511627775".as_slice());
}

#[test]
fn reports_the_status_by_the_commit(rt: HostRuntime) {
    let commit = Some(TxId { view: 4, seqno: 10 });
    let rows = [
        (4, 10, Some(4), commit, Status::Committed),
        (3, 10, Some(4), commit, Status::Invalid),
        (3, 12, None, commit, Status::Invalid),
        (4, 12, None, commit, Status::Unknown),
        (5, 11, None, commit, Status::Unknown),
        (4, 12, Some(4), commit, Status::Pending),
        (3, 12, Some(3), commit, Status::Pending),
        (4, 12, Some(3), commit, Status::Unknown),
        (2, 3, Some(2), None, Status::Pending),
        (2, 3, None, None, Status::Unknown),
    ];
    for (view, seqno, local, committed, want) in rows {
        let asked = TxId { view, seqno };
        assert!(rt; status(asked, local, committed) == want, "of {asked:?}");
    }
}

/// The front of an entry's frame: its sizes, its place, and a request that puts `01` at the key
/// `61` of the map `public:t`.
const FRAME: [u8; 43] = [
    1, 0, 0x5b, 0, 0, 0, 0, 0, 2, 0, 0, 0, 3, 0, 0, 0, 0, 0, 0, 0, 2, 0x14, 0, 0, 0, 1, 0, 3, 8,
    0x70, 0x75, 0x62, 0x6c, 0x69, 0x63, 0x3a, 0x74, 1, 0, 0x61, 1, 0, 0,
];

#[test]
fn reads_the_fields_of_a_frame(rt: HostRuntime) -> Result<(), Fail> {
    let mut cut = Cut::new(&FRAME);
    assert!(rt; (cut.u8()?, cut.u8()?, cut.u48()?) == (1, 0, 0x5b));
    assert!(rt; (cut.u32()?, cut.u64()?, cut.u8()?) == (2, 3, 2));
    assert!(rt; (cut.u32()?, cut.u16()?, cut.u8()?) == (20, 1, 3));
    assert!(rt; cut.text(128)? == b"public:t".as_slice());
    assert!(rt; cut.bytes(16, 1024)? == b"a".as_slice());
    assert!(rt; cut.at() == 40);
    assert!(rt; cut.bytes(32, 65_536) == Err(CutFault::Short { at: 43 }));
    assert!(rt; cut.bytes(0, 2)? == [1, 0].as_slice());
    assert!(rt; cut.rest() == [0].as_slice());
    Ok(())
}

#[test]
fn writes_the_fields_of_a_frame(rt: HostRuntime) -> Result<(), Fail> {
    let mut out = Vec::new(rt.alloc());
    put_u8(&mut out, 1)?;
    put_u8(&mut out, 0)?;
    put_u48(&mut out, 0x5b)?;
    put_u32(&mut out, 2)?;
    put_u64(&mut out, 3)?;
    put_u8(&mut out, 2)?;
    put_u32(&mut out, 20)?;
    put_u16(&mut out, 1)?;
    put_bytes(&mut out, b"\x03\x08public:t\x01\x00a\x01\x00\x00")?;
    assert!(rt; out.as_slice() == FRAME.as_slice());
    Ok(())
}

#[test]
fn leaves_the_cut_as_it_was_after_a_fault(rt: HostRuntime) -> Result<(), Fail> {
    let mut cut = Cut::new(b"\x05ab c");
    assert!(rt; cut.text(4) == Err(CutFault::TooLong { at: 0, len: 5 }));
    assert!(rt; cut.text(5) == Err(CutFault::Short { at: 5 }));
    assert!(rt; cut.u64() == Err(CutFault::Short { at: 5 }));
    assert!(rt; (cut.at(), cut.rest()) == (0, b"\x05ab c".as_slice()));
    let mut names = Cut::new(b"\x02!~\x04ab c\x00");
    assert!(rt; names.text(9)? == b"!~".as_slice());
    assert!(rt; names.text(9) == Err(CutFault::NotText { at: 6 }));
    assert!(rt; names.bytes(8, 9)? == b"ab c".as_slice());
    assert!(rt; names.text(9)? == b"".as_slice());
    Ok(())
}

/// The fields of a row: a map's name, a key, a value, no value, and a value where one may be.
const ROW: [u8; 28] = [
    8, 0x70, 0x75, 0x62, 0x6c, 0x69, 0x63, 0x3a, 0x74, 2, 0, 0x6b, 0, 2, 0, 0, 0, 7, 8, 0, 1, 3, 0,
    0, 0, 9, 9, 9,
];

#[test]
fn reads_the_fields_of_a_row(rt: HostRuntime) -> Result<(), Fail> {
    let mut cut = Cut::new(&ROW);
    assert!(rt; cut.map_name()? == b"public:t".as_slice());
    assert!(rt; cut.key()? == b"k\0".as_slice());
    assert!(rt; cut.value(2)? == [7, 8].as_slice());
    assert!(rt; cut.optional_value(9)?.is_none());
    assert!(rt; cut.end() == Err(CodeFault::Trailing { at: 20 }));
    let long = CodeFault::Cut(CutFault::TooLong { at: 21, len: 3 });
    assert!(rt; cut.optional_value(2).err() == Some(long));
    assert!(rt; cut.key().err() == Some(CodeFault::Cut(CutFault::Short { at: 28 })));
    assert!(rt; cut.optional_value(3)? == Some([9, 9, 9].as_slice()));
    assert!(rt; cut.end() == Ok(()));
    Ok(())
}

#[test]
fn refuses_fields_of_a_row_that_are_empty_or_flagged_wrongly(rt: HostRuntime) {
    let empty = Err(CodeFault::Value { at: 5 });
    assert!(rt; Cut::new_at(&[0, 1], 5).map_name() == empty);
    assert!(rt; Cut::new_at(&[0, 0, 1], 5).key() == empty);
    let flag = Some(CodeFault::Value { at: 5 });
    assert!(rt; Cut::new_at(&[2, 0, 0, 0, 0], 5).optional_value(9).err() == flag);
    assert!(rt; Cut::new(&[0, 0, 0, 0]).value(0) == Ok([].as_slice()));
}

#[test]
fn writes_the_fields_of_a_row(rt: HostRuntime) -> Result<(), Fail> {
    let mut out = Vec::new(rt.alloc());
    put_map_name(&mut out, b"public:t")?;
    put_key(&mut out, b"k\0")?;
    put_value(&mut out, &[7, 8])?;
    put_optional_value(&mut out, None)?;
    put_optional_value(&mut out, Some(&[9, 9, 9]))?;
    assert!(rt; out.as_slice() == ROW.as_slice());
    put_field(&mut out, 0, b"!")?;
    assert!(rt; out.len() == 29);
    Ok(())
}

#[test]
fn writes_any_identifier_after_a_list(rt: HostRuntime) -> Result<(), Fail> {
    let mut out = vec![in rt.alloc(); b'=']?;
    let id = TxId {
        view: 0,
        seqno: 18_446_744_073_709_551_615,
    };
    id.push_text(&mut out)?;
    assert!(rt; out.as_slice() == b"=0.18446744073709551615".as_slice());
    Ok(())
}

#[test]
fn points_into_a_json_text(rt: HostRuntime) -> Result<(), Fail> {
    let mut path = Pointer::new(rt.alloc());
    assert!(rt; path.as_slice() == b"".as_slice());
    path.push_member(b"a/b")?;
    path.push_item(10)?;
    path.push_member(b"m~n")?;
    assert!(rt; path.as_slice() == b"/a~1b/10/m~0n".as_slice());
    Ok(())
}

/// The fault of a member that has another shape.
fn shape_of(rt: &HostRuntime, name: &[u8]) -> Result<(), OrNoMemory<FormsFault>> {
    let mut path = Pointer::new(rt.alloc());
    path.push_member(name)?;
    Err(FormsFault::Shape { path })?;
    Ok(())
}

#[test]
fn reports_where_the_shape_differs(rt: HostRuntime) -> Result<(), Fail> {
    let mut path = Pointer::new(rt.alloc());
    path.push_member(b"kind")?;
    let want = OrNoMemory::Fault(FormsFault::Shape { path });
    assert!(rt; shape_of(&rt, b"kind") == Err(want));
    assert!(rt; shape_of(&rt, b"op") != shape_of(&rt, b"kind"));
    Ok(())
}

/// Reads bytes after their length in memory of their own.
fn read_bytes(rt: &HostRuntime, cut: &mut Cut<'_>) -> Result<Bytes, OrNoMemory<CodeFault>> {
    let bytes = cut.bytes(8, 2)?;
    let copy = Vec::from_slice(rt.alloc(), bytes)?;
    cut.end()?;
    Ok(Bytes::from(copy))
}

#[test]
fn converts_each_fault(rt: HostRuntime) -> Result<(), Fail> {
    let bytes = read_bytes(&rt, &mut Cut::new(&[2, 5, 6]))?;
    assert!(rt; (bytes.len(), bytes.is_empty()) == (2, false));
    assert!(rt; same_bytes(&bytes.into_vec(), &[5, 6]));
    let long = CodeFault::Cut(CutFault::TooLong { at: 0, len: 3 });
    let of = |bytes: &[u8]| read_bytes(&rt, &mut Cut::new(bytes)).err();
    assert!(rt; of(&[3, 5, 6, 7]) == Some(OrNoMemory::Fault(long)));
    let left = CodeFault::Trailing { at: 2 };
    assert!(rt; of(&[1, 5, 6]) == Some(OrNoMemory::Fault(left)));
    let wider: OrNoMemory<CodeFault> = OrNoMemory::Fault(CutFault::Short { at: 4 }).widen();
    assert!(rt; wider == OrNoMemory::Fault(CodeFault::Cut(CutFault::Short { at: 4 })));
    Ok(())
}

#[test]
fn reads_and_writes_bytes_that_say_yes_or_no(rt: HostRuntime) -> Result<(), Fail> {
    let mut out = Vec::new(rt.alloc());
    put_flag(&mut out, true)?;
    put_flag(&mut out, false)?;
    put_u8(&mut out, 2)?;
    let mut cut = Cut::new(&out);
    assert!(rt; (cut.flag()?, cut.flag()?) == (true, false));
    assert!(rt; cut.flag() == Err(CodeFault::Value { at: 2 }));
    assert!(rt; cut.array::<2>() == Err(CutFault::Short { at: 3 }));
    assert!(rt; cut.array::<1>()? == &[2]);
    Ok(())
}
