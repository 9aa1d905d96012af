//! Entries against bytes worked out by hand, with digests by Python's hashlib.

ghost use Rattle.std.specs.Prelude.{◌≡◌, ◌<◌, ◌≤◌, ◌^◌, length, IfOk, IsTrue};
ghost use Rattle.gl_entry.specs.Entry.{content_bytes, is_entry};

use gl_base::{Bytes, CodeFault, CutFault, OrNoMemory, TxId};
use gl_entry::{
    Content, Entry, EntryFault, LedgerFault, LedgerReader, commit_evidence_digest, evidence,
    is_evidence, leaf, leaf_of_body, leaf_of_components, signed_message,
};
use gl_outside::{MemSource, Source};
use gl_vmaps::{Key, MapName, Value, Write, Writes};
use std::alloc::{AllocError, Global};
use std::test::*;

// The entry of one put at the place 2.3. Its claims are the digest of the bytes 01 00 00.
pub(crate) const PUT: [u8; 99] = [
    0x01, 0x00, 0x5b, 0x00, 0x00, 0x00, 0x00, 0x00, 0x02, 0x00, 0x00, 0x00, 0x03, 0x00, 0x00, 0x00,
    0x00, 0x00, 0x00, 0x00, 0x02, 0x14, 0x00, 0x00, 0x00, 0x01, 0x00, 0x03, 0x08, 0x70, 0x75, 0x62,
    0x6c, 0x69, 0x63, 0x3a, 0x74, 0x01, 0x00, 0x61, 0x01, 0x00, 0x00, 0x00, 0x01, 0x01, 0x00, 0x00,
    0x00, 0x08, 0x70, 0x75, 0x62, 0x6c, 0x69, 0x63, 0x3a, 0x74, 0x01, 0x00, 0x61, 0x01, 0x01, 0x00,
    0x00, 0x00, 0x01, 0xfb, 0x50, 0xdc, 0x07, 0x17, 0xff, 0x26, 0x6c, 0xf9, 0xba, 0xf8, 0x2b, 0x1c,
    0xe7, 0xa1, 0xc2, 0xef, 0x6d, 0x92, 0x47, 0x85, 0x96, 0x80, 0xb1, 0x1a, 0x19, 0xfb, 0x70, 0x77,
    0xf5, 0xf2, 0x22,
];

// A signature at the place 2.4, by a node of bytes aa over a root of bytes bb.
const SIGNED: [u8; 139] = [
    0x01, 0x00, 0x83, 0x00, 0x00, 0x00, 0x00, 0x00, 0x02, 0x00, 0x00, 0x00, 0x04, 0x00, 0x00, 0x00,
    0x00, 0x00, 0x00, 0x00, 0x03, 0x4e, 0x00, 0x00, 0x00, 0xaa, 0xaa, 0xaa, 0xaa, 0xaa, 0xaa, 0xaa,
    0xaa, 0xaa, 0xaa, 0xaa, 0xaa, 0xaa, 0xaa, 0xaa, 0xaa, 0xaa, 0xaa, 0xaa, 0xaa, 0xaa, 0xaa, 0xaa,
    0xaa, 0xaa, 0xaa, 0xaa, 0xaa, 0xaa, 0xaa, 0xaa, 0xaa, 0x03, 0x00, 0x00, 0x00, 0x00, 0x00, 0x00,
    0x00, 0xbb, 0xbb, 0xbb, 0xbb, 0xbb, 0xbb, 0xbb, 0xbb, 0xbb, 0xbb, 0xbb, 0xbb, 0xbb, 0xbb, 0xbb,
    0xbb, 0xbb, 0xbb, 0xbb, 0xbb, 0xbb, 0xbb, 0xbb, 0xbb, 0xbb, 0xbb, 0xbb, 0xbb, 0xbb, 0xbb, 0xbb,
    0xbb, 0x02, 0x00, 0x00, 0x00, 0x05, 0x06, 0x00, 0x00, 0x00, 0x00, 0x00, 0x00, 0x00, 0x00, 0x00,
    0x00, 0x00, 0x00, 0x00, 0x00, 0x00, 0x00, 0x00, 0x00, 0x00, 0x00, 0x00, 0x00, 0x00, 0x00, 0x00,
    0x00, 0x00, 0x00, 0x00, 0x00, 0x00, 0x00, 0x00, 0x00, 0x00, 0x00,
];

// A request of governance at the place 2.5, with two writes of empty values.
const RULED: [u8; 96] = [
    0x01, 0x00, 0x58, 0x00, 0x00, 0x00, 0x00, 0x00, 0x02, 0x00, 0x00, 0x00, 0x05, 0x00, 0x00, 0x00,
    0x00, 0x00, 0x00, 0x00, 0x01, 0x01, 0x00, 0x00, 0x00, 0x07, 0x02, 0x00, 0x00, 0x00, 0x08, 0x70,
    0x75, 0x62, 0x6c, 0x69, 0x63, 0x3a, 0x74, 0x01, 0x00, 0x61, 0x01, 0x00, 0x00, 0x00, 0x00, 0x08,
    0x70, 0x75, 0x62, 0x6c, 0x69, 0x63, 0x3a, 0x74, 0x01, 0x00, 0x62, 0x01, 0x00, 0x00, 0x00, 0x00,
    0x00, 0x00, 0x00, 0x00, 0x00, 0x00, 0x00, 0x00, 0x00, 0x00, 0x00, 0x00, 0x00, 0x00, 0x00, 0x00,
    0x00, 0x00, 0x00, 0x00, 0x00, 0x00, 0x00, 0x00, 0x00, 0x00, 0x00, 0x00, 0x00, 0x00, 0x00, 0x00,
];

// The ledger of one put, in a service of one member, in hexadecimal: a genesis and its signature,
// the put, and another signature. A program in Python made it that knows the format alone.
const LEDGER: &[u8] = b"\
    0100eb030000000002000000010000000000000001fc000000010200000002000000050000000358d23188ef65\
    205d9e7e3a23be51785572f2c0e680a057a6fb37ec5cc532f23d618cb741b6ced4303c4b7c7a477da92e010000\
    000500000003dad611d4795dd3a34d1ad35d0ae539d4b91ad4067aabe5a164a9c9f1be9d855b054dbceff2b148\
    95ad8c03c1c9b29fd40000000001010000000100000005000000037fda30f52b7d767a3d299d7d44f0ca0cb2b1\
    6916206ae9d3c5f0fe3296f1efbc734134d7a14dc7506faef5af32c66dcd0196a7771610e4419c87149ac33234\
    72a5a52ab8d0541c1a2649509a8e31cbb8df010196a7771610e4419c87149ac3323472a5a52ab8d0541c1a2649\
    509a8e31cbb8df0b0000001b7075626c69633a6363662e676f762e636f6e737469747574696f6e010001010400\
    0000010002001b7075626c69633a6363662e676f762e636f6e737469747574696f6e0100020104000000010002\
    001b7075626c69633a6363662e676f762e636f6e737469747574696f6e0100030104000000010002001b707562\
    6c69633a6363662e676f762e636f6e737469747574696f6e0100040104000000010002001b7075626c69633a63\
    63662e676f762e636f6e737469747574696f6e0100050104000000010002001b7075626c69633a6363662e676f\
    762e636f6e737469747574696f6e0100060104000000010002001b7075626c69633a6363662e676f762e636f6e\
    737469747574696f6e010007010400000001000200167075626c69633a6363662e676f762e6465616c696e6701\
    006401430000000196a7771610e4419c87149ac3323472a5a52ab8d0541c1a2649509a8e31cbb8df010196a777\
    1610e4419c87149ac3323472a5a52ab8d0541c1a2649509a8e31cbb8df167075626c69633a6363662e676f762e\
    6d656d626572730100010141000000010000000100000005000000037fda30f52b7d767a3d299d7d44f0ca0cb2\
    b16916206ae9d3c5f0fe3296f1efbc734134d7a14dc7506faef5af32c66dcd00000000147075626c69633a6363\
    662e676f762e6e6f6465732000c4a819eb8f9ffececbf45fe3172004e30f28b0e1837f337857cf7aa45934a3b0\
    01470000000100020000000500000003dad611d4795dd3a34d1ad35d0ae539d4b91ad4067aabe5a164a9c9f1be\
    9d855b054dbceff2b14895ad8c03c1c9b29fd4000000000000000000000000167075626c69633a6363662e676f\
    762e73657276696365010073013e000000020000000002000000050000000358d23188ef65205d9e7e3a23be51\
    785572f2c0e680a057a6fb37ec5cc532f23d618cb741b6ced4303c4b7c7a477da92e0000000000000000000000\
    0000000000000000000000000000000000000000000100810000000000020000000200000000000000034c0000\
    00c4a819eb8f9ffececbf45fe3172004e30f28b0e1837f337857cf7aa45934a3b002000000000000006e97ff55\
    ac1d544319395a5819d78362fdb54b3dcf3ef6f653ec9c74e47cd01b0000000000000000000000000000000000\
    000000000000000000000000000000000000000000000001005b00000000000200000003000000000000000214\
    000000010003087075626c69633a74010061010000000101000000087075626c69633a74010061010100000001\
    fb50dc0717ff266cf9baf82b1ce7a1c2ef6d9247859680b11a19fb7077f5f22201008100000000000200000004\
    00000000000000034c000000c4a819eb8f9ffececbf45fe3172004e30f28b0e1837f337857cf7aa45934a3b002\
    000000000000008b65bdf5c7fa73e1b880528547ebfa832c515f3708d585697b0d4159ed1ab4c1000000000000\
    00000000000000000000000000000000000000000000000000000000000000000000";

const IDENTITY: [u8; 60] = [9; 60];

const EVIDENCE: &[u8] = b"ce:2.3:86828660de385a90146e2813b1192469c1d3b4da68d834782b462930f69d8252";

// The leaf of the put.
const LEAF: [u8; 32] = [
    0xef, 0xbb, 0xe9, 0x6c, 0x99, 0x69, 0x9a, 0x75, 0xb9, 0xcd, 0x76, 0x16, 0x09, 0xbe, 0x50, 0x7d,
    0x6a, 0xe3, 0xb0, 0x9b, 0x4f, 0x3e, 0x57, 0x51, 0xb4, 0x0c, 0xa0, 0x56, 0x3d, 0x3c, 0x0c, 0x94,
];

// The entry that PUT encodes.
fn put_entry(alloc: Global) -> Result<Entry, Fail>
    ensures { IfOk result (λ e. length (content_bytes e.content) < 2 ^ 32) }
{
    let map = MapName::new(Vec::from_slice(alloc, b"public:t")?).ok_or("a map's name")?;
    let key = Key::new(Vec::from_slice(alloc, b"a")?).ok_or("a key")?;
    let value = Value::new(Vec::from_slice(alloc, &[1])?).ok_or("a value")?;
    let mut writes = Writes::new(alloc);
    writes.put(Write {
        map,
        key,
        value: Some(value),
    })?;
    let request = b"\x01\x00\x03\x08public:t\x01\x00a\x01\x00\x00\x00\x01";
    let (_, claims) = PUT.split_at(67);
    let mut digest = [0; 32];
    digest.copy_from_slice(claims);
    Ok(Entry {
        view: 2,
        seqno: 3,
        content: Content::Application(Bytes::from(Vec::from_slice(alloc, request)?)),
        writes,
        claims: digest,
    })
}

#[test]
fn encodes_the_entry_of_a_put(rt: HostRuntime) -> Result<(), Fail> {
    let entry = put_entry(rt.alloc())?;
    assert!(rt; entry.writes.as_slice().len() == 1);
    let body = entry.body(rt.alloc())?;
    assert!(rt; body.len() == 91);
    assert!(rt; body.as_slice() == &PUT[8..]);
    assert!(rt; entry.encode(rt.alloc())?.as_slice() == PUT.as_slice());
    let id = TxId { view: 2, seqno: 3 };
    assert!(rt; evidence(rt.alloc(), &IDENTITY, id)?.as_slice() == EVIDENCE);
    assert!(rt; leaf_of_body(&IDENTITY, &entry, &body) == LEAF);
    assert!(rt; leaf(&entry, &IDENTITY) == LEAF);
    let (body, text) = (entry.body_digest(), commit_evidence_digest(&IDENTITY, id));
    assert!(rt; leaf_of_components(&body, &text, &entry.claims) == LEAF);
    assert!(rt; is_evidence(EVIDENCE, &IDENTITY, id));
    assert!(rt; !is_evidence(EVIDENCE, &IDENTITY, TxId { view: 23, ..id }));
    assert!(rt; (entry.body_len(), entry.frame_len()) == (91, 99));
    Ok(())
}

#[tactic(auto, using(gl_entry::proofs::EntryLaws::body_within))]
fn encoded(alloc: Global, entry: &Entry) -> Result<Vec<u8>, AllocError>
    requires { IsTrue (is_entry entry.now) }
{
    entry.encode(alloc)
}

#[test]
fn reads_each_kind_of_entry(rt: HostRuntime) -> Result<(), Fail> {
    for frame in [PUT.as_slice(), SIGNED.as_slice(), RULED.as_slice()] {
        let (entry, size) = Entry::decode(rt.alloc(), frame)?;
        assert!(rt; size == frame.len());
        assert!(rt; encoded(rt.alloc(), &entry)?.as_slice() == frame);
        let copy = entry.copy(rt.alloc())?;
        assert!(rt; encoded(rt.alloc(), &copy)?.as_slice() == frame);
    }
    let (entry, _) = Entry::decode(rt.alloc(), &SIGNED)?;
    assert!(rt; (entry.view, entry.seqno) == (2, 4));
    match &entry.content {
        Content::Signature(signature) => {
            assert!(rt; (signature.node, signature.commit) == ([0xaa; 32], 3));
            assert!(rt; signature.root == [0xbb; 32]);
            assert!(rt; signature.signature.as_slice() == [5, 6].as_slice());
            let message = signed_message(&signature.root, 2, 4, signature.commit);
            let numbers = b"\x02\0\0\0\x04\0\0\0\0\0\0\0\x03\0\0\0\0\0\0\0";
            assert!(rt; &message[..32] == [0xbb; 32].as_slice());
            assert!(rt; &message[32..] == numbers.as_slice());
        }
        _ => panic!(rt; "a signature"),
    }
    Ok(())
}

fn fault_of(alloc: Global, bytes: &[u8]) -> Option<OrNoMemory<EntryFault>> {
    Entry::decode(alloc, bytes).err()
}

#[test]
fn reports_the_first_fault(rt: HostRuntime) -> Result<(), Fail> {
    let value = |at| EntryFault::Code(CodeFault::Value { at });
    // Each frame with the byte at a place changed, and the one after it too.
    let rows = [
        (PUT.as_slice(), 0, [3, 1], EntryFault::Version),
        (PUT.as_slice(), 1, [1, 0xff], EntryFault::Flags),
        (PUT.as_slice(), 20, [6, 0xff], EntryFault::Kind),
        (
            SIGNED.as_slice(),
            97,
            [1, 0],
            EntryFault::Code(CodeFault::Trailing { at: 102 }),
        ),
        (
            SIGNED.as_slice(),
            97,
            [3, 0],
            EntryFault::Code(CodeFault::Cut(CutFault::Short { at: 103 })),
        ),
        (SIGNED.as_slice(), 103, [1, 0], value(103)),
        (SIGNED.as_slice(), 107, [1, 0], value(107)),
        (
            RULED.as_slice(),
            58,
            [b'a', 2],
            EntryFault::Writes { index: 2 },
        ),
        (RULED.as_slice(), 58, [b'c', 2], value(59)),
    ];
    for (frame, at, bytes, want) in rows {
        let mut changed = Vec::from_slice(rt.alloc(), frame)?;
        assert!(rt; at + 1 < changed.len());
        changed[at] = bytes[0];
        changed[at + 1] = bytes[1];
        assert!(rt;
            fault_of(rt.alloc(), &changed) == Some(OrNoMemory::Fault(want)),
            "at {at}"
        );
    }
    Ok(())
}

#[test]
fn measures_the_body_by_its_size(rt: HostRuntime) -> Result<(), Fail> {
    let mut longer = Vec::from_slice(rt.alloc(), &PUT)?;
    longer.push(0)?;
    assert!(rt; Entry::decode(rt.alloc(), &longer)?.1 == 99);
    assert!(rt; longer.len() == 100);
    longer[2] = 0x5c;
    let trailing = EntryFault::Code(CodeFault::Trailing { at: 99 });
    assert!(rt; fault_of(rt.alloc(), &longer) == Some(OrNoMemory::Fault(trailing)));
    for len in 0..99 {
        let short = EntryFault::Code(CodeFault::Cut(CutFault::Short { at: len }));
        assert!(rt; fault_of(rt.alloc(), &PUT[..len]) == Some(OrNoMemory::Fault(short)));
    }
    let size = EntryFault::Size {
        size: 281_474_976_710_655,
    };
    let large = [1, 0, 0xff, 0xff, 0xff, 0xff, 0xff, 0xff, 2, 0];
    assert!(rt; fault_of(rt.alloc(), &large) == Some(OrNoMemory::Fault(size)));
    Ok(())
}

#[test]
fn counts_places_on_inside_other_bytes(rt: HostRuntime) -> Result<(), Fail> {
    let (entry, size) = Entry::decode_at(rt.alloc(), 1000, &PUT)?;
    assert!(rt; (entry.seqno, size) == (3, 99));
    let short = EntryFault::Code(CodeFault::Cut(CutFault::Short { at: 1098 }));
    let fault = Entry::decode_at(rt.alloc(), 1000, &PUT[..98]).err();
    assert!(rt; fault == Some(OrNoMemory::Fault(short)));
    Ok(())
}

// The entries that a reader gives, and the fault that ends them, if one does.
fn drain<S: Source>(
    alloc: Global,
    reader: &mut LedgerReader<S>,
) -> Result<(Vec<u8>, Option<OrNoMemory<LedgerFault>>), AllocError> {
    let mut frames = Vec::new(alloc);
    for _ in 0..5 {
        match reader.next() {
            Ok(Some(entry)) => frames.extend_from_slice(&encoded(alloc, &entry)?)?,
            Ok(None) => return Ok((frames, None)),
            Err(fault) => return Ok((frames, Some(fault))),
        }
    }
    Ok((frames, None))
}

#[test]
fn reads_a_ledger_in_any_pieces(rt: HostRuntime) -> Result<(), Fail> {
    let bytes = hex::decode(rt.alloc(), LEDGER)?;
    for piece in 1..=bytes.len() {
        let mut reader = LedgerReader::new(rt.alloc(), MemSource::new(&bytes, piece, &[]));
        let (frames, fault) = drain(rt.alloc(), &mut reader)?;
        assert!(rt;
            (frames.as_slice(), fault) == (bytes.as_slice(), None),
            "in pieces of {piece}"
        );
    }
    Ok(())
}

#[test]
fn reports_where_a_ledger_is_cut(rt: HostRuntime) -> Result<(), Fail> {
    let bytes = hex::decode(rt.alloc(), LEDGER)?;
    for len in 0..bytes.len() {
        let whole = match len {
            0..1011 => 0,
            1011..1148 => 1011,
            1148..1247 => 1148,
            _ => 1247,
        };
        let short = EntryFault::Code(CodeFault::Cut(CutFault::Short { at: len - whole }));
        let want = if len == whole {
            None
        } else {
            Some(OrNoMemory::Fault(LedgerFault::Entry(short)))
        };
        let mut reader = LedgerReader::new(rt.alloc(), MemSource::new(&bytes[..len], 100, &[]));
        let (frames, fault) = drain(rt.alloc(), &mut reader)?;
        assert!(rt;
            (frames.as_slice(), fault) == (&bytes[..whole], want),
            "cut at {len}"
        );
    }
    Ok(())
}

#[test]
fn goes_on_where_a_read_failed(rt: HostRuntime) -> Result<(), Fail> {
    let bytes = hex::decode(rt.alloc(), LEDGER)?;
    for failing in 1..=17 {
        let failing = [failing];
        let mut reader = LedgerReader::new(rt.alloc(), MemSource::new(&bytes, 90, &failing));
        let (before, fault) = drain(rt.alloc(), &mut reader)?;
        assert!(rt; fault == Some(OrNoMemory::Fault(LedgerFault::Read)));
        assert!(rt; reader.source.plan.faults() == 1);
        let (after, fault) = drain(rt.alloc(), &mut reader)?;
        assert!(rt; fault == None);
        let mut frames = before;
        frames.extend_from_slice(&after)?;
        assert!(rt; frames.as_slice() == bytes.as_slice());
    }
    Ok(())
}
