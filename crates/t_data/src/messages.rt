//! Messages and frames against bytes that a program in Python wrote out, which knows the format
//! alone.

ghost use Rattle.std.specs.Prelude.{IsTrue};
ghost use Rattle.gl_messages.specs.Answer.{is_answer};
ghost use Rattle.gl_messages.specs.Client.{is_client};
ghost use Rattle.gl_messages.specs.Message.{is_message};

use gl_base::{CodeFault, CutFault, OrNoMemory, Status};
use gl_entry::{Content, EntryFault};
use gl_messages::{
    Answer, AnswerBody, Body, Client, FrameFault, Frames, Message, MessageFault, put_frame,
};
use std::alloc::{AllocError, Global};
use std::test::*;

const MESSAGES: [(&str, &[u8]); 7] = [
    (
        "request vote",
        b"\x01\xaa\xaa\xaa\xaa\xaa\xaa\xaa\xaa\xaa\xaa\xaa\xaa\xaa\xaa\xaa\xaa\xaa\xaa\xaa\xaa\xaa\
          \xaa\xaa\xaa\xaa\xaa\xaa\xaa\xaa\xaa\xaa\xaa\xbb\xbb\xbb\xbb\xbb\xbb\xbb\xbb\xbb\xbb\xbb\
          \xbb\xbb\xbb\xbb\xbb\xbb\xbb\xbb\xbb\xbb\xbb\xbb\xbb\xbb\xbb\xbb\xbb\xbb\xbb\xbb\xbb\x01\
          \x02\x03\x04\x02\x00\x00\x00\x07\x00\x00\x00\x00\x00\x00\x00",
    ),
    (
        "vote reply, no",
        b"\x02\xaa\xaa\xaa\xaa\xaa\xaa\xaa\xaa\xaa\xaa\xaa\xaa\xaa\xaa\xaa\xaa\xaa\xaa\xaa\xaa\xaa\
          \xaa\xaa\xaa\xaa\xaa\xaa\xaa\xaa\xaa\xaa\xaa\xbb\xbb\xbb\xbb\xbb\xbb\xbb\xbb\xbb\xbb\xbb\
          \xbb\xbb\xbb\xbb\xbb\xbb\xbb\xbb\xbb\xbb\xbb\xbb\xbb\xbb\xbb\xbb\xbb\xbb\xbb\xbb\xbb\x05\
          \x00\x00\x00\x00",
    ),
    (
        "vote reply, yes",
        b"\x02\xaa\xaa\xaa\xaa\xaa\xaa\xaa\xaa\xaa\xaa\xaa\xaa\xaa\xaa\xaa\xaa\xaa\xaa\xaa\xaa\xaa\
          \xaa\xaa\xaa\xaa\xaa\xaa\xaa\xaa\xaa\xaa\xaa\xbb\xbb\xbb\xbb\xbb\xbb\xbb\xbb\xbb\xbb\xbb\
          \xbb\xbb\xbb\xbb\xbb\xbb\xbb\xbb\xbb\xbb\xbb\xbb\xbb\xbb\xbb\xbb\xbb\xbb\xbb\xbb\xbb\x05\
          \x00\x00\x00\x01",
    ),
    (
        "append, nothing",
        b"\x03\xaa\xaa\xaa\xaa\xaa\xaa\xaa\xaa\xaa\xaa\xaa\xaa\xaa\xaa\xaa\xaa\xaa\xaa\xaa\xaa\xaa\
          \xaa\xaa\xaa\xaa\xaa\xaa\xaa\xaa\xaa\xaa\xaa\xbb\xbb\xbb\xbb\xbb\xbb\xbb\xbb\xbb\xbb\xbb\
          \xbb\xbb\xbb\xbb\xbb\xbb\xbb\xbb\xbb\xbb\xbb\xbb\xbb\xbb\xbb\xbb\xbb\xbb\xbb\xbb\xbb\x03\
          \x00\x00\x00\x00\x00\x00\x00\x00\x00\x00\x00\x00\x00\x00\x00\x00\x00\x00\x00\x00\x00\x00\
          \x00\x00\x00",
    ),
    (
        "append, two entries",
        b"\x03\xaa\xaa\xaa\xaa\xaa\xaa\xaa\xaa\xaa\xaa\xaa\xaa\xaa\xaa\xaa\xaa\xaa\xaa\xaa\xaa\xaa\
          \xaa\xaa\xaa\xaa\xaa\xaa\xaa\xaa\xaa\xaa\xaa\xbb\xbb\xbb\xbb\xbb\xbb\xbb\xbb\xbb\xbb\xbb\
          \xbb\xbb\xbb\xbb\xbb\xbb\xbb\xbb\xbb\xbb\xbb\xbb\xbb\xbb\xbb\xbb\xbb\xbb\xbb\xbb\xbb\x03\
          \x00\x00\x00\x02\x00\x00\x00\x02\x00\x00\x00\x00\x00\x00\x00\x02\x00\x00\x00\x00\x00\x00\
          \x00\x02\x00\x01\x00\x5b\x00\x00\x00\x00\x00\x02\x00\x00\x00\x03\x00\x00\x00\x00\x00\x00\
          \x00\x02\x14\x00\x00\x00\x01\x00\x03\x08\x70\x75\x62\x6c\x69\x63\x3a\x74\x01\x00\x61\x01\
          \x00\x00\x00\x01\x01\x00\x00\x00\x08\x70\x75\x62\x6c\x69\x63\x3a\x74\x01\x00\x61\x01\x01\
          \x00\x00\x00\x01\xfb\x50\xdc\x07\x17\xff\x26\x6c\xf9\xba\xf8\x2b\x1c\xe7\xa1\xc2\xef\x6d\
          \x92\x47\x85\x96\x80\xb1\x1a\x19\xfb\x70\x77\xf5\xf2\x22\x01\x00\x83\x00\x00\x00\x00\x00\
          \x03\x00\x00\x00\x04\x00\x00\x00\x00\x00\x00\x00\x03\x4e\x00\x00\x00\xaa\xaa\xaa\xaa\xaa\
          \xaa\xaa\xaa\xaa\xaa\xaa\xaa\xaa\xaa\xaa\xaa\xaa\xaa\xaa\xaa\xaa\xaa\xaa\xaa\xaa\xaa\xaa\
          \xaa\xaa\xaa\xaa\xaa\x03\x00\x00\x00\x00\x00\x00\x00\xbb\xbb\xbb\xbb\xbb\xbb\xbb\xbb\xbb\
          \xbb\xbb\xbb\xbb\xbb\xbb\xbb\xbb\xbb\xbb\xbb\xbb\xbb\xbb\xbb\xbb\xbb\xbb\xbb\xbb\xbb\xbb\
          \xbb\x02\x00\x00\x00\x05\x06\x00\x00\x00\x00\x00\x00\x00\x00\x00\x00\x00\x00\x00\x00\x00\
          \x00\x00\x00\x00\x00\x00\x00\x00\x00\x00\x00\x00\x00\x00\x00\x00\x00\x00\x00\x00\x00",
    ),
    (
        "append reply",
        b"\x04\xaa\xaa\xaa\xaa\xaa\xaa\xaa\xaa\xaa\xaa\xaa\xaa\xaa\xaa\xaa\xaa\xaa\xaa\xaa\xaa\xaa\
          \xaa\xaa\xaa\xaa\xaa\xaa\xaa\xaa\xaa\xaa\xaa\xbb\xbb\xbb\xbb\xbb\xbb\xbb\xbb\xbb\xbb\xbb\
          \xbb\xbb\xbb\xbb\xbb\xbb\xbb\xbb\xbb\xbb\xbb\xbb\xbb\xbb\xbb\xbb\xbb\xbb\xbb\xbb\xbb\x05\
          \x00\x00\x00\x01\x01\x02\x03\x04\x05\x06\x07\x08",
    ),
    (
        "propose vote",
        b"\x05\xaa\xaa\xaa\xaa\xaa\xaa\xaa\xaa\xaa\xaa\xaa\xaa\xaa\xaa\xaa\xaa\xaa\xaa\xaa\xaa\xaa\
          \xaa\xaa\xaa\xaa\xaa\xaa\xaa\xaa\xaa\xaa\xaa\xbb\xbb\xbb\xbb\xbb\xbb\xbb\xbb\xbb\xbb\xbb\
          \xbb\xbb\xbb\xbb\xbb\xbb\xbb\xbb\xbb\xbb\xbb\xbb\xbb\xbb\xbb\xbb\xbb\xbb\xbb\xbb\xbb\xff\
          \xff\xff\xff",
    ),
];

const CLIENTS: [(&str, &[u8]); 5] = [
    (
        "submit",
        b"\x10\x88\x77\x66\x55\x44\x33\x22\x11\x0c\x00\x00\x00\x01\x00\x08\x08\x70\x75\x62\x6c\x69\
          \x63\x3a\x74",
    ),
    (
        "govern, no bytes",
        b"\x11\x88\x77\x66\x55\x44\x33\x22\x11\x00\x00\x00\x00",
    ),
    (
        "status of",
        b"\x12\x88\x77\x66\x55\x44\x33\x22\x11\x02\x00\x00\x00\x03\x00\x00\x00\x00\x00\x00\x00",
    ),
    (
        "receipt of",
        b"\x13\x88\x77\x66\x55\x44\x33\x22\x11\x00\x00\x00\x00\xff\xff\xff\xff\xff\xff\xff\xff",
    ),
    (
        "snapshot part",
        b"\x14\x88\x77\x66\x55\x44\x33\x22\x11\x00\x00\x10\x00\x00\x00\x00\x00",
    ),
];

const ANSWERS: [(&str, &[u8]); 9] = [
    (
        "accepted",
        b"\x20\x88\x77\x66\x55\x44\x33\x22\x11\x02\x00\x00\x00\x03\x00\x00\x00\x00\x00\x00\x00\x03\
          \x00\x00\x00\x01\x00\x00",
    ),
    (
        "refused",
        b"\x21\x88\x77\x66\x55\x44\x33\x22\x11\x6e\x00\x04\x00\x00\x00\x00\x00\x00\x00",
    ),
    ("unknown", b"\x22\x88\x77\x66\x55\x44\x33\x22\x11\x00"),
    ("pending", b"\x22\x88\x77\x66\x55\x44\x33\x22\x11\x01"),
    ("committed", b"\x22\x88\x77\x66\x55\x44\x33\x22\x11\x02"),
    ("invalid", b"\x22\x88\x77\x66\x55\x44\x33\x22\x11\x03"),
    (
        "receipt",
        b"\x23\x88\x77\x66\x55\x44\x33\x22\x11\x03\x00\x00\x00\x7b\x7d\x0a",
    ),
    (
        "part",
        b"\x24\x88\x77\x66\x55\x44\x33\x22\x11\x05\x00\x00\x00\x00\x00\x00\x00\x05\x00\x00\x00\x47\
          \x4c\x4a\x4f\x55",
    ),
    ("memory", b"\x25\x88\x77\x66\x55\x44\x33\x22\x11"),
];

#[tactic(auto, using(gl_messages::proofs::MessageLaws::message_fits))]
fn message_bytes(alloc: Global, message: &Message) -> Result<Vec<u8>, AllocError>
    requires { IsTrue (is_message message.now) }
{
    message.encode(alloc)
}

#[tactic(auto, using(gl_messages::proofs::ClientLaws::client_fits))]
fn client_bytes(alloc: Global, client: &Client) -> Result<Vec<u8>, AllocError>
    requires { IsTrue (is_client client.now) }
{
    client.encode(alloc)
}

#[tactic(auto, using(gl_messages::proofs::AnswerLaws::answer_fits))]
fn answer_bytes(alloc: Global, answer: &Answer) -> Result<Vec<u8>, AllocError>
    requires { IsTrue (is_answer answer.now) }
{
    answer.encode(alloc)
}

#[test]
fn reads_and_encodes_each_kind(rt: HostRuntime) -> Result<(), Fail> {
    for (name, bytes) in MESSAGES {
        let message = Message::decode(rt.alloc(), bytes)?;
        assert!(rt;
            (message.from, message.to) == ([0xaa; 32], [0xbb; 32]),
            "{name}"
        );
        assert!(rt;
            message_bytes(rt.alloc(), &message)?.as_slice() == bytes,
            "{name}"
        );
    }
    for (name, bytes) in CLIENTS {
        let client = Client::decode(rt.alloc(), bytes)?;
        assert!(rt; client.number == 0x1122_3344_5566_7788, "{name}");
        assert!(rt;
            client_bytes(rt.alloc(), &client)?.as_slice() == bytes,
            "{name}"
        );
    }
    for (name, bytes) in ANSWERS {
        let answer = Answer::decode(rt.alloc(), bytes)?;
        assert!(rt; answer.number == 0x1122_3344_5566_7788, "{name}");
        assert!(rt;
            answer_bytes(rt.alloc(), &answer)?.as_slice() == bytes,
            "{name}"
        );
    }
    Ok(())
}

#[test]
fn reads_the_fields(rt: HostRuntime) -> Result<(), Fail> {
    let vote = Message::decode(rt.alloc(), MESSAGES[0].1)?;
    assert!(rt; vote.view == 0x0403_0201);
    match &vote.body {
        Body::RequestVote { last } => assert!(rt; (last.view, last.seqno) == (2, 7)),
        _ => panic!(rt; "a request"),
    }
    let append = Message::decode(rt.alloc(), MESSAGES[4].1)?;
    match &append.body {
        Body::Append {
            prev,
            commit,
            entries,
        } => {
            assert!(rt; (prev.view, prev.seqno, *commit) == (2, 2, 2));
            match entries.as_slice() {
                [put, signed] => {
                    assert!(rt; (put.view, put.seqno) == (2, 3));
                    assert!(rt; (signed.view, signed.seqno) == (3, 4));
                    assert!(rt; matches!(&signed.content, Content::Signature(_)));
                }
                _ => panic!(rt; "two entries"),
            }
        }
        _ => panic!(rt; "an append"),
    }
    let status = Answer::decode(rt.alloc(), ANSWERS[5].1)?;
    assert!(rt; matches!(&status.content, AnswerBody::StatusIs(Status::Invalid)));
    Ok(())
}

// The bytes with some of them changed from a place on.
fn changed(alloc: Global, bytes: &[u8], at: usize, new: &[u8]) -> Result<Vec<u8>, AllocError> {
    let mut out = Vec::from_slice(alloc, bytes)?;
    for (i, byte) in new.iter().enumerate() {
        if let Some(place) = out.get_mut(at.saturating_add(i)) {
            *place = *byte;
        }
    }
    Ok(out)
}

#[test]
fn reports_the_first_fault_of_a_message(rt: HostRuntime) -> Result<(), Fail> {
    let [
        (_, request),
        _,
        (_, reply),
        (_, nothing),
        (_, append),
        (_, taken),
        _,
    ] = MESSAGES;
    let value = |at| MessageFault::Code(CodeFault::Value { at });
    let order = |want, got| MessageFault::Order { want, got };
    // The row of the table above, the place from which bytes are changed, the new bytes, the fault.
    // In the Append the first entry begins at 91, with its view at 99 and its place at 103, and the
    // second at 190.
    let rows = [
        (request, 0, b"\x00".as_slice(), value(0)),
        (request, 0, b"\x06", value(0)),
        (request, 0, b"\x10", value(0)),
        (reply, 69, b"\x02", value(69)),
        (taken, 69, b"\xff", value(69)),
        (append, 89, b"\x41", value(89)),
        (
            nothing,
            89,
            b"\x01",
            MessageFault::Entry(EntryFault::Code(CodeFault::Cut(CutFault::Short { at: 91 }))),
        ),
        (
            append,
            91,
            b"\x02",
            MessageFault::Entry(EntryFault::Version),
        ),
        (append, 92, b"\x01", MessageFault::Entry(EntryFault::Flags)),
        (append, 111, b"\x06", MessageFault::Entry(EntryFault::Kind)),
        (append, 99, b"\x01", order(2, 1)),
        (append, 99, b"\x04", order(3, 4)),
        (append, 103, b"\x04", order(3, 4)),
        // the order is tried before what is wrong after it
        (
            append,
            99,
            b"\x01\x00\x00\x00\x04\x00\x00\x00\x00\x00\x00\x00\x06",
            order(2, 1),
        ),
        (
            append,
            103,
            b"\x04\x00\x00\x00\x00\x00\x00\x00\x06",
            order(3, 4),
        ),
        // and after what is wrong before it
        (
            append,
            92,
            b"\x01\x5b\x00\x00\x00\x00\x00\x01",
            MessageFault::Entry(EntryFault::Flags),
        ),
        // the second entry
        (append, 198, b"\x01", order(2, 1)),
        (append, 202, b"\x03", order(4, 3)),
        (
            append,
            89,
            b"\x01",
            MessageFault::Code(CodeFault::Trailing { at: 190 }),
        ),
        (
            append,
            287,
            b"\x01",
            MessageFault::Entry(EntryFault::Code(CodeFault::Trailing { at: 292 })),
        ),
    ];
    for (bytes, at, new, want) in rows {
        let bytes = changed(rt.alloc(), bytes, at, new)?;
        let fault = Message::decode(rt.alloc(), &bytes).err();
        assert!(rt; fault == Some(OrNoMemory::Fault(want)), "{new:?} at {at}");
    }
    for len in 0..request.len() {
        let short = MessageFault::Code(CodeFault::Cut(CutFault::Short { at: len }));
        let fault = Message::decode(rt.alloc(), &request[..len]).err();
        assert!(rt; fault == Some(OrNoMemory::Fault(short)));
    }
    Ok(())
}

#[test]
fn reports_the_first_fault_of_a_client_and_an_answer(rt: HostRuntime) -> Result<(), Fail> {
    let too_long = |len| CodeFault::Cut(CutFault::TooLong { at: 9, len });
    let rows = [
        (0, b"\x0f".as_slice(), CodeFault::Value { at: 0 }),
        (0, b"\x15", CodeFault::Value { at: 0 }),
        (9, b"\x0d", CodeFault::Cut(CutFault::Short { at: 25 })),
        (9, b"\x0b", CodeFault::Trailing { at: 24 }),
        (
            9,
            b"\x00\x00\x10\x00",
            CodeFault::Cut(CutFault::Short { at: 25 }),
        ),
        (9, b"\x01\x00\x10\x00", too_long(1_048_577)),
    ];
    for (at, new, want) in rows {
        let bytes = changed(rt.alloc(), CLIENTS[0].1, at, new)?;
        let fault = Client::decode(rt.alloc(), &bytes).err();
        assert!(rt; fault == Some(OrNoMemory::Fault(want)), "at {at}");
    }
    let [_, _, (_, unknown), _, _, _, (_, receipt), _, _] = ANSWERS;
    let rows = [
        (unknown, 0, b"\x1f".as_slice(), CodeFault::Value { at: 0 }),
        (unknown, 0, b"\x26", CodeFault::Value { at: 0 }),
        (unknown, 9, b"\x04", CodeFault::Value { at: 9 }),
        (receipt, 9, b"\x01\x00\x10\x00", too_long(1_048_577)),
        (unknown, 0, b"\x25", CodeFault::Trailing { at: 9 }),
    ];
    for (bytes, at, new, want) in rows {
        let bytes = changed(rt.alloc(), bytes, at, new)?;
        let fault = Answer::decode(rt.alloc(), &bytes).err();
        assert!(rt; fault == Some(OrNoMemory::Fault(want)), "{new:?} at {at}");
    }
    Ok(())
}

// Writes an entry of an application with a request of so many zero bytes: 61 bytes more than these.
fn put_entry(out: &mut Vec<u8>, seqno: u8, size: u32) -> Result<(), AllocError> {
    out.extend_from_slice(b"\x01\x00")?;
    out.extend_from_slice(&size.saturating_add(53).to_le_bytes())?;
    out.extend_from_slice(b"\x00\x00\x02\x00\x00\x00")?;
    out.extend_from_slice(&[seqno, 0, 0, 0, 0, 0, 0, 0, 2])?;
    out.extend_from_slice(&size.to_le_bytes())?;
    for _ in 0..size {
        out.push(0)?;
    }
    out.extend_from_slice(&[0; 36])
}

#[test]
fn limits_the_bytes_of_entries(rt: HostRuntime) -> Result<(), Fail> {
    // The sizes of two requests, and the fault: the frames have 1,500,000 bytes at most.
    for (first, second, want) in [
        (1_000_000, 499_878, None),
        (1_000_000, 499_879, Some(1_000_152)),
        (1_048_523, 451_356, Some(1_048_675)),
    ] {
        let (head, _) = MESSAGES[4].1.split_at(89);
        let mut bytes = Vec::from_slice(rt.alloc(), head)?;
        bytes.extend_from_slice(b"\x02\x00")?;
        put_entry(&mut bytes, 3, first)?;
        put_entry(&mut bytes, 4, second)?;
        let want = want.map(|at| OrNoMemory::Fault(MessageFault::Code(CodeFault::Value { at })));
        assert!(rt;
            Message::decode(rt.alloc(), &bytes).err() == want,
            "{first} and {second}"
        );
    }
    Ok(())
}

#[test]
fn cuts_a_stream_in_any_pieces(rt: HostRuntime) -> Result<(), Fail> {
    let stream = b"\x00\x00\x00\x03abc\x00\x00\x00\x00\x00\x00\x00\x01d\x00\x00";
    let mut sent = Vec::new(rt.alloc());
    for payload in [b"abc".as_slice(), b"", b"d"] {
        put_frame(&mut sent, payload)?;
    }
    assert!(rt; sent.as_slice() == &stream[..16]);
    for piece in 1..19_usize {
        let mut frames = Frames::new(rt.alloc());
        let mut got = Vec::new(rt.alloc());
        for bytes in stream.chunks(piece) {
            frames.feed(bytes)?;
            for _ in 0..4 {
                match frames.next()? {
                    Some(payload) => got.push(payload)?,
                    None => break,
                }
            }
        }
        match got.as_slice() {
            [first, second, third] => {
                assert!(rt; first.as_slice() == b"abc".as_slice());
                assert!(rt; second.as_slice() == b"".as_slice());
                assert!(rt; third.as_slice() == b"d".as_slice());
            }
            _ => panic!(rt; "three payloads in pieces of {piece}"),
        }
    }
    Ok(())
}

#[test]
fn limits_a_frame(rt: HostRuntime) -> Result<(), Fail> {
    let mut frames = Frames::new(rt.alloc());
    frames.feed(b"\x00\x20\x00\x01")?;
    let long = OrNoMemory::Fault(FrameFault::FrameTooLong { len: 2_097_153 });
    assert!(rt; frames.next().err() == Some(long));
    let mut frames = Frames::new(rt.alloc());
    frames.feed(b"\x00\x20\x00\x00")?;
    assert!(rt; frames.next()?.is_none());
    let piece = [7; 65536];
    for _ in 0..32 {
        assert!(rt; frames.next()?.is_none());
        frames.feed(&piece)?;
    }
    assert!(rt; frames.next()?.map(|payload| payload.len()) == Some(2_097_152));
    assert!(rt; frames.next()?.is_none());
    Ok(())
}
