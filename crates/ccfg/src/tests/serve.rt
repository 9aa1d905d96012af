//! Serves as the node of a file, over links in memory. Payloads and answers are encoded by hand
//! from the documents of the messages; `examples/three-nodes/client.py` encodes and reads the same.

use crate::tests::founding::{ENDORSE, GENESIS, NODE_KEY};
use crate::tests::part::Of::{Disk, Sent, Written};
use crate::tests::part::Part;
use crate::tests::part::Part::{All, Cut, Encoded, Entry, Hex, Member, Prefix, Sized, Text, Times};
use crate::tests::run::Arrival::{Bytes, Payload, Single, Ticks};
use crate::tests::run::{Arrival, Frame, InTurn, Output, RUN, Run};
use crate::tests::table::Table;
use std::alloc::AllocError;
use std::process::Abort;

/// As message 7: what the status of transaction 2.1 is; and that it is committed. The length of
/// each stands first.
const STATUS_OF: &[Part<'static>] = &[Hex(
    "00000015 12 0700000000000000 02000000 0100000000000000",
)];

const COMMITTED: &[Part<'static>] = &[Hex("0000000a 22 0700000000000000 02")];

/// As message 8: a byte 1 at the key `a` of the map `m`, which isn't public.
const PUT_IN_SECRET: &[Part<'static>] = &[Hex(
    "10 0800000000000000 0d000000 0100 03 016d 010061 0100000001",
)];

/// At the key `a` of the map `public:t`.
pub const PUT: &[Part<'static>] = &[Hex(
    "10 0800000000000000 14000000 0100 03 087075626c69633a74 010061 0100000001",
)];

pub const NODE: Run<'static> = Run {
    words: &["node", "--ticks", "5", "--turns", "40"],
    piece: 500,
    ..RUN
};

/// The node of the service of one node, which begins.
const BEGINNING: Run<'static> = Run {
    input: &[All(Written("the opening"))],
    disk: Some(&[All(Disk("the opening"))]),
    ..NODE
};

pub const SERVED: Output<'static> = Output::Is(&[Text("served 1 lost 0\n")]);

/// The files with a vote for view 3 after a gate. A timeout leads to the view after that which the
/// file keeps, and a put is then an entry of that view.
const VOTE: Part<'static> = Hex("0a000000 02 05000000 03000000 00 00");

const LATER: Run<'static> = Run {
    link: &[Ticks(5), Payload(0, PUT)],
    output: SERVED,
    ..NODE
};

/// A question, after the runs that found a service.
const QUESTIONS: &[Run<'static>] = &[
    Run {
        name: "a question in pieces of one byte",
        link: &[Single(0, STATUS_OF)],
        output: SERVED,
        sent: Some(&[Frame::Whole(0, COMMITTED)]),
        ..BEGINNING
    },
    // The file has the ledger then.
    Run {
        name: "an answer from its file alone",
        disk: Some(&[All(Disk("a question in pieces of one byte"))]),
        link: &[Single(0, STATUS_OF)],
        output: SERVED,
        sent: Some(&[Frame::Whole(0, COMMITTED)]),
        ..NODE
    },
];

/// Links that lose a frame, fail or don't end.
const LINKS: &[Run<'static>] = &[
    Run {
        name: "a frame that is lost",
        link: &[Bytes(0, STATUS_OF)],
        sends: &[1],
        output: Output::Is(&[Text("served 1 lost 1\n")]),
        sent: Some(&[]),
        ..BEGINNING
    },
    Run {
        name: "a link that fails",
        link: &[Bytes(0, STATUS_OF)],
        nexts: &[2],
        status: 6,
        output: Output::Is(&[]),
        ..BEGINNING
    },
    // What was kept opens.
    Run {
        name: "a file after a link that failed",
        disk: Some(&[All(Disk("a link that fails"))]),
        link: &[Bytes(0, STATUS_OF)],
        output: SERVED,
        sent: Some(&[Frame::Whole(0, COMMITTED)]),
        ..NODE
    },
    Run {
        name: "a link without an end",
        link: &[Ticks(41)],
        status: 8,
        output: Output::Is(&[Text("fault turns 40\n")]),
        ..BEGINNING
    },
];

/// A node that doesn't begin with what its source gives: its file, which has no ledger, stays as it
/// is.
const REFUSED: Run<'static> = Run {
    piece: 65_536,
    disk: Some(&[All(Disk("the node"))]),
    status: 1,
    disk_after: Some(&[All(Disk("the node"))]),
    is_read_whole: Some(true),
    ..NODE
};

/// What isn't taken, and calls that fail.
const FAILURES: &[Run<'static>] = &[
    Run {
        name: "half an opening",
        input: &[Entry("the opening", 1)],
        status: 1,
        output: Output::Is(&[Text("fault NotOpening 1\n")]),
        ..BEGINNING
    },
    // There is no limit on what the source gives. Where its first frame reads it is a ledger: here
    // two entries stand before what is no third one.
    Run {
        name: "an opening ledger of more than 1 MiB",
        input: &[All(Written("the opening")), Times(&[0], 1_048_577)],
        output: Output::Is(&[Text("fault NotOpening 3\n")]),
        ..REFUSED
    },
    // Else it can be a snapshot alone: the length of its body in four bytes, and the body, which
    // begins with its base in eight.
    Run {
        name: "a source of one byte",
        input: &[Hex("01")],
        output: Output::Is(&[Text("fault Shape 1\n")]),
        ..REFUSED
    },
    Run {
        name: "half a body of a snapshot",
        input: &[Hex("40000000 0200000000000000 02000000")],
        output: Output::Is(&[Text("fault Shape 16\n")]),
        in_turn: &[InTurn::Reads, InTurn::Writes],
        ..REFUSED
    },
    Run {
        name: "a snapshot without a body, and more than 1 MiB",
        input: &[Times(&[0], 1_048_577)],
        output: Output::Is(&[Text("fault Shape 4\n")]),
        ..REFUSED
    },
    Run {
        name: "a put that is refused",
        disk: Some(&[All(Disk("a question in pieces of one byte"))]),
        link: &[Payload(0, PUT_IN_SECRET)],
        output: SERVED,
        in_turn: &[InTurn::Disk],
        ..NODE
    },
    // Nothing is sent of what its disk doesn't keep.
    Run {
        name: "a put, and each call fails",
        link: &[Payload(0, PUT)],
        sink_piece: 50,
        output: SERVED,
        sent: Some(&[Frame::Payload(
            0,
            &[Hex("20 0800000000000000 02000000 0300000000000000 03000000 010000")],
        )]),
        in_turn: &[InTurn::Disk, InTurn::Nexts, InTurn::Lines],
        ..BEGINNING
    },
    Run {
        name: "each read of an opening fails",
        piece: 65536,
        in_turn: &[InTurn::Reads],
        ..BEGINNING
    },
];

/// What clients ask.
const CLIENTS: &[Run<'static>] = &[
    // What a client asks of a node that leads.
    Run {
        name: "an acknowledgement",
        words: &["sign", "--identity", "$key of the service", "--member", "1"],
        input: &[Text("{\"op\":\"ack\"}")],
        disk: Some(&[All(Disk("the member"))]),
        output: Output::SignedBy(0),
        ..RUN
    },
    Run {
        name: "a client's questions",
        link: &[
            Payload(0, PUT),
            // A put in a table of governance.
            Payload(
                0,
                &[Hex(
                    "10 0900000000000000 1c000000 0100 03 \
                    107075626c69633a6363662e676f762e78 010061 0100000001",
                )],
            ),
            // The status of 2.3, and its receipt.
            Payload(0, &[Hex("12 0a00000000000000 02000000 0300000000000000")]),
            Payload(0, &[Hex("13 0b00000000000000 02000000 0300000000000000")]),
            // A member's request, and once more.
            Payload(
                0,
                &[
                    Hex("11 0c00000000000000"),
                    Sized(Written("an acknowledgement")),
                ],
            ),
            Payload(
                0,
                &[
                    Hex("11 0d00000000000000"),
                    Sized(Written("an acknowledgement")),
                ],
            ),
            // It signs, and commits.
            Ticks(1),
            Payload(0, &[Hex("12 0e00000000000000 02000000 0300000000000000")]),
            Payload(0, &[Hex("13 0f00000000000000 02000000 0300000000000000")]),
            // The receipt of the last committed signature, and a part of a snapshot.
            Payload(0, &[Hex("13 1000000000000000 02000000 0500000000000000")]),
            Payload(0, &[Hex("14 1100000000000000 0000000000000000")]),
        ],
        output: Output::Is(&[Text("served 10 lost 0\n")]),
        sent: Some(&[
            Frame::Payload(
                0,
                &[Hex("20 0800000000000000 02000000 0300000000000000 03000000 010000")],
            ),
            // 122: operation 1, cause 2.
            Frame::Payload(
                0,
                &[Hex("21 0900000000000000 7a00 10000000 0100000000000000 0200000000000000")],
            ),
            // Pending; and 80 with that.
            Frame::Payload(0, &[Hex("22 0a00000000000000 01")]),
            Frame::Payload(
                0,
                &[Hex("21 0b00000000000000 5000 08000000 0100000000000000")],
            ),
            Frame::Payload(
                0,
                &[Hex("20 0c00000000000000 02000000 0400000000000000 00000000")],
            ),
            // 43: the last leaf is 0, and so is this one.
            Frame::Payload(
                0,
                &[Hex("21 0d00000000000000 2b00 10000000 0000000000000000 0000000000000000")],
            ),
            // Committed; and its receipt.
            Frame::Payload(0, &[Hex("22 0e00000000000000 02")]),
            Frame::Begins(0, &[Hex("23 0f00000000000000")]),
            // 81, with the commit.
            Frame::Payload(
                0,
                &[Hex("21 1000000000000000 5100 08000000 0500000000000000")],
            ),
            Frame::Payload(
                0,
                &[Hex("21 1100000000000000 5100 08000000 0500000000000000")],
            ),
        ]),
        ..BEGINNING
    },
    Run {
        name: "a receipt that a client was given",
        words: &["verify", "--identity", "$key of the service"],
        input: &[Cut(Sent("a client's questions", 7), 17, 1_000_000)],
        output: Output::Is(&[Text("valid 2.3\n")]),
        ..RUN
    },
    // A node that doesn't lead: 110 with its view, and no leader.
    Run {
        name: "a put at a follower",
        disk: Some(&[All(Disk("a question in pieces of one byte"))]),
        link: &[Payload(0, PUT)],
        output: SERVED,
        sent: Some(&[Frame::Payload(
            0,
            &[Hex("21 0800000000000000 6e00 0c000000 0200000000000000 00000000")],
        )]),
        ..NODE
    },
];

/// So many puts that evidence is due at the next tick: 2.3 to 2.1000.
const PUTS: Arrival<'static> = Bytes(
    0,
    &[Times(
        b"\x00\x00\x00\x21\x10\x08\x00\x00\x00\x00\x00\x00\x00\x14\x00\x00\x00\
        \x01\x00\x03\x08public:t\x01\x00a\x01\x00\x00\x00\x01",
        998,
    )],
);

/// What a node behind a snapshot of 1,001 entries is asked: the status of 2.3, its receipt, and a
/// part of a snapshot.
const BELOW_BASE: &[Arrival<'static>] = &[
    Payload(0, &[Hex("12 0100000000000000 02000000 0300000000000000")]),
    Payload(0, &[Hex("13 0200000000000000 02000000 0300000000000000")]),
    Payload(0, &[Hex("14 0300000000000000 0000000000000000")]),
];

/// Committed; 85 with the base; and 81 with the commit.
const BELOW_BASE_ANSWERED: &[Frame<'static>] = &[
    Frame::Payload(0, &[Hex("22 0100000000000000 02")]),
    Frame::Payload(
        0,
        &[Hex("21 0200000000000000 5500 08000000 e903000000000000")],
    ),
    Frame::Payload(
        0,
        &[Hex("21 0300000000000000 5100 08000000 e903000000000000")],
    ),
];

/// A leader makes evidence by itself. What it made is asked for after a stop: its file's last
/// signature records the commit then.
const EVIDENCES: &[Run<'static>] = &[
    // Signature 2.1001 and evidence 2.1002.
    Run {
        name: "evidence at a tick",
        link: &[PUTS, Ticks(1)],
        output: Output::Is(&[Text("served 998 lost 0\n")]),
        ..BEGINNING
    },
    Run {
        name: "what stands after a tick",
        disk: Some(&[All(Disk("evidence at a tick"))]),
        link: &[
            Payload(0, &[Hex("12 0100000000000000 02000000 ea03000000000000")]),
            Payload(0, &[Hex("12 0200000000000000 02000000 eb03000000000000")]),
        ],
        output: Output::Is(&[Text("served 2 lost 0\n")]),
        sent: Some(&[
            Frame::Payload(0, &[Hex("22 0100000000000000 01")]),
            Frame::Payload(0, &[Hex("22 0200000000000000 00")]),
        ]),
        ..NODE
    },
    // The second tick signs it, as 2.1003, and commits that, and no more evidence is due. Then parts
    // of the snapshot are given: the whole of it from its start on, and none from above its end.
    Run {
        name: "a tick after evidence",
        link: &[
            PUTS,
            Ticks(1),
            Payload(0, &[Hex("14 0100000000000000 0000000000000000")]),
            Ticks(2),
            Payload(0, &[Hex("14 0200000000000000 0000000000000000")]),
            Payload(0, &[Hex("14 0300000000000000 ffffffffffffffff")]),
        ],
        output: Output::Is(&[Text("served 1001 lost 0\n")]),
        first_frames: 998,
        sent: Some(&[
            // 81, with the commit, as the evidence isn't signed yet.
            Frame::Payload(
                0,
                &[Hex("21 0100000000000000 5100 08000000 e903000000000000")],
            ),
            Frame::Begins(0, &[Hex("24 0200000000000000")]),
            Frame::Begins(0, &[Hex("24 0300000000000000")]),
        ]),
        ..BEGINNING
    },
    // The commit that its file keeps is 2.1001: no signature above the evidence is committed.
    Run {
        name: "what stands after more ticks",
        disk: Some(&[All(Disk("a tick after evidence"))]),
        link: &[
            Payload(0, &[Hex("12 0100000000000000 02000000 e903000000000000")]),
            Payload(0, &[Hex("12 0200000000000000 02000000 eb03000000000000")]),
            Payload(0, &[Hex("12 0300000000000000 02000000 ec03000000000000")]),
            Payload(0, &[Hex("14 0400000000000000 0000000000000000")]),
        ],
        output: Output::Is(&[Text("served 4 lost 0\n")]),
        sent: Some(&[
            Frame::Payload(0, &[Hex("22 0100000000000000 02")]),
            Frame::Payload(0, &[Hex("22 0200000000000000 01")]),
            Frame::Payload(0, &[Hex("22 0300000000000000 00")]),
            Frame::Payload(
                0,
                &[Hex("21 0400000000000000 5100 08000000 e903000000000000")],
            ),
        ]),
        ..NODE
    },
    Run {
        name: "a node that joins",
        input: &[Times(&[7], 32)],
        ..NODE_KEY
    },
    // It begins from what it was given. In that a frame's length has four bytes, a tag one, the
    // number and the length of all eight, and that of the part four.
    Run {
        name: "a node that begins from a snapshot it was given",
        input: &[Cut(Sent("a tick after evidence", 999), 25, 1_048_601)],
        disk: Some(&[All(Disk("a node that joins"))]),
        link: BELOW_BASE,
        output: Output::Is(&[Text("served 3 lost 0\n")]),
        sent: Some(BELOW_BASE_ANSWERED),
        ..NODE
    },
    Run {
        name: "a file behind a snapshot",
        disk: Some(&[All(Disk("a node that begins from a snapshot it was given"))]),
        link: BELOW_BASE,
        output: Output::Is(&[Text("served 3 lost 0\n")]),
        sent: Some(BELOW_BASE_ANSWERED),
        ..NODE
    },
];

/// Files with a vote.
const VOTES: &[Run<'static>] = &[
    // A vote counts after an open gate alone.
    Run {
        name: "a vote after a gate that is 0",
        disk: Some(&[
            Prefix(Disk("a question in pieces of one byte")),
            Hex("00"),
            VOTE,
        ]),
        sent: Some(&[Frame::Payload(
            0,
            &[Hex("20 0800000000000000 03000000 0300000000000000 03000000 010000")],
        )]),
        ..LATER
    },
    Run {
        name: "a vote after a gate that is 7",
        disk: Some(&[
            Prefix(Disk("a question in pieces of one byte")),
            Hex("07"),
            VOTE,
        ]),
        sent: Some(&[Frame::Payload(
            0,
            &[Hex("20 0800000000000000 03000000 0300000000000000 03000000 010000")],
        )]),
        ..LATER
    },
    Run {
        name: "a vote after a gate that is 1",
        disk: Some(&[
            Prefix(Disk("a question in pieces of one byte")),
            Hex("01"),
            VOTE,
        ]),
        sent: Some(&[Frame::Payload(
            0,
            &[Hex("20 0800000000000000 04000000 0300000000000000 03000000 010000")],
        )]),
        ..LATER
    },
    // No key begins on such a file: a header of 8 bytes, a batch of 44, one of 15, and a gate.
    Run {
        name: "a key on a file with a vote",
        input: &[Times(&[2], 32)],
        reads: &[1],
        disk: Some(&[Prefix(Disk("the node")), Hex("07"), VOTE]),
        status: 1,
        output: Output::Is(&[Text("fault NotEmpty 68\n")]),
        disk_after: Some(&[Prefix(Disk("the node")), Hex("07"), VOTE]),
        ..NODE_KEY
    },
];

/// Settings of a service with one member and three nodes.
const THREE_NODES: &[Part<'static>] = &[
    Text(
        "{\"dealing\":{\
        \"secret_digest\":\"0000000000000000000000000000000000000000000000000000000000000000\",\
        \"shares\":[{\
        \"digest\":\"0000000000000000000000000000000000000000000000000000000000000000\",\
        \"member\":1}],\"threshold\":1},\"identity\":\"",
    ),
    Member("the service", "key"),
    Text("\",\"members\":[{\"key\":\""),
    Member("the member", "key"),
    Text("\",\"number\":1}],\"nodes\":[{\"endorsement\":\""),
    Member("the node, endorsed", "endorsement"),
    Text("\",\"key\":\""),
    Member("the node", "key"),
    Text("\"},{\"endorsement\":\""),
    Member("node two, endorsed", "endorsement"),
    Text("\",\"key\":\""),
    Member("node two", "key"),
    Text("\"},{\"endorsement\":\""),
    Member("node three, endorsed", "endorsement"),
    Text("\",\"key\":\""),
    Member("node three", "key"),
    Text("\"}],\"state\":\"open\"}"),
];

/// Node two, whose peers are the first node, on connection 0, and node three, on connection 1.
const FOLLOWER: Run<'static> = Run {
    words: &[
        "node",
        "--ticks",
        "5",
        "$node of the node",
        "$node of node three",
    ],
    piece: 500,
    ..RUN
};

/// The entry 2.3 of a put, and 3.3 of another value; after each the digest of the reply `01 00 00`.
const ENTRY: Part<'static> = Hex(
    "0100 5b0000000000 02000000 0300000000000000 02 \
    14000000 0100 03 087075626c69633a74 010061 0100000001 \
    01000000 087075626c69633a74 010061 01 0100000001 \
    fb50dc0717ff266cf9baf82b1ce7a1c2ef6d9247859680b11a19fb7077f5f222",
);

const OTHER_ENTRY: Part<'static> = Hex(
    "0100 5b0000000000 03000000 0300000000000000 02 \
    14000000 0100 03 087075626c69633a74 010061 0100000002 \
    01000000 087075626c69633a74 010061 01 0100000002 \
    fb50dc0717ff266cf9baf82b1ce7a1c2ef6d9247859680b11a19fb7077f5f222",
);

/// On connection 2 a client asks for the status of 2.3 and of 3.3: the commit is 2.2, so that 2.3
/// is unknown once it was cut off, and 3.3 is pending.
const ASKED: Arrival<'static> = Payload(2, &[Hex("12 0100000000000000 02000000 0300000000000000")]);

const ASKED_NEXT: Arrival<'static> = Payload(
    2,
    &[Hex("12 0200000000000000 03000000 0300000000000000")],
);

/// Two more nodes, and a service of three.
const PEERS: &[Run<'static>] = &[
    Run {
        name: "node two",
        input: &[Times(&[5], 32)],
        ..NODE_KEY
    },
    Run {
        name: "node three",
        input: &[Times(&[6], 32)],
        ..NODE_KEY
    },
    Run {
        name: "node two, endorsed",
        input: &[All(Written("node two"))],
        disk: Some(&[All(Disk("the node, endorsed"))]),
        ..ENDORSE
    },
    Run {
        name: "node three, endorsed",
        input: &[All(Written("node three"))],
        disk: Some(&[All(Disk("node two, endorsed"))]),
        ..ENDORSE
    },
    Run {
        name: "the opening of three nodes",
        input: THREE_NODES,
        disk: Some(&[All(Disk("the node"))]),
        ..GENESIS
    },
];

/// A follower takes entries of its leader, and then those of the next view's leader in their
/// place.
const CUTS: &[Run<'static>] = &[
    Run {
        name: "entries that are cut off",
        input: &[All(Written("the opening of three nodes"))],
        disk: Some(&[All(Disk("node two"))]),
        link: &[
            Payload(
                0,
                &[
                    Hex("03"),
                    Encoded("the node", "node"),
                    Encoded("node two", "node"),
                    Hex("02000000 02000000 0200000000000000 0200000000000000 0100"),
                    ENTRY,
                ],
            ),
            Payload(
                1,
                &[
                    Hex("03"),
                    Encoded("node three", "node"),
                    Encoded("node two", "node"),
                    Hex("03000000 02000000 0200000000000000 0200000000000000 0100"),
                    OTHER_ENTRY,
                ],
            ),
            ASKED,
            ASKED_NEXT,
        ],
        output: Output::Is(&[Text("served 4 lost 0\n")]),
        sent: Some(&[
            Frame::Payload(
                0,
                &[
                    Hex("04"),
                    Encoded("node two", "node"),
                    Encoded("the node", "node"),
                    Hex("02000000 01 0300000000000000"),
                ],
            ),
            Frame::Payload(
                1,
                &[
                    Hex("04"),
                    Encoded("node two", "node"),
                    Encoded("node three", "node"),
                    Hex("03000000 01 0300000000000000"),
                ],
            ),
            Frame::Payload(2, &[Hex("22 0100000000000000 00")]),
            Frame::Payload(2, &[Hex("22 0200000000000000 01")]),
        ]),
        in_turn: &[InTurn::Disk],
        ..FOLLOWER
    },
    Run {
        name: "a file with a cut",
        disk: Some(&[All(Disk("entries that are cut off"))]),
        link: &[ASKED, ASKED_NEXT],
        output: Output::Is(&[Text("served 2 lost 0\n")]),
        sent: Some(&[
            Frame::Payload(2, &[Hex("22 0100000000000000 00")]),
            Frame::Payload(2, &[Hex("22 0200000000000000 01")]),
        ]),
        ..FOLLOWER
    },
];

fn play_questions(rt: &impl Abort, table: &mut Table) -> Result<(), AllocError> {
    table.play_all(rt, QUESTIONS)
}

fn play_links(rt: &impl Abort, table: &mut Table) -> Result<(), AllocError> {
    table.play_all(rt, LINKS)
}

fn play_failures(rt: &impl Abort, table: &mut Table) -> Result<(), AllocError> {
    table.play_all(rt, FAILURES)
}

fn play_clients(rt: &impl Abort, table: &mut Table) -> Result<(), AllocError> {
    table.play_all(rt, CLIENTS)
}

fn play_evidences(rt: &impl Abort, table: &mut Table) -> Result<(), AllocError> {
    table.play_all(rt, EVIDENCES)
}

fn play_votes(rt: &impl Abort, table: &mut Table) -> Result<(), AllocError> {
    table.play_all(rt, VOTES)
}

fn play_peers(rt: &impl Abort, table: &mut Table) -> Result<(), AllocError> {
    table.play_all(rt, PEERS)
}

fn play_cuts(rt: &impl Abort, table: &mut Table) -> Result<(), AllocError> {
    table.play_all(rt, CUTS)
}

/// Plays serves of one node, after the runs that found a service.
pub fn play(rt: &impl Abort, table: &mut Table) -> Result<(), AllocError> {
    play_questions(rt, table)?;
    play_links(rt, table)?;
    play_failures(rt, table)?;
    play_clients(rt, table)?;
    play_evidences(rt, table)?;
    play_votes(rt, table)
}

/// Plays serves of a follower, after the runs that found a service.
pub fn play_followed(rt: &impl Abort, table: &mut Table) -> Result<(), AllocError> {
    play_peers(rt, table)?;
    play_cuts(rt, table)
}
