//! Services that are recovered with the keys of files.

use crate::tests::audits::IDENTITY as OLD_IDENTITY;
use crate::tests::founding::{ENDORSE, GENESIS, MEMBER_KEY, NODE_KEY, SERVICE_KEY, STARTED};
use crate::tests::part::Of::{Disk, Ledger, Sent, Written};
use crate::tests::part::Part::{
    All, Answered, Asked, Cut, Digits, Hex, Member, Prefix, Sized, Text, Times, World, Zeros,
};
use crate::tests::part::{Lines, Part};
use crate::tests::run::Arrival::Payload;
use crate::tests::run::{Arrival, Frame, InTurn, Output, RUN, Run};
use crate::tests::serve::NODE;
use crate::tests::table::Table;
use std::alloc::AllocError;
use std::process::Abort;

/// A put that is signed, and one that nobody signs.
const OLD: Lines<'static> = &[
    ("submit 1 put public:t 61 01", "accepted 2.3 done"),
    ("reserve 1", "ok"),
    ("sign 1", "signed 2.4"),
    ("advance 1", "commit 2.4"),
    ("submit 1 put public:t 61 02", "accepted 2.5 done"),
];

const RECOVER: Run<'static> = Run {
    words: &["recover"],
    piece: 500,
    disk: Some(&[All(Disk("the new node"))]),
    ..RUN
};

/// The length of the settings, 4,981 bytes, and their parts: a key of 120 digits, an endorsement of
/// 4,696 and a key of 112, and the text between them.
const LENGTH: Part<'static> = Hex("75130000");

const IDENTITY_TEXT: Part<'static> = Text("{\"identity\":\"");

const NODES_TEXT: Part<'static> = Text("\",\"nodes\":[{\"endorsement\":\"");

const KEY_TEXT: Part<'static> = Text("\",\"key\":\"");

const END_TEXT: Part<'static> = Text("\"}]}");

const IDENTITY: Part<'static> = Member("the new service", "key");

const ENDORSEMENT: Part<'static> = Member("the new node, endorsed", "endorsement");

const KEY: Part<'static> = Member("the new node", "key");

const REFUSED: Run<'static> = Run {
    disk: Some(&[All(Disk("the node"))]),
    ..RECOVER
};

/// Settings that have no reading, after the runs that found a service.
const PREFIXES: &[Run<'static>] = &[
    Run {
        name: "no length",
        status: 9,
        output: Output::Is(&[Text("fault Short 0\n")]),
        ..REFUSED
    },
    Run {
        name: "too long settings",
        input: &[Hex("01001000")],
        status: 8,
        output: Output::Is(&[Text("fault json 1048576\n")]),
        ..REFUSED
    },
    Run {
        name: "settings that end",
        input: &[Hex("03000000"), Text("{}")],
        status: 9,
        output: Output::Is(&[Text("fault Short 6\n")]),
        ..REFUSED
    },
    Run {
        name: "settings without members",
        input: &[Hex("02000000"), Text("{}")],
        status: 9,
        output: Output::Is(&[Text("fault Shape .\n")]),
        ..REFUSED
    },
    Run {
        name: "settings that are no JSON",
        input: &[Hex("02000000"), Text("{]")],
        status: 9,
        output: Output::Is(&[Text("fault NotJson\n")]),
        ..REFUSED
    },
    Run {
        name: "no file",
        disk: Some(&[]),
        status: 1,
        output: Output::Is(&[Text("fault NotJournal 0\n")]),
        ..RECOVER
    },
    Run {
        name: "a member's file",
        disk: Some(&[All(Disk("the member"))]),
        status: 1,
        output: Output::Is(&[Text("fault KeyKind 2 3\n")]),
        ..RECOVER
    },
];

/// The keys of the new service.
const KEYS: &[Run<'static>] = &[
    Run {
        name: "the new service",
        input: &[Times(&[17], 32)],
        ..SERVICE_KEY
    },
    Run {
        name: "the new node",
        input: &[Times(&[18], 32)],
        ..NODE_KEY
    },
    Run {
        name: "the new node, endorsed",
        input: &[All(Written("the new node"))],
        disk: Some(&[All(Disk("the new service"))]),
        ..ENDORSE
    },
];

/// As message 7 the receipt of 2.3, of 2.4 and of 2.5, and a put.
const ASKED: &[Arrival<'static>] = &[
    Payload(0, &[Hex("13 0700000000000000 02000000 0300000000000000")]),
    Payload(0, &[Hex("13 0800000000000000 02000000 0400000000000000")]),
    Payload(0, &[Hex("13 0900000000000000 02000000 0500000000000000")]),
    Payload(
        0,
        &[Hex("10 0a00000000000000 14000000 0100 03 087075626c69633a74 010061 0100000001")],
    ),
];

/// The ledger of a schedule is lost but for a copy, and is recovered. What is expected is worked
/// out by hand; `examples/audit/recover_ledger.py` makes such ledgers from the documents alone.
const RECOVERED: &[Run<'static>] = &[
    Run {
        name: "the old ledger",
        words: &["replay"],
        input: &[World("1 0 1 open"), Asked(OLD), Text("ledger 1\n")],
        output: Output::Begins(&[Text("1 ok\n"), Answered(2, OLD), Text("7 ledger 5\n")]),
        ..RUN
    },
    // It goes on after 2.4, and begins a service by the leaf that it spends.
    Run {
        name: "the new ledger",
        input: &[
            LENGTH,
            IDENTITY_TEXT,
            IDENTITY,
            NODES_TEXT,
            ENDORSEMENT,
            KEY_TEXT,
            KEY,
            END_TEXT,
            All(Ledger("the old ledger")),
        ],
        sink_piece: 50_000,
        output: Output::Begins(&[Cut(Ledger("the old ledger"), 0, 15592)]),
        disk_after: Some(&[Prefix(Disk("the new node")), STARTED]),
        in_turn: &[InTurn::Disk, InTurn::Writes],
        ..RECOVER
    },
    Run {
        name: "the new ledger under the new key",
        words: &["audit", "--identity", "$key of the new service"],
        input: &[All(Written("the new ledger"))],
        output: Output::Is(&[Text("valid 3.6 3.6\n")]),
        ..RUN
    },
    Run {
        name: "the new ledger under the old key",
        words: &["audit", "--identity", OLD_IDENTITY],
        input: &[All(Written("the new ledger"))],
        status: 1,
        output: Output::Is(&[Text("fault foreign "), IDENTITY, Text("\n")]),
        ..RUN
    },
    // No committed signature under the key of 2.4 stands above it: 81, with the commit. 2.5 is
    // gone: 80, with that it is invalid. The service isn't open: 51.
    Run {
        name: "questions to the new node",
        input: &[All(Written("the new ledger"))],
        disk: Some(&[All(Disk("the new ledger"))]),
        link: ASKED,
        output: Output::Is(&[Text("served 4 lost 0\n")]),
        sent: Some(&[
            Frame::Begins(0, &[Hex("23 0700000000000000")]),
            Frame::Payload(
                0,
                &[Hex("21 0800000000000000 5100 08000000 0600000000000000")],
            ),
            Frame::Payload(
                0,
                &[Hex("21 0900000000000000 5000 08000000 0300000000000000")],
            ),
            Frame::Payload(
                0,
                &[Hex("21 0a00000000000000 3300 08000000 0100000000000000")],
            ),
        ]),
        ..NODE
    },
    // A receipt stands under the key of its time.
    Run {
        name: "an old receipt under the old key",
        words: &["verify", "--identity", OLD_IDENTITY],
        input: &[Cut(Sent("questions to the new node", 0), 17, 1_000_000)],
        output: Output::Is(&[Text("valid 2.3\n")]),
        ..RUN
    },
    Run {
        name: "an old receipt under the new key",
        words: &["verify", "--identity", "$key of the new service"],
        input: &[Cut(Sent("questions to the new node", 0), 17, 1_000_000)],
        status: 1,
        output: Output::Is(&[Text("fault Evidence\n")]),
        ..RUN
    },
];

/// So is a ledger that is larger than the settings may be.
const LARGE: &[Run<'static>] = &[
    // Nine values of the greatest size: 2.3 to 2.11, and the signature 2.12.
    Run {
        name: "a ledger of more than 1 MiB",
        words: &["replay"],
        input: &[
            World("1 0 1 open"),
            Zeros("submit 1 put public:t 61 ", 65536, 1),
            Zeros("\nsubmit 1 put public:t 61 ", 65536, 8),
            Text("\nreserve 1\nsign 1\nledger 1\n"),
        ],
        piece: 65536,
        sink_piece: 65536,
        output: Output::Begins(&[Text("1 ok\n")]),
        ..RUN
    },
    Run {
        name: "an opening of more than 1 MiB",
        input: &[
            LENGTH,
            IDENTITY_TEXT,
            IDENTITY,
            NODES_TEXT,
            ENDORSEMENT,
            KEY_TEXT,
            KEY,
            END_TEXT,
            All(Ledger("a ledger of more than 1 MiB")),
        ],
        piece: 65536,
        sink_piece: 65536,
        output: Output::Begins(&[Cut(Ledger("a ledger of more than 1 MiB"), 0, 1_100_000)]),
        ..RECOVER
    },
    Run {
        name: "a node with an opening of more than 1 MiB",
        input: &[All(Written("an opening of more than 1 MiB"))],
        piece: 65536,
        disk: Some(&[All(Disk("an opening of more than 1 MiB"))]),
        link: &[
            Payload(0, &[Hex("12 0100000000000000 02000000 0b00000000000000")]),
            Payload(0, &[Hex("12 0200000000000000 03000000 0e00000000000000")]),
        ],
        output: Output::Is(&[Text("served 2 lost 0\n")]),
        sent: Some(&[
            Frame::Payload(0, &[Hex("22 0100000000000000 02")]),
            Frame::Payload(0, &[Hex("22 0200000000000000 02")]),
        ]),
        ..NODE
    },
];

/// What alice, bob and carol ask for, as members 1, 2 and 3 of the new service.
const ALICE: Run<'static> = Run {
    words: &[
        "sign",
        "--identity",
        "$key of the new service",
        "--member",
        "1",
    ],
    ..RUN
};

const BOB: Run<'static> = Run {
    words: &[
        "sign",
        "--identity",
        "$key of the new service",
        "--member",
        "2",
    ],
    ..RUN
};

const CAROL: Run<'static> = Run {
    words: &[
        "sign",
        "--identity",
        "$key of the new service",
        "--member",
        "3",
    ],
    ..RUN
};

const ACK: &[Part<'static>] = &[Text("{\"op\":\"ack\"}")];

const BALLOT: &[Part<'static>] = &[
    Text("{\"op\":\"ballot\",\"proposal_id\":\""),
    Digits(Sent("a proposal to open", 3), 29, 61),
    Text("\",\"vote\":true}"),
];

const SHARE_TEXT: Part<'static> = Text("{\"op\":\"share\",\"share\":\"");

const SHARE_END: Part<'static> = Text("\"}");

const NINES: &str = "0909090909090909090909090909090909090909090909090909090909090909";

/// The acknowledgements of three members, and a proposal to open the service.
const ACK_OF_ALICE: Arrival<'static> = Payload(
    0,
    &[Hex("11 0100000000000000"), Sized(Written("alice's ack"))],
);

const ACK_OF_BOB: Arrival<'static> = Payload(
    0,
    &[Hex("11 0200000000000000"), Sized(Written("bob's ack"))],
);

const ACK_OF_CAROL: Arrival<'static> = Payload(
    0,
    &[Hex("11 0300000000000000"), Sized(Written("carol's ack"))],
);

const PROPOSED: Arrival<'static> = Payload(
    0,
    &[
        Hex("11 0400000000000000"),
        Sized(Written("alice's proposal")),
    ],
);

/// Three members, of whose shares two are enough, open a recovered service. The opening ledger is
/// that of two entries, so that the recovery is 3.3 and its signature 3.4.
const MEMBERS: &[Run<'static>] = &[
    Run {
        name: "alice",
        input: &[Times(&[33], 32)],
        ..MEMBER_KEY
    },
    Run {
        name: "bob",
        input: &[Times(&[34], 32)],
        ..MEMBER_KEY
    },
    Run {
        name: "carol",
        input: &[Times(&[35], 32)],
        ..MEMBER_KEY
    },
    // The digest of the secret, 32 bytes 07, is by Python's hashlib.
    Run {
        name: "a dealing among three",
        words: &["deal", "--threshold", "2", "1", "2", "3"],
        input: &[Times(&[7], 32), Times(&[8], 32)],
        output: Output::Begins(&[
            Text("{\"args\":{\"secret_digest\":\""),
            Text("4bb06f8e4e3a7715d201d573d0aa423762e55dabd61a2c02278fa56cc6d294e0\""),
        ]),
        ..RUN
    },
    Run {
        name: "the opening of three members",
        input: &[
            Text("{\"dealing\":"),
            Cut(Written("a dealing among three"), 8, 384),
            Text(",\"identity\":\""),
            Member("the service", "key"),
            Text("\",\"members\":[{\"key\":\""),
            Member("alice", "key"),
            Text("\",\"number\":1},{\"key\":\""),
            Member("bob", "key"),
            Text("\",\"number\":2},{\"key\":\""),
            Member("carol", "key"),
            Text("\",\"number\":3}],\"nodes\":[{\"endorsement\":\""),
            Member("the node, endorsed", "endorsement"),
            Text("\",\"key\":\""),
            Member("the node", "key"),
            Text("\"}],\"state\":\"open\"}"),
        ],
        disk: Some(&[All(Disk("the node"))]),
        ..GENESIS
    },
    Run {
        name: "the recovery of three members",
        input: &[
            LENGTH,
            IDENTITY_TEXT,
            IDENTITY,
            NODES_TEXT,
            ENDORSEMENT,
            KEY_TEXT,
            KEY,
            END_TEXT,
            All(Written("the opening of three members")),
        ],
        output: Output::Begins(&[All(Written("the opening of three members"))]),
        ..RECOVER
    },
];

/// What the members ask for: that they are members, and that the service opens;
const PROPOSALS: &[Run<'static>] = &[
    Run {
        name: "alice's ack",
        input: ACK,
        disk: Some(&[All(Disk("alice"))]),
        output: Output::SignedBy(0),
        ..ALICE
    },
    Run {
        name: "bob's ack",
        input: ACK,
        disk: Some(&[All(Disk("bob"))]),
        output: Output::SignedBy(0),
        ..BOB
    },
    Run {
        name: "carol's ack",
        input: ACK,
        disk: Some(&[All(Disk("carol"))]),
        output: Output::SignedBy(0),
        ..CAROL
    },
    Run {
        name: "alice's proposal",
        input: &[Text(
            "{\"actions\":[{\"args\":{},\"name\":\"transition_service_to_open\"}],\
            \"op\":\"propose\"}",
        )],
        disk: Some(&[All(Disk("alice's ack"))]),
        output: Output::SignedBy(1),
        ..ALICE
    },
    // Played once up to here, for the proposal's identifier.
    Run {
        name: "a proposal to open",
        input: &[All(Written("the recovery of three members"))],
        disk: Some(&[All(Disk("the recovery of three members"))]),
        link: &[ACK_OF_ALICE, ACK_OF_BOB, ACK_OF_CAROL, PROPOSED],
        output: Output::Is(&[Text("served 4 lost 0\n")]),
        sent: Some(&[
            Frame::Payload(
                0,
                &[Hex("20 0100000000000000 03000000 0500000000000000 00000000")],
            ),
            Frame::Payload(
                0,
                &[Hex("20 0200000000000000 03000000 0600000000000000 00000000")],
            ),
            Frame::Payload(
                0,
                &[Hex("20 0300000000000000 03000000 0700000000000000 00000000")],
            ),
            Frame::Begins(
                0,
                &[Hex("20 0400000000000000 03000000 0800000000000000 21000000")],
            ),
        ]),
        ..NODE
    },
];

/// their votes for that,
const BALLOTS: &[Run<'static>] = &[
    Run {
        name: "alice's ballot",
        input: BALLOT,
        disk: Some(&[All(Disk("alice's proposal"))]),
        output: Output::SignedBy(2),
        ..ALICE
    },
    Run {
        name: "bob's ballot",
        input: BALLOT,
        disk: Some(&[All(Disk("bob's ack"))]),
        output: Output::SignedBy(1),
        ..BOB
    },
];

/// and their shares.
const SHARES: &[Run<'static>] = &[
    Run {
        name: "alice's share",
        input: &[
            SHARE_TEXT,
            Cut(Written("a dealing among three"), 420, 484),
            SHARE_END,
        ],
        disk: Some(&[All(Disk("alice's ballot"))]),
        output: Output::SignedBy(3),
        ..ALICE
    },
    Run {
        name: "alice's share once more",
        input: &[
            SHARE_TEXT,
            Cut(Written("a dealing among three"), 420, 484),
            SHARE_END,
        ],
        disk: Some(&[All(Disk("alice's share"))]),
        output: Output::SignedBy(4),
        ..ALICE
    },
    Run {
        name: "a wrong share of bob's",
        input: &[SHARE_TEXT, Text(NINES), SHARE_END],
        disk: Some(&[All(Disk("bob's ballot"))]),
        output: Output::SignedBy(2),
        ..BOB
    },
    Run {
        name: "bob's share",
        input: &[
            SHARE_TEXT,
            Cut(Written("a dealing among three"), 487, 551),
            SHARE_END,
        ],
        disk: Some(&[All(Disk("a wrong share of bob's"))]),
        output: Output::SignedBy(3),
        ..BOB
    },
];

/// Bob's yes is the second of three, and the service waits for shares. The second share opens it.
const OPENED: &[Run<'static>] = &[Run {
    name: "shares that open a service",
    input: &[All(Written("the recovery of three members"))],
    disk: Some(&[All(Disk("the recovery of three members"))]),
    link: &[
        ACK_OF_ALICE,
        ACK_OF_BOB,
        ACK_OF_CAROL,
        PROPOSED,
        Payload(
            0,
            &[Hex("11 0500000000000000"), Sized(Written("alice's ballot"))],
        ),
        Payload(
            0,
            &[Hex("11 0600000000000000"), Sized(Written("bob's ballot"))],
        ),
        PUT,
        Payload(
            0,
            &[Hex("11 0800000000000000"), Sized(Written("alice's share"))],
        ),
        Payload(
            0,
            &[
                Hex("11 0900000000000000"),
                Sized(Written("alice's share once more")),
            ],
        ),
        Payload(
            0,
            &[
                Hex("11 0a00000000000000"),
                Sized(Written("a wrong share of bob's")),
            ],
        ),
        PUT,
        Payload(
            0,
            &[Hex("11 0b00000000000000"), Sized(Written("bob's share"))],
        ),
        PUT,
    ],
    output: Output::Is(&[Text("served 13 lost 0\n")]),
    sent: Some(&[
        Frame::Payload(
            0,
            &[Hex("20 0100000000000000 03000000 0500000000000000 00000000")],
        ),
        Frame::Payload(
            0,
            &[Hex("20 0200000000000000 03000000 0600000000000000 00000000")],
        ),
        Frame::Payload(
            0,
            &[Hex("20 0300000000000000 03000000 0700000000000000 00000000")],
        ),
        Frame::Payload(
            0,
            &[
                Hex("20 0400000000000000 03000000 0800000000000000 21000000"),
                PROPOSAL,
                Hex("01"),
            ],
        ),
        Frame::Payload(
            0,
            &[
                Hex("20 0500000000000000 03000000 0900000000000000 21000000"),
                PROPOSAL,
                Hex("01"),
            ],
        ),
        Frame::Payload(
            0,
            &[
                Hex("20 0600000000000000 03000000 0a00000000000000 21000000"),
                PROPOSAL,
                Hex("02"),
            ],
        ),
        // 51: it waits for shares.
        Frame::Payload(
            0,
            &[Hex("21 0700000000000000 3300 08000000 0300000000000000")],
        ),
        Frame::Payload(
            0,
            &[Hex("20 0800000000000000 03000000 0b00000000000000 00000000")],
        ),
        // 101, with the member; 100, with the digest of what was given, by Python's hashlib.
        Frame::Payload(
            0,
            &[Hex("21 0900000000000000 6500 08000000 0100000000000000")],
        ),
        Frame::Payload(
            0,
            &[Hex(
                "21 0a00000000000000 6400 24000000 20000000 \
                    8c0cc17a04942cc4f8e0fe0b302606d3108860c126428ba2ceeb5f9ed41c2b05",
            )],
        ),
        Frame::Payload(
            0,
            &[Hex("21 0700000000000000 3300 08000000 0300000000000000")],
        ),
        Frame::Payload(
            0,
            &[Hex("20 0b00000000000000 03000000 0c00000000000000 00000000")],
        ),
        Frame::Payload(
            0,
            &[Hex("20 0700000000000000 03000000 0d00000000000000 03000000 010000")],
        ),
    ]),
    ..NODE
}];

/// The proposal's identifier, as it was answered.
const PROPOSAL: Part<'static> = Cut(Sent("a proposal to open", 3), 29, 61);

/// As message 7 a put.
const PUT: Arrival<'static> = Payload(
    0,
    &[Hex("10 0700000000000000 14000000 0100 03 087075626c69633a74 010061 0100000001")],
);

fn play_prefixes(rt: &impl Abort, table: &mut Table) -> Result<(), AllocError> {
    table.play_all(rt, PREFIXES)
}

fn play_keys(rt: &impl Abort, table: &mut Table) -> Result<(), AllocError> {
    table.play_all(rt, KEYS)
}

fn play_recovered(rt: &impl Abort, table: &mut Table) -> Result<(), AllocError> {
    table.play_all(rt, RECOVERED)
}

fn play_large(rt: &impl Abort, table: &mut Table) -> Result<(), AllocError> {
    table.play_all(rt, LARGE)
}

fn play_members(rt: &impl Abort, table: &mut Table) -> Result<(), AllocError> {
    table.play_all(rt, MEMBERS)
}

fn play_proposals(rt: &impl Abort, table: &mut Table) -> Result<(), AllocError> {
    table.play_all(rt, PROPOSALS)
}

fn play_ballots(rt: &impl Abort, table: &mut Table) -> Result<(), AllocError> {
    table.play_all(rt, BALLOTS)
}

fn play_shares(rt: &impl Abort, table: &mut Table) -> Result<(), AllocError> {
    table.play_all(rt, SHARES)
}

fn play_opened(rt: &impl Abort, table: &mut Table) -> Result<(), AllocError> {
    table.play_all(rt, OPENED)
}

/// Plays recoveries of a ledger, after the runs that found a service.
pub fn play(rt: &impl Abort, table: &mut Table) -> Result<(), AllocError> {
    play_prefixes(rt, table)?;
    play_keys(rt, table)?;
    play_recovered(rt, table)?;
    play_large(rt, table)
}

/// Plays shares that open a recovered service, after the runs that found one.
pub fn play_with_members(rt: &impl Abort, table: &mut Table) -> Result<(), AllocError> {
    play_keys(rt, table)?;
    play_members(rt, table)?;
    play_proposals(rt, table)?;
    play_ballots(rt, table)?;
    play_shares(rt, table)?;
    play_opened(rt, table)
}
