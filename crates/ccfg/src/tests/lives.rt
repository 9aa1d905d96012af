//! Lives of key files: a key begins, founds a service, serves and signs, and each run stops at each
//! call of its disk. What a stop leaves opens, but where a key begins: there it may be no key file
//! yet. No leaf signs twice, and each run after a stop signs as often as it is to.

use crate::tests::founding::{ENDORSE, GENESIS, MEMBER_KEY, NODE_KEY, SETTINGS};
use crate::tests::part::Of::{Disk, Written};
use crate::tests::part::Part;
use crate::tests::part::Part::{All, Encoded, Hex, Times};
use crate::tests::run::Arrival::{Payload, Ticks};
use crate::tests::run::{Arrival, Frame, Output, RUN, Run};
use crate::tests::serve::{NODE, PUT, SERVED};
use crate::tests::signatures::SIGN;
use crate::tests::stops::Stop;
use crate::tests::table::Table;
use gl_outside::Tear;
use std::alloc::AllocError;
use std::process::Abort;

/// A stop, to take what a row doesn't say from. What its run tells is compared where it ends.
const STOP: Stop<'static> = Stop {
    name: "",
    run: RUN,
    tears: &[
        Tear::Old,
        Tear::Whole,
        Tear::Half,
        Tear::Filled(0),
        Tear::Filled(255),
    ],
    earlier: &[],
    before: &[],
    after: &[],
    may_lack_key: false,
};

/// A node's signature stands after the key of the node (RFC 8554, section 6.2), and a member's
/// after the number of the levels above its own, which is 0.
const NODE_STOP: Stop<'static> = Stop {
    before: &[Encoded("the node", "key")],
    ..STOP
};

const MEMBER_STOP: Stop<'static> = Stop {
    before: &[Hex("00000000")],
    ..STOP
};

/// The name of each run that stops.
const STOPPED: &str = "the stop";

/// A put, after which the node signs.
const PUT_AND_TICK: &[Arrival<'static>] = &[Ticks(5), Payload(0, PUT), Ticks(1)];

/// The first serve: twice a put, a signature, and the receipt of the put.
const SERVE: Run<'static> = Run {
    name: "the serve",
    input: &[All(Written("the opening"))],
    disk: Some(&[All(Disk("the opening"))]),
    link: &[
        Payload(0, PUT),
        Ticks(1),
        Payload(0, &[Hex("13 0f00000000000000 02000000 0300000000000000")]),
        Payload(0, PUT),
        Ticks(1),
        Payload(0, &[Hex("13 1000000000000000 02000000 0500000000000000")]),
    ],
    output: Output::Line("served 4 lost 0"),
    sent: Some(&[
        Frame::Payload(
            0,
            &[Hex("20 0800000000000000 02000000 0300000000000000 03000000 010000")],
        ),
        Frame::Begins(0, &[Hex("23 0f00000000000000")]),
        Frame::Payload(
            0,
            &[Hex("20 0800000000000000 02000000 0500000000000000 03000000 010000")],
        ),
        Frame::Begins(0, &[Hex("23 1000000000000000")]),
    ]),
    ..NODE
};

/// The node is elected, and takes a put after the six entries of its file.
const SERVE_ON: Run<'static> = Run {
    name: "the second serve",
    disk: Some(&[All(Disk("the serve"))]),
    link: &[
        Ticks(5),
        Payload(0, PUT),
        Ticks(1),
        Payload(0, &[Hex("13 1100000000000000 03000000 0700000000000000")]),
    ],
    output: Output::Line("served 2 lost 0"),
    sent: Some(&[
        Frame::Payload(
            0,
            &[Hex("20 0800000000000000 03000000 0700000000000000 03000000 010000")],
        ),
        Frame::Begins(0, &[Hex("23 1100000000000000")]),
    ]),
    ..NODE
};

/// A node's key signs nothing of a member.
const SIGN_AS_NODE: Run<'static> = Run {
    name: "no signature",
    disk: Some(&[All(Disk("the next serve"))]),
    status: 1,
    output: Output::Line("fault KeyKind 3 2"),
    ..SIGN
};

const NEXT_GENESIS: Run<'static> = Run {
    name: "the next genesis",
    input: SETTINGS,
    disk: Some(&[All(Disk(STOPPED))]),
    ..GENESIS
};

const NEXT_SERVE: Run<'static> = Run {
    name: "the next serve",
    input: &[All(Written("the opening"))],
    disk: Some(&[All(Disk(STOPPED))]),
    link: PUT_AND_TICK,
    output: SERVED,
    ..NODE
};

/// The runs after those: another genesis, and a serve.
const ANOTHER_GENESIS: Run<'static> = Run {
    name: "another genesis",
    disk: Some(&[All(Disk("no signature"))]),
    ..NEXT_GENESIS
};

const ANOTHER_SERVE: Run<'static> = Run {
    name: "another serve",
    disk: Some(&[All(Disk("another genesis"))]),
    ..NEXT_SERVE
};

const AFTER_KEYGEN: &[(Run<'static>, usize)] = &[(NEXT_GENESIS, 1)];

/// The node begins by what the genesis after the stop wrote.
const AFTER_GENESIS: &[(Run<'static>, usize)] = &[
    (NEXT_GENESIS, 1),
    (
        Run {
            input: &[All(Written("the next genesis"))],
            disk: Some(&[All(Disk("the next genesis"))]),
            ..NEXT_SERVE
        },
        1,
    ),
    (SIGN_AS_NODE, 0),
    (ANOTHER_GENESIS, 1),
];

const AFTER_SERVE: &[(Run<'static>, usize)] = &[
    (NEXT_SERVE, 1),
    (SIGN_AS_NODE, 0),
    (ANOTHER_GENESIS, 1),
];

const AFTER_SIGN_AS_NODE: &[(Run<'static>, usize)] = &[
    (NEXT_SERVE, 1),
    (SIGN_AS_NODE, 0),
    (ANOTHER_GENESIS, 1),
    (ANOTHER_SERVE, 1),
];

/// A node's file: its key begins, and founds a service.
const OF_A_NODE: &[Stop<'static>] = &[
    Stop {
        name: "keygen of a node",
        run: Run {
            name: STOPPED,
            input: &[Times(&[2], 32)],
            ..NODE_KEY
        },
        after: AFTER_KEYGEN,
        may_lack_key: true,
        ..NODE_STOP
    },
    Stop {
        name: "genesis",
        run: Run {
            name: STOPPED,
            input: SETTINGS,
            disk: Some(&[All(Disk("the node"))]),
            ..GENESIS
        },
        after: AFTER_GENESIS,
        ..NODE_STOP
    },
];

/// The node serves twice, and `sign` is refused.
const OF_SERVES: &[Stop<'static>] = &[
    Stop {
        name: "node",
        run: Run {
            name: STOPPED,
            ..SERVE
        },
        tears: &[Tear::Half],
        earlier: &["the opening"],
        after: AFTER_SERVE,
        ..NODE_STOP
    },
    Stop {
        name: "node, a second time",
        run: Run {
            name: STOPPED,
            ..SERVE_ON
        },
        tears: &[Tear::Whole],
        earlier: &["the opening", "the serve"],
        after: AFTER_SERVE,
        ..NODE_STOP
    },
    Stop {
        name: "sign with a node's key",
        run: Run {
            name: STOPPED,
            disk: Some(&[All(Disk("the second serve"))]),
            ..SIGN_AS_NODE
        },
        earlier: &["the opening", "the serve", "the second serve"],
        after: AFTER_SIGN_AS_NODE,
        ..NODE_STOP
    },
];

const SIGNED: Run<'static> = Run {
    name: "the request",
    disk: Some(&[All(Disk("the member"))]),
    output: Output::SignedBy(0),
    ..SIGN
};

/// The runs after a `sign` that stopped.
const AFTER_SIGN: &[(Run<'static>, usize)] = &[
    (
        Run {
            name: "the next request",
            disk: Some(&[All(Disk(STOPPED))]),
            ..SIGN
        },
        1,
    ),
    (
        Run {
            name: "another request",
            disk: Some(&[All(Disk("the next request"))]),
            ..SIGN
        },
        1,
    ),
];

/// A member's file.
const OF_A_MEMBER: &[Stop<'static>] = &[
    Stop {
        name: "keygen of a member",
        run: Run {
            name: STOPPED,
            input: &[Times(&[3], 32)],
            ..MEMBER_KEY
        },
        after: AFTER_SIGN,
        may_lack_key: true,
        ..MEMBER_STOP
    },
    Stop {
        name: "sign",
        run: Run {
            name: STOPPED,
            ..SIGNED
        },
        after: AFTER_SIGN,
        ..MEMBER_STOP
    },
    Stop {
        name: "sign, a second time",
        run: Run {
            name: STOPPED,
            disk: Some(&[All(Disk("the request"))]),
            output: Output::SignedBy(1),
            ..SIGN
        },
        tears: &[Tear::Half],
        earlier: &["the request"],
        after: AFTER_SIGN,
        ..MEMBER_STOP
    },
];

/// The runs after an `endorse` that stopped.
const AFTER_ENDORSE: &[(Run<'static>, usize)] = &[
    (
        Run {
            name: "the next endorsement",
            input: &[All(Written("the node"))],
            disk: Some(&[All(Disk(STOPPED))]),
            ..ENDORSE
        },
        1,
    ),
    (
        Run {
            name: "another endorsement",
            input: &[All(Written("the node"))],
            disk: Some(&[All(Disk("the next endorsement"))]),
            ..ENDORSE
        },
        1,
    ),
];

/// A service's file, whose signatures stand alone.
const OF_A_SERVICE: &[Stop<'static>] = &[Stop {
    name: "endorse",
    run: Run {
        name: STOPPED,
        input: &[All(Written("the node"))],
        disk: Some(&[All(Disk("the node, endorsed"))]),
        ..ENDORSE
    },
    earlier: &["the node, endorsed"],
    after: AFTER_ENDORSE,
    ..STOP
}];

/// Plays the life of a node's file up to its first serve, after the runs that found a service.
pub fn play_founding(rt: &impl Abort, table: &mut Table) -> Result<(), AllocError> {
    table.play_stops(rt, OF_A_NODE)
}

/// Plays the life of a node's file from its first serve on, after the runs that found a service.
pub fn play_serves(rt: &impl Abort, table: &mut Table) -> Result<(), AllocError> {
    table.play(rt, &SERVE)?;
    table.play(rt, &SERVE_ON)?;
    table.play_stops(rt, OF_SERVES)
}

/// Plays the lives of a member's and of a service's file, after the runs that found a service.
pub fn play_signatures(rt: &impl Abort, table: &mut Table) -> Result<(), AllocError> {
    table.play(rt, &SIGNED)?;
    table.play_stops(rt, OF_A_MEMBER)?;
    table.play_stops(rt, OF_A_SERVICE)
}
