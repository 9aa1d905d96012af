//! Lines of members, each with what is printed for it, worked out by hand.

use crate::tests::part::Lines;
use crate::tests::part::Part::{Answered, Asked, Each, Text, World};
use crate::tests::run::{Output, Run};
use crate::tests::schedules::REPLAY;
use crate::tests::table::Table;
use std::alloc::AllocError;
use std::process::Abort;

/// Five of eight members are active, and the rule is 1/2 for each action.
const FIVE_ACTIVE: Lines<'static> = &[
    ("ack 1 1", "accepted 2.3"),
    ("ack 1 2", "accepted 2.4"),
    ("ack 1 3", "accepted 2.5"),
    ("ack 1 4", "accepted 2.6"),
    ("ack 1 5", "accepted 2.7"),
];

/// Three of five are more than half of them, and so are two of four refusals too few.
const BALLOTS: Lines<'static> = &[
    (
        r#"propose 1 1 {"actions":[{"args":{"number":6},"name":"remove_member"}]}"#,
        "accepted 2.8 proposal 1 Open",
    ),
    ("ballot 1 1 1 yes", "accepted 2.9 proposal 1 Open"),
    // The ballot's bytes again, and another ballot of the member.
    ("again 1 8", "refused 43 2 2"),
    ("ballot 1 1 1 yes", "refused 46"),
    ("ballot 1 2 1 yes", "accepted 2.10 proposal 1 Open"),
    ("ballot 1 3 1 yes", "accepted 2.11 proposal 1 Accepted"),
    ("ballot 1 4 1 yes", "refused 45 2"),
    (
        r#"propose 1 2 {"actions":[{"args":{"number":7},"name":"remove_member"}]}"#,
        "accepted 2.12 proposal 2 Open",
    ),
    ("ballot 1 1 2 no", "accepted 2.13 proposal 2 Open"),
    ("ballot 1 2 2 no", "accepted 2.14 proposal 2 Open"),
    ("ballot 1 3 2 no", "accepted 2.15 proposal 2 Rejected"),
    (
        r#"propose 1 3 {"actions":[{"args":{"number":8},"name":"remove_member"}]}"#,
        "accepted 2.16 proposal 3 Open",
    ),
    ("ballot 1 1 3 yes", "accepted 2.17 proposal 3 Open"),
    ("ballot 1 2 3 yes", "accepted 2.18 proposal 3 Open"),
    ("ballot 1 3 3 no", "accepted 2.19 proposal 3 Open"),
    ("ballot 1 4 3 no", "accepted 2.20 proposal 3 Open"),
    ("withdraw 1 1 3", "refused 47"),
    ("withdraw 1 3 3", "accepted 2.21 proposal 3 Withdrawn"),
    ("ballot 1 5 3 yes", "refused 45 4"),
    ("ballot 1 6 1 yes", "refused 40"),
];

/// A member who was removed since its ballot counts neither among those who agree nor among all.
const REMOVED: Lines<'static> = &[
    (
        r#"propose 1 1 {"actions":[{"args":{"number":6},"name":"remove_member"}]}"#,
        "accepted 2.8 proposal 1 Open",
    ),
    ("ballot 1 5 1 yes", "accepted 2.9 proposal 1 Open"),
    ("ballot 1 1 1 yes", "accepted 2.10 proposal 1 Open"),
    (
        r#"propose 1 2 {"actions":[{"args":{"number":5},"name":"remove_member"}]}"#,
        "accepted 2.11 proposal 2 Open",
    ),
    ("ballot 1 1 2 yes", "accepted 2.12 proposal 2 Open"),
    ("ballot 1 2 2 yes", "accepted 2.13 proposal 2 Open"),
    ("ballot 1 3 2 yes", "accepted 2.14 proposal 2 Accepted"),
    ("ballot 1 2 1 yes", "accepted 2.15 proposal 1 Open"),
    ("ballot 1 5 1 no", "refused 40"),
    ("ballot 1 3 1 yes", "accepted 2.16 proposal 1 Accepted"),
];

/// Actions that are bad when they are proposed.
const BAD_ACTIONS: Lines<'static> = &[
    (
        r#"propose 1 1 {"actions":[{"args":{"number":1},"name":"remove_member"}]}"#,
        "refused 41",
    ),
    ("ack 1 1", "accepted 2.3"),
    (
        r#"propose 1 1 {"actions":[{"args":{"number":1},"name":"remove_member"}]}"#,
        "refused 48 1 4",
    ),
    (
        concat!(
            r#"propose 1 1 {"actions":[{"args":{"key":"000000000000000000000000000000000000"#,
            r#"000000000000000000000000000000000000000000000000000000000000000000000000"#,
            r#"000000000000","number":1},"name":"set_member"}]}"#,
        ),
        "refused 48 1 1",
    ),
    // The request that was refused before the member was active.
    ("again 1 2", "refused 43 1 0"),
];

/// A service is opened by its one member.
const OPENED: Lines<'static> = &[
    ("submit 1 put public:t 61 01", "refused 51 1"),
    ("ack 1 1", "accepted 2.3"),
    (
        r#"propose 1 1 {"actions": [{"args": {}, "name": "transition_service_to_open"}]}"#,
        "accepted 2.4 proposal 1 Open",
    ),
    ("ballot 1 1 1 yes", "accepted 2.5 proposal 1 Accepted"),
    ("submit 1 put public:t 61 01", "accepted 2.6 done"),
    ("reserve 1", "ok"),
    ("sign 1", "signed 2.7"),
    ("advance 1", "commit 2.7"),
    ("ids 1", "ids 2.1 2.2 2.3 2.4 2.5 2.6 2.7"),
];

/// Of several numbers that name nothing the first is reported, and no leaf is used.
const NOTHING: Lines<'static> = &[
    ("ack 2 1", "refused 0"),
    ("ack 1 0", "refused 0"),
    ("ack 1 256", "refused 0"),
    ("ballot 1 1 1 yes", "refused 44"),
    ("ballot 1 256 1 yes", "refused 0"),
    ("withdraw 1 1 0", "refused 44"),
    ("withdraw 2 1 1", "refused 0"),
    ("again 1 2", "refused 0"),
    ("again 1 99", "refused 0"),
    // Each node that the JSON names is to be there.
    (
        concat!(
            r##"propose 1 1 {"actions":[{"args":{"secret_digest":"#2","##,
            r##""shares":[{"digest":"#1","member":1}],"threshold":1},"##,
            r##""name":"set_recovery_threshold"}]}"##,
        ),
        "refused 0",
    ),
    ("ack 1 1", "accepted 2.3"),
    (
        concat!(
            r##"propose 1 1 {"actions":[{"args":{"secret_digest":"#1","##,
            r##""shares":[{"digest":"#1","member":1}],"threshold":1},"##,
            r##""name":"set_recovery_threshold"}]}"##,
        ),
        "accepted 2.4 proposal 1 Open",
    ),
    // So the next leaf is the third; its request again, by the line that sent it again.
    ("ack 1 1", "accepted 2.5"),
    ("again 1 14", "refused 43 2 2"),
    ("again 1 15", "refused 43 2 2"),
    // A member that the service doesn't have has a key too.
    ("ack 1 200", "refused 40"),
];

/// A proposal of each of nine members.
const PROPOSALS_OF_ALL: &str = concat!(
    r#"propose 1 1 {"actions":[{"args":{"number":9},"name":"remove_member"}]}"#,
    "\n",
    r#"propose 1 2 {"actions":[{"args":{"number":9},"name":"remove_member"}]}"#,
    "\n",
    r#"propose 1 3 {"actions":[{"args":{"number":9},"name":"remove_member"}]}"#,
    "\n",
    r#"propose 1 4 {"actions":[{"args":{"number":9},"name":"remove_member"}]}"#,
    "\n",
    r#"propose 1 5 {"actions":[{"args":{"number":9},"name":"remove_member"}]}"#,
    "\n",
    r#"propose 1 6 {"actions":[{"args":{"number":9},"name":"remove_member"}]}"#,
    "\n",
    r#"propose 1 7 {"actions":[{"args":{"number":9},"name":"remove_member"}]}"#,
    "\n",
    r#"propose 1 8 {"actions":[{"args":{"number":9},"name":"remove_member"}]}"#,
    "\n",
    r#"propose 1 9 {"actions":[{"args":{"number":9},"name":"remove_member"}]}"#,
    "\n",
);

const VOTES: &[Run<'static>] = &[
    Run {
        name: "ballots",
        input: &[World("1 0 8 open"), Asked(FIVE_ACTIVE), Asked(BALLOTS)],
        output: Output::Is(&[
            Text("1 ok\n"),
            Answered(2, FIVE_ACTIVE),
            Answered(7, BALLOTS),
        ]),
        ..REPLAY
    },
    Run {
        name: "ballots of a removed member",
        input: &[World("1 0 8 open"), Asked(FIVE_ACTIVE), Asked(REMOVED)],
        output: Output::Is(&[
            Text("1 ok\n"),
            Answered(2, FIVE_ACTIVE),
            Answered(7, REMOVED),
        ]),
        ..REPLAY
    },
];

const ACTIONS: &[Run<'static>] = &[
    Run {
        name: "bad actions",
        input: &[World("1 0 1 open"), Asked(BAD_ACTIONS)],
        output: Output::Is(&[Text("1 ok\n"), Answered(2, BAD_ACTIONS)]),
        ..REPLAY
    },
    Run {
        name: "an opening",
        input: &[World("1 0 1 opening"), Asked(OPENED)],
        output: Output::Is(&[Text("1 ok\n"), Answered(2, OPENED)]),
        ..REPLAY
    },
];

const NAMES: &[Run<'static>] = &[Run {
    name: "numbers that name nothing",
    input: &[World("1 0 1 open"), Asked(NOTHING)],
    output: Output::Is(&[Text("1 ok\n"), Answered(2, NOTHING)]),
    ..REPLAY
}];

const LIMITS: &[Run<'static>] = &[
    // Each leaf signs once.
    Run {
        name: "a member's 33rd request",
        input: &[
            World("1 0 1 open"),
            Each(33, "ack 1 1\n", &[]),
            Text("again 1 34\n"),
        ],
        output: Output::Is(&[
            Text("1 ok\n"),
            Each(32, "% accepted 2.%\n", &[(2, 1), (3, 1)]),
            Text("34 refused 113 32\n35 refused 0\n"),
        ]),
        ..REPLAY
    },
    // No more than 256 proposals are open: nine members make 29 each, and the last one more is
    // refused.
    Run {
        name: "a proposal too many",
        input: &[
            World("1 0 9 open"),
            Each(9, "ack 1 %\n", &[(1, 1)]),
            Each(29, PROPOSALS_OF_ALL, &[]),
        ],
        output: Output::Is(&[
            Text("1 ok\n"),
            Each(9, "% accepted 2.%\n", &[(2, 1), (3, 1)]),
            Each(
                256,
                "% accepted 2.% proposal % Open\n",
                &[(11, 1), (12, 1), (1, 1)],
            ),
            Each(5, "% refused 50 256\n", &[(267, 1)]),
        ]),
        ..REPLAY
    },
];

fn play_votes(rt: &impl Abort, table: &mut Table) -> Result<(), AllocError> {
    table.play_all(rt, VOTES)
}

fn play_actions(rt: &impl Abort, table: &mut Table) -> Result<(), AllocError> {
    table.play_all(rt, ACTIONS)
}

fn play_names(rt: &impl Abort, table: &mut Table) -> Result<(), AllocError> {
    table.play_all(rt, NAMES)
}

fn play_limits(rt: &impl Abort, table: &mut Table) -> Result<(), AllocError> {
    table.play_all(rt, LIMITS)
}

/// Plays schedules of members.
pub fn play(rt: &impl Abort, table: &mut Table) -> Result<(), AllocError> {
    play_votes(rt, table)?;
    play_actions(rt, table)?;
    play_names(rt, table)?;
    play_limits(rt, table)
}
