//! Texts that a program in Python made (`examples/forms/make.py`), whole and with values changed.

use crate::texts::{self, report};
use gl_forms::{
    KeyForm, read_key, read_proposal, read_recovery, read_request, read_settings, write_key,
};
use gl_requests::{
    Action, Dealing, Genesis, MemberAct, NewMember, NewNode, Rule, ServiceState, ShareDigest,
};
use std::alloc::{AllocError, Global};
use std::test::*;
use t_checks::{holds, same};

mod made;

// The bytes go up by one from the first.
fn count_from(first: u8, bytes: &[u8]) -> bool {
    let mut want = first;
    for byte in bytes {
        if *byte != want {
            return false;
        }
        want = want.wrapping_add(1);
    }
    true
}

fn is_member(member: &NewMember, number: u8) -> bool {
    member.number == number && count_from(number, member.key.as_slice())
}

fn is_node(node: &NewNode, first: u8) -> bool {
    let endorsement = node.endorsement.as_slice();
    endorsement.len() == 6
        && count_from(first.wrapping_add(1), endorsement)
        && count_from(first, node.key.as_slice())
}

fn is_share(share: &ShareDigest, member: u8) -> bool {
    share.member == member && count_from(member.wrapping_add(2), share.digest.as_slice())
}

fn is_dealt(dealing: &Dealing, threshold: u8) -> bool {
    dealing.threshold == threshold && count_from(9, dealing.secret_digest.as_slice())
}

// The rule of each action, in their order: 0 and 65535, 1 and 65534, and so on.
fn are_rules(rules: &[Rule]) -> bool {
    let mut want = 0;
    for rule in rules {
        if rule.num != want || rule.den != 65535 - want {
            return false;
        }
        want = want.wrapping_add(1);
    }
    rules.len() == 7
}

fn is_second_action(dealing: &Dealing) -> bool {
    match dealing.shares.as_slice() {
        [first, second] => is_dealt(dealing, 2) && is_share(first, 1) && is_share(second, 3),
        _ => false,
    }
}

// The actions of the proposal, each with what the program made for it.
fn is_action(index: usize, action: &Action) -> bool {
    match action {
        Action::SetMember(member) => index == 0 && is_member(member, 255),
        Action::RemoveMember(number) => index == 1 && *number == 1,
        Action::SetRecoveryThreshold(dealing) => index == 2 && is_second_action(dealing),
        Action::TransitionNodeToTrusted(node) => index == 3 && count_from(16, node.as_slice()),
        Action::RemoveNode(node) => index == 4 && count_from(32, node.as_slice()),
        Action::TransitionServiceToOpen => index == 5,
        Action::SetConstitution(rules) => index == 6 && are_rules(rules.as_slice()),
    }
}

#[test]
fn reads_each_action(rt: HostRuntime) -> Result<(), Fail> {
    let actions = read_proposal(rt.alloc(), made::PROPOSAL.as_bytes())?;
    same!(actions.len(), 7);
    for (index, action) in actions.as_slice().iter().enumerate() {
        holds!(is_action(index, action), index);
    }
    Ok(())
}

fn is_act(index: usize, act: &MemberAct) -> bool {
    match act {
        MemberAct::Ack => index == 0,
        MemberAct::Propose(actions) => {
            index == 1 && matches!(actions.as_slice(), [Action::RemoveMember(7)])
        }
        MemberAct::Ballot { proposal, agrees } => {
            index == 2 && *agrees && count_from(5, proposal.as_slice())
        }
        MemberAct::Withdraw { proposal } => index == 3 && count_from(6, proposal.as_slice()),
        MemberAct::Share { share } => index == 4 && count_from(7, share.as_slice()),
    }
}

#[test]
fn reads_each_request(rt: HostRuntime) -> Result<(), Fail> {
    let texts = [
        made::ACK,
        made::PROPOSE,
        made::BALLOT,
        made::WITHDRAW,
        made::SHARE,
    ];
    for (index, text) in texts.iter().enumerate() {
        let act = read_request(rt.alloc(), text.as_bytes())?;
        holds!(is_act(index, &act), index);
    }
    Ok(())
}

fn are_settings(settings: &Genesis) -> bool {
    let nodes = match settings.nodes.as_slice() {
        [first, second] => is_node(first, 1) && is_node(second, 101),
        _ => false,
    };
    let members = match settings.members.as_slice() {
        [first, second] => is_member(first, 1) && is_member(second, 2),
        _ => false,
    };
    let shares = match settings.dealing.shares.as_slice() {
        [share] => is_share(share, 2),
        _ => false,
    };
    nodes && members && shares && is_dealt(&settings.dealing, 1)
}

#[test]
fn reads_settings(rt: HostRuntime) -> Result<(), Fail> {
    let settings = read_settings(rt.alloc(), made::SETTINGS.as_bytes())?;
    same!(settings.state, ServiceState::Open);
    holds!(count_from(64, settings.identity.as_slice()));
    holds!(are_settings(&settings));
    let recovery = read_recovery(rt.alloc(), made::RECOVERY.as_bytes())?;
    holds!(count_from(65, recovery.identity.as_slice()));
    let nodes = match recovery.nodes.as_slice() {
        [node] => is_node(node, 200),
        _ => false,
    };
    holds!(nodes);
    Ok(())
}

fn is_key(index: usize, key: &KeyForm) -> bool {
    match key {
        KeyForm::Service { key } => index == 0 && count_from(3, key.as_slice()),
        KeyForm::Member { key } => index == 1 && count_from(4, key.as_slice()),
        KeyForm::Node {
            key,
            node,
            endorsement,
        } => {
            let endorsed = match endorsement {
                None => index == 2,
                Some(bytes) => index == 3 && bytes.len() == 12 && count_from(250, bytes.as_slice()),
            };
            endorsed && count_from(5, key.as_slice()) && count_from(6, node.as_slice())
        }
    }
}

#[test]
fn reads_and_writes_each_key(rt: HostRuntime) -> Result<(), Fail> {
    let keys = [
        made::SERVICE_KEY,
        made::MEMBER_KEY,
        made::NODE_KEY,
        made::ENDORSED_KEY,
    ];
    for (index, text) in keys.iter().enumerate() {
        let key = read_key(rt.alloc(), text.as_bytes())?;
        holds!(is_key(index, &key), index);
        let written = write_key(rt.alloc(), &key)?;
        same!(written.as_slice(), text.as_bytes());
    }
    Ok(())
}

// What is read.
#[derive(Clone, Copy)]
enum Form {
    Proposal,
    Request,
    Settings,
    Recovery,
    Key,
}

impl Form {
    // A text of the form, in which pieces are changed.
    fn text(self) -> &'static str {
        match self {
            Form::Proposal => made::PROPOSAL,
            Form::Request => made::BALLOT,
            Form::Settings => made::SETTINGS,
            Form::Recovery => made::RECOVERY,
            Form::Key => made::ENDORSED_KEY,
        }
    }
}

fn report_of(alloc: Global, form: Form, text: &[u8]) -> Result<String, AllocError> {
    match form {
        Form::Proposal => report(alloc, read_proposal(alloc, text)),
        Form::Request => report(alloc, read_request(alloc, text)),
        Form::Settings => report(alloc, read_settings(alloc, text)),
        Form::Recovery => report(alloc, read_recovery(alloc, text)),
        Form::Key => report(alloc, read_key(alloc, text)),
    }
}

// The form's text with the first such piece changed, or, for no piece, the other text.
fn changed(alloc: Global, form: Form, piece: &str, by: &str) -> Result<String, AllocError> {
    if piece.is_empty() {
        return String::from_str(alloc, by);
    }
    texts::changed(alloc, form.text(), piece, by)
}

// The first row that is reported otherwise: a piece, by what it is replaced, and what is reported.
fn first_other(
    alloc: Global,
    form: Form,
    rows: &[(&str, &str, &str)],
) -> Result<Option<usize>, AllocError> {
    for (index, (piece, by, want)) in rows.iter().enumerate() {
        let text = changed(alloc, form, piece, by)?;
        if report_of(alloc, form, text.as_bytes())?.as_str() != *want {
            return Ok(Some(index));
        }
    }
    Ok(None)
}

#[test]
fn reports_what_differs_in_a_proposal(rt: HostRuntime) -> Result<(), Fail> {
    let rows = [
        ("", "", "no JSON"),
        ("", "[]", "shape "),
        ("", "{}", "shape "),
        ("", "{\"actions\":[1],\"op\":\"propose\"}", "shape "),
        ("", "{\"actions\":7}", "shape /actions"),
        ("", "{\"actions\":[]}", "shape /actions"),
        (
            "",
            "{\"actions\":[0,0,0,0,0,0,0,0,0,0,0,0,0,0,0,0]}",
            "shape /actions/0",
        ),
        (
            "",
            "{\"actions\":[0,0,0,0,0,0,0,0,0,0,0,0,0,0,0,0,0]}",
            "shape /actions",
        ),
        ("", "{\"actions\":[{\"args\":{}}]}", "shape /actions/0"),
        (
            "",
            "{\"actions\":[{\"args\":[],\"name\":7}]}",
            "shape /actions/0/args",
        ),
        (
            "",
            "{\"actions\":[{\"args\":{\"x\":1},\"name\":7}]}",
            "shape /actions/0/name",
        ),
        (
            "",
            "{\"actions\":[{\"args\":{\"x\":1},\"name\":\"open\"}]}",
            "shape /actions/0/name",
        ),
        (
            "\"number\":255",
            "\"number\":256",
            "shape /actions/0/args/number",
        ),
        ("\"key\":\"ff", "\"key\":\"Ff", "hex /actions/0/args/key"),
        ("\"key\":\"ff", "\"key\":\"", "hex /actions/0/args/key"),
        (
            "\"number\":1}",
            "\"number\":0}",
            "shape /actions/1/args/number",
        ),
        (
            "\"number\":1}",
            "\"number\":1.0}",
            "shape /actions/1/args/number",
        ),
        ("\"number\":1}", "\"number\":0,\"number\":1}", "read"),
        ("\"number\":1}", "\"x\":1}", "shape /actions/1/args"),
        (
            "\"secret_digest\":\"",
            "\"secret_digest\":\"00",
            "hex /actions/2/args/secret_digest",
        ),
        (
            "\"shares\":[",
            "\"shares\":[[],",
            "shape /actions/2/args/shares/0",
        ),
        (
            "\"member\":3",
            "\"member\":\"3\"",
            "shape /actions/2/args/shares/1/member",
        ),
        (
            "\"threshold\":2",
            "\"threshold\":256",
            "shape /actions/2/args/threshold",
        ),
        (
            "\"node\":\"1011",
            "\"node\":\"1g11",
            "hex /actions/3/args/node",
        ),
        (
            "\"node\":\"2021",
            "\"x\":7,\"node\":\"2021",
            "shape /actions/4/args",
        ),
        (
            "\"args\":{},",
            "\"args\":{\"x\":1},",
            "shape /actions/5/args",
        ),
    ];
    same!(first_other(rt.alloc(), Form::Proposal, &rows), Ok(None));
    Ok(())
}

#[test]
fn reports_which_rule_differs(rt: HostRuntime) -> Result<(), Fail> {
    let rows = [
        ("\"rules\":{", "\"rule\":{", "shape /actions/6/args"),
        (
            "\"set_member\":[",
            "\"add_member\":[",
            "shape /actions/6/args/rules",
        ),
        (
            "\"set_member\":[0,65535]",
            "\"set_member\":[0]",
            "shape /actions/6/args/rules/set_member",
        ),
        (
            "[4,65531]",
            "[4,65531,7]",
            "shape /actions/6/args/rules/remove_node",
        ),
        (
            "[4,65531]",
            "[4,65536]",
            "shape /actions/6/args/rules/remove_node/1",
        ),
        (
            "[4,65531]",
            "[-4,65536]",
            "shape /actions/6/args/rules/remove_node/0",
        ),
        // The first of two is that of the action which stands before the other.
        (
            "[4,65531],\"set_constitution\":[6,65529],\"set_member\":[0,",
            "[4,70000],\"set_constitution\":[6,65529],\"set_member\":[70000,",
            "shape /actions/6/args/rules/set_member/0",
        ),
    ];
    same!(first_other(rt.alloc(), Form::Proposal, &rows), Ok(None));
    Ok(())
}

#[test]
fn reports_what_differs_in_a_request(rt: HostRuntime) -> Result<(), Fail> {
    let rows = [
        ("", "\"ack\"", "shape "),
        ("", "{\"op\":\"other\",\"x\":1}", "shape /op"),
        ("", "{\"op\":\"ack\",\"x\":1}", "shape "),
        ("", "{\"op\":\"propose\",\"actions\":[]}", "shape /actions"),
        ("\"op\":", "\"o\":", "shape "),
        ("\"ballot\"", "null", "shape /op"),
        ("\"ballot\"", "\"withdraw\"", "shape "),
        ("\"vote\":true", "\"vote\":1", "shape /vote"),
        (
            "\"proposal_id\":\"05",
            "\"proposal_id\":\"5",
            "hex /proposal_id",
        ),
    ];
    same!(first_other(rt.alloc(), Form::Request, &rows), Ok(None));
    Ok(())
}

#[test]
fn reports_what_differs_in_settings(rt: HostRuntime) -> Result<(), Fail> {
    let rows = [
        ("\"open\"", "\"opening\"", "read"),
        ("\"open\"", "\"waiting\"", "shape /state"),
        ("\"open\"", "true", "shape /state"),
        ("\"dealing\":{", "\"dealing\":{\"x\":1,", "shape /dealing"),
        (
            "\"threshold\":1",
            "\"threshold\":-1",
            "shape /dealing/threshold",
        ),
        ("\"identity\":\"40", "\"identity\":\"", "hex /identity"),
        ("\"members\":[", "\"members\":[null,", "shape /members/0"),
        ("\"number\":2", "\"number\":0", "shape /members/1/number"),
        (
            "\"endorsement\":\"02",
            "\"endorsement\":\"2",
            "hex /nodes/0/endorsement",
        ),
        (
            "\"endorsement\":\"66",
            "\"endorsement\":66,\"x\":\"",
            "shape /nodes/1",
        ),
        ("\"state\"", "\"stage\"", "shape "),
    ];
    same!(first_other(rt.alloc(), Form::Settings, &rows), Ok(None));
    let rows = [
        ("\"nodes\":[", "\"members\":[", "shape "),
        ("\"nodes\":[", "\"nodes\":[1,", "shape /nodes/0"),
        (
            "\"identity\":",
            "\"state\":\"open\",\"identity\":",
            "shape ",
        ),
    ];
    same!(first_other(rt.alloc(), Form::Recovery, &rows), Ok(None));
    Ok(())
}

#[test]
fn reports_what_differs_in_a_key(rt: HostRuntime) -> Result<(), Fail> {
    let rows = [
        ("\"kind\":\"node\"", "\"kind\":\"leaf\"", "shape /kind"),
        ("\"kind\":\"node\"", "\"kin\":\"node\"", "shape "),
        ("\"kind\":\"node\"", "\"kind\":\"member\"", "shape "),
        (
            "\"endorsement\":\"fa",
            "\"endorsement\":\"a",
            "hex /endorsement",
        ),
        (
            "\"endorsement\":\"fa",
            "\"endorsement\":null,\"x\":\"",
            "shape ",
        ),
        ("\"endorsement\":\"", "\"endorsed\":\"", "shape "),
        ("\"key\":\"05", "\"key\":\"", "hex /key"),
        ("\"node\":\"0607", "\"node\":\"0G07", "hex /node"),
    ];
    same!(first_other(rt.alloc(), Form::Key, &rows), Ok(None));
    Ok(())
}

fn repeated(alloc: Global, piece: &str, count: usize) -> Result<String, AllocError> {
    let mut text = String::new(alloc);
    for _ in 0..count {
        text.push_str(piece)?;
    }
    Ok(text)
}

// What is told of a recovery with so many numbers before its node.
fn reported_of_nodes(alloc: Global, count: usize) -> Result<String, AllocError> {
    let numbers = repeated(alloc, "0,", count)?;
    let by = format!(in alloc; "\"nodes\":[{numbers}")?;
    let text = changed(alloc, Form::Recovery, "\"nodes\":[", by.as_str())?;
    report_of(alloc, Form::Recovery, text.as_bytes())
}

#[test]
fn counts_nodes_in_a_byte(rt: HostRuntime) -> Result<(), Fail> {
    for (count, want) in [(254, "shape /nodes/0"), (255, "shape /nodes")] {
        let answer = reported_of_nodes(rt.alloc(), count)?;
        same!(answer.as_str(), want, count);
    }
    Ok(())
}

// What is told of a key whose endorsement has so many digits.
fn reported_of_digits(alloc: Global, count: usize) -> Result<String, AllocError> {
    let digits = repeated(alloc, "0", count)?;
    let text = changed(
        alloc,
        Form::Key,
        "fafbfcfdfeff000102030405",
        digits.as_str(),
    )?;
    report_of(alloc, Form::Key, text.as_bytes())
}

#[test]
fn takes_an_endorsement_of_a_mebibyte(rt: HostRuntime) -> Result<(), Fail> {
    for (count, want) in [(2_097_152, "read"), (2_097_153, "shape /endorsement")] {
        let answer = reported_of_digits(rt.alloc(), count)?;
        same!(answer.as_str(), want, count);
    }
    Ok(())
}
