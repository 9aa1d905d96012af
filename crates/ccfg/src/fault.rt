//! Why words or bytes are refused, and the one line that tells it.

ghost use Rattle.std.specs.Prelude.{◌≡◌, ◌++◌, IfOk, OnOk, codes, decimal};
ghost use Rattle.ccfg.specs.Faults.{beginning_text, fault_line, fault_text, opening_text, recovering_text, recovery_text, signing_text, snapshot_text};
ghost use Rattle.ccfg.specs.ExpectedOutput.{ending_of_fault, ending_of_recovering};

use crate::ending::Ending;
use clap::error::ErrorKind;
use gl_base::FormsFault;
use gl_commands::{
    kind_name, put_bad_action, put_form, put_hex, put_journal, put_key_kinds, put_named, put_nodes,
    put_number, put_numbers, put_receipt,
};
use gl_consortium::SigningFault;
use gl_journal::{JournalFault, KeyKind};
use gl_receipt::ReceiptFault;
use gl_recovery::{RecoveringFault, RecoveryFault};
use gl_requests::HssPublicKey;
use gl_snapshot::SnapshotFault;
use gl_store_book::OpeningFault;
use std::alloc::{AllocError, Global};

/// Why a node doesn't begin.
#[derive(Clone, Copy, Debug, PartialEq, Eq)]
pub enum BeginFault {
    /// The file has no node, or the node can't begin with the opening ledger.
    Opening(OpeningFault),
    /// The source gives no snapshot that is one of the service that its own rows of governance
    /// name.
    Snapshot(SnapshotFault),
}

/// Why nothing happens, or that a verdict is no.
#[derive(Debug, Drop)]
pub enum Fault {
    /// The words are not those of a command.
    Words(ErrorKind),
    /// A schedule has more bytes than the limit.
    TooManyBytes,
    /// A schedule has more lines than the limit.
    TooManyLines,
    /// A ledger is to be made of more requests than the limit.
    TooManyRequests,
    /// JSON has more bytes than the limit.
    TooMuchJson,
    /// The bytes are no schedule: this line is the first bad one, counted from 1.
    BadLine(u64),
    /// The bytes are no receipt, or not what is to be signed.
    Form(FormsFault),
    /// The receipt is not valid under the service's key.
    NotValid(ReceiptFault),
    /// The entry of a ledger with this seqno is the first that breaks a rule of the audit.
    Broken { seqno: u64, rule: u8 },
    /// The ledger is valid, but that of the service with this key.
    Foreign { identity: HssPublicKey },
    /// The disk that is to take a key holds so many bytes.
    NotEmpty { len: u64 },
    /// The bytes end here, and are to be more.
    Short { at: u64 },
    /// The bytes are to end here, and there are more.
    Trailing { at: u64 },
    /// The disk holds no key file.
    Journal(JournalFault),
    /// The disk's key file has a key of another kind.
    KeyKind { want: KeyKind, got: KeyKind },
    /// The members are none among whom a secret can be dealt so.
    BadDealing,
    /// What is to be signed has its form, and isn't signed.
    Signing(SigningFault),
    /// No service is recovered.
    Recovering(RecoveringFault),
    /// The file has no node, or the node can't begin with what the source gives.
    Opening(BeginFault),
    /// The link was asked so often as it may be, and gave no end.
    Turns { turns: u64 },
}

fn put_signing(alloc: Global, out: &mut Vec<u8>, fault: &SigningFault) -> Result<(), AllocError>
    ensures { OnOk result (out.new.items ≡ out.old.items ++ signing_text fault.now) }
{
    match fault {
        SigningFault::Form(fault) => put_form(out, fault),
        SigningFault::NotFirstNode { want, got } => put_nodes(alloc, out, want, got),
        SigningFault::KeyExhausted { reserved } => {
            put_named(out, "KeyExhausted ", u64::from(*reserved))
        }
        SigningFault::BadAction { index, cause } => put_bad_action(out, *index, cause.number()),
        SigningFault::Signature => out.extend_from_slice(b"Signature"),
        SigningFault::DiskFailed => out.extend_from_slice(b"DiskFailed"),
    }
}

/// Why no service is recovered after an old ledger.
fn put_recovery(out: &mut Vec<u8>, fault: RecoveryFault) -> Result<(), AllocError>
    ensures { OnOk result (out.new.items ≡ out.old.items ++ recovery_text fault) }
{
    match fault {
        RecoveryFault::Audit { seqno, rule } => {
            out.extend_from_slice(b"Audit ")?;
            put_numbers(out, seqno, u64::from(rule))
        }
        RecoveryFault::NothingSigned => out.extend_from_slice(b"NothingSigned"),
        RecoveryFault::ViewLimit => out.extend_from_slice(b"ViewLimit"),
        RecoveryFault::SeqnoLimit => out.extend_from_slice(b"SeqnoLimit"),
        RecoveryFault::BadAction { index, cause } => put_bad_action(out, index, cause.number()),
        RecoveryFault::Signature => out.extend_from_slice(b"Signature"),
        RecoveryFault::TooLarge { size } => put_named(out, "TooLarge ", size),
        RecoveryFault::SourceFailed => out.extend_from_slice(b"SourceFailed"),
    }
}

/// Why no service is recovered.
fn put_recovering(
    alloc: Global,
    out: &mut Vec<u8>,
    fault: &RecoveringFault,
) -> Result<(), AllocError>
    ensures { OnOk result (out.new.items ≡ out.old.items ++ recovering_text fault.now) }
{
    match fault {
        RecoveringFault::SourceFailed => out.extend_from_slice(b"SourceFailed"),
        RecoveringFault::TooMuchJson => out.extend_from_slice(b"json 1048576"),
        RecoveringFault::Short { at } => put_named(out, "Short ", *at),
        RecoveringFault::Form(fault) => put_form(out, fault),
        RecoveringFault::NotFirstNode { want, got } => put_nodes(alloc, out, want, got),
        RecoveringFault::KeyExhausted { reserved } => {
            put_named(out, "KeyExhausted ", u64::from(*reserved))
        }
        RecoveringFault::Recovery(fault) => put_recovery(out, *fault),
        RecoveringFault::DiskFailed => out.extend_from_slice(b"DiskFailed"),
    }
}

/// Why a node's file can't be opened, or can't begin with an opening ledger.
fn put_opening(out: &mut Vec<u8>, fault: OpeningFault) -> Result<(), AllocError>
    ensures { OnOk result (out.new.items ≡ out.old.items ++ opening_text fault) }
{
    match fault {
        OpeningFault::Journal(fault) => put_journal(out, fault),
        OpeningFault::KeyKind { want, got } => put_key_kinds(out, want, got),
        OpeningFault::NotOpening { seqno } => put_named(out, "NotOpening ", seqno),
        OpeningFault::TooLarge { size } => put_named(out, "TooLarge ", size),
    }
}

/// Why bytes are no snapshot that a node can begin behind.
fn put_snapshot(alloc: Global, out: &mut Vec<u8>, fault: SnapshotFault) -> Result<(), AllocError>
    ensures { OnOk result (out.new.items ≡ out.old.items ++ snapshot_text fault) }
{
    match fault {
        SnapshotFault::Shape { at } => put_named(out, "Shape ", at as u64),
        SnapshotFault::Receipt(fault) => {
            out.extend_from_slice(b"Receipt ")?;
            put_receipt(alloc, out, fault)
        }
        SnapshotFault::Digest { want, got } => {
            out.extend_from_slice(b"Digest ")?;
            put_hex(alloc, out, &want)?;
            out.extend_from_slice(b" ")?;
            put_hex(alloc, out, &got)
        }
    }
}

/// Why a node doesn't begin.
fn put_beginning(alloc: Global, out: &mut Vec<u8>, fault: BeginFault) -> Result<(), AllocError>
    ensures { OnOk result (out.new.items ≡ out.old.items ++ beginning_text fault) }
{
    match fault {
        BeginFault::Opening(fault) => put_opening(out, fault),
        BeginFault::Snapshot(fault) => put_snapshot(alloc, out, fault),
    }
}

/// How a run ends that reports why no service is recovered.
fn recovering_ending(fault: &RecoveringFault) -> Ending
    ensures { result ≡ ending_of_recovering fault.now }
{
    match fault {
        RecoveringFault::TooMuchJson => Ending::PastLimit,
        RecoveringFault::Short { .. } | RecoveringFault::Form(_) => Ending::NoReading,
        RecoveringFault::SourceFailed
        | RecoveringFault::NotFirstNode { .. }
        | RecoveringFault::KeyExhausted { .. }
        | RecoveringFault::Recovery(_)
        | RecoveringFault::DiskFailed => Ending::NotValid,
    }
}

/// The first entry that breaks a rule of the audit, and the rule.
fn put_broken(out: &mut Vec<u8>, seqno: u64, rule: u8) -> Result<(), AllocError>
    ensures { OnOk result (out.new.items ≡ out.old.items
        ++ (codes "seqno " ++ decimal seqno ++ codes " rule " ++ decimal rule)) }
{
    out.extend_from_slice(b"seqno ")?;
    put_number(out, seqno)?;
    out.extend_from_slice(b" rule ")?;
    put_number(out, u64::from(rule))
}

impl Fault {
    /// The name of the fault, and its values.
    fn put_text(&self, alloc: Global, out: &mut Vec<u8>) -> Result<(), AllocError>
        ensures { OnOk result (out.new.items ≡ out.old.items ++ fault_text self.now) }
    {
        match self {
            Fault::Words(kind) => out.extend_from_slice(kind_name(*kind).as_bytes()),
            Fault::TooManyBytes => out.extend_from_slice(b"bytes 16777216"),
            Fault::TooManyLines => out.extend_from_slice(b"lines 100000"),
            Fault::TooManyRequests => out.extend_from_slice(b"count 100000"),
            Fault::TooMuchJson => out.extend_from_slice(b"json 1048576"),
            Fault::BadLine(number) => {
                out.extend_from_slice(b"line ")?;
                put_number(out, *number)
            }
            Fault::Form(fault) => put_form(out, fault),
            Fault::NotValid(fault) => put_receipt(alloc, out, *fault),
            Fault::Broken { seqno, rule } => put_broken(out, *seqno, *rule),
            Fault::Foreign { identity } => {
                out.extend_from_slice(b"foreign ")?;
                put_hex(alloc, out, identity)
            }
            Fault::NotEmpty { len } => put_named(out, "NotEmpty ", *len),
            Fault::Short { at } => put_named(out, "Short ", *at),
            Fault::Trailing { at } => put_named(out, "Trailing ", *at),
            Fault::Journal(fault) => put_journal(out, *fault),
            Fault::KeyKind { want, got } => put_key_kinds(out, *want, *got),
            Fault::BadDealing => out.extend_from_slice(b"BadAction 0 10"),
            Fault::Signing(fault) => put_signing(alloc, out, fault),
            Fault::Recovering(fault) => put_recovering(alloc, out, fault),
            Fault::Opening(fault) => put_beginning(alloc, out, *fault),
            Fault::Turns { turns } => put_named(out, "turns ", *turns),
        }
    }

    /// The line that tells it.
    pub fn line(&self, alloc: Global) -> Result<Vec<u8>, AllocError>
        ensures { IfOk result (λ line. line.items ≡ fault_line self.now) }
    {
        let mut line = Vec::from_slice(alloc, b"fault ")?;
        self.put_text(alloc, &mut line)?;
        line.extend_from_slice(b"\n")?;
        Ok(line)
    }

    /// How a run ends that tells it.
    pub fn ending(&self) -> Ending
        ensures { result ≡ ending_of_fault self.now }
    {
        match self {
            Fault::Words(_) => Ending::OtherWords,
            Fault::TooManyBytes
            | Fault::TooManyLines
            | Fault::TooManyRequests
            | Fault::TooMuchJson
            | Fault::Turns { .. } => Ending::PastLimit,
            Fault::BadLine(_) | Fault::Form(_) | Fault::Short { .. } | Fault::Trailing { .. } => {
                Ending::NoReading
            }
            Fault::NotValid(_)
            | Fault::Broken { .. }
            | Fault::Foreign { .. }
            | Fault::NotEmpty { .. }
            | Fault::Journal(_)
            | Fault::KeyKind { .. }
            | Fault::BadDealing
            | Fault::Signing(_)
            | Fault::Opening(_) => Ending::NotValid,
            Fault::Recovering(fault) => recovering_ending(fault),
        }
    }
}
