//! Why a disk has no key file of a kind.

ghost use Rattle.std.specs.Prelude.{◌≡◌, ◌++◌, OnOk};
ghost use Rattle.gl_journal.specs.Records.{key_kind_tag};
ghost use Rattle.gl_commands.specs.Texts.{journal_text, key_kinds_text};

use crate::values::{put_named, put_numbers};
use gl_journal::{JournalFault, KeyKind};
use std::alloc::AllocError;

/// Why bytes are no key file.
pub fn put_journal(out: &mut Vec<u8>, fault: JournalFault) -> Result<(), AllocError>
    ensures { OnOk result (out.new.items ≡ out.old.items ++ journal_text fault) }
{
    match fault {
        JournalFault::NotJournal { at } => put_named(out, "NotJournal ", at),
        JournalFault::BadRecord { at } => put_named(out, "BadRecord ", at),
        JournalFault::DiskFault => out.extend_from_slice(b"DiskFault"),
        JournalFault::NotEmpty { len } => put_named(out, "NotEmpty ", len),
    }
}

/// The number by which a kind of key is reported, which is that in its file.
fn key_kind_tag(kind: KeyKind) -> u64
    ensures { result ≡ key_kind_tag kind }
{
    match kind {
        KeyKind::Service => 1,
        KeyKind::Node => 2,
        KeyKind::Member => 3,
    }
}

/// That a file has a key of another kind: both kinds by their numbers.
pub fn put_key_kinds(out: &mut Vec<u8>, want: KeyKind, got: KeyKind) -> Result<(), AllocError>
    ensures { OnOk result (out.new.items ≡ out.old.items ++ key_kinds_text want got) }
{
    out.extend_from_slice(b"KeyKind ")?;
    put_numbers(out, key_kind_tag(want), key_kind_tag(got))
}
