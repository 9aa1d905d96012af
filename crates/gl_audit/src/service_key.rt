//! The service's key that is in force after entries, as their write sets leave it.

ghost use Rattle.std.specs.Prelude.{◌≡◌};
ghost use Rattle.std.specs.Option.{option_copied};
ghost use Rattle.gl_vmaps.specs.LastWrite.{last_write};
ghost use Rattle.gl_vmaps.specs.Versions.{is_to_row};
ghost use Rattle.gl_gov_rules.specs.Rows.{service_key, service_map};
ghost use Rattle.gl_ledger.specs.ServiceRow.{identity_in, identity_of_value};
ghost use Rattle.gl_ledger.specs.Tree.{tables_of};
ghost use Rattle.gl_audit.specs.Kept.{key_of};

use crate::ledger_state::{SERVICE_KEY, SERVICE_MAP, key_in};
use gl_entry::Entry;
use gl_requests::HssPublicKey;
use gl_vmaps::Write;

/// Whether a write is to the row of the service.
fn is_to_service(write: &Write) -> bool
    ensures { result ≡ is_to_row service_map service_key write.now }
{
    SERVICE_MAP == write.map.as_slice() && SERVICE_KEY == write.key.as_slice()
}

/// The last write of an entry to the row of the service, if it has one.
fn service_write(entry: &Entry) -> Option<&Write>
    ensures { option_copied result ≡ last_write service_map service_key entry.now.writes }
{
    entry
        .writes
        .as_slice()
        .iter()
        .rev()
        .find(|write| is_to_service(write))
}

/// The key that a write to the row of the service leaves in force.
fn written_key(write: &Write) -> Option<HssPublicKey>
    ensures { result ≡ key_of (identity_of_value write.now.value) }
{
    match &write.value {
        None => None,
        Some(value) => key_in(value.as_slice()),
    }
}

/// The key in force after these entries. `None` where there is none.
pub fn key_after(entries: &[Entry]) -> Option<HssPublicKey>
    ensures { result ≡ key_of (identity_in (tables_of entries.now)) }
{
    let mut key = None;
    for entry in entries {
        if let Some(write) = service_write(entry) {
            key = written_key(write);
        }
    }
    key
}
