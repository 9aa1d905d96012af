//! Why a receipt is not valid.

ghost use Rattle.std.specs.Prelude.{◌≡◌, ◌++◌, OnOk};
ghost use Rattle.gl_commands.specs.Texts.{hss_text, receipt_text};

use crate::values::{put_digests, put_number, put_numbers};
use gl_hss::HssFault;
use gl_receipt::ReceiptFault;
use std::alloc::{AllocError, Global};

/// What is wrong with a signature.
fn put_hss(alloc: Global, out: &mut Vec<u8>, fault: HssFault) -> Result<(), AllocError>
    ensures { OnOk result (out.new.items ≡ out.old.items ++ hss_text fault) }
{
    match fault {
        HssFault::Types { at } => {
            out.extend_from_slice(b"Types ")?;
            put_number(out, at)
        }
        HssFault::Length { want, got } => {
            out.extend_from_slice(b"Length ")?;
            put_numbers(out, want, got)
        }
        HssFault::Levels { want, got } => {
            out.extend_from_slice(b"Levels ")?;
            put_numbers(out, u64::from(want), u64::from(got))
        }
        HssFault::Root { want, got } => {
            out.extend_from_slice(b"Root ")?;
            put_digests(alloc, out, &want, &got)
        }
        HssFault::Leaf { q } => {
            out.extend_from_slice(b"Leaf ")?;
            put_number(out, u64::from(q))
        }
    }
}

/// Why a receipt is not valid.
pub fn put_receipt(alloc: Global, out: &mut Vec<u8>, fault: ReceiptFault) -> Result<(), AllocError>
    ensures { OnOk result (out.new.items ≡ out.old.items ++ receipt_text fault) }
{
    match fault {
        ReceiptFault::Evidence => out.extend_from_slice(b"Evidence"),
        ReceiptFault::Hss(fault) => {
            out.extend_from_slice(b"Hss ")?;
            put_hss(alloc, out, fault)
        }
    }
}
