//! Values of a receipt in a JSON tree that have the form that is wanted, and their faults. A value
//! that is missing has the wrong shape.

ghost use Rattle.std.specs.Prelude.{◌≡◌, ◌++◌, map, fold, option_map, IfOk, OnOk, take, vec_len};
ghost use Rattle.gl_base.specs.Json.{member_of};
ghost use Rattle.gl_json.specs.Form.{Finds, IsReportedAs, fault_at};
ghost use Rattle.gl_receipt.specs.Form.{array_in, u64_in, u32_in, digest_in, path_of, step_path};
ghost use Rattle.serde_json.specs.View.{view, items_view};

use gl_base::{FormsFault, OrNoMemory, Pointer};
use gl_entry::Digest;
use gl_json::{FormError, sized_in};
use serde_json::Value;
use std::alloc::{AllocError, Global};

fn push_members(path: &mut Pointer, names: &[&str]) -> Result<(), AllocError>
    ensures { OnOk result (path.new ≡ fold member_of path.old (map (λ s. s.now) names.now)) }
{
    for name in names {
        path.push_member(name.as_bytes())?;
    }
    Ok(())
}

fn path_of(alloc: Global, names: &[&str]) -> Result<Pointer, AllocError>
    ensures { IfOk result (λ p. p ≡ path_of (map (λ s. s.now) names.now)) }
{
    let mut path = Pointer::new(alloc);
    push_members(&mut path, names)?;
    Ok(path)
}

fn step_path(alloc: Global, index: u64, names: &[&str]) -> Result<Pointer, AllocError>
    ensures { IfOk result (λ p. p ≡ step_path index (map (λ s. s.now) names.now)) }
{
    let mut path = path_of(alloc, &["proof"])?;
    path.push_item(index)?;
    push_members(&mut path, names)?;
    Ok(path)
}

/// The fault of a member inside members, or running out of memory.
pub(crate) fn fault_at(
    alloc: Global,
    names: &[&str],
    form_error: FormError,
) -> OrNoMemory<FormsFault>
    ensures { IsReportedAs result (fault_at (path_of (map (λ s. s.now) names.now)) form_error) }
{
    match path_of(alloc, names) {
        Ok(path) => OrNoMemory::Fault(form_error.report(path)),
        Err(_) => OrNoMemory::NoMemory,
    }
}

/// The fault of a member of an element of the proof, or running out of memory.
pub(crate) fn fault_in_step(
    alloc: Global,
    index: u64,
    names: &[&str],
    form_error: FormError,
) -> OrNoMemory<FormsFault>
    ensures { IsReportedAs result
        (fault_at (step_path index (map (λ s. s.now) names.now)) form_error) }
{
    match step_path(alloc, index, names) {
        Ok(path) => OrNoMemory::Fault(form_error.report(path)),
        Err(_) => OrNoMemory::NoMemory,
    }
}

pub(crate) fn array_in(value: Option<&Value>) -> Result<&Vec<Value>, FormError>
    ensures { Finds (λ v. items_view v.now.items) result
        (array_in (option_map (λ v. view v.now) value.entry)) }
{
    value.and_then(Value::as_array).ok_or(FormError::Shape)
}

pub(crate) fn u64_in(value: Option<&Value>) -> Result<u64, FormError>
    ensures { result ≡ u64_in (option_map (λ v. view v.now) value.entry) }
{
    value.and_then(Value::as_u64).ok_or(FormError::Shape)
}

pub(crate) fn u32_in(value: Option<&Value>) -> Result<u32, FormError>
    ensures { result ≡ u32_in (option_map (λ v. view v.now) value.entry) }
{
    let number = u64_in(value)?;
    if number > 0xffff_ffff {
        return Err(FormError::Shape);
    }
    Ok(number as u32)
}

/// The 32 bytes of a text in lower-case hexadecimal.
pub(crate) fn digest_in(value: Option<&Value>) -> Result<Digest, FormError>
    ensures { result ≡ digest_in (option_map (λ v. view v.now) value.entry) }
{
    sized_in(value)
}
