//! More at the end of a list.

ghost use Rattle.std.specs.Prelude.{◌≡◌, ◌+◌, ◌≤◌, ◌++◌, vec_len, vec_capacity, OnOk};
ghost use Rattle.std.specs.Option.{option_to_list};

use std::alloc::AllocError;

/// Moves more to the end of a list that has room for it.
pub fn append_reserved<T: Drop>(list: &mut Vec<T>, more: Vec<T>)
    requires { vec_len list.old + vec_len more ≤ vec_capacity list.old }
    ensures { list.new.items ≡ list.old.items ++ more.items }
{
    let mut more = more;
    if list.append(&mut more).is_err() {
        unreachable!();
    }
}

/// Adds an item, where there is one, to a list.
pub fn push_some<T: Drop>(list: &mut Vec<T>, item: Option<T>) -> Result<(), AllocError>
    ensures { OnOk result (list.new.items ≡ list.old.items ++ option_to_list item) }
{
    match item {
        None => Ok(()),
        Some(item) => {
            list.push(item)?;
            Ok(())
        }
    }
}

/// Adds an item, where there is one, to a list that has room for it.
pub fn push_some_reserved<T: Drop>(list: &mut Vec<T>, item: Option<T>)
    requires { vec_len list.old + 1 ≤ vec_capacity list.old }
    ensures { list.new.items ≡ list.old.items ++ option_to_list item }
{
    if let Some(item) = item {
        list.push_reserved(item);
    }
}
