//! Lists of what stands at rising seqnos, and such lists by number: a number without one has an
//! empty list.

ghost use Rattle.std.specs.Prelude.{◌≡◌, ℕ, ◌<◌, ◌≤◌, ◌∷◌, ◌++◌, [], nat_le, nat_lt, slice_set, filter, vec_len, IfOk, OnOk};
ghost use Rattle.std.specs.List.{list_any};
ghost use Rattle.std.specs.List.Sorted.{IsPartitionedBy};
ghost use Rattle.gl_index.specs.Lists.{lists_of, list_at, HasRoomAt};

use std::alloc::{AllocError, Global};

/// What stands at the seqno of an entry.
pub trait AtSeqno: Drop {
    ghost seqno_at: { Self → ℕ };

    /// The seqno of its entry.
    fn seqno(&self) -> u64
        ensures { result ≡ seqno_at self.now };
}

/// Cuts a list back to what stands up to a seqno.
pub fn cut_list<T: AtSeqno>(list: &mut Vec<T>, to: u64)
    ensures { IsPartitionedBy (λ x. nat_le (T.seqno_at x) to) list.old.items →
        list.new.items ≡ filter (λ x. nat_le (T.seqno_at x) to) list.old.items }
{
    let count = list.partition_point(
        |item: &T| -> bool
            ensures { result ≡ nat_le (T.seqno_at item.now) to }
        { item.seqno() <= to },
    );
    list.truncate(count);
}

/// Whether one of these stands after a seqno.
pub fn is_any_after<T: AtSeqno>(list: &[T], seqno: u64) -> bool
    ensures { result ≡ list_any (λ x. nat_lt seqno (T.seqno_at x)) list.now }
{
    list.iter().any(|item| seqno < item.seqno())
}

/// Cuts each list back to what stands up to a seqno.
pub fn cut_lists<T: AtSeqno>(lists: &mut [Vec<T>], to: u64)
    ensures { (n : ℕ) →
        IsPartitionedBy (λ x. nat_le (T.seqno_at x) to) (list_at (lists_of lists.old) n) →
        list_at (lists_of lists.new) n
        ≡ filter (λ x. nat_le (T.seqno_at x) to) (list_at (lists_of lists.old) n) }
{
    for list in lists.iter_mut() {
        cut_list(list, to);
    }
}

/// Makes room for one more in the list of a number.
pub fn reserve_at<T: Drop>(
    alloc: Global,
    lists: &mut Vec<Vec<T>>,
    number: usize,
) -> Result<(), AllocError>
    ensures same { (n : ℕ) →
        list_at (lists_of lists.new.items) n ≡ list_at (lists_of lists.old.items) n }
    ensures room { OnOk result (HasRoomAt lists.new.items number) }
    ensures len { (n : ℕ) → vec_len lists.old ≤ n → number < n → vec_len lists.new ≤ n }
{
    while lists.len() <= number {
        lists.push(Vec::new(alloc))?;
    }
    lists[number].reserve(1)
}

/// Adds to the list of a number, which has room.
pub fn push_at<T: Drop>(lists: &mut [Vec<T>], number: usize, item: T)
    requires { HasRoomAt lists.old number }
    ensures { lists_of lists.new
        ≡ slice_set (lists_of lists.old) number (list_at (lists_of lists.old) number ++ item ∷ []) }
{
    lists[number].push_reserved(item);
}

/// The lists once more, in memory of their own.
pub fn copy_lists<T: Copy + Drop>(
    alloc: Global,
    lists: &[Vec<T>],
) -> Result<Vec<Vec<T>>, AllocError>
    ensures { IfOk result (λ copy. lists_of copy.items ≡ lists_of lists.now) }
{
    let mut copy = Vec::new(alloc);
    for list in lists {
        copy.push(Vec::from_slice(alloc, list)?)?;
    }
    Ok(copy)
}

/// The list of a number.
pub fn list_at<T>(lists: &[Vec<T>], number: usize) -> &[T]
    ensures { result.now ≡ list_at (lists_of lists.now) number }
{
    match lists.get(number) {
        None => &[],
        Some(list) => list,
    }
}
