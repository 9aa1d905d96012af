//! What tests ask in place of `assert!` and `assert_eq!`: what these write at each place is proved
//! there once more, and a call is proved by what it ensures. A test that fails prints what was
//! asked, and both values. It ends by a `?`, so the function around answers a `Fail`.
#![tactic(auto)]

ghost use Rattle.std.specs.Prelude.{◌≡◌, true, OnOk};

use std::fmt::Debug;
use std::test::Fail;

/// Goes on where both values are equal. A third one tells a row of a table from the others.
#[macro_export]
macro_rules! same {
    ($got:expr, $want:expr $(,)?) => {
        $crate::equal(stringify!($got), $got, $want)?
    };
    ($got:expr, $want:expr, $row:expr $(,)?) => {
        $crate::equal((stringify!($got), $row), $got, $want)?
    };
}

/// Goes on where this is true. A second value tells a row of a table from the others.
#[macro_export]
macro_rules! holds {
    ($asked:expr $(,)?) => {
        $crate::is_so(stringify!($asked), $asked)?
    };
    ($asked:expr, $row:expr $(,)?) => {
        $crate::is_so((stringify!($asked), $row), $asked)?
    };
}

/// What `same!` calls.
pub fn equal<P: Debug + Drop, T: PartialEq + Debug + Drop>(
    asked: P,
    got: T,
    want: T,
) -> Result<(), Fail>
    ensures { OnOk result (T.eq got want ≡ true) }
{
    if got == want {
        return Ok(());
    }
    Err(Fail::new(format_args!("{asked:?}\n   got: {got:?}\n  want: {want:?}")))
}

/// What `holds!` calls.
pub fn is_so<P: Debug + Drop>(asked: P, holds: bool) -> Result<(), Fail>
    ensures { OnOk result (holds ≡ true) }
{
    if holds {
        return Ok(());
    }
    Err(Fail::new(format_args!("{asked:?} doesn't hold")))
}
