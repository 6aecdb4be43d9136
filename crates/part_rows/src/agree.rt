//! What a row wants, beside what is found.

use std::fmt::Debug;
use std::process::Abort;

/// At this row of a table what is found is what is wanted. One call of this is proved in a fraction of the time of an `assert_eq!`.
pub(crate) fn agree<T: Copy + Debug + PartialEq>(
    rt: &impl Abort,
    row: usize,
    what: &str,
    found: T,
    wanted: T,
) {
    assert!(rt;
        found == wanted,
        "row {row}: {what} is {found:?}, not {wanted:?}"
    );
}
