//! Comparisons that end a test and say what differs. A test that calls one is proved in much less time than one that
//! compares by itself: what they say is put together in one place.

use jc_test_samples::answer_lines;
use jc_upload::Answer;
use std::fmt::Debug;
use std::process::Abort;
use std::test::Fail;

/// Ends the test unless it got what is wanted. Proved once for every type.
pub(super) fn same<T: Debug + PartialEq>(rt: &impl Abort, of: &str, got: &T, wanted: &T) {
    assert!(rt; *got == *wanted, "{of}: got {got:?}, wanted {wanted:?}");
}

/// Ends the test unless it got the bytes that are wanted.
pub(super) fn same_bytes(rt: &impl Abort, of: &str, got: &[u8], wanted: &[u8]) {
    assert!(rt;
        got == wanted,
        "{of}: got {}\nwanted {}",
        got.escape_ascii(),
        wanted.escape_ascii()
    );
}

/// Ends the test unless it got the answers whose lines are wanted. These are given without their newlines and with `S` for
/// the id of the source.
pub(super) fn same_answers(
    rt: &(impl Abort + AllocGlobal),
    of: &str,
    got: &[Answer],
    wanted: &[&str],
) -> Result<(), Fail> {
    let mut lines = Vec::new(rt.alloc());
    for answer in got {
        lines.extend_from_slice(answer.line().bytes())?;
    }
    same_bytes(rt, of, &lines, answer_lines(rt.alloc(), wanted)?.as_bytes());
    Ok(())
}
