//! What is printed by an output that can't be flushed.

use super::output::Output;
use jc_command_shared::{Failure, printed};
use std::test::Fail;

/// All commands print through this, but for listings and answers, of which `stops.rt` has rows.
#[test]
fn what_is_not_flushed_is_not_printed(rt: HostRuntime) -> Result<(), Fail> {
    let failed = printed(Ok(()), &mut Output::new(rt.alloc(), 0));
    assert!(rt; matches!(failed, Err(Failure::WriteFailed)));
    assert!(rt; printed(Ok(()), &mut Output::new(rt.alloc(), 1)).is_ok());
    Ok(())
}
