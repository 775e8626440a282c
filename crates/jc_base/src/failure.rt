//! Failures that no caller can rule out: of memory and of devices.

ghost use Rattle.jc_base.specs.Device.{Rose};

use std::alloc::{AllocError, AllocFailed};
use thiserror::Error;

/// Memory was refused.
#[derive(Clone, Copy, Debug, Default, Error, PartialEq, Eq)]
#[error("out of memory")]
pub struct OutOfMemory;

impl From<AllocError> for OutOfMemory {
    fn from(_refused: AllocError) -> OutOfMemory {
        OutOfMemory
    }
}

impl<T: Drop> From<AllocFailed<T>> for OutOfMemory {
    fn from(_refused: AllocFailed<T>) -> OutOfMemory {
        OutOfMemory
    }
}

/// A device failed while it was read.
#[derive(Clone, Copy, Debug, Default, Error, PartialEq, Eq)]
#[error("read failed")]
pub struct ReadFailed;

/// A device failed while it was written.
#[derive(Clone, Copy, Debug, Default, Error, PartialEq, Eq)]
#[error("write failed")]
pub struct WriteFailed;

/// Counts a failure of a device; the count stays at its greatest value.
pub fn count_failure(failures: &mut u64)
    ensures { Rose failures.old failures.new }
{
    *failures = failures.saturating_add(1);
}
