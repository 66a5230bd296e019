//! Want of memory, as an ordinary error.

use std::alloc::AllocError;

/// Memory was refused.
#[derive(Clone, Copy, Debug, PartialEq, Eq)]
pub struct WantOfMemory;

impl From<AllocError> for WantOfMemory {
    fn from(_error: AllocError) -> WantOfMemory {
        WantOfMemory
    }
}
