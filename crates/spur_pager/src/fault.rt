//! Why a fault of an access was not served.

use thiserror::Error;

/// Why a fault was not served: the swap object failed.
#[derive(Clone, Copy, Debug, PartialEq, Eq, Error)]
pub enum ServeFault {
    /// It failed to read the page that is missing, which is still on swap; a frame is free.
    #[error("a page cannot be read from swap")]
    SwapRead,
    /// It failed to write the page that was to go out, which is still leaving; its lines are flushed.
    #[error("a page cannot be written to swap")]
    SwapWrite,
}
