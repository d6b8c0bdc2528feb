// Why a run ends before its script does.
use crate::expected::Expected;
use std::alloc::AllocError;
use std::io;
use thiserror::Error;

#[derive(Clone, Copy, Debug, Error)]
pub enum Stop {
    #[error("expected {0}")]
    BadLine(#[from] Expected),
    #[error(transparent)]
    Io(#[from] io::Error),
}

// Memory that is lacking ends the script at the line that asked for it.
impl From<AllocError> for Stop {
    fn from(error: AllocError) -> Stop {
        Stop::BadLine(error.into())
    }
}
