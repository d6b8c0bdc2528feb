// Why the program fails, as it tells standard error.
use crate::expected::Expected;
use std::io;
use thiserror::Error;

#[derive(Clone, Copy, Debug, Error)]
pub enum Failure {
    #[error("usage: vimtrosh [--say] [FILE]")]
    Usage,
    #[error("line {line}: expected {expected}")]
    BadLine { line: u64, expected: Expected },
    #[error("vimtrosh: {0}")]
    Io(#[from] io::Error),
}
