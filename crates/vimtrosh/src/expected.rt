// What a line lacked.
use std::alloc::AllocError;
use thiserror::Error;

#[derive(Clone, Copy, PartialEq, Eq, Debug, Error)]
pub enum Expected {
    #[error("ASCII text")]
    Ascii,
    #[error("a command")]
    KnownCommand,
    #[error("the order of a field: 2, 3, 4 or 251")]
    FieldOrder,
    #[error("a kind of cells: simplex or cube")]
    KindOfCells,
    #[error("a number from 0 to {most}")]
    NumberUpTo { most: u64 },
    #[error("no more words")]
    EndOfLine,
    #[error("one to four vertex numbers")]
    VertexNumbers,
    #[error("three doubled coordinates")]
    Coordinates,
    #[error("a part before any other command")]
    PartFirst,
    #[error("no second part")]
    OnlyOnePart,
    #[error("no open trial")]
    NoTrial,
    #[error("an open trial")]
    OpenTrial,
    #[error("more memory")]
    MoreMemory(#[from(alloc)] AllocError),
}
