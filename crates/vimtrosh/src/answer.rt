// Answers, and the lines that tell them.
ghost use Rattle.std.specs.Prelude.{◌≡◌};
ghost use Rattle.vimtrosh.specs.Answers.{length_of};

use kernel::memory::Entry;
use std::fmt;

// A chain's terms stand in the answer buffer: were it lent to the answer, no clause could say that a refusal leaves it.
#[derive(Clone, Copy)]
pub enum Answer {
    Cells {
        count: usize,
        entries: usize,
    },
    // A number for each dimension up to the highest one.
    Betti {
        numbers: [Option<usize>; 16],
    },
    BettiOf {
        dimension: u8,
        number: usize,
    },
    Counts {
        pieces: usize,
        channels: usize,
        voids: usize,
    },
    Cycle {
        length: usize,
    },
}

impl Answer {
    // How many entries of the answer buffer belong to it.
    pub fn length(self) -> usize
        ensures { result ≡ length_of self }
    {
        match self {
            Answer::Cycle { length } => length,
            _ => 0,
        }
    }
}

// An answer with the chain that belongs to it.
#[derive(Clone, Copy)]
pub struct Line<'a> {
    pub answer: Answer,
    pub chain: &'a [Entry],
}

fn write_numbers<W: fmt::Write>(
    f: &mut fmt::Formatter<W>,
    numbers: &[Option<usize>; 16],
) -> fmt::Result {
    for number in numbers.iter().flatten() {
        write!(f, " {number}")?;
    }
    Ok(())
}

fn write_chain<W: fmt::Write>(f: &mut fmt::Formatter<W>, chain: &[Entry]) -> fmt::Result {
    for Entry { number, code } in chain {
        write!(f, " {number}:{code}")?;
    }
    Ok(())
}

impl fmt::Display for Line<'_> {
    fn fmt<W: fmt::Write>(&self, f: &mut fmt::Formatter<W>) -> fmt::Result {
        match self.answer {
            Answer::Cells { count, entries } => write!(f, "cells {count} entries {entries}"),
            Answer::Betti { numbers } => {
                f.write_str("betti")?;
                write_numbers(f, &numbers)
            }
            Answer::BettiOf { dimension, number } => write!(f, "betti {dimension}: {number}"),
            Answer::Counts {
                pieces,
                channels,
                voids,
            } => { write!(f, "pieces {pieces} channels {channels} voids {voids}") }
            Answer::Cycle { .. } => {
                f.write_str("cycle")?;
                write_chain(f, self.chain)
            }
        }
    }
}
