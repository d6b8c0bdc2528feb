// A script: its lines are read one at a time.
ghost use Rattle.std.specs.Prelude.{◌≡◌, IfOk, IfErr};
ghost use Rattle.std.specs.Io.Buffered.{reader_inner};
ghost use Rattle.std.specs.IoError.{error_kind};
ghost use Rattle.std.specs.declared.io.ErrorKind.TheVariants.{OutOfMemory};

use crate::command::Command;
use crate::expected::Expected;
use crate::reading::parse;
use crate::stop::Stop;
use std::alloc::Global;
use std::io::{BufRead, BufReader, Read};
use std::{io, str};

#[derive(Drop)]
pub struct Script<R> {
    heap: Global,
    input: BufReader<R>,
    line: Vec<u8>,
    number: u64,
}

impl<R: Read + Drop> Script<R> {
    // Only memory for the reader's buffer can lack; the input is let go then.
    pub fn new(heap: Global, input: R) -> io::Result<Script<R>>
        ensures made { IfOk result (λ script. (reader_inner script.input ≡ input) × (script.number ≡ 0)) }
        ensures no_memory { IfErr result (λ e. error_kind e ≡ OutOfMemory) }
    {
        Ok(Script {
            heap,
            input: BufReader::new(heap, input)?,
            line: Vec::new(heap),
            number: 0,
        })
    }

    // The number of the latest line, from 1.
    pub fn line_number(&self) -> u64 {
        self.number
    }

    // Reads the next line, and says whether there was one.
    fn read_line(&mut self) -> io::Result<bool> {
        self.line.clear();
        let read = self.input.read_until(b'\n', &mut self.line)?;
        self.number = self.number.saturating_add(1);
        Ok(read > 0)
    }

    fn parse_line(&self) -> Result<Option<Command>, Expected> {
        let text = str::from_utf8(self.line.as_slice()).map_err(|_| Expected::Ascii)?;
        if !text.is_ascii() {
            return Err(Expected::Ascii);
        }
        parse(self.heap, text)
    }

    // The next command, if there is one more.
    pub fn next_command(&mut self) -> Result<Option<Command>, Stop> {
        // Counted, since no proof shows that input ends.
        for _ in 0..u64::MAX {
            if !self.read_line()? {
                break;
            }
            if let Some(command) = self.parse_line()? {
                return Ok(Some(command));
            }
        }
        Ok(None)
    }
}
