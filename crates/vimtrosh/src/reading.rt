// The reading of a line.
ghost use Rattle.std.specs.Prelude.{◌≡◌, IfOk, codes, MatchOption};
ghost use Rattle.vimtrosh.specs.Names.{name_of, NotAlone};

use crate::command::{Change, Command, FieldName, KindName, Part, Question};
use crate::expected::Expected;
use crate::words::{next_number, number_up_to};
use std::alloc::Global;
use std::str::SplitAsciiWhitespace;

// The command of a word that stands alone.
fn lone_command(word: &str) -> Option<Command>
    ensures { MatchOption result (NotAlone word.now) (λ command. name_of command ≡ word.now) }
{
    match word {
        "off" => Some(Command::Change(Change::Off)),
        "open" => Some(Command::Change(Change::Open)),
        "keep" => Some(Command::Change(Change::Keep)),
        "undo" => Some(Command::Change(Change::Undo)),
        "cells" => Some(Command::Ask(Question::Cells)),
        "counts" => Some(Command::Ask(Question::Counts)),
        _ => None,
    }
}

fn read_part(words: &mut SplitAsciiWhitespace<'_>) -> Result<Command, Expected>
    ensures { IfOk result (λ command. name_of command ≡ codes "part") }
{
    let order = next_number(words, u64::MAX).map_err(|_| Expected::FieldOrder)?;
    let field = FieldName::try_from(order)?;
    let kind = words.next().unwrap_or("").parse::<KindName>()?;
    let cells = next_number(words, u64::MAX)? as usize;
    let entries = next_number(words, u64::MAX)? as usize;
    Ok(Command::Part(Part {
        field,
        kind,
        cells,
        entries,
    }))
}

fn read_enter(heap: Global, words: &mut SplitAsciiWhitespace<'_>) -> Result<Command, Expected>
    ensures { IfOk result (λ command. name_of command ≡ codes "enter") }
{
    let mut numbers = Vec::new(heap);
    for word in words {
        let number = number_up_to(word, 65535)? as u16;
        numbers.push(number)?;
    }
    Ok(Command::Change(Change::Enter { numbers }))
}

// The number of one dimension, or all of them where none is named.
fn read_betti(words: &mut SplitAsciiWhitespace<'_>) -> Result<Command, Expected>
    ensures { IfOk result (λ command. name_of command ≡ codes "betti") }
{
    let Some(word) = words.next() else {
        return Ok(Command::Ask(Question::Betti));
    };
    let dimension = number_up_to(word, 255)? as u8;
    Ok(Command::Ask(Question::BettiOf { dimension }))
}

fn read_cycle(words: &mut SplitAsciiWhitespace<'_>) -> Result<Command, Expected>
    ensures { IfOk result (λ command. name_of command ≡ codes "cycle") }
{
    let dimension = next_number(words, 255)? as u8;
    let place = next_number(words, u64::MAX)? as usize;
    Ok(Command::Ask(Question::Cycle { dimension, place }))
}

fn read_buffer(words: &mut SplitAsciiWhitespace<'_>) -> Result<Command, Expected>
    ensures { IfOk result (λ command. name_of command ≡ codes "buffer") }
{
    let places = next_number(words, u64::MAX)? as usize;
    Ok(Command::Buffer { places })
}

// The command that the first word names, with what follows it.
fn read_command(
    heap: Global,
    word: &str,
    words: &mut SplitAsciiWhitespace<'_>,
) -> Result<Command, Expected>
    ensures { IfOk result (λ command. name_of command ≡ word.now) }
{
    match word {
        "part" => read_part(words),
        "enter" => read_enter(heap, words),
        "betti" => read_betti(words),
        "cycle" => read_cycle(words),
        "buffer" => read_buffer(words),
        _ => lone_command(word).ok_or(Expected::KnownCommand),
    }
}

// The command of a line, if it has one: a comment begins at `#`.
pub fn parse(heap: Global, line: &str) -> Result<Option<Command>, Expected> {
    let (text, _) = line.split_once('#').unwrap_or((line, ""));
    let mut words = text.split_ascii_whitespace();
    let Some(word) = words.next() else {
        return Ok(None);
    };
    let command = read_command(heap, word, &mut words)?;
    if words.next().is_some() {
        return Err(Expected::EndOfLine);
    }
    Ok(Some(command))
}
