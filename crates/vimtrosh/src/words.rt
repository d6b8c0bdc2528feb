// Words of a line that are numbers.
ghost use Rattle.std.specs.Prelude.{◌≤◌, IfOk};
ghost use Rattle.std.specs.Str.Parse.{ParsesUpTo};

use crate::expected::Expected;
use std::str::SplitAsciiWhitespace;

// The number that a word of digits writes, if it is at most `most`.
pub fn number_up_to(word: &str, most: u64) -> Result<u64, Expected>
    ensures { ParsesUpTo most 10 word.now result }
{
    if word.starts_with('+') {
        return Err(Expected::NumberUpTo { most });
    }
    match word.parse::<u64>() {
        Ok(number) if number <= most => Ok(number),
        _ => Err(Expected::NumberUpTo { most }),
    }
}

// The next word as such a number.
pub fn next_number(words: &mut SplitAsciiWhitespace<'_>, most: u64) -> Result<u64, Expected>
    ensures { IfOk result (λ number. number ≤ most) }
{
    let word = words.next().ok_or(Expected::NumberUpTo { most })?;
    number_up_to(word, most)
}
