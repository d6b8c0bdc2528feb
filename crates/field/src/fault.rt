// What a field refuses.
ghost use Rattle.std.specs.Prelude.{◌≡◌, Some};
ghost use Rattle.field.specs.Faults.{fault_number, fault_words};

use std::error::Error;
use std::fmt;

#[derive(Clone, Copy, PartialEq, Eq, Debug)]
pub enum FieldFault {
    ZeroInverse,
    CodeTooLarge,
}

impl FieldFault {
    // The rules fix the number under which each refusal is told.
    pub fn number(self) -> u8
        ensures { result ≡ fault_number self }
    {
        match self {
            FieldFault::ZeroInverse => 80,
            FieldFault::CodeTooLarge => 81,
        }
    }
}

// By hand, since a derive by thiserror states no output.
impl fmt::Display for FieldFault {
    ghost output = { λ fault. Some (fault_words fault) };

    fn fmt<W: fmt::Write>(&self, f: &mut fmt::Formatter<W>) -> fmt::Result {
        f.write_str(match self {
            FieldFault::ZeroInverse => "zero has no inverse",
            FieldFault::CodeTooLarge => "the field has no element of that code",
        })
    }
}

impl Error for FieldFault {}
