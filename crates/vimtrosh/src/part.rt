// The part of a script, over its field and of its kind of cells.
use crate::command::{Command, FieldName, KindName, Part};
use crate::console::Console;
use crate::expected::Expected;
use crate::making::{Outcome, run_sized};
use crate::script::Script;
use crate::stop::Stop;
use cell::cube::Cube;
use cell::simplex::Simplex;
use field::elements::{Gf2, Gf3, Gf4, Gf251};
use field::field::Field;
use std::io::Read;

// From names to types: by match, since types are no values.
fn run_over<F: Field + Clone, R: Read + Drop>(
    console: &mut Console<'_>,
    script: &mut Script<R>,
    part: Part,
) -> Result<Outcome, Stop> {
    let Part { cells, entries, .. } = part;
    match part.kind {
        KindName::Simplex => run_sized::<F, Simplex, R>(console, script, cells, entries),
        KindName::Cube => run_sized::<F, Cube, R>(console, script, cells, entries),
    }
}

fn run_part<R: Read + Drop>(
    console: &mut Console<'_>,
    script: &mut Script<R>,
    part: Part,
) -> Result<Outcome, Stop> {
    match part.field {
        FieldName::Gf2 => run_over::<Gf2, R>(console, script, part),
        FieldName::Gf3 => run_over::<Gf3, R>(console, script, part),
        FieldName::Gf4 => run_over::<Gf4, R>(console, script, part),
        FieldName::Gf251 => run_over::<Gf251, R>(console, script, part),
    }
}

// Runs a script up to its end: a part that is accepted comes before all else.
pub fn run_script<R: Read + Drop>(
    console: &mut Console<'_>,
    script: &mut Script<R>,
) -> Result<(), Stop> {
    // Counted, since no proof shows that input ends.
    for _ in 0..u64::MAX {
        match script.next_command()? {
            Some(Command::Part(part)) => {
                if run_part(console, script, part)? == Outcome::Ran {
                    break;
                }
            }
            Some(_) => return Err(Stop::BadLine(Expected::PartFirst)),
            None => break,
        }
    }
    console.finish()?;
    Ok(())
}
