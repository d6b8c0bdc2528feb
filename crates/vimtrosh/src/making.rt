// The making of a model, and the rest of the script on it.
use crate::console::Console;
use crate::from_numbers::FromNumbers;
use crate::running::{new_buffer, run_model};
use crate::script::Script;
use crate::state::State;
use crate::stop::Stop;
use columns::column::Column;
use field::field::Field;
use homology::term::Term;
use kernel::memory::Memory;
use kernel::model::Standing;
use kernel::model::standing_calls::{MOST_CELLS, MOST_ENTRIES};
use std::io::Read;

// What became of a part: refused, or the rest of the script ran on it.
#[derive(Clone, Copy, PartialEq, Eq, Debug)]
pub enum Outcome {
    Refused,
    Ran,
}

// Makes a model in the memory that is lent and runs the script on it.
fn run_in_memory<F: Field, C: FromNumbers, R: Read + Drop>(
    console: &mut Console<'_>,
    script: &mut Script<R>,
    m: &mut Memory<'_, F, C>,
    n: usize,
    e: usize,
) -> Result<Outcome, Stop> {
    match Standing::new(n, e, m) {
        Ok(standing) => {
            console.tell(Ok(()))?;
            let mut buffer = new_buffer(console.runtime().alloc(), n)?;
            run_model(console, script, m, State::Standing(standing), &mut buffer)?;
            Ok(Outcome::Ran)
        }
        Err(fault) => {
            console.refuse(fault)?;
            Ok(Outcome::Refused)
        }
    }
}

// The same in memory of its own. Sizes that no model has are refused, so no more than the most is taken.
pub fn run_sized<F: Field + Clone, C: FromNumbers + Clone, R: Read + Drop>(
    console: &mut Console<'_>,
    script: &mut Script<R>,
    n: usize,
    e: usize,
) -> Result<Outcome, Stop> {
    let heap = console.runtime().alloc();
    let places = n.min(MOST_CELLS);
    let column = Column {
        start: 0,
        reduced: 0,
        basis: 0,
        killer: None,
    };
    let term = Term {
        number: 0,
        coefficient: F::zero(),
    };
    let mut cells = vec![in heap; C::blank(); places]?;
    let mut index = vec![in heap; 0; places]?;
    let mut columns = vec![in heap; column; places]?;
    let mut entries = vec![in heap; term; e.min(MOST_ENTRIES)]?;
    let mut work = vec![in heap; term; 4 * places]?;
    let mut m = Memory {
        cells: cells.as_mut_slice(),
        index: index.as_mut_slice(),
        columns: columns.as_mut_slice(),
        entries: entries.as_mut_slice(),
        work: work.as_mut_slice(),
    };
    run_in_memory(console, script, &mut m, n, e)
}
