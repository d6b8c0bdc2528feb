// A run: the commands of a script, one after the other, on one model.
ghost use Rattle.std.specs.Prelude.{◌≡◌, min, IfOk, vec_len};
ghost use Rattle.kernel.specs.Views.{view};
ghost use Rattle.vimtrosh.specs.States.{SameSizes, FitsMemory, HandedBack};

use crate::asking::ask;
use crate::changing::change_model;
use crate::command::{Command, Question};
use crate::console::Console;
use crate::expected::Expected;
use crate::from_numbers::FromNumbers;
use crate::script::Script;
use crate::state::State;
use crate::stop::Stop;
use cell::kind::Kind;
use field::field::Field;
use kernel::memory::{Entry, Memory};
use kernel::model::Model;
use kernel::model::standing_calls::MOST_CELLS;
use std::alloc::{AllocError, Global};
use std::io::Read;

// No answer is longer than the most cells that a model may have.
pub fn new_buffer(heap: Global, places: usize) -> Result<Vec<Entry>, AllocError>
    ensures { IfOk result (λ buffer. vec_len buffer ≡ min places 4096) }
{
    Ok(vec![in heap; Entry { number: 0, code: 0 }; places.min(MOST_CELLS)]?)
}

fn answer_question<F: Field, C: Kind>(
    console: &mut Console<'_>,
    model: &Model,
    m: &Memory<'_, F, C>,
    question: Question,
    out: &mut [Entry],
) -> Result<(), Stop> {
    match ask(model, m, question, out) {
        Ok(answer) => {
            let written = &*out;
            console.answer(answer, &written[..answer.length()])
        }
        Err(fault) => console.refuse(fault),
    }
}

fn carry_out<F: Field, C: FromNumbers>(
    console: &mut Console<'_>,
    m: &mut Memory<'_, F, C>,
    state: &mut State,
    command: Command,
    buffer: &mut Vec<Entry>,
) -> Result<(), Stop>
    ensures sizes { SameSizes state.old state.new }
    ensures handed_back { HandedBack m.old m.new }
{
    match command {
        Command::Part(_) => Err(Stop::BadLine(Expected::OnlyOnePart)),
        Command::Buffer { places } => {
            *buffer = new_buffer(console.runtime().alloc(), places)?;
            console.tell(Ok(()))
        }
        Command::Change(change) => {
            let outcome = change_model(m, state, change);
            console.tell(outcome)
        }
        Command::Ask(question) => {
            answer_question(console, state.model(), m, question, buffer.as_mut_slice())
        }
    }
}

// Carries out the commands that are left.
fn run_commands<F: Field, C: FromNumbers, R: Read + Drop>(
    console: &mut Console<'_>,
    script: &mut Script<R>,
    m: &mut Memory<'_, F, C>,
    state: &mut State,
    buffer: &mut Vec<Entry>,
) -> Result<(), Stop>
    ensures sizes { SameSizes state.old state.new }
    ensures handed_back { HandedBack m.old m.new }
{
    // Counted, since no proof shows that input ends.
    for _ in 0..u64::MAX {
        let Some(command) = script.next_command()? else {
            break;
        };
        carry_out(console, m, state, command, buffer)?;
    }
    Ok(())
}

// Carries out the rest of a script on a model. A trial that is open at the end is undone.
pub fn run_model<F: Field, C: FromNumbers, R: Read + Drop>(
    console: &mut Console<'_>,
    script: &mut Script<R>,
    m: &mut Memory<'_, F, C>,
    mut state: State,
    buffer: &mut Vec<Entry>,
) -> Result<(), Stop>
    requires { FitsMemory state (view m.old) }
    ensures { HandedBack m.old m.new }
{
    let outcome = run_commands(console, script, m, &mut state, buffer);
    state.close(m);
    outcome
}
