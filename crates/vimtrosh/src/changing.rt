// Changes of a model.
ghost use Rattle.std.specs.Prelude.{◌≡◌, ◌+◌};
ghost use Rattle.vimtrosh.specs.States.{SameSizes, Moved, Changed, HandedBack};

use crate::command::Change;
use crate::fault::Fault;
use crate::from_numbers::FromNumbers;
use crate::state::State;
use field::field::Field;
use kernel::memory::Memory;

// Enters the cell that the numbers write.
fn enter<F: Field, C: FromNumbers>(
    m: &mut Memory<'_, F, C>,
    state: &mut State,
    numbers: &[u16],
) -> Result<(), Fault>
    ensures moved { Moved state.old (λ was is. is ≡ was + 1) result state.new }
    ensures handed_back { HandedBack m.old m.new }
{
    let cell = C::from_numbers(numbers).ok_or(Fault::BadLine(C::expected()))?;
    state.enter(m, cell).map_err(Fault::Refused)
}

// Carries out a change of a model.
pub fn change_model<F: Field, C: FromNumbers>(
    m: &mut Memory<'_, F, C>,
    state: &mut State,
    change: Change,
) -> Result<(), Fault>
    ensures sizes { SameSizes state.old state.new }
    ensures changed { Changed change state.old result state.new }
    ensures handed_back { HandedBack m.old m.new }
{
    match change {
        Change::Enter { numbers } => enter(m, state, numbers.as_slice()),
        Change::Off => {
            state.take_off(m).map_err(Fault::Refused)?;
            Ok(())
        }
        Change::Open => state.open(m),
        Change::Keep => state.keep(m),
        Change::Undo => state.undo(m),
    }
}
