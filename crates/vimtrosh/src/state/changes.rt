// What a script may do with a model, whether a trial is open or not.
ghost use Rattle.std.specs.Prelude.{◌≡◌, ◌+◌, true, false};
ghost use Rattle.kernel.specs.Views.{view};
ghost use Rattle.vimtrosh.specs.States.{model_of, mark_of, FitsMemory, Moved, Turned, HandedBack};
ghost use Rattle.vimtrosh.specs.declared.expected.Expected.TheVariants.{NoTrial as NotInTrial, OpenTrial as InTrial};

use crate::expected::Expected;
use crate::fault::Fault;
use crate::state::State;
use cell::kind::Kind;
use core::mem::replace_with;
use field::field::Field;
use kernel::fault::ModelFault;
use kernel::memory::Memory;
use kernel::model::Model;

impl State {
    // What stands, for questions.
    pub fn model(&self) -> &Model
        ensures { result.now ≡ model_of self.now }
    {
        match self {
            State::Standing(standing) => standing.model(),
            State::Trial(trial) => trial.model(),
        }
    }

    pub fn enter<F: Field, C: Kind>(
        &mut self,
        m: &mut Memory<'_, F, C>,
        cell: C,
    ) -> Result<(), ModelFault>
        ensures moved { Moved self.old (λ was is. is ≡ was + 1) result self.new }
        ensures handed_back { HandedBack m.old m.new }
    {
        match self {
            State::Standing(standing) => standing.enter(m, cell),
            State::Trial(trial) => trial.enter(m, cell),
        }
    }

    pub fn take_off<F: Field, C: Kind>(&mut self, m: &mut Memory<'_, F, C>) -> Result<C, ModelFault>
        ensures moved { Moved self.old (λ was is. is + 1 ≡ was) result self.new }
        ensures handed_back { HandedBack m.old m.new }
    {
        match self {
            State::Standing(standing) => standing.take_off(m),
            State::Trial(trial) => trial.take_off(m),
        }
    }

    // Opening a trial and ending one spend what stands: `replace_with` puts back what stands then.
    pub fn open<F: Field, C: Kind>(&mut self, m: &Memory<'_, F, C>) -> Result<(), Fault>
        ensures { Turned true NotInTrial (model_of self.old).count self.old result self.new }
    {
        replace_with(self, m, |state, m| match state {
            State::Standing(standing) => match standing.open(m) {
                Ok(trial) => (State::Trial(trial), Ok(())),
                Err((standing, fault)) => (State::Standing(standing), Err(Fault::Refused(fault))),
            },
            State::Trial(trial) => (State::Trial(trial), Err(Fault::BadLine(Expected::NoTrial))),
        })
    }

    pub fn keep<F: Field, C: Kind>(&mut self, m: &Memory<'_, F, C>) -> Result<(), Fault>
        ensures { Turned false InTrial (model_of self.old).count self.old result self.new }
    {
        replace_with(self, m, |state, m| match state {
            State::Standing(standing) => (
                State::Standing(standing),
                Err(Fault::BadLine(Expected::OpenTrial)),
            ),
            State::Trial(trial) => match trial.keep(m) {
                Ok(standing) => (State::Standing(standing), Ok(())),
                Err((trial, fault)) => (State::Trial(trial), Err(Fault::Refused(fault))),
            },
        })
    }

    // By value, since the end of a trial spends it.
    fn undone<F: Field, C: Kind>(self, m: &mut Memory<'_, F, C>) -> (State, Result<(), Fault>)
        ensures { Turned false InTrial (mark_of self) self result.1 result.0 }
    {
        match self {
            State::Standing(standing) => (
                State::Standing(standing),
                Err(Fault::BadLine(Expected::OpenTrial)),
            ),
            State::Trial(trial) => match trial.undo(m) {
                Ok(standing) => (State::Standing(standing), Ok(())),
                Err((trial, fault)) => (State::Trial(trial), Err(Fault::Refused(fault))),
            },
        }
    }

    pub fn undo<F: Field, C: Kind>(&mut self, m: &mut Memory<'_, F, C>) -> Result<(), Fault>
        ensures turned { Turned false InTrial (mark_of self.old) self.old result self.new }
        ensures handed_back { HandedBack m.old m.new }
    {
        // The closure takes the slices: no proof would know of a memory, taken whole, that it keeps their lengths.
        let cells = &mut *m.cells;
        let index = &mut *m.index;
        let columns = &mut *m.columns;
        let entries = &mut *m.entries;
        let work = &mut *m.work;
        replace_with(self, (), |state, _| {
            let mut m = Memory {
                cells,
                index,
                columns,
                entries,
                work,
            };
            state.undone(&mut m)
        })
    }

    // Undoes a trial that is open. Memory that fits is not refused.
    pub fn close<F: Field, C: Kind>(self, m: &mut Memory<'_, F, C>)
        requires { FitsMemory self (view m.old) }
        ensures { HandedBack m.old m.new }
    {
        match self {
            State::Standing(_) => {}
            State::Trial(trial) => {
                let _ = trial.undo(m).unwrap();
            }
        }
    }
}
