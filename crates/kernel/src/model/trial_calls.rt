// Trials: entering, taking off, and the two ways to end one.
ghost use Rattle.std.specs.Prelude.{◌≡◌};
ghost use Rattle.kernel.specs.Views.{view, SameSlices};
ghost use Rattle.kernel.specs.Calls.{Entered, TakenOff, KeptTrial, Undone};
ghost use Rattle.kernel.specs.Exact.{Enters, TakesOff, Keeps, Undoes};

use crate::fault::ModelFault;
use crate::memory::Memory;
use crate::model::taking_off::remove_down_to;
use crate::model::{Model, Standing, Trial};
use cell::kind::Kind;
use field::field::Field;

impl Trial {
    // Enters a cell as the latest one.
    pub fn enter<F: Field, C: Kind>(
        &mut self,
        m: &mut Memory<'_, F, C>,
        cell: C,
    ) -> Result<(), ModelFault>
        ensures entered { Entered self.old.model (view m.old) result self.new.model (view m.new) }
        ensures same_slices { SameSlices m.old m.new }
        ensures exact { Enters F.Field.ops C.Kind.kind cell self.old.model (view m.old) result self.new.model (view m.new) }
        ensures mark { self.new.mark ≡ self.old.mark }
    {
        self.model.enter_cell(m, cell)
    }

    // Takes the latest cell off and gives it, if it was entered since the opening.
    pub fn take_off<F: Field, C: Kind>(&mut self, m: &mut Memory<'_, F, C>) -> Result<C, ModelFault>
        ensures taken_off { TakenOff self.old.mark self.old.model (view m.old) result self.new.model (view m.new) }
        ensures same_slices { SameSlices m.old m.new }
        ensures exact { TakesOff F.Field.ops C.Kind.kind self.old.mark self.old.model (view m.old) result self.new.model (view m.new) }
        ensures mark { self.new.mark ≡ self.old.mark }
    {
        self.model.take_off_cell(m, self.mark)
    }

    // What stands, for questions.
    pub fn model(&self) -> &Model
        ensures { result.now ≡ self.now.model }
    {
        &self.model
    }

    // Ends the trial: the cells remain.
    pub fn keep<F: Field, C: Kind>(
        self,
        m: &Memory<'_, F, C>,
    ) -> Result<Standing, (Trial, ModelFault)>
        ensures kept { KeptTrial self (view m.now) result }
        ensures exact { Keeps F.Field.ops C.Kind.kind self (view m.now) result }
    {
        if !self.model.fits(m) {
            return Err((self, ModelFault::WrongLength));
        }
        let Trial { model, mark: _ } = self;
        Ok(Standing { model })
    }

    // Ends the trial: every cell entered since the opening is taken off.
    pub fn undo<F: Field, C: Kind>(
        self,
        m: &mut Memory<'_, F, C>,
    ) -> Result<Standing, (Trial, ModelFault)>
        ensures undone { Undone self (view m.old) result (view m.new) }
        ensures same_slices { SameSlices m.old m.new }
        ensures exact { Undoes F.Field.ops C.Kind.kind self (view m.old) result (view m.new) }
    {
        let Trial { model, mark } = self;
        if !model.fits(m) {
            return Err((Trial { model, mark }, ModelFault::WrongLength));
        }
        let Model { n, e, count, used } = model;
        let cells = &mut *m.cells;
        let index = &mut *m.index;
        let columns = &mut *m.columns;
        let entries = &mut *m.entries;
        let used = remove_down_to(cells, index, columns, entries, count, used, mark);
        Ok(Standing {
            model: Model {
                n,
                e,
                count: mark,
                used,
            },
        })
    }
}
