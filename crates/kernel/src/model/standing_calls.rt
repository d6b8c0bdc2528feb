// Standing models: making, entering, taking off, opening a trial.
ghost use Rattle.std.specs.Prelude.{◌≡◌};
ghost use Rattle.kernel.specs.Views.{view, SameSlices};
ghost use Rattle.kernel.specs.Calls.{Made, Entered, TakenOff, Opened};
ghost use Rattle.kernel.specs.Exact.{Makes, Enters, TakesOff, Opens};

use crate::fault::ModelFault;
use crate::memory::Memory;
use crate::model::{Model, Standing, Trial};
use cell::kind::Kind;
use field::field::Field;

// The most cells that a model may be made for.
pub const MOST_CELLS: usize = 4096;

// The most column entries that a model may be made for.
pub const MOST_ENTRIES: usize = 1048576;

impl Standing {
    // An empty model for n cells and e column entries.
    pub fn new<F: Field, C: Kind>(
        n: usize,
        e: usize,
        m: &Memory<'_, F, C>,
    ) -> Result<Standing, ModelFault>
        ensures made { Made n e (view m.now) result }
        ensures exact { Makes F.Field.ops C.Kind.kind (view m.now) result }
    {
        if n == 0 || n > MOST_CELLS {
            return Err(ModelFault::BadSize);
        }
        if e > MOST_ENTRIES || !m.has_lengths(n, e) {
            return Err(ModelFault::WrongLength);
        }
        Ok(Standing {
            model: Model {
                n,
                e,
                count: 0,
                used: 0,
            },
        })
    }

    // What stands, for questions.
    pub fn model(&self) -> &Model
        ensures { result.now ≡ self.now.model }
    {
        &self.model
    }

    // Enters a cell as the latest one.
    pub fn enter<F: Field, C: Kind>(
        &mut self,
        m: &mut Memory<'_, F, C>,
        cell: C,
    ) -> Result<(), ModelFault>
        ensures entered { Entered self.old.model (view m.old) result self.new.model (view m.new) }
        ensures same_slices { SameSlices m.old m.new }
        ensures exact { Enters F.Field.ops C.Kind.kind cell self.old.model (view m.old) result self.new.model (view m.new) }
    {
        self.model.enter_cell(m, cell)
    }

    // Takes the latest cell off and gives it.
    pub fn take_off<F: Field, C: Kind>(&mut self, m: &mut Memory<'_, F, C>) -> Result<C, ModelFault>
        ensures taken_off { TakenOff 0 self.old.model (view m.old) result self.new.model (view m.new) }
        ensures same_slices { SameSlices m.old m.new }
        ensures exact { TakesOff F.Field.ops C.Kind.kind 0 self.old.model (view m.old) result self.new.model (view m.new) }
    {
        self.model.take_off_cell(m, 0)
    }

    // Opens a trial on the cells that stand.
    pub fn open<F: Field, C: Kind>(
        self,
        m: &Memory<'_, F, C>,
    ) -> Result<Trial, (Standing, ModelFault)>
        ensures opened { Opened self (view m.now) result }
        ensures exact { Opens F.Field.ops C.Kind.kind self (view m.now) result }
    {
        if !self.model.fits(m) {
            return Err((self, ModelFault::WrongLength));
        }
        let Standing { model } = self;
        let mark = model.count;
        Ok(Trial { model, mark })
    }
}
