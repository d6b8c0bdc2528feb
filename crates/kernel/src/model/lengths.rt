// The lengths of a model's memory.
ghost use Rattle.std.specs.Prelude.{Decides};
ghost use Rattle.kernel.specs.Views.{Fits, view};

use crate::memory::Memory;
use crate::model::Model;

impl Model {
    // Whether the memory has the lengths of the making.
    pub(super) fn fits<F, C>(&self, m: &Memory<'_, F, C>) -> bool
        ensures { Decides result (Fits self.now.n self.now.e (view m.now)) }
    {
        m.has_lengths(self.n, self.e)
    }
}
