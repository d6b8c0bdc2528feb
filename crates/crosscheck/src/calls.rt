// Calls on a model, one after another.
use cell::kind::Kind;
use field::field::Field;
use kernel::fault::ModelFault;
use kernel::memory::Memory;
use kernel::model::Standing;

// Enters the cells in turn, up to the first that is refused.
pub(crate) fn enter_all<F: Field, C: Kind>(
    model: &mut Standing,
    m: &mut Memory<'_, F, C>,
    part: &[C],
) -> Result<(), ModelFault> {
    for cell in part {
        model.enter(m, *cell)?;
    }
    Ok(())
}
