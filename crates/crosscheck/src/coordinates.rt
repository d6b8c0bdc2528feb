// The coordinates of a model's own cycles: one at the cycle's place, zero at the others.
use cell::kind::Kind;
use field::field::Field;
use kernel::fault::ModelFault;
use kernel::memory::{Entry, Memory};
use kernel::model::Model;

// The most entries of a cycle, and so of its coordinates.
const MOST: usize = 64;

// Whether the codes are one at a place and zero at the others.
fn is_unit(codes: &[u8], place: usize) -> bool {
    codes
        .iter()
        .enumerate()
        .all(|(i, code)| *code == u8::from(i == place))
}

// Whether cycle i of dimension k has the coordinates of cycle i.
fn own_place<F: Field, C: Kind>(
    model: &Model,
    m: &mut Memory<'_, F, C>,
    k: u8,
    i: usize,
) -> Result<bool, ModelFault> {
    let mut chain = [Entry { number: 0, code: 0 }; MOST];
    let mut codes = [0; MOST];
    let len = model.cycle(m, k, i, &mut chain)?;
    let count = model.coordinates(m, k, &chain[..len], &mut codes)?;
    Ok(is_unit(&codes[..count], i))
}

// Whether each of the `count` cycles of dimension k has its own coordinates.
pub(crate) fn own_places<F: Field, C: Kind>(
    model: &Model,
    m: &mut Memory<'_, F, C>,
    k: u8,
    count: usize,
) -> bool {
    (0..count).all(|i| own_place(model, m, k, i).unwrap_or(false))
}
