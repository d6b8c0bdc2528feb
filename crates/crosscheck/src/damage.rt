// Calls on memory that was scribbled on: each ends and stays inside.
use crate::calls::enter_all;
use crate::memory::{BROKEN_COLUMN, Lists};
use crate::parts::{edge, hollow_triangle, point};
use anyhow::bail;
use cell::simplex::Simplex;
use field::elements::Gf251;
use field::field::Field;
use homology::term::Term;
use kernel::memory::{Entry, Memory};
use kernel::model::{Model, Standing};

const PLACES: usize = 8;

const ROOM: usize = 32;

// Writes nonsense into every place of every slice.
fn scribble(m: &mut Memory<'_, Gf251, Simplex>) {
    let nonsense = Term {
        number: 65535,
        coefficient: Gf251::zero(),
    };
    m.cells.fill(edge(9, 9));
    m.index.fill(65535);
    m.columns.fill(BROKEN_COLUMN);
    m.entries.fill(nonsense);
    m.work.fill(nonsense);
}

// Enters, asks, takes off, opens and undoes on the memory as it is: how many of the calls were refused.
fn call_all(mut model: Standing, m: &mut Memory<'_, Gf251, Simplex>) -> anyhow::Result<usize> {
    let mut out = [Entry { number: 0, code: 0 }; PLACES];
    let entered = model.enter(m, point(7)).is_err();
    let counted = model.model().betti(m, 0).is_err();
    let written = model.model().cycle(m, 0, 0, &mut out).is_err();
    let taken = model.take_off(m).is_err();
    let Ok(mut trial) = model.open(m) else {
        bail!("a trial was refused");
    };
    let tried = trial.enter(m, point(8)).is_err();
    match trial.undo(m) {
        Ok(_) => (),
        Err(_) => unreachable!(),
    }
    let refused = [entered, counted, written, taken, tried];
    Ok(refused.iter().filter(|refused| **refused).count())
}

// Asks for the coordinates of a chain in the memory as it is: whether that was refused.
fn coordinates_refused(model: &Model, m: &mut Memory<'_, Gf251, Simplex>) -> bool {
    let chain = [Entry { number: 2, code: 1 }];
    model.coordinates(m, 0, &chain, &mut [0; PLACES]).is_err()
}

pub(crate) fn damaged_memory(rt: &HostRuntime) -> anyhow::Result<()> {
    let mut lists = Lists::<Gf251, Simplex>::new(rt.alloc(), PLACES, ROOM, point(0))?;
    let mut m = lists.lend();
    m.columns.fill(BROKEN_COLUMN);
    let Ok(mut model) = Standing::new(PLACES, ROOM, &m) else {
        bail!("no model");
    };
    let entered = enter_all(&mut model, &mut m, &hollow_triangle()).is_ok();
    scribble(&mut m);
    let cleared = coordinates_refused(model.model(), &mut m);
    scribble(&mut m);
    let refused = call_all(model, &mut m)?;
    println!(rt; "damaged memory: entered {entered}, calls ended, {refused} of 5 refused")?;
    println!(rt; "coordinates in damaged memory: refused {cleared}")?;
    Ok(())
}
