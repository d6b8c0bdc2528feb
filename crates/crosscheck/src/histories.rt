// Histories of entries, take-offs and trials, kept beside a plain list: Betti numbers against dense elimination, and coordinates.
use crate::coordinates::own_places;
use crate::dense;
use crate::memory::Lists;
use crate::parts::point;
use crate::random::{next, random_simplex};
use anyhow::bail;
use cell::simplex::Simplex;
use field::field::Field;
use kernel::memory::Memory;
use kernel::model::{Model, Standing};
use std::alloc::AllocError;

const PLACES: usize = 64;

const ROOM: usize = 4096;

const STEPS: u32 = 400;

// A history under way: a model's memory, the cells that stand as a plain list, and how many comparisons were asked for and agreed.
#[derive(Drop)]
struct Walk<'a, F> {
    m: Memory<'a, F, Simplex>,
    plain: Vec<Simplex>,
    seed: u32,
    asked: u32,
    agreed: u32,
}

impl<F: Field> Walk<'_, F> {
    // Enters a cell into model and plain list.
    fn enter(&mut self, model: &mut Standing) -> Result<(), AllocError> {
        let cell = random_simplex(self.seed);
        if model.enter(&mut self.m, cell).is_ok() {
            self.plain.push(cell)?;
        }
        Ok(())
    }

    // Takes the latest cell off model and plain list.
    fn take_off(&mut self, model: &mut Standing) {
        if model.take_off(&mut self.m).is_ok() {
            let _ = self.plain.pop();
        }
    }

    // Opens a trial, tries two cells, then keeps or undoes.
    fn try_cells(&mut self, model: Standing) -> anyhow::Result<Standing> {
        let Ok(mut trial) = model.open(&self.m) else {
            bail!("a trial was refused");
        };
        let first = random_simplex(self.seed);
        let second = random_simplex(next(self.seed));
        let first = trial.enter(&mut self.m, first).is_ok().then_some(first);
        let second = trial.enter(&mut self.m, second).is_ok().then_some(second);
        if self.seed & 1 == 0 {
            return match trial.undo(&mut self.m) {
                Ok(model) => Ok(model),
                Err(_) => unreachable!(),
            };
        }
        let model = match trial.keep(&self.m) {
            Ok(model) => model,
            Err(_) => unreachable!(),
        };
        self.plain.extend(first)?;
        self.plain.extend(second)?;
        Ok(model)
    }

    // Whether the model's Betti numbers are those of the plain list by dense elimination, and its cycles have their own coordinates.
    fn agrees(&mut self, model: &Model) -> Result<bool, AllocError> {
        let heap = *self.plain.allocator();
        for k in 0..4 {
            let number = model.betti(&self.m, k).unwrap_or(0);
            let expected = dense::betti::<F, Simplex>(heap, &self.plain, k)?;
            if number != expected || !own_places(model, &mut self.m, k, number) {
                return Ok(false);
            }
        }
        Ok(true)
    }

    fn compare(&mut self, model: &Model) -> Result<(), AllocError> {
        let agrees = self.agrees(model)?;
        self.asked = self.asked.saturating_add(1);
        self.agreed = self.agreed.saturating_add(u32::from(agrees));
        Ok(())
    }

    fn step(&mut self, mut model: Standing) -> anyhow::Result<Standing> {
        self.seed = next(self.seed);
        match self.seed >> 28 {
            0..=11 => self.enter(&mut model)?,
            12 => self.take_off(&mut model),
            13 => return self.try_cells(model),
            _ => self.compare(model.model())?,
        }
        Ok(model)
    }
}

// One history over a field: prints how many of its comparisons agree.
pub(crate) fn history<F: Field>(rt: &HostRuntime, first: u32) -> anyhow::Result<()> {
    let heap = rt.alloc();
    let mut lists = Lists::<F, Simplex>::new(heap, PLACES, ROOM, point(0))?;
    let mut walk = Walk {
        m: lists.lend(),
        plain: Vec::new(heap),
        seed: first,
        asked: 0,
        agreed: 0,
    };
    let Ok(mut model) = Standing::new(PLACES, ROOM, &walk.m) else {
        bail!("no model");
    };
    for _ in 0..STEPS {
        model = walk.step(model)?;
    }
    let order = F::ORDER;
    let count = walk.plain.len();
    let agreed = walk.agreed;
    let asked = walk.asked;
    println!(rt;
        "history {first} over {order}: {count} cells stand, {agreed} of {asked} agree with dense elimination"
    )?;
    Ok(())
}
