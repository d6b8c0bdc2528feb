// Each refusal of a call on a model, with its memory before and after.
use crate::memory::Lists;
use crate::parts::{edge, point};
use anyhow::bail;
use cell::simplex::Simplex;
use columns::column::Column;
use field::elements::Gf3;
use homology::term::Term;
use kernel::fault::ModelFault;
use kernel::memory::{Entry, Memory};
use kernel::model::Standing;
use std::alloc::{AllocError, Global};

// A call to try: what it is, and the cell, dimension, place, chain or buffer length that it is given.
// Values and one match, not closures: a list of them would need a dyn that takes lent memory, which gets no proof.
#[derive(Clone, Copy)]
enum Call<'a> {
    Enter(Simplex),
    TakeOff,
    Betti(u8),
    Cycle(u8, usize, usize),
    Coordinates(u8, &'a [Entry], usize),
}

// A call that was refused, and whether its answer buffer is then as it was.
struct Refusal {
    fault: ModelFault,
    buffer_kept: bool,
}

// A call without a buffer.
impl From<ModelFault> for Refusal {
    fn from(fault: ModelFault) -> Refusal {
        Refusal {
            fault,
            buffer_kept: true,
        }
    }
}

// All of a memory that a refusal leaves as it was.
#[derive(PartialEq, Drop)]
struct Kept {
    cells: Vec<Simplex>,
    index: Vec<u16>,
    columns: Vec<Column>,
    entries: Vec<Term<Gf3>>,
}

impl Kept {
    fn of(heap: Global, m: &Memory<'_, Gf3, Simplex>) -> Result<Kept, AllocError> {
        Ok(Kept {
            cells: m.cells.to_vec(heap)?,
            index: m.index.to_vec(heap)?,
            columns: m.columns.to_vec(heap)?,
            entries: m.entries.to_vec(heap)?,
        })
    }
}

// Asks with the front of a buffer in which each place holds a mark.
fn ask<T: Copy + PartialEq, Q: FnOnce(&mut [T]) -> Result<usize, ModelFault>>(
    out: &mut [T],
    mark: T,
    places: usize,
    question: Q,
) -> Result<(), Refusal>
    requires { Q.IsAlwaysCallable question }
{
    let places = places.min(out.len());
    match question(&mut out[..places]) {
        Ok(_) => Ok(()),
        Err(fault) => Err(Refusal {
            fault,
            buffer_kept: out.iter().all(|place| *place == mark),
        }),
    }
}

// A model and its memory, to try calls on.
#[derive(Drop)]
struct Subject<'a> {
    model: Standing,
    m: Memory<'a, Gf3, Simplex>,
}

impl Subject<'_> {
    fn make(&mut self, call: Call<'_>) -> Result<(), Refusal> {
        let m = &mut self.m;
        match call {
            Call::Enter(cell) => self.model.enter(m, cell)?,
            Call::TakeOff => {
                self.model.take_off(m)?;
            }
            Call::Betti(k) => {
                self.model.model().betti(m, k)?;
            }
            Call::Cycle(k, i, places) => {
                let model = self.model.model();
                let mark = Entry { number: 7, code: 7 };
                let mut out = [mark; 4];
                ask(&mut out, mark, places, |out| model.cycle(m, k, i, out))?;
            }
            Call::Coordinates(k, chain, places) => {
                let model = self.model.model();
                let question = |out: &mut [u8]| model.coordinates(m, k, chain, out);
                ask(&mut [7; 4], 7, places, question)?;
            }
        }
        Ok(())
    }

    // Makes the call and prints what came, and whether a refusal left memory and buffer alone.
    fn show(&mut self, rt: &HostRuntime, name: &str, call: Call<'_>) -> anyhow::Result<()> {
        let before = Kept::of(rt.alloc(), &self.m)?;
        let Err(Refusal { fault, buffer_kept }) = self.make(call) else {
            println!(rt; "{name}: accepted")?;
            return Ok(());
        };
        let kept = Kept::of(rt.alloc(), &self.m)? == before;
        let number = fault.number();
        let place = fault.place();
        println!(rt;
            "{name}: no {number} at {place}, memory kept {kept}, buffer kept {buffer_kept}"
        )?;
        Ok(())
    }

    // Shows the calls in turn.
    fn show_all(&mut self, rt: &HostRuntime, calls: &[(&str, Call<'_>)]) -> anyhow::Result<()> {
        for (name, call) in calls {
            self.show(rt, name, *call)?;
        }
        Ok(())
    }
}

// Shows the calls in turn on a model made for n cells and e entries.
fn try_calls(
    rt: &HostRuntime,
    n: usize,
    e: usize,
    calls: &[(&str, Call<'_>)],
) -> anyhow::Result<()> {
    let mut lists = Lists::new(rt.alloc(), n, e, point(0))?;
    let m = lists.lend();
    let model = match Standing::new(n, e, &m) {
        Ok(model) => model,
        Err(fault) => {
            let number = fault.number();
            println!(rt; "made for {n} cells and {e} entries: no {number}")?;
            return Ok(());
        }
    };
    println!(rt; "made for {n} cells and {e} entries")?;
    Subject { model, m }.show_all(rt, calls)
}

// Calls with memory of other lengths than the making's.
fn wrong_lengths(rt: &HostRuntime, calls: &[(&str, Call<'_>)]) -> anyhow::Result<()> {
    let mut lists = Lists::new(rt.alloc(), 4, 9, point(0))?;
    let mut short = [0; 3];
    let m = lists.lend();
    let Ok(model) = Standing::new(4, 9, &m) else {
        bail!("no model");
    };
    let m = Memory {
        index: &mut short,
        ..m
    };
    if let Err(fault) = Standing::new(4, 9, &m) {
        let number = fault.number();
        println!(rt; "made with a short index: no {number}")?;
    }
    Subject { model, m }.show_all(rt, calls)
}

pub(crate) fn refusals(rt: &HostRuntime) -> anyhow::Result<()> {
    try_calls(rt, 0, 4, &[])?;
    try_calls(rt, 4096, 4, &[])?;
    try_calls(rt, 4097, 4, &[])?;
    try_calls(rt, 2, 1048576, &[])?;
    try_calls(rt, 2, 1048577, &[])?;
    short_index(rt)?;
    few_entries(rt)?;
    all_places(rt)
}

fn short_index(rt: &HostRuntime) -> anyhow::Result<()> {
    let calls = [
        ("enter with a short index", Call::Enter(point(1))),
        ("take off with a short index", Call::TakeOff),
        ("betti with a short index", Call::Betti(0)),
        ("cycle with a short index", Call::Cycle(0, 0, 4)),
    ];
    wrong_lengths(rt, &calls)
}

fn few_entries(rt: &HostRuntime) -> anyhow::Result<()> {
    let calls = [
        ("betti of no cells", Call::Betti(0)),
        ("take off of no cells", Call::TakeOff),
        ("enter 1 1", Call::Enter(edge(1, 1))),
        ("enter 2", Call::Enter(point(2))),
        ("enter 2 again", Call::Enter(point(2))),
        ("enter 1 2 without 1", Call::Enter(edge(1, 2))),
        ("enter 2 3 without 3", Call::Enter(edge(2, 3))),
        ("enter 1", Call::Enter(point(1))),
        ("enter 3", Call::Enter(point(3))),
        ("enter 1 2", Call::Enter(edge(1, 2))),
        ("enter 1 3", Call::Enter(edge(1, 3))),
        ("enter 2 3 in 11 entries", Call::Enter(edge(2, 3))),
    ];
    try_calls(rt, 6, 11, &calls)
}

fn all_places(rt: &HostRuntime) -> anyhow::Result<()> {
    let calls = [
        ("enter 4 in 6 places", Call::Enter(point(4))),
        ("betti 16", Call::Betti(16)),
        ("cycle 16 0", Call::Cycle(16, 0, 4)),
        ("cycle 1 1", Call::Cycle(1, 1, 4)),
        ("cycle 1 0 in 2 places", Call::Cycle(1, 0, 2)),
        ("cycle 1 0 in 3 places", Call::Cycle(1, 0, 3)),
        ("take off", Call::TakeOff),
        ("cycle 1 0", Call::Cycle(1, 0, 4)),
    ];
    on_triangle(rt, &calls)
}

// Shows the calls in turn where the hollow triangle stands, in memory that it fills.
fn on_triangle<'a>(rt: &HostRuntime, calls: &[(&'a str, Call<'a>)]) -> anyhow::Result<()> {
    let mut all = vec![in rt.alloc();
        ("enter 1", Call::Enter(point(1))),
        ("enter 2", Call::Enter(point(2))),
        ("enter 3", Call::Enter(point(3))),
        ("enter 1 2", Call::Enter(edge(1, 2))),
        ("enter 1 3", Call::Enter(edge(1, 3))),
        ("enter 2 3", Call::Enter(edge(2, 3))),
    ]?;
    all.extend_from_slice(calls)?;
    try_calls(rt, 6, 12, &all)
}

fn entry(number: u16, code: u8) -> Entry {
    Entry { number, code }
}

// Coordinates with a short index, and on the hollow triangle.
pub(crate) fn coordinate_refusals(rt: &HostRuntime) -> anyhow::Result<()> {
    let short_index = [(
        "coordinates with a short index",
        Call::Coordinates(0, &[], 4),
    )];
    wrong_lengths(rt, &short_index)?;
    let around = [entry(5, 2), entry(4, 1), entry(3, 2)];
    let high_code = [entry(5, 2), entry(9, 3)];
    let zero = [entry(5, 0)];
    let twice = [entry(5, 1), entry(4, 1), entry(4, 1)];
    let absent = [entry(6, 1)];
    let mixed = [entry(5, 1), entry(2, 1)];
    let open = [entry(5, 1)];
    let points = [entry(2, 1), entry(0, 2)];
    let calls = [
        ("coordinates of a cycle", Call::Coordinates(1, &around, 1)),
        ("in no place", Call::Coordinates(1, &around, 0)),
        ("in dimension 16", Call::Coordinates(16, &around, 1)),
        ("in dimension 0", Call::Coordinates(0, &around, 1)),
        ("code 3", Call::Coordinates(1, &high_code, 1)),
        ("coefficient 0", Call::Coordinates(1, &zero, 1)),
        ("number twice", Call::Coordinates(1, &twice, 1)),
        ("number 6", Call::Coordinates(1, &absent, 1)),
        ("a point among edges", Call::Coordinates(1, &mixed, 1)),
        ("one edge", Call::Coordinates(1, &open, 1)),
        ("the empty chain", Call::Coordinates(1, &[], 1)),
        ("a boundary", Call::Coordinates(0, &points, 1)),
    ];
    on_triangle(rt, &calls)
}
