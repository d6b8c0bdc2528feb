// The worked parts, each over one field.
use crate::calls::enter_all;
use crate::memory::Lists;
use crate::parts::{edge, hollow_triangle, plane_triangles, point, triangle, unit_cell};
use anyhow::bail;
use cell::cube::Cube;
use cell::kind::Kind;
use cell::simplex::Simplex;
use field::field::Field;
use kernel::memory::{Entry, Memory};
use kernel::model::{Model, Standing};
use std::alloc::{AllocError, Global};

const PLACES: usize = 64;

const ROOM: usize = 2048;

// Makes memory for a part and measures the part in it.
fn measure<F: Field, C: Kind>(
    rt: &HostRuntime,
    name: &str,
    part: &[C],
    blank: C,
) -> anyhow::Result<()> {
    let mut lists = Lists::<F, C>::new(rt.alloc(), PLACES, ROOM, blank)?;
    let order = F::ORDER;
    print!(rt; "{name} over {order}: ")?;
    measure_in(rt, part, &mut lists.lend())
}

// Enters a part into a new model and prints its counts and its first cycle of dimension 1.
fn measure_in<F: Field, C: Kind>(
    rt: &HostRuntime,
    part: &[C],
    m: &mut Memory<'_, F, C>,
) -> anyhow::Result<()> {
    let Ok(mut model) = Standing::new(PLACES, ROOM, m) else {
        bail!("no model");
    };
    if enter_all(&mut model, m, part).is_err() {
        bail!("a cell was refused");
    }
    let model = model.model();
    let count = model.cell_count();
    let used = model.entries_in_use();
    print!(rt; "{count} cells, {used} entries, betti")?;
    for k in 0..4 {
        print!(rt; " {}", model.betti(m, k).unwrap_or(PLACES))?;
    }
    show_cycle(rt, model, m)
}

// Prints cycle 0 of dimension 1, if there is one.
fn show_cycle<F: Field, C: Kind>(
    rt: &HostRuntime,
    model: &Model,
    m: &Memory<'_, F, C>,
) -> anyhow::Result<()> {
    let mut out = [Entry { number: 0, code: 0 }; PLACES];
    if let Ok(len) = model.cycle(m, 1, 0, &mut out) {
        print!(rt; ", cycle")?;
        for entry in &out[..len] {
            print!(rt; " {}:{}", entry.number, entry.code)?;
        }
    }
    println!(rt; "")?;
    Ok(())
}

// All points and edges on six vertices, and the ten triangles.
fn projective_plane(heap: Global) -> Result<Vec<Simplex>, AllocError> {
    let mut part = Vec::new(heap);
    part.extend((1..7).map(point))?;
    for a in 1..7 {
        part.extend((a + 1..7).map(|b| edge(a, b)))?;
    }
    part.extend(plane_triangles())?;
    Ok(part)
}

// The cells of a unit cube and its faces, by rising dimension.
fn solid_cube(heap: Global) -> Result<Vec<Cube>, AllocError> {
    let mut part = (0..27).map(unit_cell).collect::<Vec<Cube>>(heap)?;
    part.sort_by_key(|cell| cell.dimension())?;
    Ok(part)
}

pub(crate) fn worked_parts<F: Field>(rt: &HostRuntime) -> anyhow::Result<()> {
    let heap = rt.alloc();
    let hollow = hollow_triangle();
    measure::<F, Simplex>(rt, "hollow triangle", &hollow, point(0))?;
    let mut full = hollow.to_vec(heap)?;
    full.push(triangle(1, 2, 3))?;
    measure::<F, Simplex>(rt, "full triangle", &full, point(0))?;
    let plane = projective_plane(heap)?;
    measure::<F, Simplex>(rt, "projective plane", &plane, point(0))?;
    let mut solid = solid_cube(heap)?;
    measure::<F, Cube>(rt, "solid cube", &solid, unit_cell(0))?;
    let _ = solid.pop();
    measure::<F, Cube>(rt, "hollow cube", &solid, unit_cell(0))
}
