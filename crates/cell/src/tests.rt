// Facets, signs and order of a few cells of each kind.
use crate::cube::*;
use crate::kind::Kind;
use crate::pair::*;
use crate::simplex::*;
use std::cmp::Ordering;
use std::fmt::Debug;
use std::process::Abort;

fn simplex(a: u16, b: u16, c: u16, d: u16) -> Simplex {
    Simplex { a, b, c, d }
}

fn cube(x: u16, y: u16, z: u16) -> Cube {
    Cube { x, y, z }
}

fn pair<A, B>(first: A, second: B) -> Pair<A, B> {
    Pair { first, second }
}

// The facets of the cell with their signs, and the answer past the last one.
fn facets_are<C: Kind + PartialEq + Debug + Drop>(rt: &impl Abort, cell: C, facets: &[(C, i8)]) {
    let count = cell.facet_count();
    assert_eq!(rt; count as usize, facets.len());
    for (i, facet) in (0..count).zip(facets) {
        assert_eq!(rt; cell.facet(i), *facet);
    }
    assert_eq!(rt; cell.facet(count), (cell, 0));
}

#[test]
fn facets_of_simplices(rt: HostRuntime) {
    let edge = simplex(2, 9, 0, 0);
    facets_are(&rt, simplex(7, 0, 0, 0), &[]);
    facets_are(&rt, simplex(9, 2, 0, 0), &[]);
    facets_are(
        &rt,
        edge,
        &[(simplex(9, 0, 0, 0), 1), (simplex(2, 0, 0, 0), -1)],
    );
    facets_are(
        &rt,
        simplex(1, 2, 9, 0),
        &[
            (edge, 1),
            (simplex(1, 9, 0, 0), -1),
            (simplex(1, 2, 0, 0), 1),
        ],
    );
}

#[test]
fn facets_of_cubes(rt: HostRuntime) {
    let square = cube(1, 1, 0);
    facets_are(&rt, cube(1, 1, 65535), &[]);
    facets_are(
        &rt,
        square,
        &[
            (cube(0, 1, 0), -1),
            (cube(2, 1, 0), 1),
            (cube(1, 0, 0), 1),
            (cube(1, 2, 0), -1),
        ],
    );
    facets_are(
        &rt,
        cube(4, 6, 65533),
        &[(cube(4, 6, 65532), -1), (cube(4, 6, 65534), 1)],
    );
}

#[test]
fn facets_of_pairs(rt: HostRuntime) {
    let edge = simplex(2, 9, 0, 0);
    let end = simplex(9, 0, 0, 0);
    let start = simplex(2, 0, 0, 0);
    let point = cube(0, 0, 0);
    let interval = cube(0, 0, 5);
    facets_are(
        &rt,
        pair(edge, point),
        &[(pair(end, point), 1), (pair(start, point), -1)],
    );
    facets_are(
        &rt,
        pair(pair(point, edge), interval),
        &[
            (pair(pair(point, end), interval), 1),
            (pair(pair(point, start), interval), -1),
            (pair(pair(point, edge), cube(0, 0, 4)), 1),
            (pair(pair(point, edge), cube(0, 0, 6)), -1),
        ],
    );
}

#[test]
fn order_of_cells(rt: HostRuntime) {
    let low = cube(1, 2, 3);
    let high = cube(1, 2, 4);
    assert_eq!(rt; low.compare(&high), Ordering::Less);
    assert_eq!(rt; cube(2, 0, 0).compare(&high), Ordering::Greater);
    assert_eq!(rt;
        simplex(1, 2, 3, 5).compare(&simplex(1, 2, 3, 4)),
        Ordering::Greater
    );
    assert_eq!(rt; pair(low, high).compare(&pair(low, low)), Ordering::Greater);
    assert_eq!(rt; pair(low, high).compare(&pair(low, high)), Ordering::Equal);
}
