// Parts to measure with.
use cell::cube::Cube;
use cell::simplex::Simplex;

pub(crate) fn simplex(vertices: [u16; 4]) -> Simplex {
    let [a, b, c, d] = vertices;
    Simplex { a, b, c, d }
}

pub(crate) fn point(a: u16) -> Simplex {
    simplex([a, 0, 0, 0])
}

pub(crate) fn edge(a: u16, b: u16) -> Simplex {
    simplex([a, b, 0, 0])
}

pub(crate) fn triangle(a: u16, b: u16, c: u16) -> Simplex {
    simplex([a, b, c, 0])
}

pub(crate) fn hollow_triangle() -> [Simplex; 6] {
    [
        point(1),
        point(2),
        point(3),
        edge(1, 2),
        edge(1, 3),
        edge(2, 3),
    ]
}

// The ten triangles of the projective plane; its faces are all points and edges on six vertices.
pub(crate) fn plane_triangles() -> [Simplex; 10] {
    [
        triangle(1, 2, 5),
        triangle(1, 2, 6),
        triangle(1, 3, 4),
        triangle(1, 3, 6),
        triangle(1, 4, 5),
        triangle(2, 3, 4),
        triangle(2, 3, 5),
        triangle(2, 4, 6),
        triangle(3, 5, 6),
        triangle(4, 5, 6),
    ]
}

// The cube of number i among the 27 of a unit cube and its faces, by its three base-3 digits.
pub(crate) fn unit_cell(i: u16) -> Cube {
    Cube {
        x: i % 3,
        y: i / 3 % 3,
        z: i / 9 % 3,
    }
}
