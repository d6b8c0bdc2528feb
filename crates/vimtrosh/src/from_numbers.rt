// Kinds whose cells a script writes as numbers. Not `TryFrom`: it and the kinds are other crates'.
ghost use Rattle.std.specs.Prelude.{◌≡◌, ℕ, List, Option};
ghost use Rattle.vimtrosh.specs.Cells.{simplex, simplex_of, cube_of};

use crate::expected::Expected;
use cell::cube::Cube;
use cell::kind::Kind;
use cell::simplex::Simplex;

pub trait FromNumbers: Kind {
    ghost named: { List ℕ → Option Self };

    // A cell for places that are not in use.
    fn blank() -> Self;

    // The cell that the numbers write, if they are as many as its kind asks for.
    fn from_numbers(numbers: &[u16]) -> Option<Self>
        ensures { result ≡ named numbers.now };

    // What a line lacks whose numbers are too few or too many.
    fn expected() -> Expected;
}

fn vertices(a: u16, b: u16, c: u16, d: u16) -> Simplex
    ensures { result ≡ simplex a b c d }
{
    Simplex { a, b, c, d }
}

// Vertices that are left out are 0.
impl FromNumbers for Simplex {
    ghost named = { simplex_of };

    fn blank() -> Simplex {
        vertices(0, 0, 0, 0)
    }

    fn from_numbers(numbers: &[u16]) -> Option<Simplex> {
        match *numbers {
            [a] => Some(vertices(a, 0, 0, 0)),
            [a, b] => Some(vertices(a, b, 0, 0)),
            [a, b, c] => Some(vertices(a, b, c, 0)),
            [a, b, c, d] => Some(vertices(a, b, c, d)),
            _ => None,
        }
    }

    fn expected() -> Expected {
        Expected::VertexNumbers
    }
}

impl FromNumbers for Cube {
    ghost named = { cube_of };

    fn blank() -> Cube {
        Cube { x: 0, y: 0, z: 0 }
    }

    fn from_numbers(numbers: &[u16]) -> Option<Cube> {
        match *numbers {
            [x, y, z] => Some(Cube { x, y, z }),
            _ => None,
        }
    }

    fn expected() -> Expected {
        Expected::Coordinates
    }
}
