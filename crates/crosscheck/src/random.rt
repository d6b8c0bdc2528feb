// Numbers that look random and are the same in every run.
use crate::parts::simplex;
use cell::simplex::Simplex;

pub(crate) fn next(seed: u32) -> u32 {
    seed.wrapping_mul(1664525).wrapping_add(1013904223)
}

// A simplex on some of six vertices, at most four; fewer vertices come more often.
pub(crate) fn random_simplex(seed: u32) -> Simplex {
    let mask = if seed & 128 == 0 {
        seed >> 7 & seed >> 13
    } else {
        seed >> 7
    };
    let mut vertices = [0; 4];
    let used = (1..=6u16).filter(|number| mask >> *number & 1 == 1);
    for (vertex, number) in vertices.iter_mut().zip(used) {
        *vertex = number;
    }
    simplex(vertices)
}
