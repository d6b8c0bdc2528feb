// The prime numbers modulo which the residues are a field.
ghost use Rattle.std.specs.Prelude.{◌≡◌, ℕ, ◌*◌, ◌%◌, ◌^◌, ◌<◌, ◌==◌, min, IsTrue, refl};
ghost use Rattle.std.proofs.Common.{lit<};
ghost use Rattle.field.specs.Finite.{all};

use crate::elements::{Gf2, Gf3, Gf251};
use crate::inverses::{INVERSES, entry};

// A prime number Q: each number below it, but for zero, has an inverse modulo Q.
pub trait PrimeModulus<const Q: u8> {
    ghost positive: { 0 < Q };

    ghost above_one: { 1 < Q };

    ghost inverted: { ℕ → ℕ };

    ghost inverts: { IsTrue (all Q (λ n. (n * inverted n) % Q == min n 1)) };

    // The code of the inverse, by the element's code.
    fn inverse_code(code: u8) -> u8
        requires { code < Q }
        ensures { result ≡ inverted code };
}

impl PrimeModulus<2> for Gf2 {
    ghost positive = { lit< tt };

    ghost above_one = { lit< tt };

    ghost inverted = { λ n. n };

    ghost inverts = { refl };

    fn inverse_code(code: u8) -> u8 {
        code
    }
}

impl PrimeModulus<3> for Gf3 {
    ghost positive = { lit< tt };

    ghost above_one = { lit< tt };

    ghost inverted = { λ n. n };

    ghost inverts = { refl };

    fn inverse_code(code: u8) -> u8 {
        code
    }
}

impl PrimeModulus<251> for Gf251 {
    ghost positive = { lit< tt };

    ghost above_one = { lit< tt };

    ghost inverted = { λ n. n ^ 249 % 251 };

    ghost inverts = { refl };

    fn inverse_code(code: u8) -> u8 {
        entry(INVERSES, code)
    }
}

// The fields' constants once more, for the values of constants and for patterns, where one of a generic impl cannot stand yet.
impl Gf2 {
    pub const ORDER: u16 = 2;

    pub const CHARACTERISTIC: u16 = 2;
}

impl Gf3 {
    pub const ORDER: u16 = 3;

    pub const CHARACTERISTIC: u16 = 3;
}

impl Gf251 {
    pub const ORDER: u16 = 251;

    pub const CHARACTERISTIC: u16 = 251;
}
