// The field of four elements: the sum is the exclusive or of the codes.
ghost use Rattle.std.specs.Prelude.{◌≡◌, bit_xor};
ghost use Rattle.field.specs.Four.{times, gf4};
ghost use Rattle.field.specs.FourLaws.{four_laws};
ghost use Rattle.field.specs.Same.{same_four};
ghost use Rattle.std.proofs.Common.{rules};

use crate::elements::Gf4;
use crate::fault::FieldFault;
use crate::field::Field;
use std::ops::{Add, Mul, Neg};

// The products of the codes.
const PRODUCTS: [[u8; 4]; 4] = [[0, 0, 0, 0], [0, 1, 2, 3], [0, 2, 3, 1], [0, 3, 1, 2]];

impl Add for Gf4 {
    type Output = Self;

    ghost add_gives = { λ x y r. r.code ≡ bit_xor x.code y.code };

    fn add(self, rhs: Self) -> Self {
        Gf4 {
            code: self.code ^ rhs.code,
        }
    }
}

impl Mul for Gf4 {
    type Output = Self;

    ghost mul_gives = { λ x y r. r.code ≡ times x.code y.code };

    fn mul(self, rhs: Self) -> Self {
        Gf4 {
            code: PRODUCTS[self.code as usize][rhs.code as usize],
        }
    }
}

impl Neg for Gf4 {
    type Output = Self;

    ghost neg_gives = { λ x r. r ≡ x };

    fn neg(self) -> Self {
        self
    }
}

impl Field for Gf4 {
    const ORDER: u16 = 4;

    const CHARACTERISTIC: u16 = 2;

    ghost ORDER = { 4 };

    ghost CHARACTERISTIC = { 2 };

    ghost ops = { gf4 };

    ghost order_is = { Prim.search rules };

    ghost characteristic_is = { Prim.search rules };

    ghost laws = { four_laws };

    ghost equal = { λ x y b e t. same_four x y (Prim.search rules) };

    ghost unequal = { Prim.search rules };

    ghost may_add = { Prim.search rules };

    ghost added = { λ x y r e. same_four _ _ e };

    ghost may_multiply = { Prim.search rules };

    ghost multiplied = { λ x y r e. same_four _ _ e };

    ghost may_negate = { Prim.search rules };

    ghost negated = { Prim.search rules };

    fn zero() -> Self {
        Gf4 { code: 0 }
    }

    fn one() -> Self {
        Gf4 { code: 1 }
    }

    // The square is the inverse.
    fn inverse(self) -> Result<Self, FieldFault> {
        if self.code == 0 {
            Err(FieldFault::ZeroInverse)
        } else {
            Ok(self * self)
        }
    }

    fn of_code(code: u8) -> Result<Self, FieldFault> {
        if code < 4 {
            Ok(Gf4 { code })
        } else {
            Err(FieldFault::CodeTooLarge)
        }
    }

    fn code(self) -> u8 {
        self.code
    }
}
