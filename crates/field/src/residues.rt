// The numbers modulo Q, which are a field where Q is prime.
ghost use Rattle.std.specs.Prelude.{◌≡◌, ◌<◌};
ghost use Rattle.std.proofs.Common.{rules};
ghost use Rattle.field.specs.Residues.{residue, residues, sum, product, negative};
ghost use Rattle.field.specs.ResidueLaws.{residue_laws};
ghost use Rattle.field.specs.Same.{same};

use crate::elements::Residue;
use crate::fault::FieldFault;
use crate::field::Field;
use crate::primes::PrimeModulus;
use std::ops::{Add, Mul, Neg};

impl<const Q: u8> Residue<Q> {
    // The residue of a number.
    pub(crate) fn of(number: u16) -> Self
        requires { 0 < Q }
        ensures { (p : 0 < Q) → result ≡ residue p number }
    {
        Residue {
            code: (number % Q as u16) as u8,
        }
    }
}

impl<const Q: u8> Add for Residue<Q> {
    type Output = Self;

    ghost add_gives = { λ x y r. r ≡ sum x y };

    fn add(self, rhs: Self) -> Self {
        Self::of(self.code as u16 + rhs.code as u16)
    }
}

impl<const Q: u8> Mul for Residue<Q> {
    type Output = Self;

    ghost mul_gives = { λ x y r. r ≡ product x y };

    fn mul(self, rhs: Self) -> Self {
        Self::of(self.code as u16 * rhs.code as u16)
    }
}

impl<const Q: u8> Neg for Residue<Q> {
    type Output = Self;

    ghost neg_gives = { λ x r. r ≡ negative x };

    fn neg(self) -> Self {
        Self::of(Q as u16 - self.code as u16)
    }
}

impl<const Q: u8> Field for Residue<Q>
where
    Residue<Q>: PrimeModulus<Q>,
{
    const ORDER: u16 = Q as u16;

    const CHARACTERISTIC: u16 = Q as u16;

    ghost ORDER = { Q };

    ghost CHARACTERISTIC = { Q };

    ghost ops = { residues ⟦<Residue<Q> as PrimeModulus<Q>>⟧.positive ⟦<Residue<Q> as PrimeModulus<Q>>⟧.inverted };

    ghost order_is = { Prim.search rules };

    ghost characteristic_is = { Prim.search rules };

    ghost laws = { residue_laws _ ⟦<Residue<Q> as PrimeModulus<Q>>⟧.above_one (Prim.search rules) _ ⟦<Residue<Q> as PrimeModulus<Q>>⟧.inverts };

    ghost equal = { λ x y b e t. same x y (Prim.search rules) };

    ghost unequal = { Prim.search rules };

    ghost may_add = { Prim.search rules };

    ghost added = { Prim.search rules };

    ghost may_multiply = { Prim.search rules };

    ghost multiplied = { Prim.search rules };

    ghost may_negate = { Prim.search rules };

    ghost negated = { Prim.search rules };

    fn zero() -> Self {
        Self::of(0)
    }

    fn one() -> Self {
        Self::of(1)
    }

    fn inverse(self) -> Result<Self, FieldFault> {
        if self.code == 0 {
            Err(FieldFault::ZeroInverse)
        } else {
            Ok(Self::of(Self::inverse_code(self.code) as u16))
        }
    }

    fn of_code(code: u8) -> Result<Self, FieldFault> {
        if code < Q {
            Ok(Residue { code })
        } else {
            Err(FieldFault::CodeTooLarge)
        }
    }

    fn code(self) -> u8 {
        self.code
    }
}
