// What a field is, and what each field's type proves.
ghost use Rattle.std.specs.Prelude.{◌≡◌, ℕ, ◌<◌, ◌≤◌, Bool, T, MatchResult, ◌≢◌};
ghost use Rattle.field.specs.Fields.{FieldOf, FieldLaws, is_zero};
ghost use Rattle.field.specs.declared.fault.FieldFault.TheVariants.{ZeroInverse as NoInverse, CodeTooLarge as NoElement};

use crate::fault::FieldFault;
use std::ops::{Add, Mul, Neg};

pub trait Field: Copy + PartialEq + Add<Output = Self> + Mul<Output = Self> + Neg<Output = Self> {
    const ORDER: u16;

    const CHARACTERISTIC: u16;

    // What clauses know of the two constants.
    ghost ORDER: { ℕ };

    ghost CHARACTERISTIC: { ℕ };

    ghost ops: { FieldOf Self };

    fn zero() -> Self
        ensures { result ≡ ops.zero };

    fn one() -> Self
        ensures { result ≡ ops.one };

    fn inverse(self) -> Result<Self, FieldFault>
        ensures { MatchResult result (λ y. (self ≢ ops.zero) × (y ≡ ops.inverse self)) (λ e. (self ≡ ops.zero) × (e ≡ NoInverse)) };

    // The element of a code.
    fn of_code(code: u8) -> Result<Self, FieldFault>
        ensures { MatchResult result (λ x. (code < ops.order) × (ops.code x ≡ code)) (λ e. (ops.order ≤ code) × (e ≡ NoElement)) };

    fn code(self) -> u8
        ensures { result ≡ ops.code self };

    fn is_zero(self) -> bool
        ensures { result ≡ is_zero ops self }
    {
        self.code() == 0
    }

    // The quotient.
    fn over(self, divisor: Self) -> Result<Self, FieldFault>
        ensures { MatchResult result (λ y. (divisor ≢ ops.zero) × (y ≡ ops.product self (ops.inverse divisor))) (λ e. (divisor ≡ ops.zero) × (e ≡ NoInverse)) }
    {
        Ok(self * divisor.inverse()?)
    }

    ghost order_is: { ORDER ≡ ops.order };

    ghost characteristic_is: { CHARACTERISTIC ≡ ops.characteristic };

    ghost laws: { FieldLaws ops };

    ghost equal: { (x y : Self) (b : Bool) → (b ≡ Self.PartialEq.eq x y) → T b → x ≡ y };

    ghost unequal: { (x y : Self) (b : Bool) → (b ≡ Self.PartialEq.eq x y) → x ≡ y → T b };

    ghost may_add: { (x y : Self) → Self.Add.can_add x y };

    ghost added: { (x y r : Self) → Self.Add.add_gives x y r → r ≡ ops.sum x y };

    ghost may_multiply: { (x y : Self) → Self.Mul.can_mul x y };

    ghost multiplied: { (x y r : Self) → Self.Mul.mul_gives x y r → r ≡ ops.product x y };

    ghost may_negate: { (x : Self) → Self.Neg.can_neg x };

    ghost negated: { (x r : Self) → Self.Neg.neg_gives x r → r ≡ ops.negative x };
}
