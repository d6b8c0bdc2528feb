// The fields, run.
use crate::elements::{Gf2, Gf3, Gf4, Gf251};
use crate::fault::FieldFault;
use crate::field::Field;
use std::process::Abort;
use std::test::Fail;

fn number<F: Field>(answer: Result<F, FieldFault>) -> Option<u8> {
    answer.err().map(FieldFault::number)
}

// The constants of a field, what it refuses, and that as many ones as its characteristic add to zero.
fn field_is<F: Field>(rt: &impl Abort, order: u8, characteristic: u16) {
    assert_eq!(rt; F::ORDER, u16::from(order));
    assert_eq!(rt; F::CHARACTERISTIC, characteristic);
    assert_eq!(rt; number(F::of_code(order)), Some(81));
    assert_eq!(rt; number(F::of_code(255)), Some(81));
    assert_eq!(rt; number(F::zero().inverse()), Some(80));
    assert_eq!(rt; number(F::one().over(F::zero())), Some(80));
    let sum = (0..characteristic).fold(F::zero(), |sum, _| sum + F::one());
    assert!(rt; sum.is_zero());
}

fn inverse_is<F: Field>(rt: &impl Abort, code: u8, inverse: u8) -> Result<(), Fail> {
    let x = F::of_code(code)?;
    assert_eq!(rt; x.inverse()?.code(), inverse);
    assert_eq!(rt; F::one().over(x)?.code(), inverse);
    Ok(())
}

fn product_is<F: Field>(rt: &impl Abort, a: u8, b: u8, product: u8) -> Result<(), Fail> {
    let x = F::of_code(a)?;
    let y = F::of_code(b)?;
    assert_eq!(rt; (x * y).code(), product);
    Ok(())
}

#[test]
fn constants_and_refusals(rt: HostRuntime) {
    field_is::<Gf2>(&rt, 2, 2);
    field_is::<Gf3>(&rt, 3, 3);
    field_is::<Gf4>(&rt, 4, 2);
    field_is::<Gf251>(&rt, 251, 251);
}

#[test]
fn faults_in_words(rt: HostRuntime) -> Result<(), Fail> {
    let told = FieldFault::ZeroInverse.to_string(rt.alloc())?;
    assert_eq!(rt; told.as_str(), "zero has no inverse");
    let told = FieldFault::CodeTooLarge.to_string(rt.alloc())?;
    assert_eq!(rt; told.as_str(), "the field has no element of that code");
    Ok(())
}

#[test]
fn inverses(rt: HostRuntime) -> Result<(), Fail> {
    for (code, inverse) in [(2, 126), (3, 84), (250, 250)] {
        inverse_is::<Gf251>(&rt, code, inverse)?;
    }
    inverse_is::<Gf4>(&rt, 2, 3)
}

#[test]
fn products_of_four(rt: HostRuntime) -> Result<(), Fail> {
    for (a, b, product) in [(2, 2, 3), (2, 3, 1), (3, 3, 2)] {
        product_is::<Gf4>(&rt, a, b, product)?;
    }
    Ok(())
}
