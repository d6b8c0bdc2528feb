// What holds of the fields of the numbers modulo 2, 3 and 251.
ghost use Rattle.std.specs.Prelude.{◌≡◌, true};
ghost use Rattle.field.specs.Residues.{gf2, gf3, gf251};

use crate::elements::{Gf2, Gf3, Gf251};
use crate::field::Field;

// Their operations.
pub fn residue_fields()
    ensures two { ⟦<Gf2 as Field>⟧.ops ≡ gf2 }
    ensures three { ⟦<Gf3 as Field>⟧.ops ≡ gf3 }
    ensures two_hundred_fifty_one { ⟦<Gf251 as Field>⟧.ops ≡ gf251 }
{}

// The constants that stand at a type are those of its field.
pub fn residue_constants() -> bool
    ensures { result ≡ true }
{
    Gf2::ORDER == <Gf2 as Field>::ORDER
        && Gf2::CHARACTERISTIC == <Gf2 as Field>::CHARACTERISTIC
        && Gf3::ORDER == <Gf3 as Field>::ORDER
        && Gf3::CHARACTERISTIC == <Gf3 as Field>::CHARACTERISTIC
        && Gf251::ORDER == <Gf251 as Field>::ORDER
        && Gf251::CHARACTERISTIC == <Gf251 as Field>::CHARACTERISTIC
}
