// The elements of the fields: each has a code below the order of its field.
ghost use Rattle.std.specs.Prelude.{◌<◌};

// A number modulo Q.
#[derive(Clone, Copy, PartialEq, Eq, Debug)]
pub struct Residue<const Q: u8> {
    pub(crate) code: u8,
    ghost below: { code < Q },
}

pub type Gf2 = Residue<2>;

pub type Gf3 = Residue<3>;

pub type Gf251 = Residue<251>;

#[derive(Clone, Copy, PartialEq, Eq, Debug)]
pub struct Gf4 {
    pub(crate) code: u8,
    ghost below: { code < 4 },
}
