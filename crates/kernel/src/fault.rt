// What a call on a model refuses.
ghost use Rattle.std.specs.Prelude.{◌≡◌, Some};
ghost use Rattle.kernel.specs.Faults.{fault_number, fault_place, fault_words, fault_layer, of_column, of_boundary, of_chain};
ghost use Rattle.kernel.specs.declared.fault.ModelFault.TheVariants.{Field as OfField};

use chains::fault::ChainFault;
use columns::boundary::BoundaryFault;
use columns::fault::ColumnFault;
use field::fault::FieldFault;
use std::error::Error;
use std::fmt;

// The layer that a fault comes from.
#[derive(Clone, Copy, PartialEq, Eq, Debug)]
pub enum Layer {
    Field,
    Model,
}

#[derive(Clone, Copy, PartialEq, Eq, Debug)]
pub enum ModelFault {
    Field { fault: FieldFault, place: usize },
    BadSize,
    WrongLength,
    Improper,
    AlreadyStanding,
    MissingFacet { facet: u8 },
    NoPlace,
    NoRoom,
    NothingToTakeOff,
    NotNormal { place: usize },
    NoSuchCell { place: usize },
    OtherDimension { place: usize },
    ShortBuffer,
    NotCycle,
    HighDimension,
    NoSuchCycle,
    NoCells,
}

impl ModelFault {
    // The rules fix the number under which each refusal is told.
    pub fn number(self) -> u8
        ensures { result ≡ fault_number self }
    {
        match self {
            ModelFault::Field { fault, place: _ } => fault.number(),
            ModelFault::BadSize => 10,
            ModelFault::WrongLength => 11,
            ModelFault::Improper => 20,
            ModelFault::AlreadyStanding => 21,
            ModelFault::MissingFacet { facet: _ } => 22,
            ModelFault::NoPlace => 23,
            ModelFault::NoRoom => 24,
            ModelFault::NothingToTakeOff => 30,
            ModelFault::NotNormal { place: _ } => 40,
            ModelFault::NoSuchCell { place: _ } => 41,
            ModelFault::OtherDimension { place: _ } => 42,
            ModelFault::ShortBuffer => 43,
            ModelFault::NotCycle => 50,
            ModelFault::HighDimension => 60,
            ModelFault::NoSuchCycle => 61,
            ModelFault::NoCells => 62,
        }
    }

    // The place that the fault names; the rules fix 0 where they name none.
    pub fn place(self) -> usize
        ensures { result ≡ fault_place self }
    {
        match self {
            ModelFault::Field { fault: _, place } => place,
            ModelFault::MissingFacet { facet } => facet as usize,
            ModelFault::NotNormal { place } => place,
            ModelFault::NoSuchCell { place } => place,
            ModelFault::OtherDimension { place } => place,
            _ => 0,
        }
    }

    pub fn layer(self) -> Layer
        ensures { result ≡ fault_layer self }
    {
        match self {
            ModelFault::Field { fault: _, place: _ } => Layer::Field,
            _ => Layer::Model,
        }
    }
}

// By hand, since a derive by thiserror states no output.
impl fmt::Display for ModelFault {
    ghost output = { λ fault. Some (fault_words fault) };

    fn fmt<W: fmt::Write>(&self, f: &mut fmt::Formatter<W>) -> fmt::Result {
        f.write_str(match *self {
            ModelFault::Field { fault, place: _ } => return fault.fmt(f),
            ModelFault::BadSize => "a model has 1 to 4096 cell places",
            ModelFault::WrongLength =>
                "a length does not fit: a model has at most 1048576 column entries",
            ModelFault::Improper => "the cell is improper",
            ModelFault::AlreadyStanding => "the cell stands already",
            ModelFault::MissingFacet { facet: _ } => "the facet of that number does not stand",
            ModelFault::NoPlace => "no cell place is left",
            ModelFault::NoRoom => "too few column entries are left",
            ModelFault::NothingToTakeOff => "there is no cell to take off",
            ModelFault::NotNormal { place: _ } =>
                "a number is not below the one before, or a coefficient is zero",
            ModelFault::NoSuchCell { place: _ } => "no cell of that number stands",
            ModelFault::OtherDimension { place: _ } => "the cell has another dimension",
            ModelFault::ShortBuffer => "the answer is longer than its buffer",
            ModelFault::NotCycle => "the chain is no cycle",
            ModelFault::HighDimension => "the dimension is above 15",
            ModelFault::NoSuchCycle => "there is no such cycle",
            ModelFault::NoCells => "no cell stands",
        })
    }
}

impl Error for ModelFault {}

// From by hand, here and below, since contracts cite what it gives. A field's fault is passed on whole; the model's rules name a place only for a chain's entry.
impl From<FieldFault> for ModelFault {
    ghost from_gives = { λ f r. r ≡ OfField f 0 };

    fn from(fault: FieldFault) -> ModelFault {
        ModelFault::Field { fault, place: 0 }
    }
}

impl From<ColumnFault> for ModelFault {
    ghost from_gives = { λ f r. r ≡ of_column f };

    fn from(fault: ColumnFault) -> ModelFault {
        match fault {
            ColumnFault::Field(fault) => fault.into(),
            ColumnFault::NoRoom => ModelFault::NoRoom,
        }
    }
}

impl From<BoundaryFault> for ModelFault {
    ghost from_gives = { λ f r. r ≡ of_boundary f };

    fn from(fault: BoundaryFault) -> ModelFault {
        match fault {
            BoundaryFault::MissingFacet { facet } => ModelFault::MissingFacet { facet },
            BoundaryFault::Column(fault) => fault.into(),
        }
    }
}

impl From<ChainFault> for ModelFault {
    ghost from_gives = { λ f r. r ≡ of_chain f };

    fn from(fault: ChainFault) -> ModelFault {
        match fault {
            ChainFault::Field { fault, place } => ModelFault::Field { fault, place },
            ChainFault::NotNormal { place } => ModelFault::NotNormal { place },
            ChainFault::NoSuchCell { place } => ModelFault::NoSuchCell { place },
            ChainFault::OtherDimension { place } => ModelFault::OtherDimension { place },
            ChainFault::NotCycle => ModelFault::NotCycle,
        }
    }
}
