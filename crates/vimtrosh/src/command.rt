// The commands of a script.
ghost use Rattle.std.specs.Prelude.{◌≡◌, MatchResult, ◌≢◌};
ghost use Rattle.vimtrosh.specs.Names.{order_of, word_of};
ghost use Rattle.vimtrosh.specs.declared.expected.Expected.TheVariants.{FieldOrder as NoOrder, KindOfCells as NoKind};

use crate::expected::Expected;
use std::str::FromStr;

#[derive(Clone, Copy, PartialEq, Eq, Debug)]
pub enum FieldName {
    Gf2,
    Gf3,
    Gf4,
    Gf251,
}

#[derive(Clone, Copy, PartialEq, Eq, Debug)]
pub enum KindName {
    Simplex,
    Cube,
}

// What changes a model or its trial.
#[derive(Drop)]
pub enum Change {
    Enter { numbers: Vec<u16> },
    Off,
    Open,
    Keep,
    Undo,
}

// What is asked of a model.
#[derive(Clone, Copy, PartialEq, Eq, Debug)]
pub enum Question {
    Cells,
    Betti,
    BettiOf { dimension: u8 },
    Counts,
    Cycle { dimension: u8, place: usize },
}

// What a part is made of: its field, its kind of cells, and how many cells and column entries it has room for.
#[derive(Clone, Copy, PartialEq, Eq, Debug)]
pub struct Part {
    pub field: FieldName,
    pub kind: KindName,
    pub cells: usize,
    pub entries: usize,
}

// Data and no closures: a line is read before it is known what model and memory it is carried out on.
#[derive(Drop)]
pub enum Command {
    Part(Part),
    Buffer { places: usize },
    Change(Change),
    Ask(Question),
}

impl TryFrom<u64> for FieldName {
    type Error = Expected;

    ghost try_from_gives = { λ order r. MatchResult r (λ name. order_of name ≡ order) (λ e. (e ≡ NoOrder) × ((name : _) → order_of name ≢ order)) };

    fn try_from(order: u64) -> Result<FieldName, Expected> {
        match order {
            2 => Ok(FieldName::Gf2),
            3 => Ok(FieldName::Gf3),
            4 => Ok(FieldName::Gf4),
            251 => Ok(FieldName::Gf251),
            _ => Err(Expected::FieldOrder),
        }
    }
}

impl FromStr for KindName {
    type Err = Expected;

    ghost from_str_gives = { λ word r. MatchResult r (λ kind. word_of kind ≡ word) (λ e. (e ≡ NoKind) × ((kind : _) → word_of kind ≢ word)) };

    fn from_str(word: &str) -> Result<KindName, Expected> {
        match word {
            "simplex" => Ok(KindName::Simplex),
            "cube" => Ok(KindName::Cube),
            _ => Err(Expected::KindOfCells),
        }
    }
}
