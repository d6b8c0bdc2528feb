// Memory that is made for a model, and nonsense to write into it.
use cell::kind::Kind;
use columns::column::Column;
use field::field::Field;
use homology::term::Term;
use kernel::memory::Memory;
use std::alloc::{AllocError, Global};

// A column that points nowhere.
pub(crate) const BROKEN_COLUMN: Column = Column {
    start: 4000000000,
    reduced: 65535,
    basis: 65535,
    killer: Some(3),
};

// The lists whose slices are lent to a model.
#[derive(Drop)]
pub(crate) struct Lists<F, C> {
    cells: Vec<C>,
    index: Vec<u16>,
    columns: Vec<Column>,
    entries: Vec<Term<F>>,
    work: Vec<Term<F>>,
}

impl<F: Field, C: Kind> Lists<F, C> {
    // Lists for n cells and e column entries: a cell at each place, and blanks.
    pub(crate) fn new(
        heap: Global,
        n: usize,
        e: usize,
        cell: C,
    ) -> Result<Lists<F, C>, AllocError> {
        // Written out: a Default of columns would serve this place alone.
        let column = Column {
            start: 0,
            reduced: 0,
            basis: 0,
            killer: None,
        };
        let term = Term {
            number: 0,
            coefficient: F::zero(),
        };
        Ok(Lists {
            cells: vec![in heap; cell; n]?,
            index: vec![in heap; 0; n]?,
            columns: vec![in heap; column; n]?,
            entries: vec![in heap; term; e]?,
            work: vec![in heap; term; n.saturating_mul(4)]?,
        })
    }

    pub(crate) fn lend(&mut self) -> Memory<'_, F, C> {
        Memory {
            cells: &mut self.cells,
            index: &mut self.index,
            columns: &mut self.columns,
            entries: &mut self.entries,
            work: &mut self.work,
        }
    }
}
