// The rows of the occurrence table.
ghost use Rattle.std.specs.Prelude.{◌<◌};
ghost use Rattle.planes.specs.Machine.{row_count};

use crate::ROW;
use formula::Literal;

// A row of the occurrence table, by its word: that of a literal, or one of the two that no literal
// has. Row 0 stands for no literal to hold.
#[derive(Clone, Copy)]
pub struct TableRow {
    pub word: u32,
    pub ghost within: { word < row_count },
}

impl TableRow {
    ghost use Rattle.std.specs.Prelude.{◌≡◌, ◌*◌};
    ghost use Rattle.planes.specs.Machine.{row_words};

    // No literal: the row is empty.
    pub const NONE: TableRow = TableRow { word: 0 };

    pub fn of(literal: Literal) -> TableRow
        ensures { result.word ≡ literal.word }
    {
        TableRow { word: literal.word }
    }

    // Where it begins in the table.
    pub(crate) fn first_cell(self) -> usize
        ensures { (result ≡ self.word * row_words) × (self.word < row_count) }
    {
        self.word as usize * ROW
    }
}

impl From<Option<Literal>> for TableRow {
    ghost use Rattle.std.specs.Prelude.{◌≡◌};
    ghost use Rattle.planes.specs.Machine.{word_of};

    ghost from_gives = { λ literal row. row.word ≡ word_of literal };

    fn from(literal: Option<Literal>) -> TableRow {
        match literal {
            Some(literal) => TableRow::of(literal),
            None => TableRow::NONE,
        }
    }
}
