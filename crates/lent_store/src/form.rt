// How a line stands in a row of memory.
ghost use Rattle.std.specs.Prelude.{◌≡◌, ℕ, ◌*◌, ◌<◌, ◌≤◌, List, length, replicate, if◌then◌else◌, ◌==◌};
ghost use Rattle.lines.specs.declared.rows.Line.{Line as TheLine};
ghost use Rattle.lines.specs.Lines.{empty_line};

use lines::Line;
use stores::ChunkShape;

// A row is so many cells of memory, and a chunk so many rows.
pub trait RowForm: ChunkShape {
    // what memory is made of
    type Cell: Copy;

    // how many cells a row has
    const CELLS: usize;

    ghost CELLS: { ℕ };

    // the cell that clearing leaves
    ghost blank: { Self.Cell };

    // the cells of a line
    ghost row_of: { TheLine → List Self.Cell };

    // the line that cells stand for, the empty line where they are those of none
    ghost line_of: { List Self.Cell → TheLine };

    fn line_of(row: &[Self::Cell]) -> Line
        ensures { result ≡ line_of row.now };

    // Puts the line in a row; cells that are not a row stay as they are.
    fn put(row: &mut [Self::Cell], line: &Line)
        ensures { row.new ≡ (if length row.old == CELLS then row_of line.now else row.old) };

    // Makes the cells blank, however many.
    fn clear(cells: &mut [Self::Cell])
        ensures { cells.new ≡ replicate (length cells.old) blank };

    // a chunk has some cells
    ghost some: { 0 < Self.ROWS * CELLS };

    // so few that the cells of 256 chunks can be counted
    ghost few: { Self.ROWS * CELLS ≤ 8192 };

    // a line takes one row
    ghost row_size: { (l : TheLine) → length (row_of l) ≡ CELLS };

    // a line put in a row is read from it
    ghost line_back: { (l : TheLine) → line_of (row_of l) ≡ l };

    // a cleared row is that of the empty line
    ghost blank_row: { line_of (replicate CELLS blank) ≡ empty_line };
}
