// The rows and the chunks of lent memory.
ghost use Rattle.std.specs.Prelude.{◌≡◌, ◌+◌, ◌*◌, ◌≤◌, length};
ghost use Rattle.lent_store.specs.Memory.{chunk_cleared, line_at, row_put};

use crate::form::RowForm;
use lines::Line;

// the line of row i
pub(crate) fn line_at<F: RowForm>(mem: &[F::Cell], i: usize) -> Line
    requires { i * F.CELLS + F.CELLS ≤ length mem.now }
    ensures { result ≡ line_at F.CELLS F.line_of mem.now i }
{
    let from = i * F::CELLS;
    F::line_of(&mem[from..from + F::CELLS])
}

// Puts a line into row i.
pub(crate) fn put_at<F: RowForm>(mem: &mut [F::Cell], i: usize, line: &Line)
    requires { i * F.CELLS + F.CELLS ≤ length mem.old }
    ensures { mem.new ≡ row_put F.CELLS mem.old i (F.row_of line.now) }
{
    let from = i * F::CELLS;
    F::put(&mut mem[from..from + F::CELLS], line);
}

// Makes every row of a chunk that of the empty line.
pub(crate) fn clear_chunk<F: RowForm>(mem: &mut [F::Cell], chunk: usize)
    requires { chunk * (F.ROWS * F.CELLS) + F.ROWS * F.CELLS ≤ length mem.old }
    ensures { mem.new ≡ chunk_cleared F.ROWS F.CELLS F.blank mem.old chunk }
{
    let size = F::ROWS * F::CELLS;
    let from = chunk * size;
    F::clear(&mut mem[from..from + size]);
}
