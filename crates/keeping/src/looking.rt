// Rows read back.
ghost use Rattle.std.specs.Prelude.{◌≡◌, ◌↔◌, [], length, IsTrue};
ghost use Rattle.stores.specs.Refusals.{row_refusal};
ghost use Rattle.keeping.specs.Laid.{Standing};

use crate::laying::row_of;
use lines::Line;
use stores::{ChunkStore, RowIndex};

fn reads_back<S: ChunkStore>(store: &S, at: RowIndex, line: &Line) -> bool
    ensures { IsTrue result ↔ ((row_refusal S.ChunkStore.rows (S.ChunkStore.model store.now).out at.chunk at.row ≡ []) × ((S.ChunkStore.model store.now).line at.chunk at.row ≡ line.now)) }
{
    let mut found = Line::empty();
    store.read(at, &mut found).is_ok() && found == *line
}

// How many of the lines read back the same, line k from row k mod R of chunk k div R of the list.
pub(crate) fn count_same<S: ChunkStore>(store: &S, chunks: &[usize], lines: &[Line]) -> usize
    requires { Standing S.ChunkStore.rows (S.ChunkStore.model store.now) chunks.now lines.now }
    ensures { result ≡ length lines.now }
{
    let rows = S::rows_per_chunk();
    // A loop is no less plain than `filter(..).count()` here: its invariant is one line, and the chain would leave a longer proof.
    let mut same = 0;
    for (k, line) in lines.iter().enumerate() {
        let at = row_of(chunks, rows, k);
        if reads_back(store, at, line) {
            same += 1;
        }
    }
    same
}
