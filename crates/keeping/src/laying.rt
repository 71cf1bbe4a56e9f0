// Lines laid into rows.
// The store and the list of chunks taken from it stay two parameters: a struct of both would hold the loan of the store, and each contract would have to say that the loan is the same afterwards.
ghost use Rattle.std.specs.Prelude.{◌≡◌, ◌/◌, ◌%◌, ◌<◌, ◌≤◌, min, true, [], length, vec_len, vec_capacity, MatchResult, OnOk, slice_index};
ghost use Rattle.stores.specs.Chunks.{free_count, is_out};
ghost use Rattle.stores.specs.Stores.{written};
ghost use Rattle.keeping.specs.Laid.{Opened, Ready, NoRoom, LineLaid, Laid, line_put};
ghost use Rattle.keeping.specs.Stays.{chunks_for, rows_for, stop_refusal, left_out_refusal};

use lines::Line;
use stores::{ChunkStore, RowIndex, StoreFault};

// Takes a chunk for line k where its row is the first of one, and puts it at the end of the list.
fn take_for<S: ChunkStore>(
    store: &mut S,
    chunks: &mut Vec<usize>,
    k: usize,
) -> Result<(), StoreFault>
    requires chunks { vec_len chunks.old ≡ chunks_for S.ChunkStore.rows k }
    requires out { k / S.ChunkStore.rows < vec_len chunks.old → Ready S.ChunkStore.rows k (S.ChunkStore.model store.old) chunks.old.items }
    requires room { 0 < free_count (S.ChunkStore.model store.old).out → k / S.ChunkStore.rows < vec_capacity chunks.old }
    ensures cases { MatchResult result (λ _. Opened S.ChunkStore.rows k (S.ChunkStore.model store.old) chunks.old.items (S.ChunkStore.model store.new) chunks.new.items) (λ e. NoRoom S.ChunkStore.rows k e (S.ChunkStore.model store.old) chunks.old.items (S.ChunkStore.model store.new) chunks.new.items) }
    ensures ready { OnOk result (Ready S.ChunkStore.rows k (S.ChunkStore.model store.new) chunks.new.items) }
    ensures cap { vec_capacity chunks.new ≡ vec_capacity chunks.old }
{
    if k % S::rows_per_chunk() != 0 {
        return Ok(());
    }
    let chunk = store.take()?;
    chunks.push_reserved(chunk);
    Ok(())
}

// Replaces the line in a row that can be reached.
fn write_row<S: ChunkStore>(store: &mut S, at: RowIndex, line: &Line)
    requires { (is_out (S.ChunkStore.model store.old).out at.chunk ≡ true) × (at.row < S.ChunkStore.rows) }
    ensures { S.ChunkStore.model store.new ≡ written (S.ChunkStore.model store.old) at.chunk at.row line.now }
{
    let _ = store.write(at, line);
}

// the row of line k, for which there is a chunk
pub(crate) fn row_of(chunks: &[usize], rows: usize, k: usize) -> RowIndex
    requires { (0 < rows) × (k / rows < length chunks.now) }
    ensures chunk { result.chunk ≡ slice_index chunks.now (k / rows) }
    ensures row { result.row ≡ k % rows }
{
    RowIndex {
        chunk: chunks[k / rows],
        row: k % rows,
    }
}

// Writes line k into its row, for which there is a chunk.
fn put_line<S: ChunkStore>(store: &mut S, chunks: &[usize], k: usize, line: &Line)
    requires { Ready S.ChunkStore.rows k (S.ChunkStore.model store.old) chunks.now }
    ensures { S.ChunkStore.model store.new ≡ line_put S.ChunkStore.rows k line.now (S.ChunkStore.model store.old) chunks.now }
{
    let at = row_of(chunks, S::rows_per_chunk(), k);
    write_row(store, at, line);
}

// Lays line k into its row, for which a chunk is taken where it is the first of one.
fn lay_line<S: ChunkStore>(
    store: &mut S,
    chunks: &mut Vec<usize>,
    k: usize,
    line: &Line,
) -> Result<(), StoreFault>
    requires chunks { vec_len chunks.old ≡ chunks_for S.ChunkStore.rows k }
    requires out { k / S.ChunkStore.rows < vec_len chunks.old → Ready S.ChunkStore.rows k (S.ChunkStore.model store.old) chunks.old.items }
    requires room { 0 < free_count (S.ChunkStore.model store.old).out → k / S.ChunkStore.rows < vec_capacity chunks.old }
    ensures cases { MatchResult result (λ _. LineLaid S.ChunkStore.rows k line.now (S.ChunkStore.model store.old) chunks.old.items (S.ChunkStore.model store.new) chunks.new.items) (λ e. NoRoom S.ChunkStore.rows k e (S.ChunkStore.model store.old) chunks.old.items (S.ChunkStore.model store.new) chunks.new.items) }
    ensures cap { vec_capacity chunks.new ≡ vec_capacity chunks.old }
{
    take_for(store, chunks, k)?;
    put_line(store, chunks.as_slice(), k, line);
    Ok(())
}

// Lays the lines in order until no chunk is free, and answers how many found a row and what stopped it.
pub(crate) fn lay<S: ChunkStore>(
    store: &mut S,
    chunks: &mut Vec<usize>,
    lines: &[Line],
) -> (usize, Option<StoreFault>)
    requires none { chunks.old.items ≡ [] }
    requires room { min (chunks_for S.ChunkStore.rows (length lines.now)) (free_count (S.ChunkStore.model store.old).out) ≤ vec_capacity chunks.old }
    ensures laid { Laid S.ChunkStore.rows (S.ChunkStore.model store.old) lines.now result.0 (S.ChunkStore.model store.new) chunks.new.items }
    ensures chunks { vec_len chunks.new ≡ chunks_for S.ChunkStore.rows result.0 }
    ensures rows { result.0 ≡ rows_for S.ChunkStore.rows (free_count (S.ChunkStore.model store.old).out) (length lines.now) }
    ensures stopped { stop_refusal result.1 ≡ left_out_refusal result.0 (length lines.now) }
{
    for (k, line) in lines.iter().enumerate() {
        if let Err(fault) = lay_line(store, chunks, k, line) {
            return (k, Some(fault));
        }
    }
    (lines.len(), None)
}
