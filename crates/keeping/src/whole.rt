// A stay of lines in a store.
ghost use Rattle.std.specs.Prelude.{◌≡◌, length, IfOk};
ghost use Rattle.keeping.specs.Stays.{Stayed};

use crate::giving::give_all;
use crate::laying::lay;
use crate::looking::count_same;
use crate::stay::Stay;
use lines::Line;
use std::alloc::{AllocError, Global};
use stores::ChunkStore;

// Lays the lines into chunks that it takes, reads every row back that it wrote, and gives the chunks back in the order taken.
// Line k goes to row k mod R of the chunk taken as number k div R, at R rows a chunk, until no chunk is free.
pub fn keep<S: ChunkStore>(heap: Global, store: &mut S, lines: &[Line]) -> Result<Stay, AllocError>
    ensures unchanged { S.ChunkStore.model store.new ≡ S.ChunkStore.model store.old }
    ensures stay { IfOk result (Stayed S.ChunkStore.rows (S.ChunkStore.model store.old).out (length lines.now)) }
{
    let needed = lines.len().div_ceil(S::rows_per_chunk());
    let asked = store.spare(needed);
    let most = needed.min(store.free());
    let mut chunks = Vec::with_capacity(heap, most)?;
    let (rows, stopped) = lay(store, &mut chunks, lines);
    let same = count_same(store, chunks.as_slice(), &lines[0..rows]);
    give_all(store, chunks.as_slice());
    Ok(Stay {
        chunks: chunks.len(),
        rows,
        same,
        asked,
        stopped,
    })
}
