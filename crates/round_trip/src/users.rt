// A line through any store and back.
ghost use Rattle.std.specs.Prelude.{◌≡◌, is_ok, if◌then◌else◌};
ghost use Rattle.stores.specs.Refusals.{refusal, row_refusal};
ghost use Rattle.stores.specs.Stores.{written};
ghost use Rattle.round_trip.specs.Trips.{trip_refusal};

use lines::Line;
use stores::{ChunkStore, RowIndex, StoreFault};

fn write_and_read<S: ChunkStore>(
    store: &mut S,
    at: RowIndex,
    line: &Line,
    into: &mut Line,
) -> Result<(), StoreFault>
    ensures said { refusal result ≡ row_refusal S.ChunkStore.rows (S.ChunkStore.model store.old).out at.chunk at.row }
    ensures after { S.ChunkStore.model store.new ≡ (if is_ok result then written (S.ChunkStore.model store.old) at.chunk at.row line.now else S.ChunkStore.model store.old) }
    ensures back { into.new ≡ (if is_ok result then line.now else into.old) }
{
    store.write(at, line)?;
    store.read(at, into)
}

// Takes a chunk, writes a line into a row of it, reads it back and gives the chunk back: the line comes back as it was, and the store holds what it held.
pub fn round_trip<S: ChunkStore>(
    store: &mut S,
    row: usize,
    line: &Line,
    into: &mut Line,
) -> Result<(), StoreFault>
    ensures said { refusal result ≡ trip_refusal S.ChunkStore.rows (S.ChunkStore.model store.old).out row }
    ensures after { S.ChunkStore.model store.new ≡ S.ChunkStore.model store.old }
    ensures back { into.new ≡ (if is_ok result then line.now else into.old) }
{
    let chunk = store.take()?;
    let done = write_and_read(store, RowIndex { chunk, row }, line, into);
    store.give_back(chunk)?;
    done
}
