// A store on lent memory, and what it leaves there.
ghost use Rattle.std.specs.Prelude.{◌≡◌, false, replicate};
ghost use Rattle.stores.specs.Chunks.{free_count};
ghost use Rattle.stores.specs.Choices.{chosen};
ghost use Rattle.stores.specs.Refusals.{refusal, take_refusal};
ghost use Rattle.lent_store.specs.Lent.{shown};
ghost use Rattle.lent_store.specs.Memory.{chunk_count};
ghost use Rattle.packed_store.specs.Packed as packs;
ghost use Rattle.record_store.specs.Records as records;
ghost use Rattle.round_trip.specs.Trips.{bytes_after, memory_after, records_after};

use lent_store::{LentStore, RowForm};
use lines::Line;
use packed_store::Packs;
use record_store::Records;
use stores::{ChunkStore, RowIndex, StoreFault};

// Writes a line to a chunk taken for it, and gives the chunk back.
fn leave<F: RowForm>(store: &mut LentStore<F>, line: &Line) -> Result<(), StoreFault>
    ensures said { refusal result ≡ take_refusal (shown F.ROWS F.CELLS F.line_of store.old).out }
    ensures memory { store.new.mem.now ≡ memory_after F.ROWS F.CELLS F.blank (free_count (shown F.ROWS F.CELLS F.line_of store.old).out) (chosen (shown F.ROWS F.CELLS F.line_of store.old).out store.old.marks.mark) store.old.mem.now (F.row_of line.now) }
    ensures named { store.new.mem.ghost_name ≡ store.old.mem.ghost_name }
{
    let chunk = store.take()?;
    store.write(RowIndex { chunk, row: 0 }, line)?;
    store.give_back(chunk)
}

// The line is left in row 0 of chunk 0, though the chunk was given back.
pub fn lend<F: RowForm>(mem: &mut [F::Cell], line: &Line) -> Result<(), StoreFault>
    ensures said { refusal result ≡ take_refusal (replicate (chunk_count F.ROWS F.CELLS mem.old) false) }
    ensures memory { mem.new ≡ memory_after F.ROWS F.CELLS F.blank (chunk_count F.ROWS F.CELLS mem.old) 0 mem.old (F.row_of line.now) }
{
    let mut store = LentStore::<F>::new(mem);
    leave(&mut store, line)
}

// What the two makes leave, in the words of records and of bytes: each is the one function at its row form, and only its promise is its own.
pub fn lend_records(mem: &mut [[u64; 9]], line: &Line) -> Result<(), StoreFault>
    ensures said { refusal result ≡ take_refusal (replicate (records.chunk_count mem.old) false) }
    ensures memory { mem.new ≡ records_after (records.chunk_count mem.old) 0 mem.old line.now }
{
    lend::<Records>(mem, line)
}

pub fn lend_bytes(mem: &mut [u8], line: &Line) -> Result<(), StoreFault>
    ensures said { refusal result ≡ take_refusal (replicate (packs.chunk_count mem.old) false) }
    ensures memory { mem.new ≡ bytes_after (packs.chunk_count mem.old) 0 mem.old line.now }
{
    lend::<Packs>(mem, line)
}
