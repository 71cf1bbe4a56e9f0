// What a chunk store means, over every make.
ghost use Rattle.std.specs.Prelude.{◌≡◌, ℕ, false, length, is_ok, if◌then◌else◌, MatchResult};
ghost use Rattle.stores.specs.Chunks.{Free, free_count};
ghost use Rattle.stores.specs.Refusals.{refusal, spare_refusal, take_refusal, give_back_refusal, row_refusal};
ghost use Rattle.stores.specs.Stores.{Store, Bounded, RowsPerChunk, taken, given_back, written};

use crate::faults::StoreFault;
use lines::Line;

// A row of a chunk, by their numbers.
#[derive(Clone, Copy, PartialEq, Eq, Debug)]
pub struct RowIndex {
    pub chunk: usize,
    pub row: usize,
}

// How many rows a chunk has: a constant of each make.
pub trait ChunkShape {
    const ROWS: usize;

    ghost ROWS: { ℕ };

    ghost power: { RowsPerChunk ROWS };
}

// A chunk is a run of memory for so many rows, each of which holds one line. It is free, or out: handed to whoever took it.
// Every call answers on any input. A refused call changes nothing, of the store itself and not only of what it holds.
pub trait ChunkStore {
    // how many rows its chunks have, as a constant
    type Shape: ChunkShape;

    // what the store holds
    ghost model: { Self → Store };

    // how many rows a chunk has
    ghost rows: { ℕ };

    ghost power: { RowsPerChunk rows };

    // no line is told where no row can be reached
    ghost bounded: { (s : Self) → Bounded rows (model s) };

    // how many chunks there are
    fn count(&self) -> usize
        ensures value { result ≡ length (model self.now).out };

    // how many chunks are free
    fn free(&self) -> usize
        ensures value { result ≡ free_count (model self.now).out };

    // Agrees where at least k chunks are free.
    fn spare(&self, k: usize) -> Result<(), StoreFault>
        ensures said { refusal result ≡ spare_refusal (model self.now).out k };

    // Some free chunk becomes out, with all its lines empty; which one is left to the make.
    fn take(&mut self) -> Result<usize, StoreFault>
        ensures said { refusal result ≡ take_refusal (model self.old).out }
        ensures after { MatchResult result (λ c. Free (model self.old).out c × (model self.new ≡ taken (model self.old) c)) (λ _. model self.new ≡ model self.old) }
        ensures refused { is_ok result ≡ false → self.new ≡ self.old };

    // A chunk becomes free again.
    fn give_back(&mut self, chunk: usize) -> Result<(), StoreFault>
        ensures said { refusal result ≡ give_back_refusal (model self.old).out chunk }
        ensures after { model self.new ≡ (if is_ok result then given_back (model self.old) chunk else model self.old) }
        ensures refused { is_ok result ≡ false → self.new ≡ self.old };

    // Puts the line in a row of a chunk into a place that the caller lends: no line is copied on its way, and a refused read leaves the place as it was.
    fn read(&self, at: RowIndex, into: &mut Line) -> Result<(), StoreFault>
        ensures said { refusal result ≡ row_refusal rows (model self.now).out at.chunk at.row }
        ensures after { into.new ≡ (if is_ok result then (model self.now).line at.chunk at.row else into.old) };

    // Replaces the line in a row of a chunk.
    fn write(&mut self, at: RowIndex, line: &Line) -> Result<(), StoreFault>
        ensures said { refusal result ≡ row_refusal rows (model self.old).out at.chunk at.row }
        ensures after { model self.new ≡ (if is_ok result then written (model self.old) at.chunk at.row line.now else model self.old) }
        ensures refused { is_ok result ≡ false → self.new ≡ self.old };

    // the rows that clauses speak of are the shape's
    ghost shaped: { rows ≡ Self.Shape.ROWS };

    // how many rows a chunk has, a power of two from 1 to 128
    final fn rows_per_chunk() -> usize
        ensures value { result ≡ rows }
        ensures power { RowsPerChunk result }
    {
        Self::Shape::ROWS
    }
}
