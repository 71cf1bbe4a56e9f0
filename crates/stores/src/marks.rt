// Which chunks are out, and from where on a free one is looked for.
ghost use Rattle.std.specs.Prelude.{◌≡◌, ◌<◌, min, true, false, length, replicate, is_ok, IfOk, if◌then◌else◌, slice_index_or};
ghost use Rattle.stores.specs.Chunks.{free_count};
ghost use Rattle.stores.specs.Choices.{MarksTook, marks_taken, marks_given};
ghost use Rattle.stores.specs.Refusals.{refusal, spare_refusal, take_refusal, give_back_refusal, row_refusal};
ghost use Rattle.stores.specs.Views.{out_of};

use crate::faults::StoreFault;
use crate::free::{chosen, count_free};
use crate::store::RowIndex;

// how many chunks a store on handed-over memory has at most
pub const MOST_CHUNKS: usize = 256;

// One for each chunk, true where it is out, and the mark from which on a free one is looked for. Fixed memory, since no call of a store allocates.
// How many chunks there are is told at each call, for it follows from the memory. Kept here, it would need a law that ties it to the memory; and a store with
// such a law is refused as the type argument of a generic struct, so that no space could be built over any store.
#[derive(Drop)]
pub struct Marks {
    out: [bool; MOST_CHUNKS],
    mark: usize,
}

impl Marks {
    // all chunks are free, and the mark stands at 0
    pub fn new() -> Marks
        ensures out { result.out ≡ replicate 256 false }
        ensures mark { result.mark ≡ 0 }
    {
        Marks {
            out: [false; MOST_CHUNKS],
            mark: 0,
        }
    }

    // the marks of the first n chunks
    fn first(&self, n: usize) -> &[bool]
        ensures is { result.now ≡ out_of n self.now }
        ensures size { length result.now ≡ min 256 n }
    {
        &self.out[0..n.min(MOST_CHUNKS)]
    }

    // n, but at most 256
    pub fn count(&self, n: usize) -> usize
        ensures value { result ≡ length (out_of n self.now) }
        ensures size { result ≡ min 256 n }
    {
        self.first(n).len()
    }

    pub fn free(&self, n: usize) -> usize
        ensures { result ≡ free_count (out_of n self.now) }
    {
        count_free(self.first(n))
    }

    pub fn spare(&self, n: usize, k: usize) -> Result<(), StoreFault>
        ensures { refusal result ≡ spare_refusal (out_of n self.now) k }
    {
        let free = self.free(n);
        if k <= free {
            Ok(())
        } else {
            Err(StoreFault::TooFewFree { needed: k, free })
        }
    }

    fn mark_out(&mut self, chunk: usize)
        requires { chunk < 256 }
        ensures { self.new ≡ marks_taken self.old chunk }
    {
        self.out[chunk] = true;
        self.mark = chunk + 1;
    }

    // Takes the first free chunk at or above the mark, going round to 0.
    pub fn take(&mut self, n: usize) -> Result<usize, StoreFault>
        ensures said { refusal result ≡ take_refusal (out_of n self.old) }
        ensures after { MarksTook (out_of n self.old) self.old result self.new }
        ensures below { IfOk result (λ c. c < n) }
    {
        let chunk = chosen(self.first(n), self.mark).ok_or(StoreFault::NoneFree)?;
        self.mark_out(chunk);
        Ok(chunk)
    }

    fn is_out(&self, n: usize, chunk: usize) -> bool
        ensures is { result ≡ slice_index_or (out_of n self.now) chunk false }
        ensures within { result ≡ true → (chunk < n) × (chunk < 256) }
    {
        self.first(n).get(chunk).copied().unwrap_or(false)
    }

    pub fn give_back(&mut self, n: usize, chunk: usize) -> Result<(), StoreFault>
        ensures said { refusal result ≡ give_back_refusal (out_of n self.old) chunk }
        ensures after { self.new ≡ (if is_ok result then marks_given self.old chunk else self.old) }
    {
        if self.is_out(n, chunk) {
            self.out[chunk] = false;
            Ok(())
        } else {
            Err(StoreFault::NotOut)
        }
    }

    // Agrees where a row of a chunk can be reached.
    pub fn reach(&self, n: usize, rows: usize, at: RowIndex) -> Result<(), StoreFault>
        ensures said { refusal result ≡ row_refusal rows (out_of n self.now) at.chunk at.row }
        ensures within { is_ok result ≡ true → (at.chunk < n) × (at.chunk < 256) × (at.row < rows) }
    {
        if !self.is_out(n, at.chunk) {
            return Err(StoreFault::NotOut);
        }
        if at.row >= rows {
            return Err(StoreFault::NoSuchRow);
        }
        Ok(())
    }
}
