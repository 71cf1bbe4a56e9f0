// A store on lent memory and its calls.
ghost use Rattle.std.specs.Prelude.{refl, ◌≡◌, ◌*◌, false, length, replicate, is_ok, if◌then◌else◌, MatchResult};

use crate::form::RowForm;
use crate::rows::{clear_chunk, line_at, put_at};
use lines::Line;
use stores::{ChunkStore, MOST_CHUNKS, Marks, RowIndex, StoreFault};

// The memory is lent for the store's life. It has as many chunks as there is room for, but at most 256.
#[derive(Drop)]
pub struct LentStore<'a, F: RowForm> {
    mem: &'a mut [F::Cell],
    marks: Marks,
}

impl<'a, F: RowForm> LentStore<'a, F> {
    ghost use Rattle.stores.specs.Choices.{marks_given};
    ghost use Rattle.stores.specs.Refusals.{refusal, give_back_refusal};
    ghost use Rattle.stores.specs.Stores.{all_free};
    ghost use Rattle.lent_store.specs.Memory.{chunk_count};
    ghost use Rattle.lent_store.specs.Lent.{shown};

    // A store with all chunks free. Writes nothing.
    pub fn new(mem: &'a mut [F::Cell]) -> LentStore<'a, F>
        ensures model { shown F.ROWS F.CELLS F.line_of result ≡ all_free (chunk_count F.ROWS F.CELLS mem.old) }
        ensures marks { (result.marks.out ≡ replicate 256 false) × (result.marks.mark ≡ 0) }
        ensures memory { result.mem.now ≡ mem.old }
        ensures named { result.mem.ghost_name ≡ mem.entry.ghost_name }
    {
        LentStore {
            mem,
            marks: Marks::new(),
        }
    }

    // how many chunks the memory has room for
    fn chunks(&self) -> usize
        ensures { result ≡ chunk_count F.ROWS F.CELLS self.now.mem.now }
    {
        (self.mem.len() / (F::ROWS * F::CELLS)).min(MOST_CHUNKS)
    }

    // What giving back does to the marks; the memory stays as it is.
    fn free_chunk(&mut self, chunk: usize) -> Result<(), StoreFault>
        ensures said { refusal result ≡ give_back_refusal (shown F.ROWS F.CELLS F.line_of self.old).out chunk }
        ensures marks { self.new.marks ≡ (if is_ok result then marks_given self.old.marks chunk else self.old.marks) }
        ensures memory { self.new.mem ≡ self.old.mem }
    {
        let n = self.chunks();
        self.marks.give_back(n, chunk)
    }
}

// A call's own clauses stand in place of the trait's: so what each of them keeps (`refused`, `named`) is said at each of the three that change the store.
impl<'a, F: RowForm> ChunkStore for LentStore<'a, F> {
    ghost use Rattle.stores.specs.Chunks.{Free};
    ghost use Rattle.stores.specs.Choices.{MarksTook, marks_given};
    ghost use Rattle.stores.specs.Refusals.{refusal, take_refusal, give_back_refusal, row_refusal};
    ghost use Rattle.stores.specs.Stores.{taken, given_back, written};
    ghost use Rattle.stores.specs.Views.{out_of};
    ghost use Rattle.lent_store.specs.Memory.{beyond_chunks, chunk_count, chunk_cleared, line_at, row_replaced};
    ghost use Rattle.lent_store.specs.Lent.{shown};
    ghost use Rattle.stores.proofs.Viewing.{view_bounded};

    type Shape = F;

    ghost model = { shown F.ROWS F.CELLS F.line_of };

    ghost rows = { F.ROWS };

    ghost power = { F.power };

    ghost shaped = { refl };

    ghost bounded = { λ s. view_bounded F.ROWS (out_of (chunk_count F.ROWS F.CELLS s.mem.now) s.marks) (line_at F.CELLS F.line_of s.mem.now) };

    // the memory's length div that of a chunk, at most 256
    fn count(&self) -> usize
        ensures value { result ≡ length (shown F.ROWS F.CELLS F.line_of self.now).out }
        ensures size { result ≡ chunk_count F.ROWS F.CELLS self.now.mem.now }
    {
        let n = self.chunks();
        self.marks.count(n)
    }

    fn free(&self) -> usize {
        let n = self.chunks();
        self.marks.free(n)
    }

    fn spare(&self, k: usize) -> Result<(), StoreFault> {
        let n = self.chunks();
        self.marks.spare(n, k)
    }

    // Takes the first free chunk at or above the mark, going round to 0; only that chunk's memory changes.
    fn take(&mut self) -> Result<usize, StoreFault>
        ensures said { refusal result ≡ take_refusal (shown F.ROWS F.CELLS F.line_of self.old).out }
        ensures after { MatchResult result (λ c. Free (shown F.ROWS F.CELLS F.line_of self.old).out c × (shown F.ROWS F.CELLS F.line_of self.new ≡ taken (shown F.ROWS F.CELLS F.line_of self.old) c)) (λ _. shown F.ROWS F.CELLS F.line_of self.new ≡ shown F.ROWS F.CELLS F.line_of self.old) }
        ensures which { MarksTook (shown F.ROWS F.CELLS F.line_of self.old).out self.old.marks result self.new.marks }
        ensures memory { MatchResult result (λ c. self.new.mem.now ≡ chunk_cleared F.ROWS F.CELLS F.blank self.old.mem.now c) (λ _. self.new.mem.now ≡ self.old.mem.now) }
        ensures beyond { beyond_chunks F.ROWS F.CELLS self.new.mem.now ≡ beyond_chunks F.ROWS F.CELLS self.old.mem.now }
        ensures refused { is_ok result ≡ false → self.new ≡ self.old }
        ensures named { self.new.mem.ghost_name ≡ self.old.mem.ghost_name }
    {
        let n = self.chunks();
        let chunk = self.marks.take(n)?;
        clear_chunk::<F>(self.mem, chunk);
        Ok(chunk)
    }

    // Leaves the memory as it is.
    fn give_back(&mut self, chunk: usize) -> Result<(), StoreFault>
        ensures said { refusal result ≡ give_back_refusal (shown F.ROWS F.CELLS F.line_of self.old).out chunk }
        ensures after { shown F.ROWS F.CELLS F.line_of self.new ≡ (if is_ok result then given_back (shown F.ROWS F.CELLS F.line_of self.old) chunk else shown F.ROWS F.CELLS F.line_of self.old) }
        ensures marks { self.new.marks ≡ (if is_ok result then marks_given self.old.marks chunk else self.old.marks) }
        ensures memory { self.new.mem.now ≡ self.old.mem.now }
        ensures refused { is_ok result ≡ false → self.new ≡ self.old }
        ensures named { self.new.mem.ghost_name ≡ self.old.mem.ghost_name }
    {
        self.free_chunk(chunk)
    }

    fn read(&self, at: RowIndex, into: &mut Line) -> Result<(), StoreFault> {
        let n = self.chunks();
        self.marks.reach(n, F::ROWS, at)?;
        *into = line_at::<F>(self.mem, at.chunk * F::ROWS + at.row);
        Ok(())
    }

    // Only the cells of that row change.
    fn write(&mut self, at: RowIndex, line: &Line) -> Result<(), StoreFault>
        ensures said { refusal result ≡ row_refusal F.ROWS (shown F.ROWS F.CELLS F.line_of self.old).out at.chunk at.row }
        ensures after { shown F.ROWS F.CELLS F.line_of self.new ≡ (if is_ok result then written (shown F.ROWS F.CELLS F.line_of self.old) at.chunk at.row line.now else shown F.ROWS F.CELLS F.line_of self.old) }
        ensures marks { self.new.marks ≡ self.old.marks }
        ensures memory { self.new.mem.now ≡ (if is_ok result then row_replaced F.ROWS F.CELLS self.old.mem.now at.chunk at.row (F.row_of line.now) else self.old.mem.now) }
        ensures beyond { beyond_chunks F.ROWS F.CELLS self.new.mem.now ≡ beyond_chunks F.ROWS F.CELLS self.old.mem.now }
        ensures refused { is_ok result ≡ false → self.new ≡ self.old }
        ensures named { self.new.mem.ghost_name ≡ self.old.mem.ghost_name }
    {
        let n = self.chunks();
        self.marks.reach(n, F::ROWS, at)?;
        put_at::<F>(self.mem, at.chunk * F::ROWS + at.row, line);
        Ok(())
    }
}
