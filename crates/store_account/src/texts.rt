// The text of a store, and of a stay of lines in it.
ghost use Rattle.std.specs.Prelude.{Some, ◌≡◌, ◌≤◌};
ghost use Rattle.stores.specs.Refusals.{refusal};
ghost use Rattle.keeping.specs.Stays.{stop_refusal};
ghost use Rattle.store_account.specs.Accounts.{answer_text, store_text, stopped_text, told_text};

use crate::shape::Shape;
use keeping::Stay;
use std::fmt;
use stores::StoreFault;

// What a store said when asked for chunks.
#[derive(Clone, Copy)]
struct Answer<'a>(&'a Result<(), StoreFault>);

#[tactic(auto, unfolding(crate::specs::Accounts::answer_text))]
impl fmt::Display for Answer<'_> {
    ghost output = { λ a. Some (answer_text (refusal a.0.now)) };

    fn fmt<W: fmt::Write>(&self, f: &mut fmt::Formatter<W>) -> fmt::Result {
        match self.0 {
            Ok(()) => write!(f, "agreed"),
            Err(fault) => write!(f, "{fault}"),
        }
    }
}

// What a store has.
#[derive(Clone, Copy)]
pub(crate) struct StoreText {
    pub(crate) name: &'static str,
    pub(crate) chunks: usize,
    pub(crate) shape: Shape,
}

#[tactic(auto, unfolding(crate::specs::Accounts::store_text))]
impl fmt::Display for StoreText {
    ghost output = { λ s. Some (store_text s.name.now s.chunks s.shape.rows s.shape.row_bytes) };

    fn fmt<W: fmt::Write>(&self, f: &mut fmt::Formatter<W>) -> fmt::Result {
        let name = self.name;
        let chunks = self.chunks;
        let rows = self.shape.rows;
        let bytes = self.shape.bytes_of_chunks(chunks);
        writeln!(
            f,
            "{name} store: {chunks} chunks of {rows} rows, {bytes} bytes"
        )
    }
}

// What stopped the laying, if anything, and how many lines it left out.
#[derive(Clone, Copy)]
struct Stop {
    fault: Option<StoreFault>,
    left: usize,
}

#[tactic(auto, unfolding(crate::specs::Accounts::stopped_text))]
impl fmt::Display for Stop {
    ghost output = { λ s. Some (stopped_text (stop_refusal s.fault) s.left) };

    fn fmt<W: fmt::Write>(&self, f: &mut fmt::Formatter<W>) -> fmt::Result {
        let left = self.left;
        match self.fault {
            None => Ok(()),
            Some(fault) => writeln!(f, "  stopped: {fault}, {left} lines left out"),
        }
    }
}

// What is told of a stay of so many lines, after which so many chunks are free.
#[derive(Drop)]
pub(crate) struct StayText {
    pub(crate) lines: usize,
    pub(crate) shape: Shape,
    pub(crate) free: usize,
    pub(crate) stay: Stay,
    ghost written: { stay.rows ≤ lines },
}

impl fmt::Display for StayText {
    ghost output = { λ t. Some (told_text t.lines t.shape.rows t.shape.row_bytes t.free t.stay) };

    fn fmt<W: fmt::Write>(&self, f: &mut fmt::Formatter<W>) -> fmt::Result {
        let needed = self.lines.div_ceil(self.shape.rows);
        let answer = Answer(&self.stay.asked);
        let chunks = self.stay.chunks;
        let rows = self.stay.rows;
        let bytes = self.shape.bytes_of_rows(rows);
        let same = self.stay.same;
        let stop = Stop {
            fault: self.stay.stopped,
            left: self.lines - rows,
        };
        let free = self.free;
        writeln!(f, "  asked for {needed} chunks: {answer}")?;
        writeln!(
            f,
            "  taken: {chunks} chunks\n  written: {rows} lines in {rows} rows, {bytes} bytes"
        )?;
        write!(f, "{stop}")?;
        writeln!(
            f,
            "  read back the same: {same} lines\n  given back: {chunks} chunks, {free} free"
        )
    }
}
