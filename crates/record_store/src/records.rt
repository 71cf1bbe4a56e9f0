// Records as rows of memory, and the store on them.
ghost use Rattle.std.specs.Prelude.{◌≡◌, refl};
ghost use Rattle.std.proofs.Common.{rules};
ghost use Rattle.lines.specs.Decoded.{record_of, recorded_line};
ghost use Rattle.lines.specs.Lines.{empty_line};
ghost use Rattle.lines.proofs.Decoding.{recorded_back};
ghost use Rattle.record_store.specs.Records.{blank_record, records_per_row, rows_per_chunk, rows_power, row_line, row_of};

use lent_store::{LentStore, RowForm};
use lines::Line;
use stores::ChunkShape;

// A record is a line's cluster, then the words of its eight entries.
fn record_of(line: &Line) -> [u64; 9]
    ensures { result ≡ record_of line.now }
{
    // taken apart, since a copy of words just written would wait for them
    let [w0, w1, w2, w3, w4, w5, w6, w7] = line.words();
    [line.cluster, w0, w1, w2, w3, w4, w5, w6, w7]
}

// the empty line where the record is that of no line
fn recorded_line(numbers: &[u64; 9]) -> Line
    ensures { result ≡ recorded_line numbers.now }
{
    let mut words = [0; 8];
    words.copy_from_slice(&numbers[1..]);
    Line::from_words(numbers[0], words).unwrap_or_else(Line::empty)
}

// A row is one record.
#[derive(Clone, Copy, Debug)]
pub struct Records;

impl ChunkShape for Records {
    const ROWS: usize = 4;

    ghost ROWS = { rows_per_chunk };

    ghost power = { rows_power };
}

impl RowForm for Records {
    type Cell = [u64; 9];

    const CELLS: usize = 1;

    ghost CELLS = { records_per_row };

    ghost blank = { blank_record };

    ghost row_of = { row_of };

    ghost line_of = { row_line };

    ghost some = { Prim.search rules };

    ghost few = { Prim.search rules };

    ghost row_size = { λ _. refl };

    ghost line_back = { recorded_back };

    ghost blank_row = { recorded_back empty_line };

    fn line_of(row: &[[u64; 9]]) -> Line {
        match row {
            [record, ..] => recorded_line(record),
            [] => Line::empty(),
        }
    }

    fn put(row: &mut [[u64; 9]], line: &Line) {
        if let [record] = row {
            *record = record_of(line);
        }
    }

    fn clear(cells: &mut [[u64; 9]]) {
        cells.fill([0; 9]);
    }
}

// The records are lent for the store's life.
pub type RecordStore<'a> = LentStore<'a, Records>;
