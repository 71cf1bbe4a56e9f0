// Packed lines as rows of memory, and the store on them.
ghost use Rattle.std.specs.Prelude.{◌≡◌, replicate};
ghost use Rattle.std.proofs.Common.{rules};
ghost use Rattle.lines.specs.Decoded.{packed_line};
ghost use Rattle.lines.specs.Lines.{empty_line};
ghost use Rattle.lines.specs.Packs.{packed};
ghost use Rattle.lines.proofs.Bytes.{length-packed};
ghost use Rattle.lines.proofs.Decoding.{packed_back, packed_empty, packed_line-packed};
ghost use Rattle.packed_store.specs.Packed.{line_bytes, rows_per_chunk, rows_power};

use lent_store::{LentStore, RowForm};
use lines::Line;
use stores::ChunkShape;

// A row is a packed line of 64 bytes.
#[derive(Clone, Copy, Debug)]
pub struct Packs;

impl ChunkShape for Packs {
    const ROWS: usize = 128;

    ghost ROWS = { rows_per_chunk };

    ghost power = { rows_power };
}

impl RowForm for Packs {
    type Cell = u8;

    const CELLS: usize = 64;

    ghost CELLS = { line_bytes };

    ghost blank = { 0 };

    ghost row_of = { packed };

    ghost line_of = { packed_line };

    ghost some = { Prim.search rules };

    ghost few = { Prim.search rules };

    ghost row_size = { length-packed };

    ghost line_back = { packed_back };

    ghost blank_row = { packed_line-packed empty_line (replicate 64 0) packed_empty };

    fn line_of(row: &[u8]) -> Line {
        Line::unpack(row).unwrap_or_else(|_| Line::empty())
    }

    fn put(row: &mut [u8], line: &Line) {
        if row.len() == Self::CELLS {
            row.copy_from_slice(&line.pack());
        }
    }

    fn clear(cells: &mut [u8]) {
        cells.fill(0);
    }
}

// The bytes are lent for the store's life.
pub type PackedStore<'a> = LentStore<'a, Packs>;
