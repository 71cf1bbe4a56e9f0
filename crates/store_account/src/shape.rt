// What a store's chunks are made of.
ghost use Rattle.std.specs.Prelude.{◌≡◌, ◌*◌, ◌<◌, ◌≤◌};

// How many rows a chunk has, and how many bytes a row.
#[derive(Clone, Copy)]
pub(crate) struct Shape {
    pub(crate) rows: usize,
    pub(crate) row_bytes: u8,
    ghost some: { 0 < rows },
    ghost few: { rows ≤ 128 },
}

impl Shape {
    // how many bytes so many rows have
    pub(crate) fn bytes_of_rows(self, rows: usize) -> u128
        ensures { result ≡ rows * self.row_bytes }
    {
        rows as u128 * self.row_bytes as u128
    }

    // how many bytes so many chunks have
    pub(crate) fn bytes_of_chunks(self, chunks: usize) -> u128
        ensures { result ≡ chunks * (self.rows * self.row_bytes) }
    {
        chunks as u128 * self.bytes_of_rows(self.rows)
    }
}
