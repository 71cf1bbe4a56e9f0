// A stay of lines in a store of either make.
ghost use Rattle.std.specs.Prelude.{◌≡◌, ◌*◌, false, length, replicate, IfOk, Some};
ghost use Rattle.stores.specs.Views.{chunks_in};
ghost use Rattle.store_account.specs.Accounts.{stay_text};
ghost use Rattle.store_account.specs.Told.{account_text};

use crate::shape::Shape;
use crate::texts::{StayText, StoreText};
use keeping::keep;
use lent_store::{LentStore, RowForm};
use lines::Line;
use std::alloc::{AllocError, Global};
use std::fmt;
use stores::ChunkStore;

// A make of store, by its name, how many bytes a row has, and the memory that it is put on: so many cells, each of which held something else.
#[derive(Clone, Copy)]
pub(crate) struct Make<C> {
    name: &'static str,
    row_bytes: u8,
    old: C,
    cells: usize,
}

// Two chunks, and a rest that is no chunk.
pub(crate) const PACKED: Make<u8> = Make {
    name: "packed",
    row_bytes: 64,
    old: 0xA5,
    cells: 20_000,
};

// Eight chunks, and three records that are in none.
pub(crate) const RECORD: Make<[u64; 9]> = Make {
    name: "record",
    row_bytes: 72,
    old: [0xA5A5_A5A5_A5A5_A5A5; 9],
    cells: 35,
};

// A store, and what is told of a stay of lines in it.
#[derive(Drop)]
pub(crate) struct StayAccount {
    store: StoreText,
    told: StayText,
}

impl fmt::Display for StayAccount {
    ghost output = { λ a. Some (account_text a) };

    fn fmt<W: fmt::Write>(&self, f: &mut fmt::Formatter<W>) -> fmt::Result {
        let store = self.store;
        let told = &self.told;
        write!(f, "{store}{told}")
    }
}

// A stay of the lines in a store of the make, with all chunks free.
pub(crate) fn stay_on<F: RowForm>(
    heap: Global,
    make: Make<F::Cell>,
    lines: &[Line],
) -> Result<StayAccount, AllocError>
    ensures { IfOk result (λ a. account_text a ≡ stay_text make.name.now make.row_bytes F.ROWS (replicate (chunks_in (F.ROWS * F.CELLS) make.cells) false) (length lines.now)) }
{
    let mut memory = vec![in heap; make.old; make.cells]?;
    let mut store = LentStore::<F>::new(memory.as_mut_slice());
    let stay = keep(heap, &mut store, lines)?;
    let shape = Shape {
        rows: F::ROWS,
        row_bytes: make.row_bytes,
    };
    Ok(StayAccount {
        store: StoreText {
            name: make.name,
            chunks: store.count(),
            shape,
        },
        told: StayText {
            lines: lines.len(),
            shape,
            free: store.free(),
            stay,
        },
    })
}
