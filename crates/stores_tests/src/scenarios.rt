// Scenarios that any make goes through, and how its memory is looked at.
// The loops go over numbers: a chunk and a row are known by theirs, and no list of them stands anywhere.
use crate::calls::{Call, expect};
use crate::cases::CASES;
use lent_store::{LentStore, RowForm};
use std::alloc::Global;
use std::fmt::Debug;
use std::process::Abort;
use std::test::Fail;
use stores::{ChunkShape, ChunkStore, StoreFault};

// A store of so many chunks, so many of them free, spares those and no more.
fn has_free<S: ChunkStore>(
    rt: &impl Abort,
    store: &mut S,
    count: usize,
    free: usize,
) -> Result<(), Fail> {
    let needed = free.saturating_add(1);
    let steps = [
        (Call::Count, Ok(count)),
        (Call::Spare(0), Ok(0)),
        (Call::Spare(free), Ok(0)),
        (
            Call::Spare(needed),
            Err(StoreFault::TooFewFree { needed, free }),
        ),
        (
            Call::Spare(usize::MAX),
            Err(StoreFault::TooFewFree {
                needed: usize::MAX,
                free,
            }),
        ),
        (Call::Free, Ok(free)),
        (Call::GiveBack(count), Err(StoreFault::NotOut)),
        (Call::Read(count, 0), Err(StoreFault::NotOut)),
    ];
    expect(rt, store, &steps)
}

// Takes the first chunks of a store that has so many, all free. Every line in what is taken is empty.
pub(crate) fn takes_first<S: ChunkStore>(
    rt: &impl Abort,
    store: &mut S,
    count: usize,
    taken: usize,
) -> Result<(), Fail> {
    for chunk in 0..taken {
        has_free(rt, store, count, count.saturating_sub(chunk))?;
        expect(rt, store, &[(Call::Take, Ok(chunk))])?;
        for row in 0..S::rows_per_chunk() {
            expect(rt, store, &[(Call::Read(chunk, row), Ok(0))])?;
        }
    }
    if taken == count {
        expect(rt, store, &[(Call::Take, Err(StoreFault::NoneFree))])?;
    }
    has_free(rt, store, count, count.saturating_sub(taken))
}

// the line that a row of a chunk is given
fn line_for(chunk: usize, row: usize) -> usize {
    chunk
        .saturating_mul(1000)
        .saturating_add(row)
        .saturating_add(1)
}

// The rows of two chunks, of which those up to one row of one chunk are written.
fn holds_up_to<S: ChunkStore>(
    rt: &impl Abort,
    store: &mut S,
    last_chunk: usize,
    last_row: usize,
) -> Result<(), Fail> {
    for chunk in 0..2 {
        for row in 0..S::rows_per_chunk() {
            let is_written = (chunk, row) <= (last_chunk, last_row);
            let line = if is_written { line_for(chunk, row) } else { 0 };
            expect(rt, store, &[(Call::Read(chunk, row), Ok(line))])?;
        }
    }
    Ok(())
}

// Writes each row of two chunks, and reads all of them after each write.
fn writes_rows<S: ChunkStore>(rt: &impl Abort, store: &mut S, rows: usize) -> Result<(), Fail> {
    assert_eq!(rt; S::rows_per_chunk(), rows);
    assert_eq!(rt; S::Shape::ROWS, rows);
    expect(rt, store, &[(Call::Take, Ok(0)), (Call::Take, Ok(1))])?;
    for chunk in 0..2 {
        for row in 0..rows {
            let line = line_for(chunk, row);
            expect(rt, store, &[(Call::Write(chunk, row, line), Ok(0))])?;
            holds_up_to(rt, store, chunk, row)?;
        }
    }
    Ok(())
}

// Every case answers as it must, on memory of so many cells a chunk that all held something else.
pub(crate) fn answers_cases<F: RowForm>(
    rt: &impl Abort,
    heap: Global,
    old: F::Cell,
    chunk: usize,
) -> Result<(), Fail> {
    for (count, steps) in &CASES {
        let mut memory = vec![in heap; old; count.saturating_mul(chunk)]?;
        expect(rt, &mut LentStore::<F>::new(&mut memory), steps)?;
    }
    Ok(())
}

// The rows of two chunks, on memory of so many cells that all held something else.
pub(crate) fn keeps_rows<F: RowForm>(
    rt: &impl Abort,
    heap: Global,
    old: F::Cell,
    cells: usize,
    rows: usize,
) -> Result<(), Fail> {
    let mut memory = vec![in heap; old; cells]?;
    writes_rows(rt, &mut LentStore::<F>::new(&mut memory), rows)
}

// Refuses rows in a store of three chunks of which the first is out.
pub(crate) fn refuses_rows<S: ChunkStore>(
    rt: &impl Abort,
    store: &mut S,
    rows: usize,
) -> Result<(), Fail> {
    let refused = [
        (0, rows, StoreFault::NoSuchRow),
        (0, usize::MAX, StoreFault::NoSuchRow),
        (1, 0, StoreFault::NotOut),
        (1, rows, StoreFault::NotOut),
        (1, usize::MAX, StoreFault::NotOut),
        (2, 0, StoreFault::NotOut),
        (2, rows, StoreFault::NotOut),
        (3, 0, StoreFault::NotOut),
        (usize::MAX, 0, StoreFault::NotOut),
        (usize::MAX, usize::MAX, StoreFault::NotOut),
    ];
    for (chunk, row, fault) in refused {
        let write = Call::Write(chunk, row, 5);
        expect(
            rt,
            store,
            &[(Call::Read(chunk, row), Err(fault)), (write, Err(fault))],
        )?;
    }
    Ok(())
}

// What follows the cells is named where one of them differs.
fn repeats<T: PartialEq + Debug + Copy>(rt: &impl Abort, cells: &[T], pattern: &[T], left: usize) {
    assert!(rt; pattern.len() > 0);
    for (i, (cell, expected)) in cells.iter().zip(pattern.iter().cycle()).enumerate() {
        assert_eq!(rt; *cell, *expected, "cell {i}, {left} cells before the end");
    }
}

// A memory has these runs one after the other, each so many cells long and repeating a pattern.
pub(crate) fn has_runs<T: PartialEq + Debug + Copy>(
    rt: &impl Abort,
    memory: &[T],
    runs: &[(usize, &[T])],
) -> Result<(), Fail> {
    let mut left = memory;
    for (length, pattern) in runs {
        assert!(rt; *length <= left.len());
        let (cells, rest) = left.split_at(*length);
        repeats(rt, cells, pattern, left.len());
        left = rest;
    }
    assert!(rt; left.is_empty());
    Ok(())
}
