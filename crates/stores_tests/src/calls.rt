// Calls on a store of any make, as values, each with what it must answer: they stand in tables, and are printed where an answer differs.
// In the tables a chunk and a row are two numbers, which is short. An answer is a result inside the test's own: the inner one is the store's, the outer one that of the test.
use lines::{Line, LineFault, Mapping, Page};
use std::process::Abort;
use std::test::Fail;
use stores::{ChunkStore, RowIndex, StoreFault};

// the last cluster
pub(crate) const LAST: usize = 8_589_934_591;

// Lines go by their cluster.
#[derive(Clone, Copy, Debug)]
pub(crate) enum Call {
    Count,
    Free,
    Spare(usize),
    Take,
    GiveBack(usize),
    // a chunk, a row and the line to write
    Write(usize, usize, usize),
    // a chunk and a row; answers the line
    Read(usize, usize),
}

// A call that only agrees answers 0.
pub(crate) type Answer = Result<usize, StoreFault>;

// The line of the last cluster with eight large entries, no two alike.
fn full() -> Result<Line, LineFault> {
    let mut line = Line::only(
        Page::try_from(68_719_476_728)?,
        Mapping::new(17_179_869_183, 7)?,
    );
    for position in 1..8 {
        let k = position as u64;
        line = line.with(position, Mapping::new(17_179_869_183 - k, 7 - k % 7)?);
    }
    Ok(line)
}

// Line 0 is empty, the last is full, and any other has its second page alone.
fn line(cluster: usize) -> Result<Line, LineFault> {
    let c = cluster as u64;
    match cluster {
        0 => Ok(Line::empty()),
        LAST => full(),
        _ => Ok(Line::only(
            Page::try_from(c.wrapping_mul(8) | 1)?,
            Mapping::new(c.wrapping_mul(2), 1)?,
        )),
    }
}

// What is read is one of these lines; where reading is refused, the lent line stays.
fn read<S: ChunkStore>(rt: &impl Abort, store: &S, at: RowIndex) -> Result<Answer, Fail> {
    let lent = line(7)?;
    let mut found = lent;
    let answer = store.read(at, &mut found);
    if let Err(fault) = answer {
        assert!(rt; found == lent);
        return Ok(Err(fault));
    }
    let cluster = found.cluster as usize;
    assert!(rt; found == line(cluster)?);
    Ok(Ok(cluster))
}

fn ask<S: ChunkStore>(rt: &impl Abort, store: &mut S, call: Call) -> Result<Answer, Fail> {
    match call {
        Call::Count => Ok(Ok(store.count())),
        Call::Free => Ok(Ok(store.free())),
        Call::Spare(needed) => Ok(store.spare(needed).and(Ok(0))),
        Call::Take => Ok(store.take()),
        Call::GiveBack(chunk) => Ok(store.give_back(chunk).and(Ok(0))),
        Call::Write(chunk, row, cluster) => {
            let at = RowIndex { chunk, row };
            Ok(store.write(at, &line(cluster)?).and(Ok(0)))
        }
        Call::Read(chunk, row) => read(rt, store, RowIndex { chunk, row }),
    }
}

pub(crate) fn expect<S: ChunkStore>(
    rt: &impl Abort,
    store: &mut S,
    steps: &[(Call, Answer)],
) -> Result<(), Fail> {
    for (call, answer) in steps {
        assert_eq!(rt; ask(rt, store, *call)?, *answer, "{call:?}");
    }
    Ok(())
}
