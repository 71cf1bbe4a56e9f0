// A record store: memory of each size, the scenarios, and the records that stand in memory after them, told in its own cells.
use crate::calls::expect;
use crate::cases::LEFT;
use crate::scenarios::{answers_cases, has_runs, keeps_rows, refuses_rows, takes_first};
use record_store::{RecordStore, Records};
use std::test::Fail;

const EMPTY: [u64; 9] = [0; 9];

const DAMAGED: [u64; 9] = [u64::MAX; 9];

// the last line
const FULL: [u64; 9] = [
    8_589_934_591,
    0x1F_FFFF_FFFF,
    0x1F_FFFF_FFF6,
    0x1F_FFFF_FFED,
    0x1F_FFFF_FFE4,
    0x1F_FFFF_FFDB,
    0x1F_FFFF_FFD2,
    0x1F_FFFF_FFC9,
    0x1F_FFFF_FFC7,
];

// how many records, how many chunks they make, how many of those are taken, and what each record is
static HANDED_OVER: [(usize, usize, usize, [u64; 9]); 12] = [
    (0, 0, 0, DAMAGED),
    (3, 0, 0, DAMAGED),
    (4, 1, 1, DAMAGED),
    (14, 3, 3, DAMAGED),
    (1023, 255, 255, DAMAGED),
    (1024, 256, 256, DAMAGED),
    (1028, 256, 256, DAMAGED),
    (10, 2, 1, DAMAGED),
    // a frame without rights
    (10, 2, 1, [0, 8, 0, 0, 0, 0, 0, 0, 0]),
    // a cluster of 34 bits
    (10, 2, 1, [1 << 33, 1, 0, 0, 0, 0, 0, 0, 0]),
    // a cluster without an entry
    (10, 2, 1, [1, 0, 0, 0, 0, 0, 0, 0, 0]),
    // a line
    (10, 2, 1, [1, 0, 17, 0, 0, 0, 0, 0, 0]),
];

#[test]
fn handed_over(rt: HostRuntime) -> Result<(), Fail> {
    for (records, count, taken, record) in &HANDED_OVER {
        let mut memory = vec![in rt.alloc(); *record; *records]?;
        {
            let mut store = RecordStore::new(&mut memory);
            takes_first(&rt, &mut store, *count, *taken)?;
        }
        let cleared = taken.saturating_mul(4);
        let kept = records.saturating_sub(cleared);
        has_runs(&rt, &memory, &[(cleared, &[EMPTY]), (kept, &[*record])])?;
    }
    Ok(())
}

#[test]
fn calls(rt: HostRuntime) -> Result<(), Fail> {
    answers_cases::<Records>(&rt, rt.alloc(), DAMAGED, 4)
}

#[test]
fn rows(rt: HostRuntime) -> Result<(), Fail> {
    keeps_rows::<Records>(&rt, rt.alloc(), DAMAGED, 8, 4)
}

#[test]
fn left_in_memory(rt: HostRuntime) -> Result<(), Fail> {
    let mut memory = [DAMAGED; 14];
    {
        let mut store = RecordStore::new(&mut memory);
        expect(&rt, &mut store, &LEFT)?;
        refuses_rows(&rt, &mut store, 4)?;
    }
    let runs: [(usize, &[[u64; 9]]); 8] = [
        (1, &[EMPTY]),
        (1, &[[1, 0, 17, 0, 0, 0, 0, 0, 0]]),
        (1, &[EMPTY]),
        (1, &[FULL]),
        (2, &[EMPTY]),
        (1, &[[2, 0, 33, 0, 0, 0, 0, 0, 0]]),
        (1, &[EMPTY]),
        (6, &[DAMAGED]),
    ];
    has_runs(&rt, &memory, &runs)
}
