// A packed store: memory of each size, the scenarios, and the bytes that stand in memory after them.
// What stands in memory is told in its own cells, so these tests of each make are its own; what any store answers is tested once, over all makes.
use crate::calls::expect;
use crate::cases::LEFT;
use crate::scenarios::{answers_cases, has_runs, keeps_rows, refuses_rows, takes_first};
use packed_store::{PackedStore, Packs};
use std::test::Fail;

// 64 bytes of which two are not 0
fn with_two(first: usize, a: u8, second: usize, b: u8) -> [u8; 64] {
    let mut bytes = [0; 64];
    if first < 64 {
        bytes[first] = a;
    }
    if second < 64 {
        bytes[second] = b;
    }
    bytes
}

#[test]
fn handed_over(rt: HostRuntime) -> Result<(), Fail> {
    // how many bytes, how many chunks they make, how many of those are taken, and what they repeat
    let cases = [
        (0, 0, 0, [0xFF; 64]),
        (8191, 0, 0, [0xFF; 64]),
        (8192, 1, 1, [0xFF; 64]),
        (20_000, 2, 2, [0xFF; 64]),
        (2_097_151, 255, 255, [0xFF; 64]),
        (2_097_152, 256, 256, [0xFF; 64]),
        (2_105_344, 256, 256, [0xFF; 64]),
        (20_000, 2, 1, [0xFF; 64]),
        // a frame without rights
        (20_000, 2, 1, with_two(0, 8, 1, 0)),
        // a cluster of 34 bits
        (20_000, 2, 1, with_two(0, 1, 55, 0x40)),
        // a cluster without an entry
        (20_000, 2, 1, with_two(7, 0x08, 8, 0)),
        // a line
        (20_000, 2, 1, with_two(7, 0x08, 8, 0x11)),
    ];
    for (bytes, count, taken, pattern) in &cases {
        let mut memory: Vec<u8> = pattern
            .iter()
            .copied()
            .cycle()
            .take(*bytes)
            .collect(rt.alloc())?;
        {
            let mut store = PackedStore::new(&mut memory);
            takes_first(&rt, &mut store, *count, *taken)?;
        }
        let cleared = taken.saturating_mul(8192);
        let kept = bytes.saturating_sub(cleared);
        has_runs(&rt, &memory, &[(cleared, &[0]), (kept, pattern)])?;
    }
    Ok(())
}

#[test]
fn calls(rt: HostRuntime) -> Result<(), Fail> {
    answers_cases::<Packs>(&rt, rt.alloc(), 0xFF, 8192)
}

#[test]
fn rows(rt: HostRuntime) -> Result<(), Fail> {
    keeps_rows::<Packs>(&rt, rt.alloc(), 0xFF, 16_384, 128)
}

// the last line, packed
const FULL: [u8; 64] = [
    0xFF, 0xFF, 0xFF, 0xFF, 0x1F, 0, 0, 0xF8, 0xF6, 0xFF, 0xFF, 0xFF, 0x1F, 0, 0, 0xF8, 0xED, 0xFF,
    0xFF, 0xFF, 0x1F, 0, 0, 0xF8, 0xE4, 0xFF, 0xFF, 0xFF, 0x1F, 0, 0, 0xF8, 0xDB, 0xFF, 0xFF, 0xFF,
    0x1F, 0, 0, 0xF8, 0xD2, 0xFF, 0xFF, 0xFF, 0x1F, 0, 0, 0xF8, 0xC9, 0xFF, 0xFF, 0xFF, 0x1F, 0, 0,
    0x38, 0xC7, 0xFF, 0xFF, 0xFF, 0x1F, 0, 0, 0x00,
];

#[test]
fn left_in_memory(rt: HostRuntime) -> Result<(), Fail> {
    let mut memory = [0xFF; 25_000];
    {
        let mut store = PackedStore::new(&mut memory);
        expect(&rt, &mut store, &LEFT)?;
        refuses_rows(&rt, &mut store, 128)?;
    }
    let runs: [(usize, &[u8]); 8] = [
        (64, &[0]),
        (64, &with_two(7, 0x08, 8, 0x11)),
        (64, &[0]),
        (64, &FULL),
        (8064, &[0]),
        (64, &with_two(7, 0x10, 8, 0x21)),
        (8000, &[0]),
        (8616, &[0xFF]),
    ];
    has_runs(&rt, &memory, &runs)
}
