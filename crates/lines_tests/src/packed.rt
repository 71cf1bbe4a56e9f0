// Packed lines, whole and with every single bit turned over.
use lines::{Line, LineFault, Mapping, Page};
use std::process::Abort;
use std::test::Fail;

fn only(page: u64, frame: u64, rights: u64) -> Result<Line, LineFault> {
    Ok(Line::only(Page::try_from(page)?, Mapping::new(frame, rights)?))
}

// The line of the last cluster with the largest entry in each place.
fn largest() -> Result<Line, LineFault> {
    let mapping = Mapping::new(17_179_869_183, 7)?;
    let last = only(68_719_476_735, 17_179_869_183, 7)?;
    Ok((0..7).fold(last, |line, position| line.with(position, mapping)))
}

// How many single-bit damages still are some line; none may be the line itself. Each is made in a copy, so a byte goes by its number, and what comes of it is counted as it is looked at.
fn damages(rt: &impl Abort, line: &Line) -> u32 {
    let bytes = line.pack();
    let mut lines = 0u32;
    for at in 0..64 {
        for bit in [1u8, 2, 4, 8, 16, 32, 64, 128] {
            let mut damaged = bytes;
            damaged[at] ^= bit;
            match Line::unpack(&damaged) {
                Ok(other) => {
                    assert!(rt; other != *line);
                    assert_eq!(rt; other.pack(), damaged);
                    lines = lines.saturating_add(1);
                }
                Err(fault) => assert!(rt; fault == LineFault::NotALine),
            }
        }
    }
    lines
}

fn is_refused(bytes: &[u8]) -> bool {
    Line::unpack(bytes) == Err(LineFault::NotALine)
}

#[test]
fn page_nine_alone(rt: HostRuntime) -> Result<(), Fail> {
    let line = only(9, 2, 1)?;
    let mut expected = [0; 64];
    expected[7] = 0x08;
    expected[8] = 0x11;
    assert_eq!(rt; line.pack(), expected);
    assert_eq!(rt; damages(&rt, &line), NINE_LINES);
    Ok(())
}

#[test]
fn largest_line(rt: HostRuntime) -> Result<(), Fail> {
    let line = largest()?;
    let mut expected = [0; 64];
    for word in expected.chunks_exact_mut(8) {
        word.copy_from_slice(&[0xFF, 0xFF, 0xFF, 0xFF, 0x1F, 0, 0, 0xF8]);
    }
    expected[55] = 0x38;
    expected[63] = 0x00;
    assert_eq!(rt; line.pack(), expected);
    assert_eq!(rt; damages(&rt, &line), LARGEST_LINES);
    Ok(())
}

#[test]
fn empty_line(rt: HostRuntime) {
    let line = Line::empty();
    assert_eq!(rt; line.pack(), [0; 64]);
    assert_eq!(rt; damages(&rt, &line), EMPTY_LINES);
}

// The counts come from the second implementation: `damages` of reference/pages.py.
const NINE_LINES: u32 = 90;

const LARGEST_LINES: u32 = 329;

const EMPTY_LINES: u32 = 24;

#[test]
fn not_lines(rt: HostRuntime) {
    assert!(rt; is_refused(&[]));
    assert!(rt; is_refused(&[0; 63]));
    assert!(rt; is_refused(&[0; 65]));
    // a frame without rights
    let mut bytes = [0; 64];
    bytes[0] = 8;
    assert!(rt; is_refused(&bytes));
    // a cluster without an entry
    let mut bytes = [0; 64];
    bytes[7] = 0x08;
    assert!(rt; is_refused(&bytes));
    // a cluster of 34 bits
    let mut bytes = [0; 64];
    bytes[0] = 1;
    bytes[55] = 0x40;
    assert!(rt; is_refused(&bytes));
    // the same in the last word
    let mut bytes = [0; 64];
    bytes[0] = 1;
    bytes[63] = 0x08;
    assert!(rt; is_refused(&bytes));
}

#[test]
fn unpacks_back(rt: HostRuntime) -> Result<(), Fail> {
    let line = largest()?;
    let back = Line::unpack(&line.pack())?;
    assert!(rt; back == line);
    assert!(rt; back.entry(3) == line.entry(7));
    assert!(rt; back.entry(8) == None);
    Ok(())
}

#[test]
fn words_of_a_line(rt: HostRuntime) -> Result<(), Fail> {
    let line = only(9, 5, 3)?;
    let words = [0, 43, 0, 0, 0, 0, 0, 0];
    assert_eq!(rt; line.words(), words);
    assert!(rt; Line::from_words(1, words) == Some(line));
    assert!(rt; Line::from_words(0, [0; 8]) == Some(Line::empty()));
    // a cluster without an entry, a cluster that is too large, and a frame without rights
    assert!(rt; Line::from_words(1, [0; 8]).is_none());
    assert!(rt; Line::from_words(1 << 33, words).is_none());
    assert!(rt; Line::from_words(1, [8; 8]).is_none());
    Ok(())
}
