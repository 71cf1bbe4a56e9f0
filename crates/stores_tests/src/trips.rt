// A line through both makes and back, and what a lender finds in its memory.
use lines::{Line, Mapping, Page};
use packed_store::PackedStore;
use record_store::RecordStore;
use round_trip::{lend_bytes, lend_records, round_trip};
use std::process::Abort;
use std::test::Fail;
use stores::ChunkStore;

fn goes_round<S: ChunkStore>(rt: &impl Abort, store: &mut S, row: usize) -> Result<(), Fail> {
    let line = Line::only(Page::try_from(9)?, Mapping::new(2, 1)?);
    let mut found = Line::empty();
    let free = store.free();
    round_trip(store, row, &line, &mut found)?;
    assert!(rt; found == line);
    let mut kept = Line::empty();
    assert!(rt; round_trip(store, row + 1, &line, &mut kept).is_err());
    assert!(rt; kept.is_empty());
    assert_eq!(rt; store.free(), free);
    Ok(())
}

#[test]
fn trips(rt: HostRuntime) -> Result<(), Fail> {
    let mut records = [[u64::MAX; 9]; 9];
    goes_round(&rt, &mut RecordStore::new(&mut records), 3)?;
    let mut bytes = [0xFF; 8200];
    goes_round(&rt, &mut PackedStore::new(&mut bytes), 127)
}

#[test]
fn loans(rt: HostRuntime) -> Result<(), Fail> {
    let line = Line::only(Page::try_from(9)?, Mapping::new(2, 1)?);
    let mut records = [[7; 9]; 5];
    lend_records(&mut records, &line)?;
    assert_eq!(rt; records[0], [1, 0, 17, 0, 0, 0, 0, 0, 0]);
    assert_eq!(rt; records[3], [0; 9]);
    assert_eq!(rt; records[4], [7; 9]);
    let mut bytes = [7; 8193];
    lend_bytes(&mut bytes, &line)?;
    assert_eq!(rt; bytes[7], 8);
    assert_eq!(rt; bytes[8], 17);
    assert_eq!(rt; bytes[8191], 0);
    assert_eq!(rt; bytes[8192], 7);
    Ok(())
}
