// The largest page, address, frame and rights, and one past each.
use lines::{Address, LineFault, Mapping, Page, entry_from_word, entry_word};
use std::test::Fail;

// the number of a refusal, 0 where there is none: the tables hold the rules' numbers
fn fault_of<T: Drop>(made: Result<T, LineFault>) -> u64 {
    match made {
        Ok(_) => 0,
        Err(fault) => fault.number(),
    }
}

#[test]
fn largest_page(rt: HostRuntime) -> Result<(), Fail> {
    let page = Page::try_from(68_719_476_735)?;
    assert_eq!(rt; page.cluster(), 8_589_934_591);
    assert_eq!(rt; page.position(), 7);
    assert_eq!(rt; fault_of(Page::try_from(68_719_476_736)), 3);
    assert_eq!(rt; fault_of(Page::try_from(u64::MAX)), 3);
    Ok(())
}

#[test]
fn largest_address(rt: HostRuntime) -> Result<(), Fail> {
    let address = Address::try_from(281_474_976_710_655)?;
    assert_eq!(rt; address.page().number, 68_719_476_735);
    assert_eq!(rt; address.offset(), 4095);
    assert_eq!(rt; fault_of(Address::try_from(281_474_976_710_656)), 3);
    Ok(())
}

#[test]
fn frames_and_rights(rt: HostRuntime) {
    let cases = [
        (0, 1, 0),
        (17_179_869_183, 7, 0),
        (17_179_869_184, 7, 4),
        (17_179_869_184, 0, 4),
        (5, 0, 5),
        (5, 8, 5),
        (u64::MAX, u64::MAX, 4),
        (0, 257, 5),
    ];
    for (frame, rights, fault) in cases.iter() {
        assert_eq!(rt; fault_of(Mapping::new(*frame, *rights)), *fault);
    }
}

#[test]
fn places(rt: HostRuntime) -> Result<(), Fail> {
    let address = Address::try_from(7)?;
    let mapping = Mapping::new(5, 3)?;
    assert_eq!(rt; mapping.place(address), 20487);
    assert_eq!(rt; entry_word(Some(mapping)), 43);
    Ok(())
}

#[test]
fn words(rt: HostRuntime) -> Result<(), Fail> {
    let none = [8, 16, 1 << 37, (1 << 37) + 1, u64::MAX];
    for word in none.iter() {
        assert!(rt; entry_from_word(*word).is_none());
    }
    let some = [0, 1, 43, (1 << 37) - 1];
    for word in some.iter() {
        let entry = entry_from_word(*word).ok_or("no entry")?;
        assert_eq!(rt; entry_word(entry), *word);
    }
    Ok(())
}

#[test]
fn faults(rt: HostRuntime) {
    assert_eq!(rt; LineFault::NotALine.number(), 19);
}
