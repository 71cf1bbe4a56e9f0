// Setting and clearing entries.
use lines::{Line, LineFault, Mapping, Page};
use std::test::Fail;

fn two_pages() -> Result<(Line, Mapping), LineFault> {
    let mapping = Mapping::new(6, 1)?;
    let line = Line::only(Page::try_from(8)?, Mapping::new(5, 3)?);
    Ok((line.with(1, mapping), mapping))
}

#[test]
fn set_and_cleared(rt: HostRuntime) -> Result<(), Fail> {
    let (line, mapping) = two_pages()?;
    assert!(rt; line.entry(1) == Some(mapping));
    assert!(rt; line.entry(2) == None);
    assert!(rt; line.is_of(1));
    assert!(rt; !line.is_of(0));
    let one = line.without(0);
    assert!(rt; one.is_of(1));
    let none = one.without(1);
    assert!(rt; none == Line::empty());
    assert!(rt; none.is_empty());
    assert!(rt; !none.is_of(0));
    assert!(rt; !none.is_of(1));
    Ok(())
}

#[test]
fn past_the_eighth(rt: HostRuntime) -> Result<(), Fail> {
    let (line, mapping) = two_pages()?;
    assert!(rt; line.with(8, mapping) == line);
    assert!(rt; line.without(8) == line);
    assert!(rt; line.entry(8) == None);
    Ok(())
}

#[test]
fn cluster_zero(rt: HostRuntime) -> Result<(), Fail> {
    let mapping = Mapping::new(5, 1)?;
    let page = Page::try_from(0)?;
    let line = Line::only(page, mapping);
    assert!(rt; line.is_of(0));
    assert!(rt; !line.is_empty());
    assert!(rt; line != Line::empty());
    Ok(())
}
