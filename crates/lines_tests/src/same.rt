// That `==` tells whether two values are the same, at each type of lines.
ghost use Rattle.std.specs.Prelude.{◌≡◌, Decides};

use lines::{Address, Entry, ExactEq, Line, Mapping, Page};
use std::process::Abort;
use std::test::Fail;

// What code over any such type learns of `==`.
fn is_same<T: ExactEq>(a: &T, b: &T) -> bool
    ensures { Decides result (a.now ≡ b.now) }
{
    *a == *b
}

// Two values that differ are told apart, each of which is the same as itself.
fn tells_apart<T: ExactEq>(rt: &impl Abort, a: &T, b: &T) {
    assert!(rt; is_same(a, a) && is_same(b, b));
    assert!(rt; !is_same(a, b) && !is_same(b, a));
}

#[test]
fn same_and_others(rt: HostRuntime) -> Result<(), Fail> {
    let read = Mapping::new(2, 1)?;
    let write = Mapping::new(2, 2)?;
    tells_apart(&rt, &Address::try_from(7)?, &Address::try_from(8)?);
    tells_apart(&rt, &Page::try_from(7)?, &Page::try_from(8)?);
    tells_apart(&rt, &read, &write);
    tells_apart::<Entry>(&rt, &Some(read), &Some(write));
    tells_apart::<Entry>(&rt, &None, &Some(write));
    let first = Line::only(Page::try_from(0)?, read);
    tells_apart(&rt, &first, &Line::empty());
    tells_apart(&rt, &first, &first.with(1, read));
    tells_apart(&rt, &first, &Line::only(Page::try_from(8)?, read));
    Ok(())
}
