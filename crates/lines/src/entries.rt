// What a page is mapped to.
ghost use Rattle.std.specs.Prelude.{◌^◌, ◌<◌, ◌≤◌};

// a frame of 4,096 bytes, with rights: the sum of 1 to read, 2 to write and 4 to execute
#[derive(Clone, Copy, PartialEq, Eq, Debug)]
pub struct Mapping {
    pub frame: u64,
    pub rights: u8,
    ghost ok: { (frame < 2 ^ 34) × (1 ≤ rights) × (rights ≤ 7) },
}

// one page's place in a line: what the page is mapped to, if anything
pub type Entry = Option<Mapping>;
