// Addresses and pages, which cannot be too large.
ghost use Rattle.std.specs.Prelude.{◌^◌, ◌<◌};

// Two types and not one with its bound as a parameter: they share only how they are made, and each name says what is counted.

// a bytecode address of a controller
#[derive(Clone, Copy, PartialEq, Eq, Debug)]
pub struct Address {
    pub number: u64,
    ghost ok: { number < 2 ^ 48 },
}

// 4,096 addresses that translate together
#[derive(Clone, Copy, PartialEq, Eq, Debug)]
pub struct Page {
    pub number: u64,
    ghost ok: { number < 2 ^ 36 },
}
