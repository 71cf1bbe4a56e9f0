// Why a chunk store refuses.
ghost use Rattle.std.specs.Prelude.{◌≡◌, Some, slice_index};
ghost use Rattle.stores.specs.Refusals.{told, refused_text};

use std::fmt;

#[derive(Clone, Copy, PartialEq, Eq, Debug)]
pub enum StoreFault {
    // fewer chunks are free than are needed
    TooFewFree { needed: usize, free: usize },
    NoneFree,
    // the chunk is free, or there is none of that number
    NotOut,
    // a chunk has no row of that number
    NoSuchRow,
}

impl StoreFault {
    // the rules' name of the refusal: it is told, and no value is made of it, so it is no conversion
    pub fn number(self) -> u64
        ensures { result ≡ slice_index (told self) 0 }
    {
        match self {
            StoreFault::TooFewFree { .. } => 14,
            StoreFault::NoneFree => 16,
            StoreFault::NotOut => 17,
            StoreFault::NoSuchRow => 18,
        }
    }
}

impl fmt::Display for StoreFault {
    ghost output = { λ fault. Some (refused_text (told fault)) };

    fn fmt<W: fmt::Write>(&self, f: &mut fmt::Formatter<W>) -> fmt::Result {
        let number = self.number();
        match self {
            StoreFault::TooFewFree { needed, free } => {
                write!(f, "refused {number}, needed {needed}, free {free}")
            }
            _ => write!(f, "refused {number}"),
        }
    }
}
