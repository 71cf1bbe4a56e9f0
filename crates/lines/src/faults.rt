// Why a number is no page, frame or rights, and why bytes are no line.
ghost use Rattle.std.specs.Prelude.{◌≡◌, [], ◌∷◌};
ghost use Rattle.lines.specs.Refusals.{told};

#[derive(Clone, Copy, PartialEq, Eq, Debug)]
pub enum LineFault {
    // the page or the address is too large
    PageTooLarge,
    FrameTooLarge,
    // the rights are not 1 to 7
    BadRights,
    // not 64 bytes, or no line packs to them
    NotALine,
}

impl LineFault {
    // the rules' name of the refusal: it is told, and no value is made of it, so it is no conversion
    pub fn number(self) -> u64
        ensures { told self ≡ result ∷ [] }
    {
        match self {
            LineFault::PageTooLarge => 3,
            LineFault::FrameTooLarge => 4,
            LineFault::BadRights => 5,
            LineFault::NotALine => 19,
        }
    }
}
