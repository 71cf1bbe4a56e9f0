// Why a line of a list is refused.
ghost use Rattle.std.specs.Prelude.{◌≡◌, [], ◌∷◌};
ghost use Rattle.layout.specs.declared.faults.ListFault.TheVariants.{Line as Held};
ghost use Rattle.layout.specs.Refusals.{told};

use lines::LineFault;

#[derive(Clone, Copy, PartialEq, Eq, Debug)]
pub enum ListFault {
    // the page, the frame or the rights
    Line(LineFault),
    // the page stands in an earlier line
    ListedTwice,
    // not three numbers parted by commas
    Unreadable,
}

impl From<LineFault> for ListFault {
    ghost from_gives = { λ e r. r ≡ Held e };

    fn from(e: LineFault) -> ListFault {
        ListFault::Line(e)
    }
}

impl ListFault {
    // the rules' name of the refusal: it is told, and no value is made of it, so it is no conversion
    pub fn number(self) -> u64
        ensures { told self ≡ result ∷ [] }
    {
        match self {
            ListFault::Line(fault) => fault.number(),
            ListFault::ListedTwice => 6,
            ListFault::Unreadable => 15,
        }
    }
}
