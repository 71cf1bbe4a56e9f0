// What comes of a list.
ghost use Rattle.std.specs.Prelude.{◌≡◌, ℕ, true, box_value};
ghost use Rattle.std.specs.BTreeMap.{IsOrdered, get};
ghost use Rattle.std.specs.Option.{ForSome};
ghost use Rattle.std.specs.Ordering.{nat_cmp};
ghost use Rattle.std.proofs.Props.{props};
ghost use Rattle.lines.specs.Lines.{is_of};

use crate::faults::ListFault;
use lines::Line;
use std::collections::BTreeMap;
use std::fmt;

// a refused line, by its number in the list, counted from 1
#[derive(Clone, Copy, PartialEq, Eq, Debug)]
pub struct Refusal {
    pub line: u64,
    pub fault: ListFault,
}

impl fmt::Display for Refusal {
    ghost use Rattle.std.specs.Prelude.{◌++◌, Some, codes, decimal, slice_index};
    ghost use Rattle.layout.specs.Refusals.{told};

    ghost output = { λ r. Some (codes "line " ++ (decimal r.line ++ (codes " refused: " ++ decimal (slice_index (told r.fault) 0)))) };

    fn fmt<W: fmt::Write>(&self, f: &mut fmt::Formatter<W>) -> fmt::Result {
        write!(f, "line {} refused: {}", self.line, self.fault.number())
    }
}

#[derive(Drop)]
pub struct Layout {
    // the lines by their clusters, boxed since the map moves what it holds as it grows, and its nodes stand half full where clusters come in order
    pub lines: BTreeMap<u64, Box<Line>>,
    // how many pages they hold
    pub pages: u64,
    // in the order of the list
    pub refused: Vec<Refusal>,
    ghost ordered: { IsOrdered nat_cmp lines } by { Prim.hlevel props },
    // each line stands under its own cluster, and none is empty
    ghost own: { (c : ℕ) → ForSome (get nat_cmp lines c) (λ b. is_of c (box_value b) ≡ true) },
}
