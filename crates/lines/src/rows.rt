// A line: one cluster's eight entries.
ghost use Rattle.std.specs.Prelude.{◌≡◌, ◌^◌, ◌<◌, true, length, nat_eq, Decides};
ghost use Rattle.std.specs.Ordering.{on, eq_of_both};
ghost use Rattle.std.specs.Option.{option_eq};
ghost use Rattle.std.specs.Cmp.Lexicographic.{pointwise};
ghost use Rattle.std.specs.Cmp.Rules.{comparing};
ghost use Rattle.lines.specs.Entries.{any_present};

use crate::entries::Entry;

// A cluster is eight neighbouring pages. Only the empty line has no entry, and its cluster is 0.
#[derive(Clone, Copy, Debug)]
pub struct Line {
    pub cluster: u64,
    pub entries: [Entry; 8],
    ghost ok: { (cluster < 2 ^ 33) × (length entries ≡ 8) × (0 < cluster → any_present entries ≡ true) },
}

// Written by hand: a derived `==` promises the same test, but not that it decides whether two lines are the same, and a proof that uses it does not find that by itself.
impl PartialEq for Line {
    ghost eq = { eq_of_both (on (λ l. l.cluster) nat_eq) (on (λ l. l.entries) (pointwise (option_eq (eq_of_both (on (λ m. m.frame) nat_eq) (on (λ m. m.rights) nat_eq))))) };

    ghost laws = { Prim.search comparing depth 9 };

    fn eq(&self, other: &Line) -> bool
        ensures value { result ≡ eq_of_both (on (λ l. l.cluster) nat_eq) (on (λ l. l.entries) (pointwise (option_eq (eq_of_both (on (λ m. m.frame) nat_eq) (on (λ m. m.rights) nat_eq))))) self.now other.now }
        ensures decides { Decides result (self.now ≡ other.now) }
    {
        self.cluster == other.cluster && self.entries == other.entries
    }
}

impl Eq for Line {
    ghost laws = { Prim.search comparing depth 9 };
}
