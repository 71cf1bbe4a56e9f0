// What the families make of a cluster.
ghost use Rattle.std.specs.Prelude.{Some};
ghost use Rattle.account.specs.Accounts.{numbers_text, families_text};

use families::{Digit, Family, Mix, Table};
use std::fmt;

// The numbers of a cluster in the three ways, under the family's name.
#[derive(Clone, Copy)]
struct Numbers<'a, F> {
    name: &'a str,
    family: &'a F,
    cluster: u64,
}

impl<F: Family> fmt::Display for Numbers<'_, F> {
    ghost output = { λ n. Some (numbers_text n.name.now (λ w. F.Family.number n.family.now w n.cluster)) };

    fn fmt<W: fmt::Write>(&self, f: &mut fmt::Formatter<W>) -> fmt::Result {
        let name = self.name;
        let a = self.family.number_of(0, self.cluster);
        let b = self.family.number_of(1, self.cluster);
        let c = self.family.number_of(2, self.cluster);
        writeln!(f, "  {name} {a} {b} {c}")
    }
}

// The numbers of a cluster in each family.
#[derive(Clone, Copy)]
pub(crate) struct Families(pub u64);

impl fmt::Display for Families {
    ghost output = { λ c. Some (families_text c.0) };

    fn fmt<W: fmt::Write>(&self, f: &mut fmt::Formatter<W>) -> fmt::Result {
        let cluster = self.0;
        let digit = Numbers {
            name: "digit ",
            family: &Digit,
            cluster,
        };
        let mix = Numbers {
            name: "mix   ",
            family: &Mix,
            cluster,
        };
        let table = Numbers {
            name: "table ",
            family: &Table,
            cluster,
        };
        write!(f, "{digit}{mix}{table}")
    }
}
