// The account of a line.
ghost use Rattle.std.specs.Prelude.{◌≡◌, true, Some};
ghost use Rattle.lines.specs.Packs.{packed};
ghost use Rattle.account.specs.Accounts.{packed_text, line_text};

use crate::families_of::Families;
use crate::hex::Hex;
use lines::Line;
use std::fmt;

// A line beside its packed form.
#[derive(Clone, Copy)]
struct PackedLine<'a> {
    line: &'a Line,
    bytes: [u8; 64],
    ghost packs: { bytes ≡ packed line.now },
}

impl<'a> PackedLine<'a> {
    fn new(line: &'a Line) -> PackedLine<'a>
        ensures { result.line.now ≡ line.now }
    {
        PackedLine {
            line,
            bytes: line.pack(),
        }
    }

    // Unpacks the bytes again: the answer is a theorem, and is printed as it comes.
    fn unpacks_to_same(&self) -> bool
        ensures { result ≡ true }
    {
        Line::unpack(&self.bytes) == Ok(*self.line)
    }
}

impl fmt::Display for PackedLine<'_> {
    ghost output = { λ p. Some (packed_text p.line.now) };

    fn fmt<W: fmt::Write>(&self, f: &mut fmt::Formatter<W>) -> fmt::Result {
        let cluster = self.line.cluster;
        let packed = Hex(&self.bytes);
        writeln!(f, "cluster {cluster}\n  packed {packed}")
    }
}

// A line's packed form, the numbers of its cluster, and what the packed form unpacks to.
#[derive(Clone, Copy)]
pub(crate) struct LineAccount<'a>(pub &'a Line);

impl fmt::Display for LineAccount<'_> {
    ghost output = { λ l. Some (line_text l.0.now) };

    fn fmt<W: fmt::Write>(&self, f: &mut fmt::Formatter<W>) -> fmt::Result {
        let packed = PackedLine::new(self.0);
        let numbers = Families(self.0.cluster);
        let back = if packed.unpacks_to_same() {
            "the same line"
        } else {
            "another line"
        };
        writeln!(f, "{packed}{numbers}  unpacks to {back}")
    }
}
