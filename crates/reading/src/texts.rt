// Takes a text apart line by line.
ghost use Rattle.std.specs.Prelude.{◌≡◌, [], length, MatchOption};
ghost use Rattle.std.specs.Iterator.{YieldsFirstRef, at_most};
ghost use Rattle.reading.specs.Parts.{FirstLine, lines_of};

use crate::cuts::cut;

// The first line of a text and the text behind it, or None where the text is empty.
pub fn first_line(text: &[u8]) -> Option<(&[u8], &[u8])>
    ensures { MatchOption result (text.now ≡ []) (λ p. FirstLine text.now p.0.now p.1.now) }
{
    if text.is_empty() {
        return None;
    }
    let (line, rest) = cut(text, b'\n');
    Some((line, rest.unwrap_or(&[])))
}

// The lines of a text, one after another.
#[derive(Drop)]
pub struct Lines<'a> {
    left: &'a [u8],
}

impl<'a> Lines<'a> {
    ghost use Rattle.reading.specs.Lines.{lines_left};

    pub fn new(text: &'a [u8]) -> Lines<'a>
        ensures { lines_left result ≡ lines_of text.now }
    {
        Lines { left: text }
    }
}

impl<'a> Iterator for Lines<'a> {
    ghost use Rattle.reading.specs.Lines.{lines_left};

    type Item = &'a [u8];

    ghost next_gives = { YieldsFirstRef lines_left };

    // a line takes a byte at least
    ghost remaining = { λ it. at_most (length it.left.now) };

    fn next(&mut self) -> Option<&'a [u8]> {
        let (line, rest) = first_line(self.left)?;
        self.left = rest;
        Some(line)
    }
}
