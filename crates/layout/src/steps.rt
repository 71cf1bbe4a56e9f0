// What one line of a list does to the lines laid out so far.
ghost use Rattle.std.specs.Prelude.{◌+◌, ◌*◌, ◌<◌, MatchOption, OnOk};
ghost use Rattle.reading.specs.Numbers.{three_of};
ghost use Rattle.layout.specs.Sheets.{word_in};
ghost use Rattle.layout.specs.Steps.{Joined, Answered, Stepped};

use crate::faults::ListFault;
use crate::listed::Listed;
use crate::sheets::{Layout, Refusal};
use lines::Line;
use std::alloc::{AllocError, Global};
use std::collections::btree_map::Entry;

impl Layout {
    // The line of a page with the page entered, or None where it has the page.
    fn line_with(&self, listed: Listed) -> Option<Line>
        ensures { MatchOption result (0 < word_in self.now.lines listed.page.number) (λ l. Joined self.now.lines listed.page.number (listed.mapping.frame * 8 + listed.mapping.rights) l) }
    {
        let Listed { page, mapping } = listed;
        let Some(line) = self.lines.get(&page.cluster()) else {
            return Some(Line::only(page, mapping));
        };
        let position = page.position();
        match line.entry(position) {
            None => Some(line.with(position, mapping)),
            Some(_) => None,
        }
    }

    // The line that a line of the list makes of its page's line, or its refusal.
    fn line_by(&self, row: &[u8]) -> Result<Line, ListFault>
        ensures { Answered self.now.lines (three_of row.now) result }
    {
        let listed = Listed::try_from(row)?;
        self.line_with(listed).ok_or(ListFault::ListedTwice)
    }

    // Takes in one line of the list, which has this number there.
    pub(crate) fn take_row(&mut self, heap: Global, line: u64, row: &[u8]) -> Result<(), AllocError>
        requires few { self.old.pages < line }
        ensures { OnOk result (Stepped self.old line row.now self.new) }
    {
        match self.line_by(row) {
            Ok(entered) => {
                // only a new cluster takes memory: a line that is there is written over
                match self.lines.entry(entered.cluster)? {
                    Entry::Occupied(mut held) => **held.get_mut() = entered,
                    Entry::Vacant(free) => {
                        free.insert(Box::new(heap, entered)?);
                    }
                }
                self.pages += 1;
            }
            Err(fault) => self.refused.push(Refusal { line, fault })?,
        }
        Ok(())
    }
}
