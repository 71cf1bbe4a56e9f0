// Making a line, looking into it, and the lines that come of setting or clearing an entry.
ghost use Rattle.std.specs.Prelude.{◌≡◌, ◌∷◌, map, slice_set, MatchOption};
ghost use Rattle.lines.specs.Decoded.{record_of, NoRecord};
ghost use Rattle.lines.specs.Entries.{any_present, word_of};
ghost use Rattle.lines.specs.Numbers.{cluster_of, position_of};
ghost use Rattle.lines.specs.Lines.{entry_at, is_empty, is_of, filled, cleared, no_entries, Holds, NoLine, cluster_left};

use crate::entries::{Entry, Mapping};
use crate::numbers::Page;
use crate::rows::Line;
use crate::words::{entry_from_word, entry_word};

const CLUSTERS: u64 = 1 << 33;

fn any_present(entries: &[Entry; 8]) -> bool
    ensures { result ≡ any_present entries.now }
{
    entries.iter().any(Option::is_some)
}

// replaces the entry at a position; there is none past the eighth
fn set_entry(entries: &mut [Entry; 8], position: usize, entry: Entry)
    ensures { entries.new ≡ slice_set entries.old position entry }
{
    // Tried: after `get_mut` a proof knows nothing of the elements.
    if position < entries.len() {
        entries[position] = entry;
    }
}

impl Line {
    pub fn empty() -> Line
        ensures { Holds result 0 no_entries }
    {
        Line {
            cluster: 0,
            entries: [None; 8],
        }
    }

    // the line with this cluster and these entries, where there is one
    pub fn new(cluster: u64, entries: [Entry; 8]) -> Option<Line>
        ensures { MatchOption result (NoLine cluster entries) (λ l. Holds l cluster entries) }
    {
        if cluster >= CLUSTERS {
            return None;
        }
        if cluster > 0 && !any_present(&entries) {
            return None;
        }
        Some(Line { cluster, entries })
    }

    // the line with one page alone
    pub fn only(page: Page, mapping: Mapping) -> Line
        ensures { Holds result (cluster_of page.number) (filled no_entries (position_of page.number) mapping) }
    {
        let mut entries = [None; 8];
        set_entry(&mut entries, page.position(), Some(mapping));
        Line {
            cluster: page.cluster(),
            entries,
        }
    }

    // the entry at a position; past the eighth there is none
    pub fn entry(&self, position: usize) -> Entry
        ensures { result ≡ entry_at self.now position }
    {
        *self.entries.get(position)?
    }

    pub fn is_empty(&self) -> bool
        ensures { result ≡ is_empty self.now }
    {
        !any_present(&self.entries)
    }

    // the empty line is of no cluster, not even of cluster 0
    pub fn is_of(&self, cluster: u64) -> bool
        ensures { result ≡ is_of cluster self.now }
    {
        !self.is_empty() && self.cluster == cluster
    }

    // the words of its entries
    pub fn words(&self) -> [u64; 8]
        ensures { result ≡ map word_of self.now.entries }
    {
        self.entries.map(entry_word)
    }

    // the line whose record is this, where there is one
    pub fn from_words(cluster: u64, words: [u64; 8]) -> Option<Line>
        ensures { MatchOption result (NoRecord (cluster ∷ words)) (λ l. record_of l ≡ cluster ∷ words) }
    {
        let mut entries = [None; 8];
        for (k, word) in words.iter().enumerate() {
            // Tried: with `?`, or with every entry written whole, it takes twice the time.
            let Some(entry) = entry_from_word(*word) else {
                return None;
            };
            if let Some(mapping) = entry {
                entries[k] = Some(mapping);
            }
        }
        Line::new(cluster, entries)
    }

    // the line of the same cluster with the entry at a position set; there is none past the eighth
    pub fn with(&self, position: usize, mapping: Mapping) -> Line
        ensures { Holds result self.now.cluster (filled self.now.entries position mapping) }
    {
        let mut entries = self.entries;
        set_entry(&mut entries, position, Some(mapping));
        Line {
            cluster: self.cluster,
            entries,
        }
    }

    // the line with the entry at a position cleared: the empty line where that was the last
    pub fn without(&self, position: usize) -> Line
        ensures { Holds result (cluster_left self.now.cluster (cleared self.now.entries position)) (cleared self.now.entries position) }
    {
        let mut entries = self.entries;
        set_entry(&mut entries, position, None);
        let cluster = if any_present(&entries) {
            self.cluster
        } else {
            0
        };
        Line { cluster, entries }
    }
}
