// Making addresses, pages and mappings from plain numbers, and the numbers that they give.
ghost use Rattle.std.specs.Prelude.{◌≡◌, MatchOption};
ghost use Rattle.lines.specs.Numbers.{page_of, offset_of, cluster_of, position_of, place_of};
ghost use Rattle.lines.specs.Entries.{word_of, NoEntry};
ghost use Rattle.lines.specs.Refusals.{AddressMade, PageMade, MappingMade};

use crate::entries::{Entry, Mapping};
use crate::faults::LineFault;
use crate::numbers::{Address, Page};

const ADDRESSES: u64 = 1 << 48;

const PAGES: u64 = 1 << 36;

const FRAMES: u64 = 1 << 34;

const PAGE_BYTES: u64 = 4096;

const PAGES_IN_A_LINE: u64 = 8;

// Addresses and pages have a maker each: why they are two types is said where they are declared.
impl TryFrom<u64> for Address {
    type Error = LineFault;

    ghost try_from_gives = { AddressMade };

    fn try_from(number: u64) -> Result<Address, LineFault> {
        if number >= ADDRESSES {
            return Err(LineFault::PageTooLarge);
        }
        Ok(Address { number })
    }
}

impl Address {
    pub fn page(self) -> Page
        ensures { result.number ≡ page_of self.number }
    {
        Page {
            number: self.number / PAGE_BYTES,
        }
    }

    pub fn offset(self) -> u64
        ensures { result ≡ offset_of self.number }
    {
        self.number % PAGE_BYTES
    }
}

impl TryFrom<u64> for Page {
    type Error = LineFault;

    ghost try_from_gives = { PageMade };

    fn try_from(number: u64) -> Result<Page, LineFault> {
        if number >= PAGES {
            return Err(LineFault::PageTooLarge);
        }
        Ok(Page { number })
    }
}

impl Page {
    pub fn cluster(self) -> u64
        ensures { result ≡ cluster_of self.number }
    {
        self.number / PAGES_IN_A_LINE
    }

    pub fn position(self) -> usize
        ensures { result ≡ position_of self.number }
    {
        (self.number % PAGES_IN_A_LINE) as usize
    }
}

impl Mapping {
    // It takes two numbers, so it is a maker and no conversion.
    pub fn new(frame: u64, rights: u64) -> Result<Mapping, LineFault>
        ensures { MappingMade frame rights result }
    {
        if frame >= FRAMES {
            return Err(LineFault::FrameTooLarge);
        }
        if rights < 1 || rights > 7 {
            return Err(LineFault::BadRights);
        }
        Ok(Mapping {
            frame,
            rights: rights as u8,
        })
    }

    // where an address of the page lies in memory
    pub fn place(self, address: Address) -> u64
        ensures { result ≡ place_of self.frame address.number }
    {
        self.frame * PAGE_BYTES + address.offset()
    }
}

// An entry and its word are both of the library's types, so a conversion between them is not ours to write: two functions stand in its place.

// the word of an entry: 0, or frame and rights side by side
pub fn entry_word(entry: Entry) -> u64
    ensures { result ≡ word_of entry }
{
    entry.map_or(0, |mapping| mapping.frame * 8 + mapping.rights as u64)
}

// the entry that has a word
pub fn entry_from_word(word: u64) -> Option<Entry>
    ensures { MatchOption result (NoEntry word) (λ e. word_of e ≡ word) }
{
    if word == 0 {
        return Some(None);
    }
    Mapping::new(word / 8, word % 8).ok().map(Some)
}
