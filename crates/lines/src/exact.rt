// The types of lines at which `==` tells whether two values are the same.
ghost use Rattle.std.specs.Prelude.{◌≡◌, ◌↔◌, IsTrue};
ghost use Rattle.lines.specs.Equal.{address_decides, page_decides, mapping_decides, entry_decides, line_decides};

use crate::entries::{Entry, Mapping};
use crate::numbers::{Address, Page};
use crate::rows::Line;

// A type at which `==` holds of two values exactly where they are the same. A derived `==` says only which test it computes.
pub trait ExactEq: PartialEq {
    ghost decides: { (a b : Self) → IsTrue (Self.eq a b) ↔ (a ≡ b) };
}

impl ExactEq for Address {
    ghost decides = { address_decides };
}

impl ExactEq for Page {
    ghost decides = { page_decides };
}

impl ExactEq for Mapping {
    ghost decides = { mapping_decides };
}

impl ExactEq for Entry {
    ghost decides = { entry_decides };
}

impl ExactEq for Line {
    ghost decides = { line_decides };
}
