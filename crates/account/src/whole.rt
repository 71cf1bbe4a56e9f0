// The account of a whole layout.
ghost use Rattle.std.specs.Prelude.{Some, IfOk, string_bytes};
ghost use Rattle.account.specs.Accounts.{totals_text, layout_text, Accounted};

use crate::lines_of::LineAccount;
use layout::{Layout, lay_out};
use std::alloc::{AllocError, Global};
use std::fmt;

// How many pages and lines a layout has, and how many refused lines.
#[derive(Clone, Copy)]
struct Totals {
    pages: u64,
    lines: usize,
    refused: usize,
}

impl fmt::Display for Totals {
    ghost output = { λ t. Some (totals_text t.pages t.lines t.refused) };

    fn fmt<W: fmt::Write>(&self, f: &mut fmt::Formatter<W>) -> fmt::Result {
        let Totals {
            pages,
            lines,
            refused,
        } = *self;
        let bytes = 64 * lines as u128;
        writeln!(
            f,
            "{pages} pages, {lines} lines, {bytes} bytes, {refused} refused"
        )
    }
}

// The lines in the order of their clusters, the refused lines, and the totals.
#[derive(Clone, Copy)]
struct LayoutAccount<'a>(&'a Layout);

impl fmt::Display for LayoutAccount<'_> {
    ghost output = { λ t. Some (layout_text t.0.now) };

    fn fmt<W: fmt::Write>(&self, f: &mut fmt::Formatter<W>) -> fmt::Result {
        let layout = self.0;
        for line in layout.lines.values() {
            write!(f, "{}", LineAccount(line))?;
        }
        for refusal in &layout.refused {
            writeln!(f, "{refusal}")?;
        }
        let totals = Totals {
            pages: layout.pages,
            lines: layout.lines.len(),
            refused: layout.refused.len(),
        };
        write!(f, "{totals}")
    }
}

// Lays a list of pages out, and says what came of it.
pub fn account(heap: Global, list: &[u8]) -> Result<String, AllocError>
    ensures { IfOk result (λ s. Accounted list.now (string_bytes s)) }
{
    let layout = lay_out(heap, list)?;
    LayoutAccount(&layout).to_string(heap)
}
