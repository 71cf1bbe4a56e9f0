// The whole list.
ghost use Rattle.std.specs.Prelude.{IfOk};
ghost use Rattle.layout.specs.Sheets.{LaidOut};

use crate::sheets::Layout;
use reading::Lines;
use std::alloc::{AllocError, Global};
use std::collections::BTreeMap;

// The pages of a list as lines. Of lines that name one page, the first good one counts.
pub fn lay_out(heap: Global, list: &[u8]) -> Result<Layout, AllocError>
    ensures { IfOk result (λ t. LaidOut list.now t) }
{
    let mut layout = Layout {
        lines: BTreeMap::new(heap),
        pages: 0,
        refused: Vec::new(heap),
    };
    for (before, row) in Lines::new(list).enumerate() {
        layout.take_row(heap, before as u64 + 1, row)?;
    }
    Ok(layout)
}
