// The lines of a layout, copied.
ghost use Rattle.std.specs.Prelude.{◌≡◌, map, IfOk, box_value};
ghost use Rattle.std.specs.BTreeMap.{values};

use layout::Layout;
use lines::Line;
use std::alloc::{AllocError, Global};

// The lines in the order of their clusters.
pub(crate) fn copy_lines(heap: Global, layout: &Layout) -> Result<Vec<Line>, AllocError>
    ensures { IfOk result (λ v. v.items ≡ map box_value (values layout.now.lines)) }
{
    layout.lines.values().map(|line| **line).collect(heap)
}
