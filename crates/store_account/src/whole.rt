// The whole account.
ghost use Rattle.std.specs.Prelude.{IfOk, string_bytes};
ghost use Rattle.store_account.specs.Accounts.{Accounted};

use crate::copies::copy_lines;
use crate::stays::{PACKED, RECORD, stay_on};
use layout::lay_out;
use packed_store::Packs;
use record_store::Records;
use std::alloc::{AllocError, Global};

// Lays a list of pages out, keeps its lines in a packed store and in a record store, and says what came of it.
pub fn store_account(heap: Global, list: &[u8]) -> Result<String, AllocError>
    ensures { IfOk result (λ s. Accounted list.now (string_bytes s)) }
{
    let layout = lay_out(heap, list)?;
    let lines = copy_lines(heap, &layout)?;
    let packed = stay_on::<Packs>(heap, PACKED, lines.as_slice())?;
    let record = stay_on::<Records>(heap, RECORD, lines.as_slice())?;
    format!(in heap; "{packed}{record}")
}
