// The line that bytes are the packed form of.
ghost use Rattle.std.specs.Prelude.{◌≡◌, Ok};
ghost use Rattle.lines.specs.declared.rows.Line.{Line as ALine};
ghost use Rattle.lines.specs.Packs.{packed};
ghost use Rattle.lines.specs.Refusals.{Unpacked};

use crate::faults::LineFault;
use crate::packs::{CLUSTER_BITS, CONTENT_BITS};
use crate::rows::Line;
use crate::words::entry_from_word;

impl Line {
    // A packed line unpacks to itself, and what unpacks is the packed form of the answer. It stands beside `pack`, for the reason given there.
    pub fn unpack(bytes: &[u8]) -> Result<Line, LineFault>
        ensures said { Unpacked bytes.now result }
        ensures back { (l : ALine) → packed l ≡ bytes.now → result ≡ Ok l }
    {
        if bytes.len() != 64 {
            return Err(LineFault::NotALine);
        }
        let mut cluster = 0;
        let mut entries = [None; 8];
        let (chunks, _) = bytes.as_chunks::<8>();
        // Tried: with `?` and `ok_or`, or with every entry written whole, it takes twice the time.
        for (k, chunk) in chunks.iter().enumerate() {
            let word = u64::from_le_bytes(*chunk);
            let Some(entry) = entry_from_word(word % (1 << CONTENT_BITS)) else {
                return Err(LineFault::NotALine);
            };
            if let Some(mapping) = entry {
                entries[k] = Some(mapping);
            }
            cluster += (word >> CONTENT_BITS) << (CLUSTER_BITS * k);
        }
        let Some(line) = Line::new(cluster, entries) else {
            return Err(LineFault::NotALine);
        };
        Ok(line)
    }
}
