// A line as 64 bytes.
ghost use Rattle.std.specs.Prelude.{◌≡◌, ◌<◌};
ghost use Rattle.lines.specs.declared.rows.Line.{Line as ALine};
ghost use Rattle.lines.specs.Packs.{packed_word, packed};

use crate::rows::Line;
use crate::words::entry_word;
use std::array;

// how many bits of the cluster each packed word holds, at its top
pub const CLUSTER_BITS: usize = 5;
// how many bits lie below them
pub const CONTENT_BITS: usize = 64 - CLUSTER_BITS;

impl Line {
    fn packed_word(&self, k: usize) -> u64
        requires { k < 8 }
        ensures { result ≡ packed_word self.now k }
    {
        let part = (self.cluster >> (CLUSTER_BITS * k)) % (1 << CLUSTER_BITS);
        (part << CONTENT_BITS) + entry_word(self.entries[k])
    }

    // Different lines pack differently. Packing is the rules' word for it; a conversion would promise the same two facts as one without a name.
    pub fn pack(&self) -> [u8; 64]
        ensures value { result ≡ packed self.now }
        ensures apart { (l : ALine) → packed l ≡ result → l ≡ self.now }
    {
        let words: [u64; 8] = array::from_fn(|k| self.packed_word(k));
        let mut bytes = [0; 64];
        bytes.copy_from_slice(words.map(u64::to_le_bytes).as_flattened());
        bytes
    }
}
