// What a hash family means, for any code that uses one.
ghost use Rattle.std.specs.Prelude.{◌≡◌, ℕ, ◌^◌, ◌<◌, false};
ghost use Rattle.families.specs.Known.{known};

use crate::range::KnownCluster;

// A fixed number for each way and cluster. Asking changes nothing.
pub trait Family {
    // the number of a cluster in a way
    ghost number: { Self → ℕ → ℕ → ℕ };

    // the number of a cluster in a way, where every family has one
    fn known_number(&self, at: KnownCluster) -> u32
        ensures { result ≡ number self.now at.way at.cluster };

    // the number of any cluster in any way
    fn number_of(&self, way: usize, cluster: u64) -> u32
        ensures { result ≡ number self.now way cluster }
    {
        match KnownCluster::new(way, cluster) {
            Some(at) => self.known_number(at),
            None => 0,
        }
    }

    // every number has 32 bits
    ghost small: { (f : Self) (w c : ℕ) → number f w c < 2 ^ 32 };

    // outside the three ways and the clusters of 33 bits the number is 0
    ghost elsewhere: { (f : Self) (w c : ℕ) → known w c ≡ false → number f w c ≡ 0 };
}
