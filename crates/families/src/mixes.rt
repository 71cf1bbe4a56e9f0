// The mix family: a multiplication for each way spreads the cluster over all 32 bits.
ghost use Rattle.std.specs.Prelude.{◌≡◌};
ghost use Rattle.families.specs.Mixes.{mix_number, folded};
ghost use Rattle.families.specs.Small.{mix_number_small};
ghost use Rattle.std.proofs.Common.{rules};

use crate::family::Family;
use crate::range::KnownCluster;
use crate::rotation::rotated;

const FOLD: u32 = 0x9E37_79B9;

const MULTIPLIERS: [u32; 3] = [0x9E37_79B1, 0x85EB_CA6B, 0xC2B2_AE35];

#[derive(Clone, Copy, Debug)]
pub struct Mix;

impl Family for Mix {
    ghost number = { λ _ w c. mix_number w c };

    ghost small = { λ f w c. mix_number_small w c };

    ghost elsewhere = { Prim.search rules };

    fn known_number(&self, at: KnownCluster) -> u32 {
        rotated(fold(at.cluster).wrapping_mul(MULTIPLIERS[at.way]), 16)
    }
}

// A cluster has more than 32 bits; those above are folded into those below.
fn fold(cluster: u64) -> u32
    ensures { result ≡ folded cluster }
{
    let low = (cluster % (1 << 32)) as u32;
    let high = (cluster >> 32) as u32;
    low.wrapping_add(high.wrapping_mul(FOLD))
}
