// The digit family: each way drops one more octal digit of the cluster.
ghost use Rattle.std.specs.Prelude.{◌≡◌, ◌/◌, ◌^◌, ◌<◌};
ghost use Rattle.families.specs.Digits.{digit_number};
ghost use Rattle.std.proofs.Common.{rules};

use crate::family::Family;
use crate::range::KnownCluster;

#[derive(Clone, Copy, Debug)]
pub struct Digit;

impl Family for Digit {
    ghost number = { λ _ w c. digit_number w c };

    ghost small = { Prim.search rules };

    ghost elsewhere = { Prim.search rules };

    fn known_number(&self, at: KnownCluster) -> u32 {
        (without_digits(at.cluster, at.way) % (1 << 32)) as u32
    }
}

// The cluster without its lowest octal digits. One has three bits.
fn without_digits(cluster: u64, digits: usize) -> u64
    requires { digits < 3 }
    ensures { result ≡ cluster / 8 ^ digits }
{
    cluster >> (3 * digits)
}
