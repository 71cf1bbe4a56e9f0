// The table family: each byte of the cluster chooses a number of a fixed table.
ghost use Rattle.std.specs.Prelude.{◌≡◌, ◌<◌};
ghost use Rattle.families.specs.Tables.{table_number, chosen, joined};
ghost use Rattle.families.specs.Small.{table_number_small};
ghost use Rattle.std.proofs.Common.{rules};

use crate::constants::table_at;
use crate::family::Family;
use crate::range::KnownCluster;
use crate::rotation::rotated;

#[derive(Clone, Copy, Debug)]
pub struct Table;

impl Family for Table {
    ghost number = { λ _ w c. table_number w c };

    ghost small = { λ f w c. table_number_small w c };

    ghost elsewhere = { Prim.search rules };

    fn known_number(&self, at: KnownCluster) -> u32 {
        rotated(join(at.cluster), 11 * at.way as u32)
    }
}

// The xor of the numbers that the five lowest bytes choose: a cluster has no more.
fn join(cluster: u64) -> u32
    ensures { result ≡ joined cluster 5 }
{
    (0..5).fold(0, |all, j| all ^ choose(cluster, j))
}

// Each byte has 256 numbers of the table to itself.
fn choose(cluster: u64, j: usize) -> u32
    requires { j < 5 }
    ensures { result ≡ chosen cluster j }
{
    let byte = (cluster >> (8 * j)) % 256;
    table_at(256 * j + byte as usize)
}
