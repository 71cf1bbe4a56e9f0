// What any code can ask of a family, known by its trait alone, and tests of the three families.
#![tactic(auto)]

ghost use Rattle.std.specs.Prelude.{◌≡◌, [], ◌∷◌};

use families::Family;

#[cfg(test)]
mod tests;

// The numbers of a cluster in all three ways.
fn numbers<F: Family>(family: &F, cluster: u64) -> [u32; 3]
    ensures { result ≡ F.Family.number family.now 0 cluster ∷ F.Family.number family.now 1 cluster ∷ F.Family.number family.now 2 cluster ∷ [] }
{
    [
        family.number_of(0, cluster),
        family.number_of(1, cluster),
        family.number_of(2, cluster),
    ]
}

// The first way that no family has.
fn past_the_ways<F: Family>(family: &F, cluster: u64) -> u32
    ensures { result ≡ 0 }
{
    family.number_of(3, cluster)
}

// The number of a family of which only a pointer is known.
fn number_behind(family: &dyn Family, way: usize, cluster: u64) -> u32
    ensures { result ≡ number family.now way cluster }
{
    family.number_of(way, cluster)
}
