// The ways and clusters that a family has numbers for.
ghost use Rattle.std.specs.Prelude.{◌≡◌, ◌^◌, ◌<◌, false, MatchOption};
ghost use Rattle.families.specs.Known.{known};

const WAYS: usize = 3;

const CLUSTERS: u64 = 1 << 33;

// a way and a cluster that every family has a number for
#[derive(Clone, Copy, PartialEq, Eq, Debug)]
pub struct KnownCluster {
    pub way: usize,
    pub cluster: u64,
    ghost ok: { (way < 3) × (cluster < 2 ^ 33) },
}

impl KnownCluster {
    pub fn new(way: usize, cluster: u64) -> Option<KnownCluster>
        ensures { MatchOption result (known way cluster ≡ false) (λ at. (at.way ≡ way) × (at.cluster ≡ cluster)) }
    {
        if way < WAYS && cluster < CLUSTERS {
            Some(KnownCluster { way, cluster })
        } else {
            None
        }
    }
}
