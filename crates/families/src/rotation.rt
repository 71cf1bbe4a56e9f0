// Rotation of 32 bits.
ghost use Rattle.std.specs.Prelude.{◌≡◌, ◌<◌};
ghost use Rattle.families.specs.Words.{rotl};

pub(crate) fn rotated(x: u32, by: u32) -> u32
    requires { by < 32 }
    ensures { result ≡ rotl by x }
{
    x.rotate_left(by)
}
