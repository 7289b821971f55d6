// A bit of a byte.
ghost use Rattle.std.specs.Prelude.{◌≡◌, ◌<◌};
ghost use Rattle.laws.specs.Bits;

// Bit n of a byte.
pub(crate) fn bit(n: u8, value: u8) -> bool
    requires { n < 8 }
    ensures { result ≡ Bits.bit n value }
{
    (value >> n) % 2 == 1
}
