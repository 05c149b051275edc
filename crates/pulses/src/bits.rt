ghost use Rattle.std.specs.Prelude.{◌≡◌, ◌+◌, ◌-◌, ◌*◌, ◌/◌, ◌%◌, ◌^◌, ◌<◌, ◌≤◌};
ghost use Rattle.pulses.specs.Pulses.{bit as bit_of};

use crate::pulse::Sign;

/// A number of `count` bits.
#[derive(Clone, Copy)]
pub(crate) struct Bits {
    pub(crate) value: u32,
    pub(crate) count: u32,
    ghost few: { count < 32 },
    ghost small: { value < 2 ^ count },
}

/// The sign bit.
impl From<Sign> for Bits {
    ghost from_gives = { λ sign b. (b.value ≡ bit_of sign) × (b.count ≡ 1) };

    fn from(sign: Sign) -> Bits {
        Bits {
            value: u32::from(u8::from(sign)),
            count: 1,
        }
    }
}

impl Bits {
    /// The lowest `count` bits of a number.
    pub(crate) fn lowest(number: u32, count: u32) -> Bits
        requires { count < 32 }
        ensures value { result.value ≡ number % 2 ^ count }
        ensures count { result.count ≡ count }
    {
        Bits {
            value: number % (1 << count),
            count,
        }
    }

    /// These bits above those of `low`.
    pub(crate) fn above(self, low: Bits) -> Bits
        requires { self.count + low.count < 32 }
        ensures value { result.value ≡ self.value * 2 ^ low.count + low.value }
        ensures count { result.count ≡ self.count + low.count }
    {
        Bits {
            value: (self.value << low.count) + low.value,
            count: self.count + low.count,
        }
    }

    /// The highest `count` of these bits, and those below them.
    #[tactic(auto, using(crate::proofs::Cuts::high_below))]
    pub(crate) fn split(self, count: u32) -> (Bits, Bits)
        requires { count ≤ self.count }
        ensures high { result.0.value ≡ self.value / 2 ^ (self.count - count) }
        ensures high_count { result.0.count ≡ count }
        ensures low { result.1.value ≡ self.value % 2 ^ (self.count - count) }
        ensures low_count { result.1.count ≡ self.count - count }
    {
        let below = self.count - count;
        let high = Bits {
            value: self.value >> below,
            count,
        };
        (high, Bits::lowest(self.value, below))
    }
}
