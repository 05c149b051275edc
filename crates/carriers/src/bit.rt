ghost use Rattle.std.specs.Prelude.{◌≡◌, ◌/◌, ◌^◌};
ghost use Rattle.carriers.specs.Bits.{bit_value, bit_of};

/// What a cell that is not bad holds.
#[derive(Clone, Copy, PartialEq, Eq, Debug)]
pub enum Bit {
    Zero,
    One,
}

/// The number that the bit stands for: `u32::from(Bit::One)` is 1.
impl From<Bit> for u32 {
    ghost from_gives = { λ b n. n ≡ bit_value b };

    fn from(bit: Bit) -> u32 {
        match bit {
            Bit::Zero => 0,
            Bit::One => 1,
        }
    }
}

impl Bit {
    /// The last bit of a number: `Bit::last_of(6)` is `Bit::Zero`.
    // No `From`, which would hide that the rest of the number is lost.
    pub fn last_of(number: u32) -> Bit
        ensures { result ≡ bit_of number }
    {
        if number % 2 == 0 { Bit::Zero } else { Bit::One }
    }

    /// The bit of weight 2^place: above its 32 bits a number has zeros.
    pub(crate) fn at(number: u32, place: u32) -> Bit
        ensures { result ≡ bit_of (number / 2 ^ place) }
    {
        if place < 32 {
            Bit::last_of(number >> place)
        } else {
            Bit::Zero
        }
    }
}
