ghost use Rattle.std.specs.Prelude.{◌≡◌, ◌<◌, ◌≤◌, [], ◌∷◌};
ghost use Rattle.modes.specs.declared.field.Field.TheVariants.{Delay as DelayOf};
ghost use Rattle.frames.specs.Frames.{value as value_of};
ghost use Rattle.frames.specs.Delays.{long_delay, short_base, step as step_of, long_before, delay as delay_of, microseconds as microseconds_of};

use crate::frame::Frame;
use modes::field::Field;
use modes::mode::Mode;

/// A delay field of 8 or of 9 bits, in quarter samples.
fn long_delay(bits: u8, d: u16) -> u16
    requires { d < 512 }
    ensures is { result ≡ long_delay bits d }
    ensures within { (136 ≤ result) × (result ≤ 2000) }
{
    if bits == 8 {
        return if d < 116 { 136 + 2 * d } else { 4 * (d - 24) };
    }
    if d < 376 {
        136 + d
    } else if d < 440 {
        512 + 2 * (d - 376)
    } else {
        4 * (d - 280)
    }
}

/// The whole sample from which the short delays after the long delay `q`
/// count: eight below the nearest one, held within 34 to 216.
fn short_base(q: u16) -> u16
    requires { (136 ≤ q) × (q ≤ 2000) }
    ensures is { result ≡ short_base q }
    ensures small { result ≤ 216 }
{
    ((q + 2) / 4 - 8).clamp(34, 216)
}

/// The quarter samples of a step of a short delay field.
fn step(bits: u8) -> u16
    ensures is { result ≡ step_of bits }
    ensures small { result ≤ 2 }
{
    if bits == 5 { 2 } else { 1 }
}

/// The last subframe up to `subframe` whose delay has 8 or 9 bits.
fn last_long(mode: Mode, subframe: usize) -> usize
    ensures is { result ≡ long_before mode subframe }
    ensures before { result ≤ subframe }
{
    match mode {
        Mode::Rate6k60 => 0,
        Mode::Rate8k85
        | Mode::Rate12k65
        | Mode::Rate14k25
        | Mode::Rate15k85
        | Mode::Rate18k25
        | Mode::Rate19k85
        | Mode::Rate23k05
        | Mode::Rate23k85 => subframe - subframe % 2,
    }
}

impl Frame {
    /// The delay field of a subframe; 0 where the mode has no such field.
    // No `Option`: a record keeps 0 for a field that its mode lacks.
    fn held(&self, subframe: usize) -> u16
        ensures is { result ≡ value_of self.now (DelayOf subframe) }
        ensures small { result < 512 }
    {
        self.values
            .get(Field::Delay(subframe).cell())
            .copied()
            .unwrap_or(0)
    }

    /// The delay of a subframe, in quarter samples.
    // Inlined, since it is short in each of the four.
    #[inline(always)]
    fn delay(&self, subframe: usize) -> u16
        requires { subframe < 4 }
        ensures { result ≡ delay_of self.now subframe }
    {
        let long = last_long(self.mode, subframe);
        let q = long_delay(self.mode.field_bits(Field::Delay(long)), self.held(long));
        if long == subframe {
            return q;
        }
        4 * short_base(q) + step(self.mode.field_bits(Field::Delay(subframe))) * self.held(subframe)
    }

    /// The delays of subframes 0 to 3, in quarter samples.
    pub fn delays(&self) -> [u16; 4]
        ensures { result ≡ delay_of self.now 0 ∷ delay_of self.now 1 ∷ delay_of self.now 2 ∷ delay_of self.now 3 ∷ [] }
    {
        [self.delay(0), self.delay(1), self.delay(2), self.delay(3)]
    }
}

/// A delay of `q` quarter samples in microseconds, cut off:
/// `microseconds(136)` is 2656.
pub fn microseconds(q: u16) -> u32
    ensures { result ≡ microseconds_of q }
{
    u32::from(q) * 625 / 32
}
