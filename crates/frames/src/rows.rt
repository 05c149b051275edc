ghost use Rattle.std.specs.Prelude.{◌≡◌, ◌≤◌, length};
ghost use Rattle.frames.specs.Sound.{signed, amplitude_at};

use pulses::pulse::{Pulse, Sign};

/// What a pulse of this sign adds to its sample.
// No `From`: the number of a sign is its sign bit.
fn step(sign: Sign) -> i8
    ensures { result ≡ signed sign }
{
    match sign {
        Sign::Plus => 1,
        Sign::Minus => -1,
    }
}

/// The plus pulses on a place less its minus pulses.
pub(crate) fn amplitude(pulses: &[Pulse], place: u8) -> i8
    requires { length pulses.now ≤ 6 }
    ensures { result ≡ amplitude_at pulses.now place }
{
    let mut sum: i8 = 0;
    for p in pulses {
        if p.place == place {
            sum += step(p.sign);
        }
    }
    sum
}
