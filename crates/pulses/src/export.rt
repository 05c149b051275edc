ghost use Rattle.std.specs.Prelude.{◌≡◌, ◌^◌, ◌<◌, ◌≤◌, map, length, take, Ok};
ghost use Rattle.std.specs.Result.{ForOk};
ghost use Rattle.pulses.specs.Pulses.{On};
ghost use Rattle.pulses.specs.Calls.{write_index, read_index, handed};
ghost use Rattle.pulses.specs.Octets.{octet_of, pulse_of, answer_of, filled_octets, way_of, OctetTellsThePulse, OffEveryTrack};

use crate::index::{Reading, read_index, write_index};
use crate::pulse::{Pulse, Sign};
use crate::set::NONE;
use refusals::cause::Cause;
use refusals::refusal::Refusal;

/// The pulse of an octet; from 64 on it stands on a place of no track.
fn pulse_of(octet: u8) -> Pulse
    ensures { result ≡ pulse_of octet }
{
    let (place, sign) = match octet {
        0..32 => (octet, Sign::Plus),
        32..64 => (octet - 32, Sign::Minus),
        _ => (octet, Sign::Plus),
    };
    Pulse { place, sign }
}

/// A pulse as one octet.
// The octets are those of the C interface alone, and only a place on a track has
// one: no `From`.
fn octet_of(p: Pulse) -> u8
    requires { p.place < 32 }
    ensures { result ≡ octet_of p }
{
    p.place + 32 * u8::from(p.sign)
}

/// An answer as one number, which is all that C takes: what was accepted, or
/// minus the number of the refusal.
fn answer(answered: Result<u32, Refusal>) -> i32
    requires { ForOk answered (λ n. n < 2 ^ 31) }
    ensures { result ≡ answer_of answered }
{
    match answered {
        Ok(n) => n as i32,
        Err(refusal) => -i32::from(u8::from(refusal.cause)),
    }
}

/// The way of reading that the flag asks for.
// C hands in a flag, since it has no `Reading`.
fn way(strict: bool) -> Reading
    ensures { result ≡ way_of strict }
{
    if strict {
        Reading::Strict
    } else {
        Reading::Open
    }
}

/// The pulses of at most six octets.
fn pulses_of(octets: &[u8]) -> [Pulse; 6]
    requires { length octets.now ≤ 6 }
    ensures { take (length octets.now) result ≡ map pulse_of octets.now }
{
    let mut row = [NONE; 6];
    // By index, with no `zip`: what is written through one is not known afterwards.
    for (i, octet) in octets.iter().enumerate() {
        row[i] = pulse_of(*octet);
    }
    row
}

/// The house index of octets, or why they have none.
fn written(width: u32, octets: &[u8]) -> Result<u32, Refusal>
    ensures { result ≡ write_index width (map pulse_of octets.now) }
{
    if octets.len() > 6 {
        return Err(Cause::WrongNumber.into());
    }
    let row = pulses_of(octets);
    write_index(width, &row[..octets.len()])
}

/// [`write_index`] for C: each pulse one octet, place + 32 × sign bit. Answers
/// the house index, or minus the number of the refusal.
pub fn vilchuqa_write_index(width: u32, pulses: &[u8]) -> i32
    ensures answer { result ≡ answer_of (write_index width (map pulse_of pulses.now)) }
    ensures octet_tells_the_pulse { OctetTellsThePulse }
    ensures off_every_track { OffEveryTrack }
{
    answer(written(width, pulses))
}

/// Writes the pulses into the front of `out`, as octets; answers their number.
fn hand_out(pulses: &[Pulse], out: &mut [u8]) -> Result<u32, Refusal>
    requires few { length pulses.now ≤ 6 }
    requires on { On 5 pulses.now }
    ensures answer { result ≡ handed (length out.old) (Ok pulses.now) }
    ensures buffer { out.new ≡ filled_octets out.old (Ok pulses.now) }
{
    if out.len() < pulses.len() {
        return Err(Cause::BufferTooShort.into());
    }
    // By index, with no `zip`: what is written through one is not known afterwards.
    for (i, p) in pulses.iter().enumerate() {
        out[i] = octet_of(*p);
    }
    Ok(pulses.len() as u32)
}

/// Reads an index into the front of `out`, as octets; answers their number.
fn read_out(
    how: Reading,
    pulses: u32,
    width: u32,
    index: u32,
    out: &mut [u8],
) -> Result<u32, Refusal>
    ensures answer { result ≡ handed (length out.old) (read_index how pulses width index) }
    ensures buffer { out.new ≡ filled_octets out.old (read_index how pulses width index) }
{
    let mut row = [NONE; 6];
    let number = read_index(how, pulses as usize, width, index, &mut row)?;
    hand_out(&row[..number], out)
}

/// [`read_index`] for C, into octets. Answers the number of pulses, or minus
/// the number of the refusal, which leaves `out` as it was.
pub fn vilchuqa_read_index(pulses: u32, width: u32, index: u32, strict: bool, out: &mut [u8]) -> i32
    ensures answer { result ≡ answer_of (handed (length out.old) (read_index (way_of strict) pulses width index)) }
    ensures buffer { out.new ≡ filled_octets out.old (read_index (way_of strict) pulses width index) }
{
    answer(read_out(way(strict), pulses, width, index, out))
}
