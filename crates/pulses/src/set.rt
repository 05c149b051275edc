ghost use Rattle.std.specs.Prelude.{◌≡◌, ◌^◌, ◌≤◌, length, nat_lt};
ghost use Rattle.std.specs.List.{list_all, IsAllAdjacentAnswer};
ghost use Rattle.pulses.specs.Sets.{InOrder, follows, track_set};

use crate::pulse::{Pulse, Sign};
use refusals::cause::Cause;
use refusals::refusal::Refusal;

/// What stands behind the pulses of a track: a plus pulse on place 0.
// Every row is six long, since nothing here allocates: its pulses stand in front.
pub const NONE: Pulse = Pulse {
    place: 0,
    sign: Sign::Plus,
};

/// The pulses from the lowest place up, and [`NONE`] behind them.
fn in_order(pulses: &[Pulse]) -> [Pulse; 6]
    requires { length pulses.now ≤ 6 }
    ensures { InOrder pulses.now result }
{
    let mut row = [NONE; 6];
    let front = &mut row[..pulses.len()];
    front.copy_from_slice(pulses);
    front.sort_unstable_by_key(|p| p.place);
    row
}

/// Whether a place is on a track of `width`.
fn is_on(width: u32, place: u8) -> bool
    ensures { result ≡ nat_lt place (2 ^ width) }
{
    width >= 8 || u32::from(place) < 1 << width
}

/// Whether every place is on a track of `width`.
fn all_on(width: u32, pulses: &[Pulse]) -> bool
    ensures { result ≡ list_all (λ p. nat_lt p.place (2 ^ width)) pulses.now }
{
    pulses.iter().all(|p| is_on(width, p.place))
}

/// Whether `high` may follow `low`: at the same place only with the same sign.
#[tactic(auto, using(crate::proofs::Signs::same_alike))]
fn may_follow(low: Pulse, high: Pulse) -> bool
    ensures { result ≡ follows low high }
{
    low.place < high.place || low == high
}

/// Whether each pulse may follow the one before.
fn all_follow(pulses: &[Pulse]) -> bool
    ensures { IsAllAdjacentAnswer (λ low high b. b ≡ follows low high) pulses.now result }
{
    pulses.is_sorted_by(|low, high| may_follow(*low, *high))
}

/// The row of a track of `number` pulses on a track of `width`: the pulses
/// from the lowest place up, and then [`NONE`].
///
/// Refused where the number of pulses is another or above six
/// (`Cause::WrongNumber`), where a place is off the track (`Cause::OffTrack`)
/// and where a place has both signs (`Cause::BothSigns`), asked in this order.
// Inlined, as those that ask for a set are: most tracks have a few pulses, and
// what a call moves through memory is most of their cost.
#[inline(always)]
#[tactic(auto, using(crate::proofs::Checked::set_answers))]
pub fn track_set(number: usize, width: u32, pulses: &[Pulse]) -> Result<[Pulse; 6], Refusal>
    ensures { result ≡ track_set number width pulses.now }
{
    if pulses.len() != number || number > 6 {
        return Err(Cause::WrongNumber.into());
    }
    if !all_on(width, pulses) {
        return Err(Cause::OffTrack.into());
    }
    let row = in_order(pulses);
    if !all_follow(&row[..number]) {
        return Err(Cause::BothSigns.into());
    }
    Ok(row)
}
