ghost use Rattle.std.specs.Prelude.{◌≡◌, ◌+◌, ◌^◌, ◌<◌, ◌≤◌, length, IfOk};
ghost use Rattle.carriers.specs.FieldReading.{read_bits};
ghost use Rattle.messages.specs.Messages.{spot_at, spotted, field as field_of, filler as filler_of, ending as ending_at};

use carriers::fields::read_bits;
use carriers::traits::ReadCarrier;
use refusals::cause::Cause;
use refusals::refusal::{Refusal, Spot};

/// Where the reading of a message stands: in a frame, at a cell.
#[derive(Drop)]
pub(crate) struct Cursor<'a, R: ReadCarrier> {
    pub carrier: &'a R,
    pub frame: u32,
    pub at: usize,
    ghost few: { frame ≤ 512 },
    ghost inside: { at ≤ length (R.cells carrier.now) },
}

/// How many cells there are from a place up to the next multiple of eight.
// Not by `next_multiple_of`, which asks that the multiple fits a `usize`.
pub fn filler(at: usize) -> u8
    ensures is { result ≡ filler_of at }
    ensures few { result < 8 }
{
    ((8 - at % 8) % 8) as u8
}

impl<'a, R: ReadCarrier> Cursor<'a, R> {
    /// The spot of what stands here, whose subframe and track are those of
    /// `rest`.
    pub(crate) fn spot(&self, rest: Spot) -> Spot
        ensures { result ≡ spot_at self.now.frame rest self.now.at }
    {
        Spot {
            frame: Some(self.frame),
            cell: Some(self.at),
            ..rest
        }
    }

    /// Where reading stands behind a field of `width` cells.
    pub(crate) fn behind(&self, width: u8) -> Cursor<'a, R>
        requires { self.now.at + width ≤ length (R.cells self.now.carrier.now) }
        ensures carrier { result.carrier.now ≡ self.now.carrier.now }
        ensures frame { result.frame ≡ self.now.frame }
        ensures at { result.at ≡ self.now.at + width }
    {
        Cursor {
            carrier: self.carrier,
            frame: self.frame,
            at: self.at + usize::from(width),
        }
    }

    /// The number in `width` cells; whichever of them is refused, the field is
    /// told.
    fn spelt(&self, spot: Spot, width: u8) -> Result<u32, Refusal>
        requires { width ≤ 32 }
        ensures { result ≡ spotted spot (read_bits (R.cells self.now.carrier.now) self.now.at width 0) }
    {
        read_bits(self.carrier, self.at, u32::from(width)).map_err(|e| Refusal { spot, ..e })
    }

    /// The number in a field of `width` cells.
    #[tactic(auto, unfolding(crate::specs::Messages::field))]
    pub(crate) fn field(&self, spot: Spot, width: u8) -> Result<u16, Refusal>
        requires { width ≤ 16 }
        ensures is { result ≡ field_of (R.cells self.now.carrier.now) spot self.now.at width }
        ensures fits { IfOk result (λ v. v < 2 ^ width) }
        ensures inside { IfOk result (λ v. self.now.at + width ≤ length (R.cells self.now.carrier.now)) }
    {
        let number = self.spelt(spot, width)?;
        Ok(number as u16)
    }

    /// The number in the fill cells, all of which are read.
    fn fill(&self, spot: Spot) -> Result<u16, Refusal>
        ensures { result ≡ field_of (R.cells self.now.carrier.now) spot self.now.at (filler_of self.now.at) }
    {
        self.field(spot, filler(self.at))
    }

    /// What comes after 1111.
    #[tactic(auto, using(crate::proofs::Steps::ending_stop, crate::proofs::Steps::ending_fine, crate::proofs::Steps::ending_bad))]
    pub(crate) fn ending(&self) -> Result<(), Refusal>
        ensures { result ≡ ending_at (R.cells self.now.carrier.now) self.now.frame self.now.at }
    {
        let spot = self.spot(Spot::nowhere());
        let value = self.fill(spot)?;
        if value == 0 && self.carrier.len() == self.at + usize::from(filler(self.at)) {
            Ok(())
        } else {
            Err(Refusal {
                cause: Cause::BadFill,
                spot,
            })
        }
    }
}
