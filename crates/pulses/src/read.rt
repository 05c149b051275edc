ghost use Rattle.std.specs.Prelude.{◌≡◌, ◌+◌, ◌-◌, ◌*◌, ◌/◌, ◌%◌, ◌^◌, ◌<◌, ◌≤◌, ◌++◌, length};
ghost use Rattle.pulses.specs.Pulses.{pulse as pulse_of, up};
ghost use Rattle.pulses.specs.Rules.{bits as bits_of};
ghost use Rattle.pulses.specs.Reading.{sign_of, one_of, two_of, three_of, close_of, four_of, five_of, six_of, pulses_of};

use crate::bits::Bits;
use crate::index::index_bits;
use crate::pulse::{Pulse, Sign};

/// A run of places on a track: `2 ^ width` of them, from `from` on.
// A run of one place has pulses too, so that a run has halves is asked where it
// is cut.
#[derive(Clone, Copy)]
pub(crate) struct Span {
    width: u32,
    from: u32,
    ghost narrow: { width ≤ 5 },
    ghost on_track: { from + 2 ^ width ≤ 2 ^ 8 },
}

/// The sign whose sign bit is `bit`.
// No `From`: bits that are no sign bit have no sign, and read as plus here.
fn sign(bit: Bits) -> Sign
    ensures { result ≡ sign_of bit.value }
{
    if bit.value == 1 {
        Sign::Minus
    } else {
        Sign::Plus
    }
}

impl Span {
    /// A whole track.
    pub(crate) fn track(width: u32) -> Span
        requires { width ≤ 5 }
        ensures width { result.width ≡ width }
        ensures from { result.from ≡ 0 }
    {
        Span { width, from: 0 }
    }

    /// Half `h` of these places.
    fn half(self, h: u32) -> Span
        requires width { 1 ≤ self.width }
        requires half { h < 2 }
        ensures width { result.width ≡ self.width - 1 }
        ensures from { result.from ≡ h * 2 ^ (self.width - 1) + self.from }
    {
        let width = self.width - 1;
        Span {
            width,
            from: h * (1 << width) + self.from,
        }
    }

    /// How many bits an index of `number` pulses on these places has.
    fn bits(self, number: usize) -> u32
        ensures { result ≡ bits_of number self.width }
    {
        index_bits(number, self.width as u8)
    }

    /// The pulse of a sign at a place counted from the first of these.
    fn pulse(self, place: Bits, sign: Sign) -> Pulse
        requires { place.count ≡ self.width }
        ensures { result ≡ pulse_of (place.value + self.from) sign }
    {
        Pulse {
            place: (place.value + self.from) as u8,
            sign,
        }
    }

    /// One pulse: `sign | place`.
    fn one(self, index: Bits, out: &mut [Pulse])
        requires number { length out.old ≡ 1 }
        requires bits { index.count ≡ self.width + 1 }
        ensures { out.new ≡ up self.from (one_of self.width index.value) }
    {
        let (bit, place) = index.split(1);
        out[0] = self.pulse(place, sign(bit));
    }

    /// Two pulses: `sign of a | a | b`. The signs are equal where `a` is not above `b`.
    fn two(self, index: Bits, out: &mut [Pulse])
        requires number { length out.old ≡ 2 }
        requires bits { index.count ≡ 2 * self.width + 1 }
        ensures { out.new ≡ up self.from (two_of self.width index.value) }
    {
        let (bit, places) = index.split(1);
        let (a, b) = places.split(self.width);
        let first = sign(bit);
        let second = if a.value <= b.value {
            first
        } else {
            first.opposite()
        };
        out[0] = self.pulse(a, first);
        out[1] = self.pulse(b, second);
    }

    /// The pulses of an index, as many as `out` has room for: the general call.
    // Inlined, since a call with a number known beforehand is then that rule alone.
    #[cycle(rules)]
    #[inline(always)]
    pub(crate) fn read(self, index: Bits, out: &mut [Pulse])
        requires some { 1 ≤ length out.old }
        requires few { length out.old ≤ 6 }
        requires fits { length out.old ≤ self.width + 2 }
        requires bits { index.count ≡ bits_of (length out.old) self.width }
        ensures { out.new ≡ up self.from (pulses_of (length out.old) self.width index.value) }
    {
        match out.len() {
            1 => self.one(index, out),
            2 => self.two(index, out),
            3 => self.three(index, out),
            4 => self.four(index, out),
            5 => self.five(index, out),
            _ => self.six(index, out),
        }
    }

    /// Two groups: the first `k` pulses on these places, those left on `other`:
    /// `index of the first | index of those left`.
    #[cycle(rules)]
    fn both(self, k: usize, other: Span, index: Bits, out: &mut [Pulse])
        requires some { 1 ≤ k }
        requires left { k < length out.old }
        requires few { length out.old ≤ 6 }
        requires first_fits { k ≤ self.width + 2 }
        requires left_fits { length out.old - k ≤ other.width + 2 }
        requires bits { index.count ≡ bits_of k self.width + bits_of (length out.old - k) other.width }
        ensures { out.new
            ≡ up self.from (pulses_of k self.width (index.value / 2 ^ bits_of (length out.old - k) other.width))
            ++ up other.from (pulses_of (length out.old - k) other.width (index.value % 2 ^ bits_of (length out.old - k) other.width)) }
    {
        let (first, left) = index.split(self.bits(k));
        self.read(first, &mut out[..k]);
        other.read(left, &mut out[k..]);
    }

    /// A pair in one half, and one or two more: `those | half | pair in that half`.
    #[cycle(rules)]
    fn paired(self, index: Bits, out: &mut [Pulse])
        requires width { 1 ≤ self.width }
        requires three { 3 ≤ length out.old }
        requires close { length out.old ≤ 4 }
        requires bits { index.count ≡ bits_of (length out.old - 2) self.width + 2 * self.width }
        ensures three { length out.old ≡ 3 → out.new ≡ up self.from (three_of self.width index.value) }
        ensures close { length out.old ≡ 4 → out.new ≡ up self.from (close_of self.width index.value) }
    {
        let (others, rest) = index.split(self.bits(out.len() - 2));
        let (h, pair) = rest.split(1);
        self.half(h.value).read(pair, &mut out[..2]);
        self.read(others, &mut out[2..]);
    }

    /// Three pulses: `third | half | pair in that half`.
    // A function of its own, since by design each rule has one; it and `close` share
    // the body `paired`, which promises what it does only under a length.
    #[cycle(rules)]
    fn three(self, index: Bits, out: &mut [Pulse])
        requires number { length out.old ≡ 3 }
        requires width { 1 ≤ self.width }
        requires bits { index.count ≡ 3 * self.width + 1 }
        ensures { out.new ≡ up self.from (three_of self.width index.value) }
    {
        self.paired(index, out);
    }

    /// Four close pulses: `other two | half | pair in that half`.
    // A function of its own, since by design each rule has one; it and `three` share
    // the body `paired`, which promises what it does only under a length.
    #[cycle(rules)]
    fn close(self, index: Bits, out: &mut [Pulse])
        requires number { length out.old ≡ 4 }
        requires width { 1 ≤ self.width }
        requires bits { index.count ≡ 4 * self.width + 1 }
        ensures { out.new ≡ up self.from (close_of self.width index.value) }
    {
        self.paired(index, out);
    }

    /// Four pulses: `pulses in half 0, modulo 4 | body`.
    #[cycle(rules)]
    fn four(self, index: Bits, out: &mut [Pulse])
        requires number { length out.old ≡ 4 }
        requires width { 2 ≤ self.width }
        requires bits { index.count ≡ 4 * self.width }
        ensures { out.new ≡ up self.from (four_of self.width index.value) }
    {
        let (lower, body) = index.split(2);
        match lower.value {
            0 => {
                let (h, group) = body.split(1);
                self.half(h.value).close(group, out);
            }
            k => self.half(0).both(k as usize, self.half(1), body, out),
        }
    }

    /// Five pulses: `half | triple in that half | other two`.
    #[cycle(rules)]
    fn five(self, index: Bits, out: &mut [Pulse])
        requires number { length out.old ≡ 5 }
        requires width { 3 ≤ self.width }
        requires bits { index.count ≡ 5 * self.width }
        ensures { out.new ≡ up self.from (five_of self.width index.value) }
    {
        let (h, body) = index.split(1);
        self.half(h.value).both(3, self, body, out);
    }

    /// Six pulses: `pulses in the emptier half | body`.
    #[cycle(rules)]
    fn six(self, index: Bits, out: &mut [Pulse])
        requires number { length out.old ≡ 6 }
        requires width { 4 ≤ self.width }
        requires bits { index.count ≡ 6 * self.width - 2 }
        ensures { out.new ≡ up self.from (six_of self.width index.value) }
    {
        let (emptier, body) = index.split(2);
        let (j, rest) = body.split(1);
        let full = self.half(j.value);
        let other = self.half(1 - j.value);
        match emptier.value {
            0 => full.both(5, full, rest, out),
            1 => full.both(5, other, rest, out),
            2 => full.both(4, other, rest, out),
            _ => self.half(0).both(3, self.half(1), body, out),
        }
    }
}
