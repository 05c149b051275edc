ghost use Rattle.std.specs.Prelude.{◌≡◌, ◌+◌, ◌-◌, ◌*◌, ◌/◌, ◌%◌, ◌^◌, ◌<◌, ◌≤◌, ◌++◌, length, take, drop, nat_eq};
ghost use Rattle.pulses.specs.Pulses.{half as half_of, Sorted};
ghost use Rattle.pulses.specs.Rules.{bits as bits_of};
ghost use Rattle.pulses.specs.House.{house, two_places, one_house, two_house, three_house, close_house, four_house, five_house, six_house};
ghost use Rattle.pulses.specs.Within.{down, sorted_prop, Halved, Chosen, FullerHalf};

use crate::bits::Bits;
use crate::pulse::Pulse;

/// Pulses from the lowest place up, in a part of a track, at their places of
/// the whole track. The part has `2 ^ width` places.
// A part of one place has pulses too, so that a part has halves is asked where
// it is cut.
#[derive(Clone, Copy)]
pub(crate) struct Group<'a> {
    pub(crate) width: u32,
    pub(crate) pulses: &'a [Pulse],
    ghost narrow: { width ≤ 5 },
    ghost few: { length pulses.now ≤ 6 },
    ghost sorted: { Sorted (down width pulses.now) } by { sorted_prop (down width pulses.now) },
}

/// The lowest pulses of a half, and the one or two others, at the front of a row.
// A row of fixed size, since nothing here allocates; how many of it are used
// follows from the group that was cut: its pulses less those taken.
#[derive(Clone, Copy)]
struct Choice<'a> {
    half: Bits,
    taken: Group<'a>,
    rest: [Pulse; 2],
}

/// The first and the last pulse of two slices.
fn ends(before: &[Pulse], after: &[Pulse]) -> [Pulse; 2]
    requires some { 1 ≤ length before.now + length after.now }
    requires few { length before.now + length after.now ≤ 2 }
    ensures { take (length before.now + length after.now) result ≡ before.now ++ after.now }
{
    let first = if before.is_empty() {
        after[0]
    } else {
        before[0]
    };
    let last = if after.is_empty() {
        before[before.len() - 1]
    } else {
        after[after.len() - 1]
    };
    [first, last]
}

/// An index of pulses that stand unevenly: `number | half | body`.
fn uneven(number: u32, half: Bits, body: Bits) -> Bits
    requires number { number < 4 }
    requires half { half.count ≡ 1 }
    requires body { body.count < 29 }
    ensures value { result.value ≡ number * 2 ^ (body.count + 1) + (half.value * 2 ^ body.count + body.value) }
    ensures count { result.count ≡ body.count + 3 }
{
    let number = Bits {
        value: number,
        count: 2,
    };
    number.above(half.above(body))
}

impl<'a> Group<'a> {
    /// The place of a pulse, counted from the first of this part.
    fn place(self, p: Pulse) -> Bits
        ensures value { result.value ≡ p.place % 2 ^ self.entry.width }
        ensures count { result.count ≡ self.entry.width }
    {
        Bits::lowest(u32::from(p.place), self.width)
    }

    /// Whether a pulse stands in half 0.
    fn in_half_0(self, p: Pulse) -> bool
        requires { 1 ≤ self.width }
        ensures { result ≡ nat_eq (p.place % 2 ^ self.entry.width / 2 ^ (self.entry.width - 1)) 0 }
    {
        let (h, _) = self.place(p).split(1);
        h.value == 0
    }

    /// How many pulses stand in half 0.
    fn lower(self) -> usize
        requires { 1 ≤ self.width }
        ensures is { result ≡ length (half_of (self.entry.width - 1) 0 (down self.entry.width self.entry.pulses.now)) }
        ensures within { result ≤ length self.entry.pulses.now }
    {
        self.pulses.iter().filter(|p| self.in_half_0(**p)).count()
    }

    /// The first `k` pulses, and those left.
    // Apart from `halves`: here the parts keep the width, and any cut is one.
    fn split_at(self, k: usize) -> (Group<'a>, Group<'a>)
        requires { k ≤ length self.pulses.now }
        ensures front { result.0.pulses.now ≡ take k self.entry.pulses.now }
        ensures front_len { length result.0.pulses.now ≡ k }
        ensures front_width { result.0.width ≡ self.entry.width }
        ensures back { result.1.pulses.now ≡ drop k self.entry.pulses.now }
        ensures back_len { length result.1.pulses.now + k ≡ length self.entry.pulses.now }
        ensures back_width { result.1.width ≡ self.entry.width }
    {
        let width = self.width;
        let (front, back) = self.pulses.split_at(k);
        (
            Group {
                width,
                pulses: front,
            },
            Group {
                width,
                pulses: back,
            },
        )
    }

    /// The pulses of half 0, which come first, and those of half 1.
    fn halves(self) -> (Group<'a>, Group<'a>)
        requires { 1 ≤ self.width }
        ensures halved { Halved self.entry.width self.entry.pulses.now result.0.pulses.now result.1.pulses.now }
        ensures sizes { length result.0.pulses.now + length result.1.pulses.now ≡ length self.entry.pulses.now }
        ensures low_width { result.0.width ≡ self.entry.width - 1 }
        ensures high_width { result.1.width ≡ self.entry.width - 1 }
    {
        let width = self.width - 1;
        let (low, high) = self.pulses.split_at(self.lower());
        (
            Group { width, pulses: low },
            Group {
                width,
                pulses: high,
            },
        )
    }

    /// The half with three pulses or more, half 0 where both have three: which
    /// it is, its pulses, and those of the other half.
    fn fuller(self) -> (Bits, Group<'a>, Group<'a>)
        requires { 1 ≤ self.width }
        ensures fuller { FullerHalf self.entry.width self.entry.pulses.now result.0.value result.1.pulses.now result.2.pulses.now }
        ensures half { result.0.count ≡ 1 }
        ensures sizes { length result.1.pulses.now + length result.2.pulses.now ≡ length self.entry.pulses.now }
        ensures emptier { length result.2.pulses.now ≤ 3 }
        ensures full_width { result.1.width ≡ self.entry.width - 1 }
        ensures other_width { result.2.width ≡ self.entry.width - 1 }
    {
        let (low, high) = self.halves();
        if low.pulses.len() < 3 {
            (Bits { value: 1, count: 1 }, high, low)
        } else {
            (Bits { value: 0, count: 1 }, low, high)
        }
    }

    /// Takes the lowest `k` pulses of a half: of half 0 if it holds them.
    fn choose(self, k: usize) -> Choice<'a>
        requires width { 1 ≤ self.width }
        requires enough { k + k ≤ length self.pulses.now + 1 }
        requires some { k + 1 ≤ length self.pulses.now }
        requires few { length self.pulses.now ≤ k + 2 }
        ensures chosen { Chosen k self.entry.width self.entry.pulses.now result.half.value result.taken.pulses.now (take (length self.entry.pulses.now - k) result.rest) }
        ensures half { result.half.count ≡ 1 }
        ensures taken_width { result.taken.width ≡ self.entry.width - 1 }
        ensures size { length result.taken.pulses.now ≡ k }
    {
        let n = self.lower();
        let (value, start) = if k <= n { (0, 0) } else { (1, n) };
        let (before, from) = self.pulses.split_at(start);
        let (pulses, after) = from.split_at(k);
        Choice {
            half: Bits { value, count: 1 },
            taken: Group {
                width: self.width - 1,
                pulses,
            },
            rest: ends(before, after),
        }
    }

    /// One pulse: `sign | place`.
    fn one(self) -> Bits
        requires { length self.pulses.now ≡ 1 }
        ensures value { result.value ≡ one_house self.entry.width (down self.entry.width self.entry.pulses.now) }
        ensures count { result.count ≡ self.entry.width + 1 }
    {
        let p = self.pulses[0];
        Bits::from(p.sign).above(self.place(p))
    }

    /// `sign of a | a | b`.
    fn pair(self, a: Pulse, b: Pulse) -> Bits
        ensures value { result.value ≡ two_places self.entry.width (a.place % 2 ^ self.entry.width) (b.place % 2 ^ self.entry.width) a.sign }
        ensures count { result.count ≡ 2 * self.entry.width + 1 }
    {
        Bits::from(a.sign).above(self.place(a).above(self.place(b)))
    }

    /// Two pulses: with equal signs the lower place first, else the higher one.
    fn two(self) -> Bits
        requires { length self.pulses.now ≡ 2 }
        ensures value { result.value ≡ two_house self.entry.width (down self.entry.width self.entry.pulses.now) }
        ensures count { result.count ≡ 2 * self.entry.width + 1 }
    {
        let p = self.pulses[0];
        let q = self.pulses[1];
        if p.sign == q.sign {
            self.pair(p, q)
        } else {
            self.pair(q, p)
        }
    }

    /// The house index: the general call.
    // Inlined, since a call with a number known beforehand is then that rule alone.
    #[cycle(rules)]
    #[inline(always)]
    pub(crate) fn index(self) -> Bits
        requires some { 1 ≤ length self.pulses.now }
        requires fits { length self.pulses.now ≤ self.width + 2 }
        ensures value { result.value ≡ house (length self.entry.pulses.now) self.entry.width (down self.entry.width self.entry.pulses.now) }
        ensures count { result.count ≡ bits_of (length self.entry.pulses.now) self.entry.width }
    {
        match self.pulses.len() {
            1 => self.one(),
            2 => self.two(),
            3 => self.three(),
            4 => self.four(),
            5 => self.five(),
            _ => self.six(),
        }
    }

    /// A pair in one half, and one or two more: `those | half | pair in that half`.
    #[cycle(rules)]
    fn paired(self) -> Bits
        requires width { 1 ≤ self.width }
        requires three { 3 ≤ length self.pulses.now }
        requires close { length self.pulses.now ≤ 4 }
        ensures three { length self.entry.pulses.now ≡ 3 → result.value ≡ three_house self.entry.width (down self.entry.width self.entry.pulses.now) }
        ensures close { length self.entry.pulses.now ≡ 4 → result.value ≡ close_house self.entry.width (down self.entry.width self.entry.pulses.now) }
        ensures count { result.count ≡ bits_of (length self.entry.pulses.now - 2) self.entry.width + 2 * self.entry.width }
    {
        let choice = self.choose(2);
        let others = Group {
            width: self.width,
            pulses: &choice.rest[..self.pulses.len() - 2],
        };
        let pair = choice.half.above(choice.taken.index());
        others.index().above(pair)
    }

    /// Three pulses: `third | half | pair in that half`.
    // A function of its own, since by design each rule has one; it and `close` share
    // the body `paired`, which promises what it does only under a length.
    #[cycle(rules)]
    fn three(self) -> Bits
        requires number { length self.pulses.now ≡ 3 }
        requires width { 1 ≤ self.width }
        ensures value { result.value ≡ three_house self.entry.width (down self.entry.width self.entry.pulses.now) }
        ensures count { result.count ≡ 3 * self.entry.width + 1 }
    {
        self.paired()
    }

    /// Four close pulses: `other two | half | pair in that half`.
    // A function of its own, since by design each rule has one; it and `three` share
    // the body `paired`, which promises what it does only under a length.
    #[cycle(rules)]
    fn close(self) -> Bits
        requires number { length self.pulses.now ≡ 4 }
        requires width { 1 ≤ self.width }
        ensures value { result.value ≡ close_house self.entry.width (down self.entry.width self.entry.pulses.now) }
        ensures count { result.count ≡ 4 * self.entry.width + 1 }
    {
        self.paired()
    }

    /// Four pulses: `pulses in half 0, modulo 4 | body`.
    #[cycle(rules)]
    fn four(self) -> Bits
        requires number { length self.pulses.now ≡ 4 }
        requires width { 2 ≤ self.width }
        ensures value { result.value ≡ four_house self.entry.width (down self.entry.width self.entry.pulses.now) }
        ensures count { result.count ≡ 4 * self.entry.width }
    {
        let (low, high) = self.halves();
        match low.pulses.len() {
            0 => uneven(0, Bits { value: 1, count: 1 }, high.close()),
            4 => uneven(0, Bits { value: 0, count: 1 }, low.close()),
            k => Bits {
                value: k as u32,
                count: 2,
            }
            .above(low.index().above(high.index())),
        }
    }

    /// Five pulses: `half | triple in that half | other two`.
    #[cycle(rules)]
    fn five(self) -> Bits
        requires number { length self.pulses.now ≡ 5 }
        requires width { 3 ≤ self.width }
        ensures value { result.value ≡ five_house self.entry.width (down self.entry.width self.entry.pulses.now) }
        ensures count { result.count ≡ 5 * self.entry.width }
    {
        let choice = self.choose(3);
        let others = Group {
            width: self.width,
            pulses: &choice.rest,
        };
        let body = choice.taken.index().above(others.index());
        choice.half.above(body)
    }

    /// Six pulses: `pulses in the emptier half | body`.
    #[cycle(rules)]
    fn six(self) -> Bits
        requires number { length self.pulses.now ≡ 6 }
        requires width { 4 ≤ self.width }
        ensures value { result.value ≡ six_house self.entry.width (down self.entry.width self.entry.pulses.now) }
        ensures count { result.count ≡ 6 * self.entry.width - 2 }
    {
        let (half, full, other) = self.fuller();
        match other.pulses.len() {
            0 => {
                let (quint, sixth) = full.split_at(5);
                uneven(0, half, quint.index().above(sixth.index()))
            }
            3 => Bits { value: 3, count: 2 }.above(full.index().above(other.index())),
            c => uneven(c as u32, half, full.index().above(other.index())),
        }
    }
}
