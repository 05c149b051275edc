//! The bits of a frame, as tables 12a to 12i of the Recommendation list them.
//!
//! The tables count bits from 1, subframes and tracks from 1, and print the
//! first subframe in full; of the others they say from which bit to which they
//! have the same description as bits before.
ghost use Rattle.std.specs.Prelude.{◌≤◌};

use modes::field::Field;
use modes::mode::Mode;
use modes::plan::Part;

/// A line of a table: a part, its first and its last bit.
#[derive(Clone, Copy)]
struct Printed {
    part: Part,
    first: u16,
    last: u16,
}

fn line(part: Part, first: u16, last: u16) -> Printed {
    Printed { part, first, last }
}

/// The first bit of a part and the bit after its last; 0 and 0 where the plan
/// of the mode does not have it.
fn range(mode: Mode, part: Part) -> (usize, usize)
    ensures first { result.0 ≤ 20000 }
    ensures end { result.1 ≤ 20000 }
{
    let mut first = 1;
    for slot in mode.slots() {
        let end = first + slot.width as usize;
        if slot.part == part {
            return (first, end);
        }
        first = end;
    }
    (0, 0)
}

/// Whether every line holds of the mode's plan.
fn holds(mode: Mode, lines: &[Printed]) -> bool {
    lines.iter().all(|l| range(mode, l.part) == (l.first as usize, l.last as usize + 1))
}

/// The twelve parts that a mode can have in a subframe.
fn parts_of(subframe: usize) -> [Part; 12] {
    [
        Part::Value(Field::Delay(subframe)),
        Part::Value(Field::FilterFlag(subframe)),
        Part::High(subframe, 0),
        Part::High(subframe, 1),
        Part::High(subframe, 2),
        Part::High(subframe, 3),
        Part::Low(subframe, 0),
        Part::Low(subframe, 1),
        Part::Low(subframe, 2),
        Part::Low(subframe, 3),
        Part::Value(Field::Gain(subframe)),
        Part::Value(Field::HighBandGain(subframe)),
    ]
}

/// Whether the bits of `subframe` from `first` on stand again, with the same
/// description, in subframe `again` from bit `moved` on.
fn same_again(mode: Mode, subframe: usize, again: usize, first: u16, moved: u16) -> bool {
    let first = first as usize;
    let moved = moved as usize;
    for (p, q) in parts_of(subframe).iter().zip(parts_of(again).iter()) {
        let (a, a_end) = range(mode, *p);
        let (b, b_end) = range(mode, *q);
        if a >= first && (b + first != a + moved || b_end + first != a_end + moved) {
            return false;
        }
    }
    true
}

/// Table 12a.
#[test]
fn table_12a(rt: HostRuntime) {
    let mode = Mode::Rate23k85;
    let lines = [
        line(Part::Value(Field::Voice), 1, 1),
        line(Part::Value(Field::Spectrum(0)), 2, 9),
        line(Part::Value(Field::Spectrum(1)), 10, 17),
        line(Part::Value(Field::Spectrum(2)), 18, 23),
        line(Part::Value(Field::Spectrum(3)), 24, 30),
        line(Part::Value(Field::Spectrum(4)), 31, 37),
        line(Part::Value(Field::Spectrum(5)), 38, 42),
        line(Part::Value(Field::Spectrum(6)), 43, 47),
        line(Part::Value(Field::Delay(0)), 48, 56),
        line(Part::Value(Field::FilterFlag(0)), 57, 57),
        line(Part::High(0, 0), 58, 68),
        line(Part::High(0, 1), 69, 79),
        line(Part::High(0, 2), 80, 90),
        line(Part::High(0, 3), 91, 101),
        line(Part::Low(0, 0), 102, 112),
        line(Part::Low(0, 1), 113, 123),
        line(Part::Low(0, 2), 124, 134),
        line(Part::Low(0, 3), 135, 145),
        line(Part::Value(Field::Gain(0)), 146, 152),
        line(Part::Value(Field::HighBandGain(0)), 153, 156),
        line(Part::Value(Field::Delay(1)), 157, 162),
    ];
    assert!(rt; holds(mode, &lines));
    assert!(rt; same_again(mode, 0, 1, 57, 163));
    assert!(rt; same_again(mode, 0, 2, 48, 263));
    assert!(rt; same_again(mode, 1, 3, 157, 372));
    assert!(rt; mode.bits() == 477);
}

/// Table 12b.
#[test]
fn table_12b(rt: HostRuntime) {
    let mode = Mode::Rate23k05;
    let lines = [
        line(Part::Value(Field::Voice), 1, 1),
        line(Part::Value(Field::Spectrum(0)), 2, 9),
        line(Part::Value(Field::Spectrum(1)), 10, 17),
        line(Part::Value(Field::Spectrum(2)), 18, 23),
        line(Part::Value(Field::Spectrum(3)), 24, 30),
        line(Part::Value(Field::Spectrum(4)), 31, 37),
        line(Part::Value(Field::Spectrum(5)), 38, 42),
        line(Part::Value(Field::Spectrum(6)), 43, 47),
        line(Part::Value(Field::Delay(0)), 48, 56),
        line(Part::Value(Field::FilterFlag(0)), 57, 57),
        line(Part::High(0, 0), 58, 68),
        line(Part::High(0, 1), 69, 79),
        line(Part::High(0, 2), 80, 90),
        line(Part::High(0, 3), 91, 101),
        line(Part::Low(0, 0), 102, 112),
        line(Part::Low(0, 1), 113, 123),
        line(Part::Low(0, 2), 124, 134),
        line(Part::Low(0, 3), 135, 145),
        line(Part::Value(Field::Gain(0)), 146, 152),
        line(Part::Value(Field::Delay(1)), 153, 158),
    ];
    assert!(rt; holds(mode, &lines));
    assert!(rt; same_again(mode, 0, 1, 57, 159));
    assert!(rt; same_again(mode, 0, 2, 48, 255));
    assert!(rt; same_again(mode, 1, 3, 153, 360));
    assert!(rt; mode.bits() == 461);
}

/// Table 12c.
#[test]
fn table_12c(rt: HostRuntime) {
    let mode = Mode::Rate19k85;
    let lines = [
        line(Part::Value(Field::Voice), 1, 1),
        line(Part::Value(Field::Spectrum(0)), 2, 9),
        line(Part::Value(Field::Spectrum(1)), 10, 17),
        line(Part::Value(Field::Spectrum(2)), 18, 23),
        line(Part::Value(Field::Spectrum(3)), 24, 30),
        line(Part::Value(Field::Spectrum(4)), 31, 37),
        line(Part::Value(Field::Spectrum(5)), 38, 42),
        line(Part::Value(Field::Spectrum(6)), 43, 47),
        line(Part::Value(Field::Delay(0)), 48, 56),
        line(Part::Value(Field::FilterFlag(0)), 57, 57),
        line(Part::High(0, 0), 58, 67),
        line(Part::High(0, 1), 68, 77),
        line(Part::High(0, 2), 78, 79),
        line(Part::High(0, 3), 80, 81),
        line(Part::Low(0, 0), 82, 91),
        line(Part::Low(0, 1), 92, 101),
        line(Part::Low(0, 2), 102, 115),
        line(Part::Low(0, 3), 116, 129),
        line(Part::Value(Field::Gain(0)), 130, 136),
        line(Part::Value(Field::Delay(1)), 137, 142),
    ];
    assert!(rt; holds(mode, &lines));
    assert!(rt; same_again(mode, 0, 1, 57, 143));
    assert!(rt; same_again(mode, 0, 2, 48, 223));
    assert!(rt; same_again(mode, 1, 3, 137, 312));
    assert!(rt; mode.bits() == 397);
}

/// Table 12d.
#[test]
fn table_12d(rt: HostRuntime) {
    let mode = Mode::Rate18k25;
    let lines = [
        line(Part::Value(Field::Voice), 1, 1),
        line(Part::Value(Field::Spectrum(0)), 2, 9),
        line(Part::Value(Field::Spectrum(1)), 10, 17),
        line(Part::Value(Field::Spectrum(2)), 18, 23),
        line(Part::Value(Field::Spectrum(3)), 24, 30),
        line(Part::Value(Field::Spectrum(4)), 31, 37),
        line(Part::Value(Field::Spectrum(5)), 38, 42),
        line(Part::Value(Field::Spectrum(6)), 43, 47),
        line(Part::Value(Field::Delay(0)), 48, 56),
        line(Part::Value(Field::FilterFlag(0)), 57, 57),
        line(Part::High(0, 0), 58, 59),
        line(Part::High(0, 1), 60, 61),
        line(Part::High(0, 2), 62, 63),
        line(Part::High(0, 3), 64, 65),
        line(Part::Low(0, 0), 66, 79),
        line(Part::Low(0, 1), 80, 93),
        line(Part::Low(0, 2), 94, 107),
        line(Part::Low(0, 3), 108, 121),
        line(Part::Value(Field::Gain(0)), 122, 128),
        line(Part::Value(Field::Delay(1)), 129, 134),
    ];
    assert!(rt; holds(mode, &lines));
    assert!(rt; same_again(mode, 0, 1, 57, 135));
    assert!(rt; same_again(mode, 0, 2, 48, 207));
    assert!(rt; same_again(mode, 1, 3, 129, 288));
    assert!(rt; mode.bits() == 365);
}

/// Table 12e.
#[test]
fn table_12e(rt: HostRuntime) {
    let mode = Mode::Rate15k85;
    let lines = [
        line(Part::Value(Field::Voice), 1, 1),
        line(Part::Value(Field::Spectrum(0)), 2, 9),
        line(Part::Value(Field::Spectrum(1)), 10, 17),
        line(Part::Value(Field::Spectrum(2)), 18, 23),
        line(Part::Value(Field::Spectrum(3)), 24, 30),
        line(Part::Value(Field::Spectrum(4)), 31, 37),
        line(Part::Value(Field::Spectrum(5)), 38, 42),
        line(Part::Value(Field::Spectrum(6)), 43, 47),
        line(Part::Value(Field::Delay(0)), 48, 56),
        line(Part::Value(Field::FilterFlag(0)), 57, 57),
        line(Part::Low(0, 0), 58, 70),
        line(Part::Low(0, 1), 71, 83),
        line(Part::Low(0, 2), 84, 96),
        line(Part::Low(0, 3), 97, 109),
        line(Part::Value(Field::Gain(0)), 110, 116),
        line(Part::Value(Field::Delay(1)), 117, 122),
    ];
    assert!(rt; holds(mode, &lines));
    assert!(rt; same_again(mode, 0, 1, 57, 123));
    assert!(rt; same_again(mode, 0, 2, 48, 183));
    assert!(rt; same_again(mode, 1, 3, 117, 252));
    assert!(rt; mode.bits() == 317);
}

/// Table 12f.
#[test]
fn table_12f(rt: HostRuntime) {
    let mode = Mode::Rate14k25;
    let lines = [
        line(Part::Value(Field::Voice), 1, 1),
        line(Part::Value(Field::Spectrum(0)), 2, 9),
        line(Part::Value(Field::Spectrum(1)), 10, 17),
        line(Part::Value(Field::Spectrum(2)), 18, 23),
        line(Part::Value(Field::Spectrum(3)), 24, 30),
        line(Part::Value(Field::Spectrum(4)), 31, 37),
        line(Part::Value(Field::Spectrum(5)), 38, 42),
        line(Part::Value(Field::Spectrum(6)), 43, 47),
        line(Part::Value(Field::Delay(0)), 48, 56),
        line(Part::Value(Field::FilterFlag(0)), 57, 57),
        line(Part::Low(0, 0), 58, 70),
        line(Part::Low(0, 1), 71, 83),
        line(Part::Low(0, 2), 84, 92),
        line(Part::Low(0, 3), 93, 101),
        line(Part::Value(Field::Gain(0)), 102, 108),
        line(Part::Value(Field::Delay(1)), 109, 114),
    ];
    assert!(rt; holds(mode, &lines));
    assert!(rt; same_again(mode, 0, 1, 57, 115));
    assert!(rt; same_again(mode, 0, 2, 48, 167));
    assert!(rt; same_again(mode, 1, 3, 109, 228));
    assert!(rt; mode.bits() == 285);
}

/// Table 12g.
#[test]
fn table_12g(rt: HostRuntime) {
    let mode = Mode::Rate12k65;
    let lines = [
        line(Part::Value(Field::Voice), 1, 1),
        line(Part::Value(Field::Spectrum(0)), 2, 9),
        line(Part::Value(Field::Spectrum(1)), 10, 17),
        line(Part::Value(Field::Spectrum(2)), 18, 23),
        line(Part::Value(Field::Spectrum(3)), 24, 30),
        line(Part::Value(Field::Spectrum(4)), 31, 37),
        line(Part::Value(Field::Spectrum(5)), 38, 42),
        line(Part::Value(Field::Spectrum(6)), 43, 47),
        line(Part::Value(Field::Delay(0)), 48, 56),
        line(Part::Value(Field::FilterFlag(0)), 57, 57),
        line(Part::Low(0, 0), 58, 66),
        line(Part::Low(0, 1), 67, 75),
        line(Part::Low(0, 2), 76, 84),
        line(Part::Low(0, 3), 85, 93),
        line(Part::Value(Field::Gain(0)), 94, 100),
        line(Part::Value(Field::Delay(1)), 101, 106),
    ];
    assert!(rt; holds(mode, &lines));
    assert!(rt; same_again(mode, 0, 1, 57, 107));
    assert!(rt; same_again(mode, 0, 2, 48, 151));
    assert!(rt; same_again(mode, 1, 3, 101, 204));
    assert!(rt; mode.bits() == 253);
}

/// Table 12h.
#[test]
fn table_12h(rt: HostRuntime) {
    let mode = Mode::Rate8k85;
    let lines = [
        line(Part::Value(Field::Voice), 1, 1),
        line(Part::Value(Field::Spectrum(0)), 2, 9),
        line(Part::Value(Field::Spectrum(1)), 10, 17),
        line(Part::Value(Field::Spectrum(2)), 18, 23),
        line(Part::Value(Field::Spectrum(3)), 24, 30),
        line(Part::Value(Field::Spectrum(4)), 31, 37),
        line(Part::Value(Field::Spectrum(5)), 38, 42),
        line(Part::Value(Field::Spectrum(6)), 43, 47),
        line(Part::Value(Field::Delay(0)), 48, 55),
        line(Part::Low(0, 0), 56, 60),
        line(Part::Low(0, 1), 61, 65),
        line(Part::Low(0, 2), 66, 70),
        line(Part::Low(0, 3), 71, 75),
        line(Part::Value(Field::Gain(0)), 76, 81),
        line(Part::Value(Field::Delay(1)), 82, 86),
    ];
    assert!(rt; holds(mode, &lines));
    assert!(rt; same_again(mode, 0, 1, 56, 87));
    assert!(rt; same_again(mode, 0, 2, 48, 113));
    assert!(rt; same_again(mode, 1, 3, 82, 147));
    assert!(rt; mode.bits() == 177);
}

/// Table 12i, which prints the indices of both tracks as one, bits 46 to 57.
#[test]
fn table_12i(rt: HostRuntime) {
    let mode = Mode::Rate6k60;
    let lines = [
        line(Part::Value(Field::Voice), 1, 1),
        line(Part::Value(Field::Spectrum(0)), 2, 9),
        line(Part::Value(Field::Spectrum(1)), 10, 17),
        line(Part::Value(Field::Spectrum(2)), 18, 24),
        line(Part::Value(Field::Spectrum(3)), 25, 31),
        line(Part::Value(Field::Spectrum(4)), 32, 37),
        line(Part::Value(Field::Delay(0)), 38, 45),
        line(Part::Low(0, 0), 46, 51),
        line(Part::Low(0, 1), 52, 57),
        line(Part::Value(Field::Gain(0)), 58, 63),
        line(Part::Value(Field::Delay(1)), 64, 68),
    ];
    assert!(rt; holds(mode, &lines));
    assert!(rt; same_again(mode, 0, 1, 46, 69));
    assert!(rt; same_again(mode, 1, 2, 64, 87));
    assert!(rt; same_again(mode, 1, 3, 64, 110));
    assert!(rt; mode.bits() == 132);
}
