//! Records as a caller uses them.
use frames::frame::Frame;
use frames::frame::delays::microseconds;
use modes::field::Field;
use modes::mode::Mode;
use pulses::pulse::{Pulse, Sign};
use pulses::set::NONE;
use refusals::cause::Cause;
use refusals::refusal::Refusal;
use std::test::Fail;

/// Whether a call was refused for `cause`, telling `subframe` and `track`.
fn refused<T: Drop>(
    answer: Result<T, Refusal>,
    cause: Cause,
    subframe: Option<usize>,
    track: Option<usize>,
) -> bool {
    match answer {
        Ok(_) => false,
        Err(e) => e.cause == cause
            && e.spot.subframe == subframe
            && e.spot.track == track
            && e.spot.frame.is_none()
            && e.spot.cell.is_none(),
    }
}

#[test]
fn modes_by_number(rt: HostRuntime) -> Result<(), Fail> {
    assert!(rt; Mode::try_from(9u8) == Err(Cause::NoSuchMode));
    assert_eq!(rt; Frame::blank(8)?.mode(), Mode::Rate23k85);
    assert!(rt; refused(Frame::blank(9), Cause::NoSuchMode, None, None));
    Ok(())
}

#[test]
fn fields(rt: HostRuntime) -> Result<(), Fail> {
    let mut f = Frame::blank(2)?;
    f.set(Field::Delay(2), 511)?;
    assert_eq!(rt; f.get(Field::Delay(2))?, 511);
    assert_eq!(rt; f.get(Field::Gain(3))?, 0);
    assert!(rt;
        refused(
            f.set(Field::Delay(1), 64),
            Cause::ValueTooLarge,
            Some(1),
            None,
        )
    );
    assert!(rt;
        refused(
            f.set(Field::HighBandGain(0), 0),
            Cause::NoSuchField,
            Some(0),
            None,
        )
    );
    assert!(rt; refused(f.get(Field::Spectrum(7)), Cause::NoSuchField, None, None));
    assert!(rt; refused(f.get(Field::Gain(7)), Cause::NoSuchField, Some(7), None));
    Ok(())
}

#[test]
fn tracks(rt: HostRuntime) -> Result<(), Fail> {
    let mut f = Frame::blank(2)?;
    let high = Pulse {
        place: 9,
        sign: Sign::Minus,
    };
    let low = Pulse {
        place: 4,
        sign: Sign::Plus,
    };
    f.set_track(1, 3, &[high, low])?;
    let mut row = [high; 4];
    assert_eq!(rt; f.track(1, 3, &mut row)?, 2);
    assert!(rt; row[0] == low && row[1] == high && row[2] == high);
    assert!(rt;
        refused(
            f.set_track(1, 3, &[low]),
            Cause::WrongNumber,
            Some(1),
            Some(3),
        )
    );
    assert!(rt;
        refused(
            f.set_track(0, 4, &[low, low]),
            Cause::NoSuchField,
            Some(0),
            Some(4),
        )
    );
    let off = Pulse {
        place: 16,
        sign: Sign::Plus,
    };
    assert!(rt;
        refused(
            f.set_track(0, 0, &[off, low]),
            Cause::OffTrack,
            Some(0),
            Some(0),
        )
    );
    let other = Pulse {
        place: 4,
        sign: Sign::Minus,
    };
    assert!(rt;
        refused(
            f.set_track(0, 0, &[other, low]),
            Cause::BothSigns,
            Some(0),
            Some(0),
        )
    );
    assert!(rt;
        refused(
            f.track(1, 3, &mut row[0..1]),
            Cause::BufferTooShort,
            Some(1),
            Some(3),
        )
    );
    Ok(())
}

#[test]
fn samples(rt: HostRuntime) -> Result<(), Fail> {
    let mut f = Frame::blank(2)?;
    f.set_track(
        1,
        3,
        &[
            Pulse {
                place: 9,
                sign: Sign::Minus,
            },
            Pulse {
                place: 4,
                sign: Sign::Plus,
            },
        ],
    )?;
    let mut out = [7i8; 260];
    f.excitation(&mut out)?;
    assert!(rt; out[64 + 4 * 9 + 3] == -1);
    assert!(rt; out[64 + 4 * 4 + 3] == 1);
    assert!(rt; out[0] == 2);
    assert!(rt; out[256] == 7);
    let mut g = Frame::blank(0)?;
    g.set_track(
        3,
        1,
        &[Pulse {
            place: 31,
            sign: Sign::Minus,
        }],
    )?;
    g.excitation(&mut out)?;
    assert!(rt; out[255] == -1);
    assert!(rt;
        refused(
            g.excitation(&mut out[0..255]),
            Cause::BufferTooShort,
            None,
            None,
        )
    );
    Ok(())
}

#[test]
fn delays(rt: HostRuntime) -> Result<(), Fail> {
    let f = Frame::blank(0)?;
    let q = f.delays();
    assert!(rt; q[0] == 136 && q[1] == 136 && q[3] == 136);
    assert_eq!(rt; microseconds(136), 2656);
    // 116 is the first whole delay; short ones count from subframe 0 alone
    let mut g = Frame::blank(0)?;
    g.set(Field::Delay(0), 116)?;
    g.set(Field::Delay(1), 31)?;
    g.set(Field::Delay(2), 1)?;
    let q = g.delays();
    assert!(rt; q[0] == 368 && q[1] == 336 + 62 && q[2] == 336 + 2 && q[3] == 336);
    let mut h = Frame::blank(8)?;
    h.set(Field::Delay(2), 511)?;
    h.set(Field::Delay(3), 63)?;
    let q = h.delays();
    assert!(rt; q[2] == 924 && q[3] == 864 + 63);
    Ok(())
}

#[test]
fn agreement(rt: HostRuntime) -> Result<(), Fail> {
    let mut f = Frame::blank(6)?;
    assert!(rt; f.agrees(&f.rebuilt()));
    let g = f;
    f.set_track(
        2,
        0,
        &[
            NONE,
            NONE,
            NONE,
            NONE,
            Pulse {
                place: 15,
                sign: Sign::Plus,
            },
        ],
    )?;
    assert!(rt; !f.agrees(&g));
    assert!(rt; f.agrees(&f.rebuilt()));
    Ok(())
}
