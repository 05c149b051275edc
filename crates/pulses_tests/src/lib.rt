//! Examples of indices written and read, and of each refusal.
#![tactic(auto)]

#[cfg(test)]
mod tests {
    use pulses::index::{Reading, index_bits, read_index, write_index};
    use pulses::pulse::{Pulse, Sign};
    use pulses::set::NONE;
    use refusals::cause::Cause;
    use refusals::refusal::Refusal;
    use std::alloc::AllocError;
    use std::process::Abort;

    /// What a buffer holds before a call.
    const GUARD: Pulse = Pulse {
        place: 99,
        sign: Sign::Minus,
    };

    fn plus(place: u8) -> Pulse {
        Pulse {
            place,
            sign: Sign::Plus,
        }
    }

    fn minus(place: u8) -> Pulse {
        Pulse {
            place,
            sign: Sign::Minus,
        }
    }

    /// Reads into a buffer of eight, and answers it too.
    fn read(
        how: Reading,
        number: usize,
        width: u32,
        index: u32,
    ) -> (Result<usize, Refusal>, [Pulse; 8]) {
        let mut out = [GUARD; 8];
        let r = read_index(how, number, width, index, &mut out);
        (r, out)
    }

    /// A refusal that leaves the buffer as it was.
    fn refused(rt: &impl Abort, how: Reading, number: usize, width: u32, index: u32, cause: Cause) {
        let (r, out) = read(how, number, width, index);
        assert_eq!(rt; r, Err(Refusal::because(cause)));
        assert_eq!(rt; out, [GUARD; 8]);
    }

    #[test]
    fn another_index_of_the_same_set(rt: HostRuntime) {
        let (r, out) = read(Reading::Open, 3, 4, 601);
        assert_eq!(rt; r, Ok(3));
        assert_eq!(rt;
            out,
            [
                plus(1),
                plus(2),
                minus(3),
                GUARD,
                GUARD,
                GUARD,
                GUARD,
                GUARD,
            ]
        );
        let (house, same) = read(Reading::Strict, 3, 4, 4874);
        assert_eq!(rt; house, Ok(3));
        assert_eq!(rt; out, same);
        refused(&rt, Reading::Strict, 3, 4, 601, Cause::NotHouseIndex);
    }

    #[test]
    fn two_pulses_have_nine_bits(rt: HostRuntime) {
        let (r, out) = read(Reading::Strict, 2, 4, 511);
        assert_eq!(rt; r, Ok(2));
        assert_eq!(rt;
            out,
            [
                minus(15),
                minus(15),
                GUARD,
                GUARD,
                GUARD,
                GUARD,
                GUARD,
                GUARD,
            ]
        );
        refused(&rt, Reading::Strict, 2, 4, 512, Cause::NoSuchIndex);
        refused(&rt, Reading::Open, 2, 4, 512, Cause::NoSuchIndex);
    }

    #[test]
    fn unused_numbers_and_widths(rt: HostRuntime) {
        refused(&rt, Reading::Open, 0, 4, 0, Cause::NoSuchIndex);
        refused(&rt, Reading::Open, 7, 4, 0, Cause::NoSuchIndex);
        refused(&rt, Reading::Open, 2, 5, 0, Cause::NoSuchIndex);
        refused(&rt, Reading::Open, 1, 6, 0, Cause::NoSuchIndex);
        assert_eq!(rt;
            write_index(5, &[plus(0), plus(1)]),
            Err(Refusal::because(Cause::WrongNumber))
        );
        assert_eq!(rt;
            write_index(4, &[]),
            Err(Refusal::because(Cause::WrongNumber))
        );
        assert_eq!(rt;
            write_index(3, &[plus(0)]),
            Err(Refusal::because(Cause::WrongNumber))
        );
        assert_eq!(rt;
            write_index(4, &[NONE; 7]),
            Err(Refusal::because(Cause::WrongNumber))
        );
    }

    #[test]
    fn both_signs(rt: HostRuntime) {
        refused(&rt, Reading::Open, 3, 4, 5421, Cause::BothSigns);
        refused(&rt, Reading::Strict, 3, 4, 5421, Cause::BothSigns);
        assert_eq!(rt;
            write_index(4, &[plus(5), minus(5)]),
            Err(Refusal::because(Cause::BothSigns))
        );
    }

    #[test]
    fn places_are_asked_before_signs(rt: HostRuntime) {
        assert_eq!(rt;
            write_index(4, &[plus(5), minus(5), plus(16)]),
            Err(Refusal::because(Cause::OffTrack))
        );
        assert_eq!(rt;
            write_index(5, &[plus(32)]),
            Err(Refusal::because(Cause::OffTrack))
        );
        assert_eq!(rt; write_index(5, &[plus(31)]), Ok(31));
    }

    #[test]
    fn the_buffer_is_asked_last(rt: HostRuntime) {
        let mut short = [GUARD; 2];
        assert_eq!(rt;
            read_index(Reading::Strict, 3, 4, 601, &mut short),
            Err(Refusal::because(Cause::NotHouseIndex))
        );
        assert_eq!(rt;
            read_index(Reading::Strict, 3, 4, 4874, &mut short),
            Err(Refusal::because(Cause::BufferTooShort))
        );
        assert_eq!(rt; short, [GUARD; 2]);
        let mut exact = [GUARD; 3];
        assert_eq!(rt; read_index(Reading::Strict, 3, 4, 4874, &mut exact), Ok(3));
        assert_eq!(rt; exact, [plus(1), plus(2), minus(3)]);
    }

    #[test]
    fn the_sequence_does_not_matter(rt: HostRuntime) {
        assert_eq!(rt; write_index(4, &[minus(7), plus(3)]), Ok(371));
        assert_eq!(rt; write_index(4, &[plus(3), minus(7)]), Ok(371));
        assert_eq!(rt;
            write_index(
                4,
                &[minus(10), plus(2), minus(8), plus(0), minus(9), plus(1)],
            ),
            Ok(3278481)
        );
    }

    #[test]
    fn the_bits_of_an_index(rt: HostRuntime) {
        assert_eq!(rt; index_bits(0, 4), 0);
        assert_eq!(rt; index_bits(1, 5), 6);
        assert_eq!(rt; index_bits(2, 4), 9);
        assert_eq!(rt; index_bits(6, 4), 22);
        assert_eq!(rt; index_bits(6, 0), 0);
        assert_eq!(rt; index_bits(6, 255), 1528);
        assert_eq!(rt; index_bits(7, 4), 0);
    }

    #[test]
    fn pulses_are_printed_with_the_sign_first(rt: HostRuntime) -> Result<(), AllocError> {
        let p = plus(15);
        let q = minus(0);
        let sign = q.sign;
        let text = format!(in rt.alloc(); "{p} {q} {sign}")?;
        assert_eq!(rt; text.as_str(), "+15 -0 -");
        Ok(())
    }
}
