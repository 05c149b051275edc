//! Messages of words, with bad cells, as a caller reads them.
#![tactic(auto)]

#[cfg(test)]
mod tests {
    use carriers::memory::WordReader;
    use messages::reading::{read_frame, read_message};
    use pulses::index::Reading;
    use pulses::pulse::{Pulse, Sign};
    use pulses::set::NONE;
    use refusals::cause::Cause;
    use refusals::refusal::{Refusal, Spot};
    use std::test::Fail;

    const ZERO: u16 = 0x007F;

    const ONE: u16 = 0x0081;

    const BAD: u16 = 0x0080;

    // What is answered for a refusal of a field of a frame, told at a cell.
    fn refused(cause: Cause, frame: u32, cell: usize) -> Result<usize, Refusal> {
        Err(Refusal {
            cause,
            spot: Spot {
                frame: Some(frame),
                cell: Some(cell),
                ..Spot::nowhere()
            },
        })
    }

    // The same of a track of the first frame.
    fn track_refused(
        cause: Cause,
        subframe: usize,
        track: usize,
        cell: usize,
    ) -> Result<usize, Refusal> {
        Err(Refusal {
            cause,
            spot: Spot {
                frame: Some(0),
                subframe: Some(subframe),
                track: Some(track),
                cell: Some(cell),
            },
        })
    }

    fn read(words: &[u16]) -> Result<usize, Refusal> {
        read_message(Reading::Strict, &WordReader::new(words))
    }

    // The message of no frame.
    const NO_FRAME: [u16; 8] = [ONE, ONE, ONE, ONE, ZERO, ZERO, ZERO, ZERO];

    #[test]
    fn bad_and_missing_cells_everywhere(rt: HostRuntime) {
        assert_eq!(rt; read(&NO_FRAME), Ok(0));
        // `i` is the cell that is bad, and the number of cells that are there.
        for i in 0..8 {
            let first = if i < 4 { 0 } else { 4 };
            let mut words = NO_FRAME;
            words[i] = BAD;
            assert_eq!(rt; read(&words), refused(Cause::BadCell, 0, first));
            assert_eq!(rt;
                read(&NO_FRAME[0..i]),
                refused(Cause::CellMissing, 0, first)
            );
        }
    }

    #[test]
    fn numbers_of_the_causes(rt: HostRuntime) {
        assert_eq!(rt; u8::from(Cause::BothSigns), 6);
        assert_eq!(rt; u8::from(Cause::NotHouseIndex), 8);
        assert_eq!(rt; u8::from(Cause::TooManyFrames), 10);
        assert_eq!(rt; u8::from(Cause::CellMissing), 14);
        assert_eq!(rt; u8::from(Cause::BadCell), 15);
        assert_eq!(rt; u8::from(Cause::BadFill), 16);
    }

    #[test]
    fn all_fill_is_read_before_it_is_judged(rt: HostRuntime) {
        let bad_fill = [ONE, ONE, ONE, ONE, ONE, BAD, ZERO, ZERO];
        assert_eq!(rt; read(&bad_fill), refused(Cause::BadCell, 0, 4));
        let one_in_fill = [ONE, ONE, ONE, ONE, ONE, ZERO, ZERO, ZERO];
        assert_eq!(rt; read(&one_in_fill), refused(Cause::BadFill, 0, 4));
        let bad_behind = [ONE, ONE, ONE, ONE, ZERO, ZERO, ZERO, ZERO, BAD];
        assert_eq!(rt; read(&bad_behind), refused(Cause::BadFill, 0, 4));
    }

    // One frame of mode 8, all 0 but for the index 8 of track 0 of subframe
    // 0: it reads as five plus pulses and a minus pulse on place 0.
    fn both_signs() -> [u16; 488] {
        let mut words = [ZERO; 488];
        words[0] = ONE;
        words[112] = ONE;
        words[481..485].fill(ONE);
        words
    }

    #[test]
    fn a_track_is_asked_after_its_last_part(rt: HostRuntime) {
        let mut words = both_signs();
        assert_eq!(rt; read(&words), track_refused(Cause::BothSigns, 0, 0, 105));
        // track 1 has no low part
        assert_eq!(rt;
            read(&words[0..116]),
            track_refused(Cause::BothSigns, 0, 0, 105)
        );
        // the last cell of the high part of track 3 is missing, then bad
        assert_eq!(rt;
            read(&words[0..104]),
            track_refused(Cause::CellMissing, 0, 3, 94)
        );
        words[104] = BAD;
        assert_eq!(rt; read(&words), track_refused(Cause::BadCell, 0, 3, 94));
    }

    // One frame of mode 3, all 0 but for the index 601 of track 1 of subframe
    // 2: it reads as 1+ 2+ 3-, whose house index is 4874.
    fn not_the_house_index() -> [u16; 296] {
        let mut words = [ZERO; 296];
        for i in [2, 3, 196, 199, 201, 202, 205, 289, 290, 291, 292] {
            if let Some(word) = words.get_mut(i) {
                *word = ONE;
            }
        }
        words
    }

    #[test]
    fn open_reading_takes_any_index(rt: HostRuntime) -> Result<(), Fail> {
        let words = not_the_house_index();
        let carrier = WordReader::new(&words);
        assert_eq!(rt;
            read(&words),
            track_refused(Cause::NotHouseIndex, 2, 1, 193)
        );
        assert_eq!(rt; read_message(Reading::Open, &carrier), Ok(1));
        let mut row = [NONE; 6];
        assert_eq!(rt;
            read_frame(Reading::Open, &carrier, 0)?.track(2, 1, &mut row)?,
            3
        );
        assert_eq!(rt;
            row[2],
            Pulse {
                place: 3,
                sign: Sign::Minus,
            }
        );
        Ok(())
    }

    #[test]
    fn a_frame_too_many(rt: HostRuntime) {
        let words = [ZERO; 69_800];
        assert_eq!(rt; read(&words), refused(Cause::TooManyFrames, 512, 69_632));
    }
}
