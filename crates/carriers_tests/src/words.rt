#[cfg(test)]
mod tests {
    use crate::answers::refused;
    use carriers::bit::Bit;
    use carriers::fields::read_bits;
    use carriers::memory::{WordReader, WordWriter};
    use carriers::traits::{ReadCarrier, WriteCarrier};
    use refusals::cause::Cause;
    use std::test::Fail;

    #[test]
    fn soft_bits(rt: HostRuntime) {
        let words = [0x007Fu16, 0x0081, 0x0080, 0x7F00, 0xFFFF, 0x0000];
        let reader = WordReader::new(&words);
        assert_eq!(rt; reader.len(), 6);
        assert_eq!(rt; reader.cell(0), Ok(Bit::Zero));
        assert_eq!(rt; reader.cell(1), Ok(Bit::One));
        assert_eq!(rt; reader.cell(2), refused(Cause::BadCell));
        assert_eq!(rt; reader.cell(3), refused(Cause::BadCell));
        assert_eq!(rt; reader.cell(4), refused(Cause::BadCell));
        assert_eq!(rt; reader.cell(5), refused(Cause::BadCell));
        assert_eq!(rt; reader.cell(6), refused(Cause::CellMissing));
    }

    #[test]
    fn the_first_fault_decides(rt: HostRuntime) -> Result<(), Fail> {
        let words = [0x0081u16, 0x0080, 0x0081];
        let reader = WordReader::new(&words);
        assert_eq!(rt; read_bits(&reader, 0, 1)?, 1);
        assert_eq!(rt; read_bits(&reader, 0, 4), refused(Cause::BadCell));
        assert_eq!(rt; read_bits(&reader, 2, 2), refused(Cause::CellMissing));
        assert_eq!(rt; read_bits(&reader, 1, 0)?, 0);
        Ok(())
    }

    #[test]
    fn room_for_one(rt: HostRuntime) -> Result<(), Fail> {
        let mut memory = [0u16];
        let mut writer = WordWriter::new(&mut memory);
        assert_eq!(rt; writer.capacity(), 1);
        writer.put(Bit::One)?;
        assert_eq!(rt; writer.put(Bit::One), refused(Cause::CarrierFull));
        assert!(rt; memory[0] == 0x0081);
        Ok(())
    }

    #[test]
    fn room_for_seven(rt: HostRuntime) -> Result<(), Fail> {
        let mut memory = [0u16; 7];
        let mut writer = WordWriter::new(&mut memory);
        for _ in 0..7 {
            writer.put(Bit::Zero)?;
        }
        assert_eq!(rt; writer.put(Bit::Zero), refused(Cause::CarrierFull));
        assert_eq!(rt; writer.len(), 7);
        assert!(rt; memory[6] == 0x007F);
        Ok(())
    }

    #[test]
    fn put_after_cut_over_old_words(rt: HostRuntime) -> Result<(), Fail> {
        let mut memory = [0xFFFFu16; 3];
        let mut writer = WordWriter::new(&mut memory);
        writer.put(Bit::One)?;
        writer.put(Bit::One)?;
        assert_eq!(rt; writer.cut(3), refused(Cause::CellMissing));
        writer.cut(0)?;
        writer.put(Bit::Zero)?;
        assert_eq!(rt; writer.len(), 1);
        assert!(rt; memory[0] == 0x007F && memory[1] == 0x0081 && memory[2] == 0xFFFF);
        Ok(())
    }

    #[test]
    fn about_the_limit(rt: HostRuntime) {
        let words = [0x0081u16; 300_001];
        assert_eq!(rt; WordReader::new(&words[..299_999]).len(), 299_999);
        assert_eq!(rt; WordReader::new(&words[..300_000]).len(), 300_000);
        let reader = WordReader::new(&words);
        assert_eq!(rt; reader.len(), 300_000);
        assert_eq!(rt; reader.cell(299_999), Ok(Bit::One));
        assert_eq!(rt; reader.cell(300_000), refused(Cause::CellMissing));
    }

    #[test]
    fn full_at_the_limit(rt: HostRuntime) -> Result<(), Fail> {
        let mut memory = [0u16; 300_001];
        let mut writer = WordWriter::new(&mut memory);
        assert_eq!(rt; writer.capacity(), 300_000);
        for _ in 0..299_999 {
            writer.put(Bit::One)?;
        }
        writer.put(Bit::Zero)?;
        assert_eq!(rt; writer.put(Bit::One), refused(Cause::CarrierFull));
        assert!(rt; memory[299_999] == 0x007F && memory[300_000] == 0);
        Ok(())
    }
}
