#[cfg(test)]
mod tests {
    use crate::answers::refused;
    use carriers::bit::Bit;
    use carriers::memory::{OctetReader, OctetWriter};
    use carriers::traits::{ReadCarrier, WriteCarrier};
    use refusals::cause::Cause;
    use std::test::Fail;

    #[test]
    fn most_significant_first(rt: HostRuntime) {
        let octets = [0b0100_0001u8, 0b1000_0000];
        let reader = OctetReader::new(&octets);
        assert_eq!(rt; reader.len(), 16);
        assert_eq!(rt; reader.cell(0), Ok(Bit::Zero));
        assert_eq!(rt; reader.cell(1), Ok(Bit::One));
        assert_eq!(rt; reader.cell(7), Ok(Bit::One));
        assert_eq!(rt; reader.cell(8), Ok(Bit::One));
        assert_eq!(rt; reader.cell(15), Ok(Bit::Zero));
        assert_eq!(rt; reader.cell(16), refused(Cause::CellMissing));
    }

    #[test]
    fn over_an_octet_boundary(rt: HostRuntime) -> Result<(), Fail> {
        let mut memory = [0x00u8, 0x7F];
        let mut writer = OctetWriter::new(&mut memory);
        assert_eq!(rt; writer.capacity(), 16);
        for _ in 0..7 {
            writer.put(Bit::Zero)?;
        }
        writer.put(Bit::One)?;
        writer.put(Bit::One)?;
        assert_eq!(rt; writer.len(), 9);
        assert_eq!(rt; writer.cell(8), Ok(Bit::One));
        assert_eq!(rt; writer.cell(9), refused(Cause::CellMissing));
        assert!(rt; memory[0] == 0x01 && memory[1] == 0xFF);
        Ok(())
    }

    #[test]
    fn no_room_at_all(rt: HostRuntime) {
        let mut memory = [0u8; 0];
        let mut writer = OctetWriter::new(&mut memory);
        assert_eq!(rt; writer.capacity(), 0);
        assert_eq!(rt; writer.put(Bit::One), refused(Cause::CarrierFull));
        assert_eq!(rt; writer.len(), 0);
        assert_eq!(rt; writer.cut(0), Ok(()));
        assert_eq!(rt; writer.cut(1), refused(Cause::CellMissing));
    }

    #[test]
    fn room_for_eight(rt: HostRuntime) -> Result<(), Fail> {
        let mut memory = [0u8];
        let mut writer = OctetWriter::new(&mut memory);
        for _ in 0..8 {
            writer.put(Bit::One)?;
        }
        assert_eq!(rt; writer.put(Bit::Zero), refused(Cause::CarrierFull));
        assert_eq!(rt; writer.len(), 8);
        assert!(rt; memory[0] == 0xFF);
        Ok(())
    }

    #[test]
    fn put_after_cut_over_old_bits(rt: HostRuntime) -> Result<(), Fail> {
        let mut memory = [0xFFu8];
        let mut writer = OctetWriter::new(&mut memory);
        writer.put(Bit::Zero)?;
        writer.put(Bit::Zero)?;
        writer.put(Bit::One)?;
        assert_eq!(rt; writer.cut(4), refused(Cause::CellMissing));
        writer.cut(1)?;
        assert_eq!(rt; writer.len(), 1);
        assert_eq!(rt; writer.cell(1), refused(Cause::CellMissing));
        writer.put(Bit::One)?;
        assert_eq!(rt; writer.cell(0), Ok(Bit::Zero));
        assert_eq!(rt; writer.cell(1), Ok(Bit::One));
        assert!(rt; memory[0] == 0x7F);
        Ok(())
    }

    #[test]
    fn cutting_changes_no_memory(rt: HostRuntime) -> Result<(), Fail> {
        let mut memory = [0xA5u8];
        let mut writer = OctetWriter::new(&mut memory);
        writer.put(Bit::One)?;
        writer.put(Bit::Zero)?;
        writer.cut(0)?;
        assert!(rt; memory[0] == 0xA5);
        Ok(())
    }

    #[test]
    fn about_the_limit(rt: HostRuntime) {
        let octets = [0xFFu8; 37_501];
        assert_eq!(rt; OctetReader::new(&octets[..37_499]).len(), 299_992);
        assert_eq!(rt; OctetReader::new(&octets[..37_500]).len(), 300_000);
        let reader = OctetReader::new(&octets);
        assert_eq!(rt; reader.len(), 300_000);
        assert_eq!(rt; reader.cell(299_999), Ok(Bit::One));
        assert_eq!(rt; reader.cell(300_000), refused(Cause::CellMissing));
    }

    #[test]
    fn full_at_the_limit(rt: HostRuntime) -> Result<(), Fail> {
        let mut memory = [0u8; 37_501];
        let mut writer = OctetWriter::new(&mut memory);
        assert_eq!(rt; writer.capacity(), 300_000);
        for _ in 0..300_000 {
            writer.put(Bit::One)?;
        }
        assert_eq!(rt; writer.put(Bit::One), refused(Cause::CarrierFull));
        assert_eq!(rt; writer.len(), 300_000);
        assert!(rt; memory[37_499] == 0xFF && memory[37_500] == 0x00);
        Ok(())
    }
}
