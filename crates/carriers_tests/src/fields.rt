#[cfg(test)]
mod tests {
    use crate::answers::refused;
    use carriers::alike::write_alike;
    use carriers::copying::copy_octets;
    use carriers::fields::{put_bits, read_bits};
    use carriers::memory::{OctetWriter, WordReader, WordWriter};
    use carriers::traits::ReadCarrier;
    use refusals::cause::Cause;
    use std::test::Fail;

    #[test]
    fn fields_read_back(rt: HostRuntime) -> Result<(), Fail> {
        let mut memory = [0u8; 8];
        let mut writer = OctetWriter::new(&mut memory);
        put_bits(&mut writer, 0x15, 4)?;
        put_bits(&mut writer, 0x3FF, 10)?;
        put_bits(&mut writer, 0xDEAD_BEEF, 32)?;
        put_bits(&mut writer, 9, 0)?;
        assert_eq!(rt; writer.len(), 46);
        assert_eq!(rt; read_bits(&writer, 0, 4)?, 5);
        assert_eq!(rt; read_bits(&writer, 4, 10)?, 0x3FF);
        assert_eq!(rt; read_bits(&writer, 14, 32)?, 0xDEAD_BEEF);
        Ok(())
    }

    #[test]
    fn wide_fields(rt: HostRuntime) -> Result<(), Fail> {
        let mut memory = [0xFFu8; 5];
        let mut writer = OctetWriter::new(&mut memory);
        put_bits(&mut writer, 0x8000_0001, 40)?;
        assert_eq!(rt; read_bits(&writer, 0, 8)?, 0);
        assert_eq!(rt; read_bits(&writer, 0, 40)?, 0x8000_0001);
        assert_eq!(rt;
            read_bits(&writer, 0, u32::MAX),
            refused(Cause::CellMissing)
        );
        Ok(())
    }

    #[test]
    fn a_field_that_does_not_fit(rt: HostRuntime) -> Result<(), Fail> {
        let mut memory = [0u8; 1];
        let mut writer = OctetWriter::new(&mut memory);
        put_bits(&mut writer, 1, 3)?;
        assert_eq!(rt; put_bits(&mut writer, 0x3F, 6), refused(Cause::CarrierFull));
        assert_eq!(rt;
            put_bits(&mut writer, 0, u32::MAX),
            refused(Cause::CarrierFull)
        );
        assert_eq!(rt; writer.len(), 3);
        put_bits(&mut writer, 0x1F, 5)?;
        assert!(rt; memory[0] == 0x3F);
        Ok(())
    }

    #[test]
    fn copied_with_padding(rt: HostRuntime) -> Result<(), Fail> {
        let mut memory = [0u16; 12];
        let mut writer = WordWriter::new(&mut memory);
        put_bits(&mut writer, 0xABC, 12)?;
        let mut short = [7u8];
        assert_eq!(rt;
            copy_octets(&writer, &mut short),
            refused(Cause::BufferTooShort)
        );
        assert!(rt; short[0] == 7);
        let mut out = [1u8, 2, 3];
        assert_eq!(rt; copy_octets(&writer, &mut out)?, 2);
        assert!(rt; out[0] == 0xAB && out[1] == 0xC0 && out[2] == 3);
        Ok(())
    }

    #[test]
    fn a_bad_cell_before_a_short_buffer(rt: HostRuntime) {
        let words = [0x0081u16, 0x0080];
        let reader = WordReader::new(&words);
        let mut none = [0u8; 0];
        assert_eq!(rt; copy_octets(&reader, &mut none), refused(Cause::BadCell));
        let mut out = [9u8];
        assert_eq!(rt; copy_octets(&reader, &mut out), refused(Cause::BadCell));
        assert!(rt; out[0] == 9);
    }

    #[test]
    fn no_cells_are_no_octets(rt: HostRuntime) -> Result<(), Fail> {
        let words = [0u16; 0];
        let reader = WordReader::new(&words);
        let mut out = [9u8];
        assert_eq!(rt; copy_octets(&reader, &mut out)?, 0);
        assert!(rt; out[0] == 9);
        Ok(())
    }

    #[test]
    fn octets_and_words_alike(rt: HostRuntime) -> Result<(), Fail> {
        let mut octets = [0u8; 1];
        let mut words = [0u16; 4];
        write_alike(&mut octets, &mut words, 0b101, 3)?;
        assert!(rt; octets[0] == 0b1010_0000);
        assert!(rt;
            words[0] == 0x0081 && words[1] == 0x007F && words[2] == 0x0081 && words[3] == 0
        );
        assert_eq!(rt;
            write_alike(&mut octets, &mut words, 0, 5),
            refused(Cause::CarrierFull)
        );
        assert!(rt; octets[0] == 0b1010_0000);
        Ok(())
    }
}
