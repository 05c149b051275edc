use refusals::cause::Cause;
use refusals::refusal::Refusal;

/// The answer of a call that is refused for `cause` and names no place.
pub(crate) fn refused<T>(cause: Cause) -> Result<T, Refusal> {
    Err(Refusal::because(cause))
}

#[test]
fn the_numbers_of_causes(rt: HostRuntime) {
    assert_eq!(rt; u8::from(Cause::CarrierFull), 11);
    assert_eq!(rt; u8::from(Cause::CellMissing), 14);
    assert_eq!(rt; u8::from(Cause::BadCell), 15);
    assert_eq!(rt; u8::from(Cause::BufferTooShort), 17);
}
