ghost use Rattle.std.specs.Prelude.{◌≡◌};
ghost use Rattle.refusals.specs.Refusals.{number_of, layer_of, name_of};

/// What a refused call got wrong.
#[derive(Clone, Copy, PartialEq, Eq, Debug)]
pub enum Cause {
    NoSuchMode,
    NoSuchField,
    ValueTooLarge,
    WrongNumber,
    OffTrack,
    BothSigns,
    NoSuchIndex,
    NotHouseIndex,
    WrongLength,
    TooManyFrames,
    CarrierFull,
    NoSuchFrame,
    ModesAstray,
    CellMissing,
    BadCell,
    BadFill,
    BufferTooShort,
}

/// The layer whose rule a refused call broke.
#[derive(Clone, Copy, PartialEq, Eq, Debug)]
pub enum Layer {
    Carrier,
    Index,
    Frame,
    Message,
}

/// The fixed number of the cause: `u8::from(Cause::BothSigns)` is 6.
impl From<Cause> for u8 {
    ghost from_gives = { λ c n. n ≡ number_of c };

    fn from(cause: Cause) -> u8 {
        match cause {
            Cause::NoSuchMode => 1,
            Cause::NoSuchField => 2,
            Cause::ValueTooLarge => 3,
            Cause::WrongNumber => 4,
            Cause::OffTrack => 5,
            Cause::BothSigns => 6,
            Cause::NoSuchIndex => 7,
            Cause::NotHouseIndex => 8,
            Cause::WrongLength => 9,
            Cause::TooManyFrames => 10,
            Cause::CarrierFull => 11,
            Cause::NoSuchFrame => 12,
            Cause::ModesAstray => 13,
            Cause::CellMissing => 14,
            Cause::BadCell => 15,
            Cause::BadFill => 16,
            Cause::BufferTooShort => 17,
        }
    }
}

impl Cause {
    /// The layer of the cause: `Cause::BothSigns.layer()` is `Layer::Index`.
    pub fn layer(self) -> Layer
        ensures { result ≡ layer_of self }
    {
        match self {
            Cause::CarrierFull | Cause::CellMissing | Cause::BadCell => Layer::Carrier,
            Cause::WrongNumber
            | Cause::OffTrack
            | Cause::BothSigns
            | Cause::NoSuchIndex
            | Cause::NotHouseIndex => Layer::Index,
            Cause::NoSuchMode | Cause::NoSuchField | Cause::ValueTooLarge => Layer::Frame,
            Cause::WrongLength
            | Cause::TooManyFrames
            | Cause::NoSuchFrame
            | Cause::ModesAstray
            | Cause::BadFill
            | Cause::BufferTooShort => Layer::Message,
        }
    }
}

impl Layer {
    // No `Display`: the text itself is handed out, by a call that cannot fail.
    /// The layer's name: `Layer::Index.name()` is `"index"`.
    pub fn name(self) -> &'static str
        ensures { result.now ≡ name_of self }
    {
        match self {
            Layer::Carrier => "carrier",
            Layer::Index => "index",
            Layer::Frame => "frame",
            Layer::Message => "message",
        }
    }
}
