//! The two index calls under their names in C. Their work and their contracts
//! are those of `pulses`.
#![tactic(auto)]

ghost use Rattle.std.specs.Prelude.{◌≡◌, map, length};
ghost use Rattle.pulses.specs.Calls.{write_index, read_index, handed};
ghost use Rattle.pulses.specs.Octets.{pulse_of, answer_of, filled_octets, way_of, OctetTellsThePulse, OffEveryTrack};

use pulses::export;

/// The house index of pulses, or minus the number of the refusal.
// Here again: a C name is exported by a static library, and no crate can use one.
#[unsafe(no_mangle)]
pub extern "C" fn vilchuqa_write_index(width: u32, pulses: &[u8]) -> i32
    ensures answer { result ≡ answer_of (write_index width (map pulse_of pulses.now)) }
    ensures octet_tells_the_pulse { OctetTellsThePulse }
    ensures off_every_track { OffEveryTrack }
{
    export::vilchuqa_write_index(width, pulses)
}

/// Writes the pulses of an index into the front of `out`; answers their
/// number, or minus the number of the refusal, which leaves `out` as it was.
// Here again, as the call above.
#[unsafe(no_mangle)]
pub extern "C" fn vilchuqa_read_index(
    pulses: u32,
    width: u32,
    index: u32,
    strict: bool,
    out: &mut [u8],
) -> i32
    ensures answer { result ≡ answer_of (handed (length out.old) (read_index (way_of strict) pulses width index)) }
    ensures buffer { out.new ≡ filled_octets out.old (read_index (way_of strict) pulses width index) }
{
    export::vilchuqa_read_index(pulses, width, index, strict, out)
}
