ghost use Rattle.std.specs.Prelude.{◌≡◌, ◌*◌, ◌<◌, length, take, drop, Ok, IsOk, IfOk};
ghost use Rattle.carriers.specs.Fields.{bits_of};
ghost use Rattle.carriers.specs.Copying.{all_bits, padded, Copied, CheckAnswers};

use crate::fields::read_bits;
use crate::traits::ReadCarrier;
use refusals::cause::Cause;
use refusals::refusal::Refusal;

/// Copies all cells into `out` as octets, eight cells to an octet, most
/// significant first, and answers the number of octets.
///
/// Where the length is no multiple of 8, zeros fill the last octet. What `out`
/// holds beyond stays.
///
/// Refused as the first cell that is not a bit is, with `BadCell`; then with
/// `BufferTooShort` where `out` has too few octets. A refusal leaves `out` as
/// it was.
// The memory is the caller's, and the answer how much of it is used: nothing
// here allocates.
#[tactic(auto, using(crate::proofs::Tables::table_none, crate::proofs::Checks::check_answers))]
pub fn copy_octets<R: ReadCarrier>(carrier: &R, out: &mut [u8]) -> Result<usize, Refusal>
    ensures copied { Copied (R.cells carrier.now) out.old result out.new }
    ensures law { CheckAnswers }
{
    check_cells(carrier)?;
    let octets = carrier.len().div_ceil(8);
    if out.len() < octets {
        return Err(Cause::BufferTooShort.into());
    }
    for (i, octet) in out[..octets].iter_mut().enumerate() {
        // never refused: each cell is a bit
        *octet = octet_at(carrier, i)?;
    }
    Ok(octets)
}

/// Whether every cell is a bit.
// Asked of all before any octet is written, so that a refusal leaves the buffer
// as it was; by its place, since that is how a carrier gives a cell.
#[tactic(auto, using(crate::proofs::Checks::check_stop, crate::proofs::Checks::check_all))]
fn check_cells<R: ReadCarrier>(carrier: &R) -> Result<(), Refusal>
    ensures { result ≡ all_bits (R.cells carrier.now) }
{
    for at in 0..carrier.len() {
        carrier.cell(at)?;
    }
    Ok(())
}

/// Octet `i` of the cells, filled up with zeros where they end.
#[tactic(auto, using(crate::proofs::Padding::octet_fits, crate::proofs::Padding::octet_read, crate::proofs::Checks::check_field))]
fn octet_at<R: ReadCarrier>(carrier: &R, i: usize) -> Result<u8, Refusal>
    requires { 8 * i < length (R.cells carrier.now) }
    ensures octet { IfOk result (λ octet. bits_of 8 octet ≡ take 8 (drop (8 * i) (padded (R.cells carrier.now)))) }
    ensures read { all_bits (R.cells carrier.now) ≡ Ok tt → IsOk result }
{
    let width = (carrier.len() - 8 * i).min(8) as u32;
    let value = read_bits(carrier, 8 * i, width)?;
    Ok((value << (8 - width)) as u8)
}
