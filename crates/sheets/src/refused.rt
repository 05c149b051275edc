ghost use Rattle.std.specs.Prelude.{◌≡◌};
ghost use Rattle.sheets.specs.Sheets.{refused_line};

use crate::line::Line;
use refusals::refusal::Refusal;

/// The line of a refusal: its number, and the frame and the cell of its spot.
impl From<Refusal> for Line {
    ghost from_gives = { λ e l. l ≡ refused_line e };

    fn from(refusal: Refusal) -> Line {
        Line::Refused {
            number: u8::from(refusal.cause),
            frame: refusal.spot.frame.unwrap_or(0),
            cell: refusal.spot.cell.unwrap_or(0),
        }
    }
}
