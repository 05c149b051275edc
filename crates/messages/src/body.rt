ghost use Rattle.messages.specs.Contents.{IsFine};

use crate::parts::Parts;

/// A frame as it stands in a message: its parts, all of which are accepted,
/// and the cell after it.
#[derive(Clone, Copy)]
pub(crate) struct Body {
    pub parts: Parts,
    pub end: usize,
    ghost fine: { IsFine parts.how parts.mode parts.values },
}
