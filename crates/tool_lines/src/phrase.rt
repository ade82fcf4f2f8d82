//! What a line says of a fault, as parts.
ghost use Rattle.std.specs.Prelude.{◌≡◌, ◌∷◌, [], map};
ghost use Rattle.tool_lines.specs.Saying.{part_text};
ghost use Rattle.tool_lines.specs.Texts.{joined};

use crate::line::Part;
use crate::line::Part::Text;

/// Up to eight parts; the others say nothing.
pub type Phrase = [Part<'static>; 8];

/// One part.
pub fn one(a: Part<'static>) -> Phrase
    ensures { joined (map part_text result) ≡ joined (part_text a.entry ∷ []) }
{
    let e = Text("");
    [a, e, e, e, e, e, e, e]
}

/// Two parts.
pub fn two(a: Part<'static>, b: Part<'static>) -> Phrase
    ensures { joined (map part_text result) ≡ joined (part_text a.entry ∷ part_text b.entry ∷ []) }
{
    let e = Text("");
    [a, b, e, e, e, e, e, e]
}

/// Three parts.
pub fn three(a: Part<'static>, b: Part<'static>, c: Part<'static>) -> Phrase
    ensures { joined (map part_text result) ≡
        joined (part_text a.entry ∷ part_text b.entry ∷ part_text c.entry ∷ []) }
{
    let e = Text("");
    [a, b, c, e, e, e, e, e]
}

/// Four parts.
pub fn four(a: Part<'static>, b: Part<'static>, c: Part<'static>, d: Part<'static>) -> Phrase
    ensures { joined (map part_text result) ≡
        joined (part_text a.entry ∷ part_text b.entry ∷ part_text c.entry ∷ part_text d.entry ∷ []) }
{
    let e = Text("");
    [a, b, c, d, e, e, e, e]
}
