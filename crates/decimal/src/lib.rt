// An f64 as a person writes it: the shortest digits that read back as it, positional from 1e-5 up to
// below 1e16 and scientific otherwise.
#![tactic(auto)]

mod layout;

ghost use Rattle.std.specs.Prelude.{◌≡◌};
ghost use Rattle.std.specs.Float.{binary64};
ghost use Rattle.std.specs.Float.Ieee.{to_bits};
ghost use Rattle.words.specs.Words.{placed};
ghost use Rattle.decimal.specs.Text.{text, told};

use layout::Text;

// Writes the decimal text of x to the front of `out`, and tells its length; nothing, and 0, where it
// has no room there. No text is longer than 24 bytes.
#[tactic(auto, unfolding(crate::specs::Text::told))]
pub fn write(x: f64, out: &mut [u8]) -> usize
    ensures value { result ≡ told out.old (text (to_bits binary64 x)) }
    ensures out_after { out.new ≡ placed out.old 0 (text (to_bits binary64 x)) }
{
    let text = Text::of(float::bits_of(x));
    let bytes = text.as_slice();
    if words::put_text(out, 0, bytes) {
        bytes.len()
    } else {
        0
    }
}
