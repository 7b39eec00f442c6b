// A colour and its word, each way, for every crate that packs or unpacks a colour. The contracts cite specs/Colours.antt.
ghost use Rattle.std.specs.Prelude.{◌≡◌};
ghost use Rattle.settings.specs.Colours.{colour_of, word_of};

use crate::records::Colour;

// The word of a colour. Its channels are bytes, so that the word is this colour again.
pub fn word_of(c: Colour) -> u32
    ensures word { result ≡ word_of c }
    ensures back { colour_of result ≡ c }
{
    u32::from_le_bytes([c.red, c.green, c.blue, c.alpha])
}

// The colour that a word is.
#[tactic(auto, unfolding(crate::specs::Colours::colour_of))]
pub fn colour_of(x: u32) -> Colour
    ensures { result ≡ colour_of x }
{
    let [red, green, blue, alpha] = x.to_le_bytes();
    Colour {
        red,
        green,
        blue,
        alpha,
    }
}
