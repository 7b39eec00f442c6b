// Parts of words that are colours, as `settings` packs them. The contracts cite specs/Words.antt.
ghost use Rattle.std.specs.Prelude.{◌≡◌, ◌<◌};
ghost use Rattle.numbers.specs.Pick.{pick};
ghost use Rattle.combiner.specs.Stage.{joined};
ghost use Rattle.settings.specs.Colours.{colour_of};
ghost use Rattle.combiner.specs.Words.{rgb, rgb_in};

use crate::dot::Rgb;

pub fn rgb_of(x: u32) -> Rgb
    ensures { result ≡ rgb_in x }
{
    Rgb {
        red: (x % 256) as u8,
        green: ((x >> 8) % 256) as u8,
        blue: ((x >> 16) % 256) as u8,
    }
}

pub fn join_rgb(red: u8, green: u8, blue: u8) -> u32
    ensures { (rgb_in result ≡ rgb red green blue) × (result < 0x1000000) }
{
    red as u32 + green as u32 * 0x100 + blue as u32 * 0x10000
}

// The same byte for red, green and blue.
pub fn grey(x: u8) -> u32
    ensures { rgb_in result ≡ rgb x x x }
{
    x as u32 * 0x10101
}

// The red, green and blue of one word, and the alpha of another.
#[tactic(auto, using(crate::proofs::Parts::joined_alpha))]
pub fn join_alpha(low: u32, high: u32) -> u32
    ensures { colour_of result ≡ joined (rgb_in low) (colour_of high).alpha }
{
    low % 0x1000000 + high / 0x1000000 * 0x1000000
}

// a where the test holds, else b.
pub fn choose(test: bool, a: u32, b: u32) -> u32
    ensures { result ≡ pick test a b }
{
    if test { a } else { b }
}
