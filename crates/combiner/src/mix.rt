// The combine modes and the scale on red, green and blue, in one word. The contracts cite specs/Words.antt.
// Every mode hands on a word: three bytes that cross the choice by the mode would cost more than the arithmetic.
ghost use Rattle.std.specs.Prelude.{◌≡◌, ◌<◌};
ghost use Rattle.combiner.specs.Operands.{rgb_operand};
ghost use Rattle.settings.specs.Colours.{colour_of};
ghost use Rattle.combiner.specs.Words.{rgb, rgb_in, dot_in, Each2, Each3, rgb_combined, rgb_scaled};

use crate::{dot, modes, operands, packed};

// A mode of two operands on red, green and blue, and one of three.
fn each2<F: Fn(u8, u8) -> u8>(mode: F, x: u32, y: u32) -> u32
    requires { F.IsAlwaysCallable mode }
    ensures { Each2 (F.post mode) (rgb_in x) (rgb_in y) (rgb_in result) }
{
    let a = packed::rgb_of(x);
    let b = packed::rgb_of(y);
    packed::join_rgb(
        mode(a.red, b.red),
        mode(a.green, b.green),
        mode(a.blue, b.blue),
    )
}

fn each3<F: Fn(u8, u8, u8) -> u8>(mode: F, x: u32, y: u32, z: u32) -> u32
    requires { F.IsAlwaysCallable mode }
    ensures { Each3 (F.post mode) (rgb_in x) (rgb_in y) (rgb_in z) (rgb_in result) }
{
    let a = packed::rgb_of(x);
    let b = packed::rgb_of(y);
    let c = packed::rgb_of(z);
    packed::join_rgb(
        mode(a.red, b.red, c.red),
        mode(a.green, b.green, c.green),
        mode(a.blue, b.blue, c.blue),
    )
}

fn dot_rgb(x: u32, y: u32) -> u32
    ensures { rgb_in result ≡ rgb (dot_in x y) (dot_in x y) (dot_in x y) }
{
    packed::grey(dot::dot_words(x, y))
}

// One choice by the mode for all three channels. x and y are the first two operands; the third, which its code names of a source, and the
// dot3 are worked out only where a mode asks for them.
#[tactic(auto, using(crate::proofs::Mixed::by_two, crate::proofs::Mixed::by_three, crate::proofs::Mixed::last_mode), unfolding(crate::specs::Modes::combined))]
pub fn mix_rgb(mode: u32, x: u32, y: u32, code: u32, source: u32) -> u32
    ensures { rgb_in result ≡ rgb_combined mode (rgb_in x) (rgb_in y) (rgb_operand code (colour_of source)) (dot_in x y) }
{
    match mode {
        0 => x,
        1 => each2(modes::modulate, x, y),
        2 => each2(modes::add, x, y),
        3 => each2(modes::add_signed, x, y),
        4 => each3(
            modes::interpolate,
            x,
            y,
            operands::rgb_operand(code, source),
        ),
        5 => each2(modes::subtract, x, y),
        6 => dot_rgb(x, y),
        7 => dot_rgb(x, y),
        8 => each3(
            modes::multiply_add,
            x,
            y,
            operands::rgb_operand(code, source),
        ),
        _ => each3(
            modes::add_multiply,
            x,
            y,
            operands::rgb_operand(code, source),
        ),
    }
}

// Scale 1 is passed over.
pub fn scale_rgb(scale: u32, x: u32) -> u32
    ensures { (rgb_in result ≡ rgb_scaled scale (rgb_in x)) × (result < 0x1000000) }
{
    if scale == 0 {
        return x % 0x1000000;
    }
    let by = modes::factor(scale);
    let a = packed::rgb_of(x);
    packed::join_rgb(
        modes::times(a.red, by),
        modes::times(a.green, by),
        modes::times(a.blue, by),
    )
}
