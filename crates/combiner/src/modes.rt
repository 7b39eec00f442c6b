// One channel: the combine modes and the scales. The contracts cite specs/Modes.antt.
ghost use Rattle.std.specs.Prelude.{◌≡◌, ◌≤◌, ◌*◌, ◌/◌};
ghost use Rattle.combiner.specs.Modes.{to_byte, modulated, added, added_signed, interpolated, subtracted};
ghost use Rattle.combiner.specs.Modes.{multiplied_added, added_multiplied, combined, factor_of};
ghost use Rattle.combiner.specs.Operands.{alpha_operand};
ghost use Rattle.settings.specs.Colours.{colour_of};
ghost use Rattle.combiner.specs.Words.{dot_in};

use crate::{dot, operands};

// By additions and shifts: 257 n, then 65,537 times that, which is 16,843,009 n, and n once more.
fn times_16843010(n: u32) -> u64
    requires { n ≤ 195075 }
    ensures { result ≡ n * 16843010 }
{
    let wide = n as u64;
    let times_257 = wide + (wide << 8);
    times_257 + (times_257 << 16) + wide
}

// The one division by 255. 255 times 16,843,010 is 2^32 + 254, so that the product is 2^32 n / 255 and 254 n / 255 more, which reaches the
// next quotient first at 16,909,559. The largest number divided is a dot3 of equal corners, 3 times 255 times 255.
pub fn over_255(n: u32) -> u32
    requires { n ≤ 195075 }
    ensures { result ≡ n / 255 }
{
    (times_16843010(n) >> 32) as u32
}

pub fn to_byte(n: u32) -> u8
    ensures { result ≡ to_byte n }
{
    n.min(255) as u8
}

fn product(a: u8, b: u8) -> u32
    ensures { (result ≡ a * b) × (result ≤ 65025) }
{
    a as u32 * b as u32
}

pub fn modulate(a: u8, b: u8) -> u8
    ensures { result ≡ modulated a b }
{
    to_byte(over_255(product(a, b)))
}

pub fn add(a: u8, b: u8) -> u8
    ensures { result ≡ added a b }
{
    a.saturating_add(b)
}

pub fn add_signed(a: u8, b: u8) -> u8
    ensures { result ≡ added_signed a b }
{
    to_byte((a as u32 + b as u32).saturating_sub(128))
}

pub fn interpolate(a: u8, b: u8, c: u8) -> u8
    ensures { result ≡ interpolated a b c }
{
    to_byte(over_255(product(a, c) + product(b, 255 - c)))
}

pub fn subtract(a: u8, b: u8) -> u8
    ensures { result ≡ subtracted a b }
{
    a.saturating_sub(b)
}

pub fn multiply_add(a: u8, b: u8, c: u8) -> u8
    ensures { result ≡ multiplied_added a b c }
{
    to_byte(over_255(product(a, b) + 255 * c as u32))
}

pub fn add_multiply(a: u8, b: u8, c: u8) -> u8
    ensures { result ≡ added_multiplied a b c }
{
    modulate(add(a, b), c)
}

// Alpha by its mode, before its scale. a and b are the first two operands; the third, which its code names of a source, and the dot3 of
// the first two RGB operands, x and y, are worked out only where the mode asks for them.
#[tactic(auto, unfolding(crate::specs::Modes::combined))]
pub fn combine(mode: u32, a: u8, b: u8, code: u32, source: u32, x: u32, y: u32) -> u8
    ensures { result ≡ combined mode a b (alpha_operand code (colour_of source)) (dot_in x y) }
{
    match mode {
        0 => a,
        1 => modulate(a, b),
        2 => add(a, b),
        3 => add_signed(a, b),
        4 => interpolate(a, b, operands::alpha_operand(code, source)),
        5 => subtract(a, b),
        6 => dot::dot_words(x, y),
        7 => dot::dot_words(x, y),
        8 => multiply_add(a, b, operands::alpha_operand(code, source)),
        _ => add_multiply(a, b, operands::alpha_operand(code, source)),
    }
}

pub fn factor(scale: u32) -> u32
    ensures { (result ≡ factor_of scale) × (result ≤ 4) }
{
    match scale {
        1 => 2,
        2 => 4,
        _ => 1,
    }
}

pub fn times(x: u8, factor: u32) -> u8
    requires { factor ≤ 4 }
    ensures { result ≡ to_byte (x * factor) }
{
    to_byte(x as u32 * factor)
}
