// Dot3: a signed total over red, green and blue, clamped at zero. The contracts cite specs/Dot.antt.
ghost use Rattle.std.specs.Prelude.{◌≡◌, ◌≤◌, nat_abs, ◌*ℤ◌};
ghost use Rattle.combiner.specs.Dot.{centred, at_least_zero, clamped, dot3_of};
ghost use Rattle.combiner.specs.Words.{dot_in};

use crate::{modes, packed};

#[derive(Clone, Copy, Debug, PartialEq, Eq)]
pub struct Rgb {
    pub red: u8,
    pub green: u8,
    pub blue: u8,
}

fn centre(a: u8) -> i32
    ensures { (result ≡ centred a) × (nat_abs result ≤ 255) }
{
    2 * (a as i32) - 255
}

fn term(a: u8, b: u8) -> i32
    ensures { (result ≡ centred a *ℤ centred b) × (nat_abs result ≤ 65025) }
{
    centre(a) * centre(b)
}

#[tactic(auto, using(crate::proofs::Clamped::max_zero, crate::proofs::Clamped::at_most_abs))]
fn at_least_zero(total: i32) -> u32
    requires { nat_abs total ≤ 195075 }
    ensures { (result ≡ at_least_zero total) × (result ≤ 195075) }
{
    total.max(0).unsigned_abs()
}

// The total is held to zero before it is divided: the division is of numbers that are not negative.
fn clamp(total: i32) -> u8
    requires { nat_abs total ≤ 195075 }
    ensures { result ≡ clamped total }
{
    modes::to_byte(modes::over_255(at_least_zero(total)))
}

fn dot3(a: Rgb, b: Rgb) -> u8
    ensures { result ≡ dot3_of a b }
{
    clamp(term(a.red, b.red) + term(a.green, b.green) + term(a.blue, b.blue))
}

// Of the red, green and blue of two words.
pub fn dot_words(a: u32, b: u32) -> u8
    ensures { result ≡ dot_in a b }
{
    dot3(packed::rgb_of(a), packed::rgb_of(b))
}
