// The operands taken from a stage's sources, which are words. The contracts cite specs/Operands.antt and specs/Words.antt.
ghost use Rattle.std.specs.Prelude.{◌≡◌};
ghost use Rattle.combiner.specs.Operands.{one_minus, rgb_part, rgb_operand, alpha_part, alpha_operand};
ghost use Rattle.settings.specs.Colours.{colour_of};
ghost use Rattle.combiner.specs.Words.{rgb_in, rgb_parts, rgb_one_minus};

use crate::packed;

// The byte of a source that an RGB operand's code names, by a shift: the number has for each half code from 0 up the bit at which the
// byte begins, 24 for alpha, 0, 8, 16 for red, green, blue, and 32, past the word, where the code names none.
#[tactic(auto, using(crate::proofs::Parts::part_by_shift))]
fn byte_part(code: u32, x: u32) -> u8
    ensures { result ≡ rgb_part code (colour_of x) 0 }
{
    let first = (0x2010200820001820u64 >> (code / 2 % 8 * 8)) % 64;
    ((x as u64 >> first) % 256) as u8
}

// An even code and the odd one after it name the same part: the channels' own, or one byte of the source for all three.
#[tactic(auto, unfolding(settings::specs::Colours::colour_of))]
fn rgb_part(code: u32, x: u32) -> u32
    ensures { rgb_in result ≡ rgb_parts code (colour_of x) }
{
    if code / 2 % 8 == 0 {
        x
    } else {
        packed::grey(byte_part(code, x))
    }
}

// All three at once: no channel borrows from the next.
fn rgb_one_minus(code: u32, x: u32) -> u32
    ensures { rgb_in result ≡ rgb_one_minus code (rgb_in x) }
{
    if code % 2 == 1 { 0xFFFFFFFF - x } else { x }
}

pub fn rgb_operand(code: u32, x: u32) -> u32
    ensures { rgb_in result ≡ rgb_operand code (colour_of x) }
{
    rgb_one_minus(code, rgb_part(code, x))
}

// By a shift: alpha is at bit 24 and codes 2, 4, 6 are the bytes from bit 0 up.
#[tactic(auto, using(crate::proofs::Parts::alpha_by_shift))]
fn alpha_part(code: u32, x: u32) -> u8
    ensures { result ≡ alpha_part code (colour_of x) }
{
    ((x >> ((code / 2 % 4 * 8 + 24) % 32)) % 256) as u8
}

fn one_minus(code: u32, x: u8) -> u8
    ensures { result ≡ one_minus code x }
{
    if code % 2 == 1 { 255 - x } else { x }
}

pub fn alpha_operand(code: u32, x: u32) -> u8
    ensures { result ≡ alpha_operand code (colour_of x) }
{
    one_minus(code, alpha_part(code, x))
}
