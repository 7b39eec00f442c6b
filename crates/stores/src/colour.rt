// The colour that is stored. The contracts cite specs/Logic.antt and specs/Stores.antt.
ghost use Rattle.std.specs.Prelude.{◌≡◌, length};
ghost use Rattle.settings.specs.Ranges.{bits, in_cells};
ghost use Rattle.settings.specs.Framebuffer.{depth_in, framebuffer_in};
ghost use Rattle.numbers.specs.Pick.{pick};
ghost use Rattle.stores.specs.Logic.{logical, logical_colour};
ghost use Rattle.stores.specs.Stores.{colour_under, colour_after};

use crate::Verdict;
use settings::colours;
use settings::records::Colour;

#[tactic(auto, unfolding(crate::specs::Logic::results))]
fn logic(op: u32, s: u32, d: u32) -> u32
    ensures { result ≡ logical 0xFFFFFFFF op s d }
{
    let ones = 0xFFFFFFFF;
    let by_code = [
        0,
        s & d,
        s & (d ^ ones),
        s,
        ones,
        s ^ ones,
        d,
        d ^ ones,
        (s & d) ^ ones,
        s | d,
        (s | d) ^ ones,
        s ^ d,
        (s ^ d) ^ ones,
        (s ^ ones) & d,
        s | (d ^ ones),
        (s ^ ones) | d,
    ];
    by_code[(op % 16) as usize]
}

// The four channels at once, as words.
#[tactic(auto, using(crate::proofs::Channels::logic_channels))]
fn logic_colour(op: u32, s: Colour, d: Colour) -> Colour
    ensures { result ≡ logical_colour op s d }
{
    colours::colour_of(logic(op, colours::word_of(s), colours::word_of(d)))
}

fn keep_or(write: bool, new: u8, old: u8) -> u8
    ensures { result ≡ pick write new old }
{
    if write { new } else { old }
}

// writing is the word of 113, x that of 107.
fn colour_under(writing: u32, x: u32, new: Colour, old: Colour) -> Colour
    ensures { result ≡ colour_under (bits writing 0 3) (depth_in (bits x)) new old }
{
    let any = writing % 16 != 0;
    Colour {
        red: keep_or(any & ((x >> 8) % 2 == 1), new.red, old.red),
        green: keep_or(any & ((x >> 9) % 2 == 1), new.green, old.green),
        blue: keep_or(any & ((x >> 10) % 2 == 1), new.blue, old.blue),
        alpha: keep_or(any & ((x >> 11) % 2 == 1), new.alpha, old.alpha),
    }
}

// The colour that a verdict stores, by the registers of the cells.
#[tactic(auto, unfolding(crate::specs::Stores::colour_after))]
pub fn colour_after(cells: &[u32; 768], v: Verdict, res: Colour, stored: Colour) -> Colour
    ensures { result ≡ colour_after (framebuffer_in (in_cells cells.now)) v res stored }
{
    let op = cells[0x102];
    let channels = cells[0x107];
    let writing = cells[0x113];
    match v {
        Verdict::AlphaFails => stored,
        Verdict::StencilFails => stored,
        Verdict::DepthFails => stored,
        Verdict::Passes => {
            colour_under(
                writing,
                channels,
                logic_colour(op % 16, res, stored),
                stored,
            )
        }
    }
}
