// The combiner: six stages, each of which may read what the stages before it gave. The contract of `combine` cites specs/Words.antt:
// the result of specs/Chain.antt, by the registers of the cells. Nothing is decoded first: each register is read where it is used. The
// sixteen colours that a source code can name are kept as words in one array, in which a stage changes at most three; specs/Words.antt says
// how words and array stand for the document's colours.
#![tactic(auto)]

ghost use Rattle.std.specs.Prelude.{◌≡◌, ◌<◌, length, get_or};
ghost use Rattle.settings.specs.Ranges.{in_cells};
ghost use Rattle.settings.specs.Stages.{stage_in};
ghost use Rattle.combiner.specs.Operands.{black, by_code};
ghost use Rattle.combiner.specs.Chain.{at_first, buffer_after};
ghost use Rattle.settings.specs.Colours.{colour_of};
ghost use Rattle.combiner.specs.Words.{colours, table_after, table_by, combiner_by};

use settings::colours;
use settings::records::Colour;

mod dot;
mod mix;
mod modes;
mod operands;
mod packed;
mod stage;

// The colours that are given with a fragment.
#[derive(Clone, Copy, Debug, PartialEq, Eq)]
pub struct Given {
    pub primary: Colour,
    pub fragment_primary: Colour,
    pub fragment_secondary: Colour,
    pub texture0: Colour,
    pub texture1: Colour,
    pub texture2: Colour,
    pub texture3: Colour,
}

// The buffer that the next stage sees; rgb and alpha are this stage's bits of E0.
#[tactic(auto, using(crate::proofs::Mixed::picked_buffer))]
fn buffer_after(rgb: u32, alpha: u32, previous: u32, buffer: u32) -> u32
    ensures { colour_of result ≡ buffer_after rgb alpha (record { previous = colour_of previous; buffer = colour_of buffer }) }
{
    packed::join_alpha(
        packed::choose(rgb == 1, previous, buffer),
        packed::choose(alpha == 1, previous, buffer),
    )
}

// The stage whose source register is b, by its bits of E0: its constant, its result and the next stage's buffer go into the table.
fn step(cells: &[u32; 768], b: u8, rgb: u32, alpha: u32, table: &mut [u32; 16])
    ensures { colours table.new ≡ table_after (stage_in (in_cells cells.now) b) rgb alpha (colours table.old) }
{
    let previous = table[15];
    let buffer = table[13];
    table[14] = cells[b as usize + 3];
    let result = stage::result(cells, b, table);
    table[13] = buffer_after(rgb, alpha, previous, buffer);
    table[15] = result;
}

// Stage 0, as `step` would. E0 has no bit for it, so the buffer stays; and it isn't looked at for being idle: an idle stage 0 hands on
// zero, which running it gives too.
fn first_step(cells: &[u32; 768], table: &mut [u32; 16])
    ensures { colours table.new ≡ table_after (stage_in (in_cells cells.now) 0xC0) 0 0 (colours table.old) }
{
    table[14] = cells[0xC3];
    table[15] = stage::run_stage(cells, 0xC0, table);
}

// All six, in order; E0 has no bit for stages 0 and 5.
#[tactic(auto, unfolding(crate::specs::Words::table_at_last))]
fn run_stages(cells: &[u32; 768], table: &mut [u32; 16])
    ensures { colours table.new ≡ table_by cells.now (colours table.old) }
{
    let update = cells[0xE0];
    first_step(cells, table);
    step(cells, 0xC8, (update >> 8) % 2, (update >> 12) % 2, table);
    step(cells, 0xD0, (update >> 9) % 2, (update >> 13) % 2, table);
    step(cells, 0xD8, (update >> 10) % 2, (update >> 14) % 2, table);
    step(cells, 0xF0, (update >> 11) % 2, (update >> 15) % 2, table);
    step(cells, 0xF8, 0, 0, table);
}

// The table before stage 0, which sees zero as Previous and the buffer, FD, as Previous buffer.
#[tactic(auto, unfolding(settings::specs::Colours::colour_of))]
fn first_table(g: Given, buffer: u32) -> [u32; 16]
    ensures { colours result ≡ by_code g black (at_first (colour_of buffer)) }
{
    let primary = g.primary;
    let fragment_primary = g.fragment_primary;
    let fragment_secondary = g.fragment_secondary;
    let texture0 = g.texture0;
    let texture1 = g.texture1;
    let texture2 = g.texture2;
    let texture3 = g.texture3;
    let constant = 0;
    let previous = 0;
    [
        colours::word_of(primary),
        colours::word_of(fragment_primary),
        colours::word_of(fragment_secondary),
        colours::word_of(texture0),
        colours::word_of(texture1),
        colours::word_of(texture2),
        colours::word_of(texture3),
        0,
        0,
        0,
        0,
        0,
        0,
        buffer,
        constant,
        previous,
    ]
}

// What stands in the table as Previous.
fn previous_in(table: &[u32; 16]) -> Colour
    ensures { result ≡ get_or (colours table.now) 15 black }
{
    colours::colour_of(table[15])
}

// The combiner's result for the colours given with a fragment, by the registers of the cells.
pub fn combine(cells: &[u32; 768], g: Given) -> Colour
    ensures { result ≡ combiner_by cells.now g }
{
    let mut table = first_table(g, cells[0xFD]);
    run_stages(cells, &mut table);
    previous_in(&table)
}
