// One stage of the combiner, on a table of the sixteen colours by code, as words. The contracts cite specs/Stage.antt and specs/Words.antt.
ghost use Rattle.std.specs.Prelude.{◌≡◌, ◌<◌, eqb};
ghost use Rattle.numbers.specs.Pick.{pick};
ghost use Rattle.settings.specs.Ranges.{bits};
ghost use Rattle.combiner.specs.Modes.{scaled};
ghost use Rattle.combiner.specs.Stage.{joined};
ghost use Rattle.settings.specs.Colours.{colour_of};
ghost use Rattle.combiner.specs.Words.{rgb_in, dot_in, rgb_scaled, words_in, stage_from, stage_by, idle, colours, alpha_from, from_table};

use crate::{mix, modes, operands};

// The words of a stage's registers but its constant's, which stands in the table.
#[derive(Clone, Copy, Debug, PartialEq, Eq)]
struct StageWords {
    source: u32,
    operand: u32,
    combiner: u32,
    scale: u32,
}

// Of the stage whose source register is b.
fn words_at(cells: &[u32; 768], b: u8) -> StageWords
    ensures { result ≡ words_in cells.now b }
{
    let at = b as usize;
    StageWords {
        source: cells[at],
        operand: cells[at + 1],
        combiner: cells[at + 2],
        scale: cells[at + 4],
    }
}

impl StageWords {
    // The alpha mode's result. x and y are the stage's first two RGB operands.
    fn own_alpha(self, table: &[u32; 16], x: u32, y: u32) -> u8
        ensures { result ≡ alpha_from table.now self.source self.operand (bits self.combiner 16 19) (dot_in x y) }
    {
        let source = self.source;
        let operand = self.operand;
        let alpha0 = table[((source >> 16) % 16) as usize];
        let alpha1 = table[((source >> 20) % 16) as usize];
        let alpha2 = table[((source >> 24) % 16) as usize];
        let a = operands::alpha_operand((operand >> 12) % 8, alpha0);
        let b = operands::alpha_operand((operand >> 16) % 8, alpha1);
        modes::combine(
            (self.combiner >> 16) % 16,
            a,
            b,
            (operand >> 20) % 8,
            alpha2,
            x,
            y,
        )
    }

    // Before its scale. Dot3 RGBA puts its result, which is then mixed's red, in alpha too, and the alpha mode isn't read.
    fn mix_alpha(self, table: &[u32; 16], x: u32, y: u32, mixed: u32) -> u8
        ensures { result ≡ pick (eqb (bits self.combiner 0 3) 7) (rgb_in mixed).red
            (alpha_from table.now self.source self.operand (bits self.combiner 16 19) (dot_in x y)) }
    {
        if self.combiner % 16 == 7 {
            (mixed % 256) as u8
        } else {
            self.own_alpha(table, x, y)
        }
    }

    // The scales, and RGB and alpha in one word.
    #[tactic(auto, using(crate::proofs::Parts::joined_back, crate::proofs::Mixed::same_joined))]
    fn finish(self, mixed: u32, alpha: u8) -> u32
        ensures { colour_of result ≡ joined (rgb_scaled (bits self.scale 0 1) (rgb_in mixed)) (scaled (bits self.scale 16 17) alpha) }
    {
        let low = mix::scale_rgb(self.scale % 4, mixed);
        let high = modes::times(alpha, modes::factor((self.scale >> 16) % 4));
        low + high as u32 * 0x1000000
    }

    // The stage's result, every part of it.
    fn run(self, table: &[u32; 16]) -> u32
        ensures { colour_of result ≡ from_table (stage_from self.source self.operand self.combiner self.scale) (colours table.now) }
    {
        let source = self.source;
        let operand = self.operand;
        let rgb0 = table[(source % 16) as usize];
        let rgb1 = table[((source >> 4) % 16) as usize];
        let rgb2 = table[((source >> 8) % 16) as usize];
        let x = operands::rgb_operand(operand % 16, rgb0);
        let y = operands::rgb_operand((operand >> 4) % 16, rgb1);
        let mixed = mix::mix_rgb(self.combiner % 16, x, y, (operand >> 8) % 16, rgb2);
        let alpha = self.mix_alpha(table, x, y, mixed);
        self.finish(mixed, alpha)
    }

    // Previous is handed on as it is: what a state sets in a stage that it doesn't use.
    fn is_idle(self) -> bool
        ensures { result ≡ idle (stage_from self.source self.operand self.combiner self.scale) }
    {
        (self.source % 16 == 15)
            & ((self.source >> 16) % 16 == 15)
            & ((self.operand % 16 == 0) & ((self.operand >> 12) % 8 == 0))
            & ((self.combiner % 16 == 0) & ((self.combiner >> 16) % 16 == 0))
            & ((self.scale % 4 == 0) & ((self.scale >> 16) % 4 == 0))
    }
}

// The result of the stage whose source register is b, every part of it. The cells are handed on, and not the four words: they are read
// where they are used.
pub fn run_stage(cells: &[u32; 768], b: u8, table: &[u32; 16]) -> u32
    ensures { colour_of result ≡ from_table (stage_by cells.now b) (colours table.now) }
{
    words_at(cells, b).run(table)
}

// The same, where an idle stage is passed over.
pub fn result(cells: &[u32; 768], b: u8, table: &[u32; 16]) -> u32
    ensures { colour_of result ≡ from_table (stage_by cells.now b) (colours table.now) }
{
    if words_at(cells, b).is_idle() {
        table[15]
    } else {
        run_stage(cells, b, table)
    }
}
