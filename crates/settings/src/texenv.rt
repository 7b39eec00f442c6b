// The six stages, and the buffer and fog: C0-DC, E0, E1, E6, F0-FD of 002. The contracts cite specs/Stages.antt.
ghost use Rattle.std.specs.Prelude.{◌≡◌, ◌<◌, length};
ghost use Rattle.settings.specs.Ranges.{in_cells};
ghost use Rattle.settings.specs.Stages.{stage_in, stages_in, buffer_fog_in};

use crate::colours;
use crate::records::{
    BufferFog, Combiner, FogColour, Operand, Scale, Source, Stage, Stages, UpdateBuffer,
};

// The stage whose source register is b.
#[tactic(auto, unfolding(crate::specs::Colours::colour_of))]
fn read_stage(cells: &[u32; 768], b: u8) -> Stage
    ensures { result ≡ stage_in (in_cells cells.now) b }
{
    let at = b as usize;
    let source = cells[at];
    let operand = cells[at + 1];
    let combiner = cells[at + 2];
    let colour = cells[at + 3];
    let scale = cells[at + 4];
    Stage {
        source: Source {
            rgb0: source % 16,
            rgb1: (source >> 4) % 16,
            rgb2: (source >> 8) % 16,
            alpha0: (source >> 16) % 16,
            alpha1: (source >> 20) % 16,
            alpha2: (source >> 24) % 16,
        },
        operand: Operand {
            rgb0: operand % 16,
            rgb1: (operand >> 4) % 16,
            rgb2: (operand >> 8) % 16,
            alpha0: (operand >> 12) % 8,
            alpha1: (operand >> 16) % 8,
            alpha2: (operand >> 20) % 8,
        },
        combiner: Combiner {
            rgb: combiner % 16,
            alpha: (combiner >> 16) % 16,
        },
        colour: colours::colour_of(colour),
        scale: Scale {
            rgb: scale % 4,
            alpha: (scale >> 16) % 4,
        },
    }
}

pub fn read_stages(cells: &[u32; 768]) -> Stages
    ensures { result ≡ stages_in (in_cells cells.now) }
{
    Stages {
        stage0: read_stage(cells, 0xC0),
        stage1: read_stage(cells, 0xC8),
        stage2: read_stage(cells, 0xD0),
        stage3: read_stage(cells, 0xD8),
        stage4: read_stage(cells, 0xF0),
        stage5: read_stage(cells, 0xF8),
    }
}

// E0, E1, E6, FD.
#[tactic(auto, unfolding(crate::specs::Colours::colour_of))]
pub fn read_buffer_fog(cells: &[u32; 768]) -> BufferFog
    ensures { result ≡ buffer_fog_in (in_cells cells.now) }
{
    let update = cells[0xE0];
    let fog = cells[0xE1];
    let buffer = cells[0xFD];
    BufferFog {
        update: UpdateBuffer {
            fog_mode: update % 8,
            density_source: (update >> 3) % 2,
            rgb1: (update >> 8) % 2,
            rgb2: (update >> 9) % 2,
            rgb3: (update >> 10) % 2,
            rgb4: (update >> 11) % 2,
            alpha1: (update >> 12) % 2,
            alpha2: (update >> 13) % 2,
            alpha3: (update >> 14) % 2,
            alpha4: (update >> 15) % 2,
            z_flip: (update >> 16) % 2,
            unknown: (update >> 24) % 4,
        },
        fog_colour: FogColour {
            red: (fog % 256) as u8,
            green: ((fog >> 8) % 256) as u8,
            blue: ((fog >> 16) % 256) as u8,
        },
        fog_index: cells[0xE6] % 128,
        buffer_colour: colours::colour_of(buffer),
    }
}
