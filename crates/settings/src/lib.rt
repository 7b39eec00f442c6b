// The settings: the fields of the 66 held registers as nested records, 204 in all, and how they are read from the cells. The contract of
// `read_settings` cites specs/Settings.antt.
#![tactic(auto)]

ghost use Rattle.std.specs.Prelude.{◌≡◌, length};
ghost use Rattle.settings.specs.Ranges.{bits, in_cells};
ghost use Rattle.settings.specs.Settings.{light_port_in, settings_in};

use crate::records::{LightPort, Settings};

pub mod colours;
mod frame;
mod raster;
pub mod records;
mod texenv;

// 1C5.
fn read_light_port(x: u32) -> LightPort
    ensures { result ≡ light_port_in (bits x) }
{
    LightPort {
        index: (x % 256) as u8,
        table: (x >> 8) % 32,
    }
}

// Every field of the cells, whatever codes they hold. For `decode` alone, which asks for their codes' names first.
#[tactic(auto, unfolding(crate::specs::Settings::settings_in))]
pub fn read_settings(cells: &[u32; 768]) -> Settings
    ensures { result ≡ settings_in (in_cells cells.now) }
{
    Settings {
        rasteriser: raster::read_rasteriser(cells),
        stages: texenv::read_stages(cells),
        buffer_fog: texenv::read_buffer_fog(cells),
        framebuffer: frame::read_framebuffer(cells),
        light_port: read_light_port(cells[0x1C5]),
    }
}
