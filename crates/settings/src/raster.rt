// The rasteriser: 40-44, 47-4B, 4D, 4E, 65-68, 6D of 001. The contracts cite specs/Rasteriser.antt.
ghost use Rattle.std.specs.Prelude.{◌≡◌, ◌<◌, length};
ghost use Rattle.settings.specs.Ranges.{bits, in_cells, signed};
ghost use Rattle.settings.specs.Rasteriser.{offset_in, viewport_in, clip_in, depthmap_in, scissor_in, rasteriser_in};

use crate::records::{Clip, Depthmap, Offset, Position, Rasteriser, Scissor, Viewport};

// A number of ten bits read as signed.
fn signed_ten(x: u32) -> i32
    requires { x < 1024 }
    ensures { result ≡ signed 10 x }
{
    if x < 512 { x as i32 } else { x as i32 - 1024 }
}

// Register 68.
fn read_offset(x: u32) -> Offset
    ensures { result ≡ offset_in (bits x) }
{
    Offset {
        x: signed_ten(x % 1024),
        y: signed_ten((x >> 16) % 1024),
    }
}

// A register whose whole word is one field.
fn whole(x: u32) -> u32
    ensures { result ≡ bits x 0 31 }
{
    x
}

fn read_viewport(cells: &[u32; 768]) -> Viewport
    ensures { result ≡ viewport_in (in_cells cells.now) }
{
    let width = cells[0x41] % 0x1000000;
    let height = cells[0x43] % 0x1000000;
    Viewport {
        width,
        invw: whole(cells[0x42]),
        height,
        invh: whole(cells[0x44]),
        xy: read_offset(cells[0x68]),
    }
}

fn read_clip(cells: &[u32; 768]) -> Clip
    ensures { result ≡ clip_in (in_cells cells.now) }
{
    Clip {
        enable: cells[0x47] % 2,
        data0: cells[0x48] % 0x1000000,
        data1: cells[0x49] % 0x1000000,
        data2: cells[0x4A] % 0x1000000,
        data3: cells[0x4B] % 0x1000000,
    }
}

fn read_depthmap(cells: &[u32; 768]) -> Depthmap
    ensures { result ≡ depthmap_in (in_cells cells.now) }
{
    Depthmap {
        scale: cells[0x4D] % 0x1000000,
        offset: cells[0x4E] % 0x1000000,
        enable: cells[0x6D] % 2,
    }
}

fn read_scissor(cells: &[u32; 768]) -> Scissor
    ensures { result ≡ scissor_in (in_cells cells.now) }
{
    let pos = cells[0x66];
    let dim = cells[0x67];
    Scissor {
        mode: cells[0x65] % 4,
        pos: Position {
            x: pos % 1024,
            y: (pos >> 16) % 1024,
        },
        dim: Position {
            x: dim % 1024,
            y: (dim >> 16) % 1024,
        },
    }
}

pub fn read_rasteriser(cells: &[u32; 768]) -> Rasteriser
    ensures { result ≡ rasteriser_in (in_cells cells.now) }
{
    Rasteriser {
        culling: cells[0x40] % 4,
        viewport: read_viewport(cells),
        clip: read_clip(cells),
        depthmap: read_depthmap(cells),
        scissor: read_scissor(cells),
    }
}
