// The stencil that is stored. The contracts cite specs/Stencil.antt and specs/Stores.antt.
ghost use Rattle.std.specs.Prelude.{◌≡◌, ◌+◌, ◌-◌, min, length};
ghost use Rattle.settings.specs.Ranges.{in_cells};
ghost use Rattle.settings.specs.Framebuffer.{framebuffer_in};
ghost use Rattle.stores.specs.Stencil.{operated, masked};
ghost use Rattle.stores.specs.Stores.{stencil_by, stencil_after};

use crate::{Verdict, tests};

fn operate(op: u32, stored: u8, reference: u8) -> u8
    ensures { result ≡ operated op stored reference }
{
    let by_code = [
        stored,
        0,
        reference,
        stored.saturating_add(1),
        stored.saturating_sub(1),
        255 - stored,
        stored.wrapping_add(1),
        stored.wrapping_sub(1),
    ];
    by_code[(op % 8) as usize]
}

// Only bits of the mask change.
fn put_under(mask: u8, stored: u8, new: u8) -> u8
    ensures { result ≡ masked mask stored new }
{
    (stored & !mask) | (new & mask)
}

fn stencil_by(cells: &[u32; 768], op: u32, stored: u8) -> u8
    ensures { result ≡ stencil_by (framebuffer_in (in_cells cells.now)) op stored }
{
    let test = cells[0x105];
    let writing = cells[0x115];
    let format = cells[0x116];
    if tests::stencil_active(test, format) & (writing % 2 == 1) {
        put_under(
            ((test >> 8) % 256) as u8,
            stored,
            operate(op, stored, ((test >> 16) % 256) as u8),
        )
    } else {
        stored
    }
}

#[tactic(auto, unfolding(crate::specs::Stores::stencil_after))]
pub fn stencil_after(cells: &[u32; 768], v: Verdict, stored: u8) -> u8
    ensures { result ≡ stencil_after (framebuffer_in (in_cells cells.now)) v stored }
{
    let op = cells[0x106];
    match v {
        Verdict::AlphaFails => stored,
        Verdict::StencilFails => stencil_by(cells, op % 8, stored),
        Verdict::DepthFails => stencil_by(cells, (op >> 4) % 8, stored),
        Verdict::Passes => stencil_by(cells, (op >> 8) % 8, stored),
    }
}
