// The verdict of the three tests on one fragment, and what it stores. The contracts cite specs/Stores.antt, by the registers of the cells.
#![tactic(auto)]

ghost use Rattle.std.specs.Prelude.{◌≡◌, length};
ghost use Rattle.settings.specs.Ranges.{in_cells};
ghost use Rattle.settings.specs.Framebuffer.{framebuffer_in};
ghost use Rattle.stores.specs.Stores.{depth_after, judged_of};

use settings::records::Colour;

pub mod colour;
mod stencil;
mod tests;

#[derive(Clone, Copy, Debug, PartialEq, Eq)]
pub enum Verdict {
    AlphaFails = 0,
    StencilFails = 1,
    DepthFails = 2,
    Passes = 3,
}

#[derive(Clone, Copy, Debug, PartialEq, Eq)]
pub struct Stored {
    pub colour: Colour,
    pub stencil: u8,
    pub depth: u32,
}

// The verdict, and the stencil and depth that are then stored.
#[derive(Clone, Copy, Debug, PartialEq, Eq)]
pub struct Judged {
    pub verdict: Verdict,
    pub stencil: u8,
    pub depth: u32,
}

#[tactic(auto, unfolding(crate::specs::Stores::depth_after))]
fn depth_after(cells: &[u32; 768], v: Verdict, incoming: u32, stored: u32) -> u32
    ensures { result ≡ depth_after (framebuffer_in (in_cells cells.now)) v incoming stored }
{
    let test = cells[0x107];
    let writing = cells[0x115];
    match v {
        Verdict::AlphaFails => stored,
        Verdict::StencilFails => stored,
        Verdict::DepthFails => stored,
        Verdict::Passes => {
            if (test % 2 == 1) & ((test >> 12) % 2 == 1) & ((writing >> 1) % 2 == 1) {
                incoming
            } else {
                stored
            }
        }
    }
}

// By the registers of the cells, from the result's alpha, the incoming depth, and the stored stencil and depth; the colour goes by the
// verdict, `colour::colour_after`.
#[tactic(auto, unfolding(crate::specs::Stores::judged_of))]
pub fn judge(cells: &[u32; 768], alpha: u8, incoming: u32, stencil: u8, depth: u32) -> Judged
    ensures { result ≡ judged_of (framebuffer_in (in_cells cells.now)) alpha incoming stencil depth }
{
    let verdict = tests::find_verdict(cells, alpha, incoming, stencil, depth);
    Judged {
        verdict,
        stencil: stencil::stencil_after(cells, verdict, stencil),
        depth: depth_after(cells, verdict, incoming, depth),
    }
}
