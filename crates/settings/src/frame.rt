// The framebuffer: 100-107, 112-117 of 003. The contracts cite specs/Framebuffer.antt.
ghost use Rattle.std.specs.Prelude.{◌≡◌, length};
ghost use Rattle.settings.specs.Ranges.{in_cells};
ghost use Rattle.settings.specs.Framebuffer.{blending_in, tests_in, buffers_in, framebuffer_in};

use crate::colours;
use crate::records::{
    AlphaTest, BlendFunction, Blending, Buffers, ColourFormat, ColourOperation, DepthAllowed,
    DepthColourMask, Framebuffer, StencilOp, StencilTest, Tests,
};

// 100-103.
#[tactic(auto, unfolding(crate::specs::Colours::colour_of))]
fn read_blending(cells: &[u32; 768]) -> Blending
    ensures { result ≡ blending_in (in_cells cells.now) }
{
    let operation = cells[0x100];
    let function = cells[0x101];
    let colour = cells[0x103];
    Blending {
        operation: ColourOperation {
            mode: operation % 4,
            blend: (operation >> 8) % 2,
            second_lines: (operation >> 24) % 2,
            nothing: (operation >> 25) % 2,
        },
        function: BlendFunction {
            rgb_equation: function % 8,
            alpha_equation: (function >> 8) % 8,
            rgb_source: (function >> 16) % 16,
            rgb_destination: (function >> 20) % 16,
            alpha_source: (function >> 24) % 16,
            alpha_destination: (function >> 28) % 16,
        },
        logic_op: cells[0x102] % 16,
        colour: colours::colour_of(colour),
    }
}

// 104-107.
fn read_tests(cells: &[u32; 768]) -> Tests
    ensures { result ≡ tests_in (in_cells cells.now) }
{
    let alpha = cells[0x104];
    let stencil = cells[0x105];
    let op = cells[0x106];
    let depth = cells[0x107];
    Tests {
        alpha: AlphaTest {
            enable: alpha % 2,
            function: (alpha >> 4) % 8,
            reference: ((alpha >> 8) % 256) as u8,
        },
        stencil: StencilTest {
            enable: stencil % 2,
            function: (stencil >> 4) % 8,
            buffer_mask: ((stencil >> 8) % 256) as u8,
            reference: ((stencil >> 16) % 256) as u8,
            mask: ((stencil >> 24) % 256) as u8,
        },
        stencil_op: StencilOp {
            fail: op % 8,
            z_fail: (op >> 4) % 8,
            z_pass: (op >> 8) % 8,
        },
        depth: DepthColourMask {
            enable: depth % 2,
            function: (depth >> 4) % 8,
            red: (depth >> 8) % 2,
            green: (depth >> 9) % 2,
            blue: (depth >> 10) % 2,
            alpha: (depth >> 11) % 2,
            depth: (depth >> 12) % 2,
        },
    }
}

// 112-117.
fn read_buffers(cells: &[u32; 768]) -> Buffers
    ensures { result ≡ buffers_in (in_cells cells.now) }
{
    let reading = cells[0x114];
    let writing = cells[0x115];
    let colour = cells[0x117];
    Buffers {
        colour_reading: cells[0x112] % 16,
        colour_writing: cells[0x113] % 16,
        depth_reading: DepthAllowed {
            stencil: reading % 2,
            depth: (reading >> 1) % 2,
        },
        depth_writing: DepthAllowed {
            stencil: writing % 2,
            depth: (writing >> 1) % 2,
        },
        depth_format: cells[0x116] % 4,
        colour_format: ColourFormat {
            size: colour % 4,
            format: (colour >> 16) % 8,
        },
    }
}

pub fn read_framebuffer(cells: &[u32; 768]) -> Framebuffer
    ensures { result ≡ framebuffer_in (in_cells cells.now) }
{
    Framebuffer {
        blending: read_blending(cells),
        tests: read_tests(cells),
        buffers: read_buffers(cells),
    }
}
