// The decoded state: a record for each register that has several fields, and groups of them, by 004's names where it has one.
// A field of eight bits is a u8, any other a u32; the two signed fields of 68 are i32.

// 68, VIEWPORT_XY: signed, -512..511.
#[derive(Clone, Copy, Debug, PartialEq, Eq)]
pub struct Offset {
    pub x: i32,
    pub y: i32,
}

// 41-44, 68, by 004's names: 001 calls the first two vertical and the next two horizontal.
#[derive(Clone, Copy, Debug, PartialEq, Eq)]
pub struct Viewport {
    pub width: u32,
    pub invw: u32,
    pub height: u32,
    pub invh: u32,
    pub xy: Offset,
}

// 47-4B.
#[derive(Clone, Copy, Debug, PartialEq, Eq)]
pub struct Clip {
    pub enable: u32,
    pub data0: u32,
    pub data1: u32,
    pub data2: u32,
    pub data3: u32,
}

// 4D, 4E, 6D.
#[derive(Clone, Copy, Debug, PartialEq, Eq)]
pub struct Depthmap {
    pub scale: u32,
    pub offset: u32,
    pub enable: u32,
}

// 66 and 67, SCISSORTEST_POS and SCISSORTEST_DIM.
#[derive(Clone, Copy, Debug, PartialEq, Eq)]
pub struct Position {
    pub x: u32,
    pub y: u32,
}

// 65-67.
#[derive(Clone, Copy, Debug, PartialEq, Eq)]
pub struct Scissor {
    pub mode: u32,
    pub pos: Position,
    pub dim: Position,
}

// 40-44, 47-4B, 4D, 4E, 65-68, 6D.
#[derive(Clone, Copy, Debug, PartialEq, Eq)]
pub struct Rasteriser {
    pub culling: u32,
    pub viewport: Viewport,
    pub clip: Clip,
    pub depthmap: Depthmap,
    pub scissor: Scissor,
}

// A stage's register 0.
#[derive(Clone, Copy, Debug, PartialEq, Eq)]
pub struct Source {
    pub rgb0: u32,
    pub rgb1: u32,
    pub rgb2: u32,
    pub alpha0: u32,
    pub alpha1: u32,
    pub alpha2: u32,
}

// A stage's register 1.
#[derive(Clone, Copy, Debug, PartialEq, Eq)]
pub struct Operand {
    pub rgb0: u32,
    pub rgb1: u32,
    pub rgb2: u32,
    pub alpha0: u32,
    pub alpha1: u32,
    pub alpha2: u32,
}

// A stage's register 2: the combine modes.
#[derive(Clone, Copy, Debug, PartialEq, Eq)]
pub struct Combiner {
    pub rgb: u32,
    pub alpha: u32,
}

// A stage's register 3, FD and 103.
#[derive(Clone, Copy, Debug, PartialEq, Eq)]
pub struct Colour {
    pub red: u8,
    pub green: u8,
    pub blue: u8,
    pub alpha: u8,
}

// A stage's register 4.
#[derive(Clone, Copy, Debug, PartialEq, Eq)]
pub struct Scale {
    pub rgb: u32,
    pub alpha: u32,
}

#[derive(Clone, Copy, Debug, PartialEq, Eq)]
pub struct Stage {
    pub source: Source,
    pub operand: Operand,
    pub combiner: Combiner,
    pub colour: Colour,
    pub scale: Scale,
}

// C0-C4, C8-CC, D0-D4, D8-DC, F0-F4, F8-FC.
#[derive(Clone, Copy, Debug, PartialEq, Eq)]
pub struct Stages {
    pub stage0: Stage,
    pub stage1: Stage,
    pub stage2: Stage,
    pub stage3: Stage,
    pub stage4: Stage,
    pub stage5: Stage,
}

// E0: rgb1 to alpha4 are the buffer inputs of stages 1 to 4.
#[derive(Clone, Copy, Debug, PartialEq, Eq)]
pub struct UpdateBuffer {
    pub fog_mode: u32,
    pub density_source: u32,
    pub rgb1: u32,
    pub rgb2: u32,
    pub rgb3: u32,
    pub rgb4: u32,
    pub alpha1: u32,
    pub alpha2: u32,
    pub alpha3: u32,
    pub alpha4: u32,
    pub z_flip: u32,
    pub unknown: u32,
}

// E1.
#[derive(Clone, Copy, Debug, PartialEq, Eq)]
pub struct FogColour {
    pub red: u8,
    pub green: u8,
    pub blue: u8,
}

// E0, E1, E6, FD.
#[derive(Clone, Copy, Debug, PartialEq, Eq)]
pub struct BufferFog {
    pub update: UpdateBuffer,
    pub fog_colour: FogColour,
    pub fog_index: u32,
    pub buffer_colour: Colour,
}

// 100.
#[derive(Clone, Copy, Debug, PartialEq, Eq)]
pub struct ColourOperation {
    pub mode: u32,
    pub blend: u32,
    pub second_lines: u32,
    pub nothing: u32,
}

// 101.
#[derive(Clone, Copy, Debug, PartialEq, Eq)]
pub struct BlendFunction {
    pub rgb_equation: u32,
    pub alpha_equation: u32,
    pub rgb_source: u32,
    pub rgb_destination: u32,
    pub alpha_source: u32,
    pub alpha_destination: u32,
}

// 100-103.
#[derive(Clone, Copy, Debug, PartialEq, Eq)]
pub struct Blending {
    pub operation: ColourOperation,
    pub function: BlendFunction,
    pub logic_op: u32,
    pub colour: Colour,
}

// 104.
#[derive(Clone, Copy, Debug, PartialEq, Eq)]
pub struct AlphaTest {
    pub enable: u32,
    pub function: u32,
    pub reference: u8,
}

// 105.
#[derive(Clone, Copy, Debug, PartialEq, Eq)]
pub struct StencilTest {
    pub enable: u32,
    pub function: u32,
    pub buffer_mask: u8,
    pub reference: u8,
    pub mask: u8,
}

// 106: the operations.
#[derive(Clone, Copy, Debug, PartialEq, Eq)]
pub struct StencilOp {
    pub fail: u32,
    pub z_fail: u32,
    pub z_pass: u32,
}

// 107: the depth test, and what is written.
#[derive(Clone, Copy, Debug, PartialEq, Eq)]
pub struct DepthColourMask {
    pub enable: u32,
    pub function: u32,
    pub red: u32,
    pub green: u32,
    pub blue: u32,
    pub alpha: u32,
    pub depth: u32,
}

// 104-107.
#[derive(Clone, Copy, Debug, PartialEq, Eq)]
pub struct Tests {
    pub alpha: AlphaTest,
    pub stencil: StencilTest,
    pub stencil_op: StencilOp,
    pub depth: DepthColourMask,
}

// 114, 115.
#[derive(Clone, Copy, Debug, PartialEq, Eq)]
pub struct DepthAllowed {
    pub stencil: u32,
    pub depth: u32,
}

// 117.
#[derive(Clone, Copy, Debug, PartialEq, Eq)]
pub struct ColourFormat {
    pub size: u32,
    pub format: u32,
}

// 112-117.
#[derive(Clone, Copy, Debug, PartialEq, Eq)]
pub struct Buffers {
    pub colour_reading: u32,
    pub colour_writing: u32,
    pub depth_reading: DepthAllowed,
    pub depth_writing: DepthAllowed,
    pub depth_format: u32,
    pub colour_format: ColourFormat,
}

// 100-107, 112-117.
#[derive(Clone, Copy, Debug, PartialEq, Eq)]
pub struct Framebuffer {
    pub blending: Blending,
    pub tests: Tests,
    pub buffers: Buffers,
}

// 1C5.
#[derive(Clone, Copy, Debug, PartialEq, Eq)]
pub struct LightPort {
    pub index: u8,
    pub table: u32,
}

// The whole decoded state: 204 fields.
#[derive(Clone, Copy, Debug, PartialEq, Eq)]
pub struct Settings {
    pub rasteriser: Rasteriser,
    pub stages: Stages,
    pub buffer_fog: BufferFog,
    pub framebuffer: Framebuffer,
    pub light_port: LightPort,
}
