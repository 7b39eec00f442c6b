// The decoded state laid out as 204 words, one a field, in the order of the field table. The contracts cite settings' specs/Flat.antt.
#![tactic(auto)]

ghost use Rattle.std.specs.Prelude.{◌≡◌, ◌++◌, ◌+◌, ◌≤◌, length, take};
ghost use Rattle.settings.specs.Fields.{twos};
ghost use Rattle.settings.specs.Flat.{rasteriser_words, stage_words, fog_words, colour_words, blending_words, tests_words, buffers_words};
ghost use Rattle.settings.specs.Flat.{light_port_words, flat};
ghost use Rattle.flat.specs.Groups.{words_to_dc, words_to_fd, words_to_1c5};

use settings::records::{
    Blending, BufferFog, Buffers, Colour, Framebuffer, LightPort, Rasteriser, Settings, Stage,
    Stages, Tests,
};

// A signed number in two's complement.
fn twos_of(x: i32) -> u32
    ensures { result ≡ twos x }
{
    x.cast_unsigned()
}

fn rasteriser_words(r: Rasteriser) -> [u32; 20]
    ensures { result ≡ rasteriser_words r }
{
    let xy = r.viewport.xy;
    [
        r.culling,
        r.viewport.width,
        r.viewport.invw,
        r.viewport.height,
        r.viewport.invh,
        r.clip.enable,
        r.clip.data0,
        r.clip.data1,
        r.clip.data2,
        r.clip.data3,
        r.depthmap.scale,
        r.depthmap.offset,
        r.scissor.mode,
        r.scissor.pos.x,
        r.scissor.pos.y,
        r.scissor.dim.x,
        r.scissor.dim.y,
        twos_of(xy.x),
        twos_of(xy.y),
        r.depthmap.enable,
    ]
}

fn stage_words(s: Stage) -> [u32; 20]
    ensures { result ≡ stage_words s }
{
    let c = s.colour;
    [
        s.source.rgb0,
        s.source.rgb1,
        s.source.rgb2,
        s.source.alpha0,
        s.source.alpha1,
        s.source.alpha2,
        s.operand.rgb0,
        s.operand.rgb1,
        s.operand.rgb2,
        s.operand.alpha0,
        s.operand.alpha1,
        s.operand.alpha2,
        s.combiner.rgb,
        s.combiner.alpha,
        c.red as u32,
        c.green as u32,
        c.blue as u32,
        c.alpha as u32,
        s.scale.rgb,
        s.scale.alpha,
    ]
}

fn fog_words(b: BufferFog) -> [u32; 16]
    ensures { result ≡ fog_words b }
{
    [
        b.update.fog_mode,
        b.update.density_source,
        b.update.rgb1,
        b.update.rgb2,
        b.update.rgb3,
        b.update.rgb4,
        b.update.alpha1,
        b.update.alpha2,
        b.update.alpha3,
        b.update.alpha4,
        b.update.z_flip,
        b.update.unknown,
        b.fog_colour.red as u32,
        b.fog_colour.green as u32,
        b.fog_colour.blue as u32,
        b.fog_index,
    ]
}

fn colour_words(c: Colour) -> [u32; 4]
    ensures { result ≡ colour_words c }
{
    [c.red as u32, c.green as u32, c.blue as u32, c.alpha as u32]
}

fn blending_words(b: Blending) -> [u32; 15]
    ensures { result ≡ blending_words b }
{
    let c = b.colour;
    [
        b.operation.mode,
        b.operation.blend,
        b.operation.second_lines,
        b.operation.nothing,
        b.function.rgb_equation,
        b.function.alpha_equation,
        b.function.rgb_source,
        b.function.rgb_destination,
        b.function.alpha_source,
        b.function.alpha_destination,
        b.logic_op,
        c.red as u32,
        c.green as u32,
        c.blue as u32,
        c.alpha as u32,
    ]
}

fn tests_words(t: Tests) -> [u32; 18]
    ensures { result ≡ tests_words t }
{
    let stencil = t.stencil;
    [
        t.alpha.enable,
        t.alpha.function,
        t.alpha.reference as u32,
        stencil.enable,
        stencil.function,
        stencil.buffer_mask as u32,
        stencil.reference as u32,
        stencil.mask as u32,
        t.stencil_op.fail,
        t.stencil_op.z_fail,
        t.stencil_op.z_pass,
        t.depth.enable,
        t.depth.function,
        t.depth.red,
        t.depth.green,
        t.depth.blue,
        t.depth.alpha,
        t.depth.depth,
    ]
}

fn buffers_words(b: Buffers) -> [u32; 9]
    ensures { result ≡ buffers_words b }
{
    [
        b.colour_reading,
        b.colour_writing,
        b.depth_reading.stencil,
        b.depth_reading.depth,
        b.depth_writing.stencil,
        b.depth_writing.depth,
        b.depth_format,
        b.colour_format.size,
        b.colour_format.format,
    ]
}

fn light_port_words(l: LightPort) -> [u32; 2]
    ensures { result ≡ light_port_words l }
{
    [l.index as u32, l.table]
}

// The next words, behind the fields that are laid out already.
fn lay(fields: &mut [u32], at: usize, ws: &[u32])
    requires { at + length ws.now ≤ length fields.old }
    ensures { take (at + length ws.now) fields.new ≡ take at fields.old ++ ws.now }
{
    for (i, &word) in ws.iter().enumerate() {
        fields[at + i] = word;
    }
}

fn lay_stage(fields: &mut [u32], at: usize, s: Stage)
    requires { at + 20 ≤ length fields.old }
    ensures { take (at + 20) fields.new ≡ take at fields.old ++ stage_words s }
{
    let ws = stage_words(s);
    lay(fields, at, &ws);
}

// The fields of 40 to DC: the first 100.
fn lay_to_dc(fields: &mut [u32; 204], rasteriser: Rasteriser, stages: Stages)
    ensures { take 100 fields.new ≡ words_to_dc rasteriser stages }
{
    let ws = rasteriser_words(rasteriser);
    lay(fields, 0, &ws);
    lay_stage(fields, 20, stages.stage0);
    lay_stage(fields, 40, stages.stage1);
    lay_stage(fields, 60, stages.stage2);
    lay_stage(fields, 80, stages.stage3);
}

// Those of E0 to FD: the next 60.
fn lay_to_fd(fields: &mut [u32; 204], buffer: BufferFog, stages: Stages)
    ensures { take 160 fields.new ≡ take 100 fields.old ++ words_to_fd buffer stages }
{
    let fog = fog_words(buffer);
    lay(fields, 100, &fog);
    lay_stage(fields, 116, stages.stage4);
    lay_stage(fields, 136, stages.stage5);
    let colour = colour_words(buffer.buffer_colour);
    lay(fields, 156, &colour);
}

// Those of 100 to 1C5: the last 44.
fn lay_to_1c5(fields: &mut [u32; 204], framebuffer: Framebuffer, port: LightPort)
    ensures { take 204 fields.new ≡ take 160 fields.old ++ words_to_1c5 framebuffer port }
{
    let blending = blending_words(framebuffer.blending);
    lay(fields, 160, &blending);
    let tests = tests_words(framebuffer.tests);
    lay(fields, 175, &tests);
    let buffers = buffers_words(framebuffer.buffers);
    lay(fields, 193, &buffers);
    let last = light_port_words(port);
    lay(fields, 202, &last);
}

// Every field of the decoded state.
pub fn lay_settings(fields: &mut [u32; 204], s: Settings)
    ensures { fields.new ≡ flat s }
{
    let stages = s.stages;
    let buffer = s.buffer_fog;
    lay_to_dc(fields, s.rasteriser, stages);
    lay_to_fd(fields, buffer, stages);
    lay_to_1c5(fields, s.framebuffer, s.light_port);
}
