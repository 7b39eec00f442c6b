// Codes without a name: a test for each kind of register, and the lowest id that holds one. The contracts cite specs/Codes.antt. Nearly
// every state passes all tests, so that they are joined in one word without a branch, and the lowest id is looked for only where it isn't
// 0.
ghost use Rattle.std.specs.Prelude.{◌≡◌, not, ◌||◌, eqb, ◌<◌, length};
ghost use Rattle.numbers.specs.Pick.{pick};
ghost use Rattle.settings.specs.Ranges.{bits, in_cells};
ghost use Rattle.settings.specs.Stages.{source_in, operand_in, combiner_in, scale_in, stage_in, update_in};
ghost use Rattle.settings.specs.Framebuffer.{operation_in, function_in, format_in, framebuffer_in};
ghost use Rattle.settings.specs.Settings.{settings_in};
ghost use Rattle.decode.specs.Codes.{source_lacks, operand_lacks, combiner_lacks, scale_lacks, update_lacks};
ghost use Rattle.decode.specs.Codes.{operation_lacks, function_lacks, no_depth_format, format_lacks};
ghost use Rattle.decode.specs.Codes.{stage_checks, frame_checks, checks, first_of, lowest, any_of, any_lacks};

// A REGISTER'S CODES. Those of sources, operands and scales are tested all at once, and those of two stages in one word of 64 bits: of each
// code's bits a, b, c, d (a scale has a and b), from bit 0 up, bit 0 is left where the code lacks a name, so that the word is 0 where all
// have one.

// Left for 7..Ch: where d differs from c AND (a OR b), and d OR (a AND b).
#[tactic(auto, using(crate::proofs::Bitwise::source_codes))]
fn sources_lack(x: u32, y: u32) -> u64
    ensures { not (eqb result 0) ≡ (source_lacks (source_in (bits x)) || source_lacks (source_in (bits y))) }
{
    let w = x as u64 + y as u64 * 0x100000000;
    (((w >> 3) ^ ((w >> 2) & ((w >> 1) | w))) & ((w >> 3) | ((w >> 1) & w))) & 0x111011101110111
}

fn source_lacks(x: u32) -> bool
    ensures { result ≡ source_lacks (source_in (bits x)) }
{
    sources_lack(x, 0) != 0
}

// Left for 6, 7, Ah, Bh, Eh, Fh: b AND (c OR d). Every alpha operand has a name.
#[tactic(auto, using(crate::proofs::Bitwise::operand_codes))]
fn operands_lack(x: u32, y: u32) -> u64
    ensures { not (eqb result 0) ≡ (operand_lacks (operand_in (bits x)) || operand_lacks (operand_in (bits y))) }
{
    let w = x as u64 + y as u64 * 0x100000000;
    ((w >> 1) & ((w >> 2) | (w >> 3))) & 0x11100000111
}

fn operand_lacks(x: u32) -> bool
    ensures { result ≡ operand_lacks (operand_in (bits x)) }
{
    operands_lack(x, 0) != 0
}

// An alpha mode 6 or 7 has a name where the RGB mode is 7.
fn combiner_lacks(x: u32) -> bool
    ensures { result ≡ combiner_lacks (combiner_in (bits x)) }
{
    let rgb = x % 16;
    let alpha = (x >> 16) % 16;
    (9 < rgb) | ((9 < alpha) | (6 <= alpha) & (alpha <= 7) & (rgb != 7))
}

// Left for 3: a AND b.
#[tactic(auto, using(crate::proofs::Bitwise::scale_codes))]
fn scales_lack(x: u32, y: u32) -> u64
    ensures { not (eqb result 0) ≡ (scale_lacks (scale_in (bits x)) || scale_lacks (scale_in (bits y))) }
{
    let w = x as u64 + y as u64 * 0x100000000;
    (w & (w >> 1)) & 0x1000100010001
}

fn scale_lacks(x: u32) -> bool
    ensures { result ≡ scale_lacks (scale_in (bits x)) }
{
    scales_lack(x, 0) != 0
}

fn update_lacks(x: u32) -> bool
    ensures { result ≡ update_lacks (update_in (bits x)) }
{
    let mode = x % 8;
    !((mode == 0) | (mode == 5) | (mode == 7))
}

fn operation_lacks(x: u32) -> bool
    ensures { result ≡ operation_lacks (operation_in (bits x)) }
{
    x % 4 == 2
}

fn function_lacks(x: u32) -> bool
    ensures { result ≡ function_lacks (function_in (bits x)) }
{
    ((x >> 16) % 16 == 0xF)
        | ((x >> 20) % 16 == 0xF)
        | ((x >> 24) % 16 == 0xF)
        | ((x >> 28) % 16 == 0xF)
}

fn depth_format_lacks(x: u32) -> bool
    ensures { result ≡ no_depth_format (bits x 0 1) }
{
    x % 4 == 1
}

fn format_lacks(x: u32) -> bool
    ensures { result ≡ format_lacks (format_in (bits x)) }
{
    let size = x % 4;
    let format = (x >> 16) % 8;
    (size == 1) | (size == 3) | ((format == 1) | (5 <= format) & (format <= 7))
}

// THE LOWEST ID, from the highest register down.

// The id where its register lacks a name, else the rest.
fn first_of(lacks: bool, id: usize, rest: usize) -> usize
    ensures { result ≡ pick lacks id rest }
{
    if lacks { id } else { rest }
}

// The first id of the stage whose source register is b, else the rest.
#[tactic(auto, unfolding(crate::specs::Codes::stage_checks, crate::specs::Codes::first_of))]
fn stage_first(cells: &[u32; 768], b: u8, rest: usize) -> usize
    ensures { result ≡ first_of (stage_checks b (stage_in (in_cells cells.now) b)) rest }
{
    let id = b as usize;
    let source = cells[id];
    let operand = cells[id + 1];
    let combiner = cells[id + 2];
    let scale = cells[id + 4];
    let last = first_of(scale_lacks(scale), id + 4, rest);
    let third = first_of(combiner_lacks(combiner), id + 2, last);
    let second = first_of(operand_lacks(operand), id + 1, third);
    first_of(source_lacks(source), id, second)
}

// The first of 100, 101, 116, 117; 0 for none.
#[tactic(auto, unfolding(crate::specs::Codes::frame_checks, crate::specs::Codes::first_of))]
fn frame_first(cells: &[u32; 768]) -> usize
    ensures { result ≡ first_of (frame_checks (framebuffer_in (in_cells cells.now))) 0 }
{
    let operation = cells[0x100];
    let function = cells[0x101];
    let depth_format = cells[0x116];
    let format = cells[0x117];
    let last = first_of(format_lacks(format), 0x117, 0);
    let third = first_of(depth_format_lacks(depth_format), 0x116, last);
    let second = first_of(function_lacks(function), 0x101, third);
    first_of(operation_lacks(operation), 0x100, second)
}

// The lowest id of all; 0 for none.
#[tactic(auto, using(crate::proofs::First::lowest_checks), unfolding(settings::specs::Settings::settings_in))]
pub fn lowest_id(cells: &[u32; 768]) -> usize
    ensures { result ≡ lowest (checks (settings_in (in_cells cells.now))) }
{
    let update = cells[0xE0];
    let frame = frame_first(cells);
    let stage5 = stage_first(cells, 0xF8, frame);
    let stage4 = stage_first(cells, 0xF0, stage5);
    let fog = first_of(update_lacks(update), 0xE0, stage4);
    let stage3 = stage_first(cells, 0xD8, fog);
    let stage2 = stage_first(cells, 0xD0, stage3);
    let stage1 = stage_first(cells, 0xC8, stage2);
    stage_first(cells, 0xC0, stage1)
}

// THE QUICK TEST

// Not 0 where a name is lacking.
fn bits_of(lacks: bool) -> u64
    ensures { not (eqb result 0) ≡ lacks }
{
    u64::from(lacks)
}

fn modes_lack(x: u32, y: u32) -> u64
    ensures { not (eqb result 0) ≡ (combiner_lacks (combiner_in (bits x)) || combiner_lacks (combiner_in (bits y))) }
{
    bits_of(combiner_lacks(x) | combiner_lacks(y))
}

// Not 0 where one of the two stages whose source registers are a and b holds a code without a name, or the rest isn't 0.
#[tactic(auto, using(crate::proofs::First::any_two, crate::proofs::Bitwise::or_any))]
fn two_stages(cells: &[u32; 768], a: u8, b: u8, rest: u64) -> u64
    ensures { not (eqb result 0) ≡ any_of (stage_checks a (stage_in (in_cells cells.now) a))
        (any_of (stage_checks b (stage_in (in_cells cells.now) b)) (not (eqb rest 0))) }
{
    let (a, b) = (a as usize, b as usize);
    let sources = sources_lack(cells[a], cells[b]);
    let operands = operands_lack(cells[a + 1], cells[b + 1]);
    let modes = modes_lack(cells[a + 2], cells[b + 2]);
    let scales = scales_lack(cells[a + 4], cells[b + 4]);
    sources | (operands | (modes | (scales | rest)))
}

// 100, 101, 116 or 117 holds one, or the rest does.
#[tactic(auto, unfolding(crate::specs::Codes::frame_checks, crate::specs::Codes::any_of))]
fn frame_lacks(cells: &[u32; 768], rest: bool) -> bool
    ensures { result ≡ any_of (frame_checks (framebuffer_in (in_cells cells.now))) rest }
{
    let operation = cells[0x100];
    let function = cells[0x101];
    let depth_format = cells[0x116];
    let format = cells[0x117];
    operation_lacks(operation)
        | (function_lacks(function)
            | (depth_format_lacks(depth_format) | (format_lacks(format) | rest)))
}

// Some register holds one.
#[tactic(auto, using(crate::proofs::First::any_checks, crate::proofs::Bitwise::or_any), unfolding(settings::specs::Settings::settings_in))]
pub fn any_lacks(cells: &[u32; 768]) -> bool
    ensures { result ≡ any_lacks (checks (settings_in (in_cells cells.now))) }
{
    let update = cells[0xE0];
    let frame = bits_of(frame_lacks(cells, false));
    let last = two_stages(cells, 0xF0, 0xF8, frame);
    let fog = bits_of(update_lacks(update)) | last;
    let middle = two_stages(cells, 0xD0, 0xD8, fog);
    two_stages(cells, 0xC0, 0xC8, middle) != 0
}
