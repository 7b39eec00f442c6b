// The alpha, stencil and depth tests. The contracts cite specs/Compare.antt and specs/Tests.antt.
ghost use Rattle.std.specs.Prelude.{◌≡◌, length, ◌≤◌};
ghost use Rattle.settings.specs.Ranges.{bits, in_cells};
ghost use Rattle.settings.specs.Framebuffer.{alpha_test_in, stencil_test_in, depth_in, framebuffer_in};
ghost use Rattle.stores.specs.Compare.{compared, order_of};
ghost use Rattle.stores.specs.Tests.{alpha_passes, stencil_active, stencil_passes, depth_passes, in_order, verdict_of};

use crate::Verdict;
use std::cmp::Ordering;

// 0 where a is less than b, 1 where they are equal, 2 where a is greater.
fn order(a: u32, b: u32) -> u32
    ensures { (result ≡ order_of a b) × (result ≤ 2) }
{
    match a.cmp(&b) {
        Ordering::Less => 0,
        Ordering::Equal => 1,
        Ordering::Greater => 2,
    }
}

// Codes 0-7: never, always, equal, unequal, less, at most, greater, at least. The number has four bits for each code, from code 0 up: the
// answer where a is less, equal, greater.
fn compare(code: u32, a: u32, b: u32) -> bool
    ensures { result ≡ compared code a b }
{
    (0x64315270u32 >> (code % 8 * 4 + order(a, b))) % 2 == 1
}

fn compare_bytes(code: u32, a: u8, b: u8) -> bool
    ensures { result ≡ compared code a b }
{
    compare(code, a as u32, b as u32)
}

// x is the word of 104.
fn alpha_passes(x: u32, alpha: u8) -> bool
    ensures { result ≡ alpha_passes (alpha_test_in (bits x)) alpha }
{
    (x % 2 == 0) | compare_bytes((x >> 4) % 8, alpha, ((x >> 8) % 256) as u8)
}

// x is the word of 105, format that of 116.
pub fn stencil_active(x: u32, format: u32) -> bool
    ensures { result ≡ stencil_active (stencil_test_in (bits x)) (bits format 0 1) }
{
    (x % 2 == 1) & (format % 4 == 3)
}

fn stencil_passes(x: u32, format: u32, stored: u8) -> bool
    ensures { result ≡ stencil_passes (stencil_test_in (bits x)) (bits format 0 1) stored }
{
    let reference = ((x >> 16) % 256) as u8;
    let mask = ((x >> 24) % 256) as u8;
    !stencil_active(x, format) | compare_bytes((x >> 4) % 8, reference & mask, stored & mask)
}

// x is the word of 107.
fn depth_passes(x: u32, incoming: u32, stored: u32) -> bool
    ensures { result ≡ depth_passes (depth_in (bits x)) incoming stored }
{
    (x % 2 == 0) | compare((x >> 4) % 8, incoming, stored)
}

fn in_order(alpha: bool, stencil: bool, depth: bool) -> Verdict
    ensures { result ≡ in_order alpha stencil depth }
{
    if !alpha {
        Verdict::AlphaFails
    } else if !stencil {
        Verdict::StencilFails
    } else if !depth {
        Verdict::DepthFails
    } else {
        Verdict::Passes
    }
}

// The result's alpha, the incoming depth, and the stored stencil and depth.
#[tactic(auto, unfolding(crate::specs::Tests::verdict_of))]
pub fn find_verdict(
    cells: &[u32; 768],
    alpha: u8,
    incoming: u32,
    stencil: u8,
    depth: u32,
) -> Verdict
    ensures { result ≡ verdict_of (framebuffer_in (in_cells cells.now)) alpha incoming stencil depth }
{
    let alpha_test = cells[0x104];
    let stencil_test = cells[0x105];
    let depth_test = cells[0x107];
    let format = cells[0x116];
    in_order(
        alpha_passes(alpha_test, alpha),
        stencil_passes(stencil_test, format, stencil),
        depth_passes(depth_test, incoming, depth),
    )
}
