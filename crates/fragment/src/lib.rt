// One fragment: the combiner's result, the tests, and what is stored. The contracts cite specs/Drawn.antt. No settings are read for it:
// once every code has a name, each function below takes from the cells the registers that it uses.
#![tactic(auto)]

ghost use Rattle.std.specs.Prelude.{◌≡◌, ◌≢◌, ◌<◌, ◌≤◌, MatchResult};
ghost use Rattle.registers.specs.State.{st};
ghost use Rattle.settings.specs.Ranges.{bits, in_cells};
ghost use Rattle.settings.specs.Framebuffer.{operation_in, format_in};
ghost use Rattle.settings.specs.Settings.{settings_in};
ghost use Rattle.fragment.specs.Drawn.{outcome_of, operation_unbuilt, format_unbuilt, unbuilt_id, largest, not_built, too_deep, drawn_with, drawn_of, told};

use combiner::Given;
use stores::{Stored, Verdict};
use words::{Reason, Refusal};

#[derive(Clone, Copy, Debug, PartialEq, Eq)]
pub struct Outcome {
    pub verdict: Verdict,
    pub stored: Stored,
}

// The combiner's result, judged and stored.
#[tactic(auto, unfolding(crate::specs::Drawn::outcome_of, settings::specs::Settings::settings_in))]
fn find_outcome(cells: &[u32; 768], g: Given, incoming: u32, stored: Stored) -> Outcome
    ensures { result ≡ outcome_of (settings_in (in_cells cells.now)) g incoming stored }
{
    let old = stored.colour;
    let result = combiner::combine(cells, g);
    let j = stores::judge(cells, result.alpha, incoming, stored.stencil, stored.depth);
    let verdict = j.verdict;
    Outcome {
        verdict,
        stored: Stored {
            colour: stores::colour::colour_after(cells, verdict, result, old),
            stencil: j.stencil,
            depth: j.depth,
        },
    }
}

// x is the word of 100.
fn operation_unbuilt(x: u32) -> bool
    ensures { result ≡ operation_unbuilt (operation_in (bits x)) }
{
    (x % 4 != 0) | ((x >> 8) % 2 == 1) | ((x >> 24) % 2 == 1) | ((x >> 25) % 2 == 1)
}

// x is the word of 117.
fn format_unbuilt(x: u32) -> bool
    ensures { result ≡ format_unbuilt (format_in (bits x)) }
{
    !((x % 4 == 2) & ((x >> 16) % 8 == 0))
}

fn not_built(id: usize) -> Refusal
    ensures { result ≡ not_built id }
{
    Refusal {
        reason: Reason::NotBuilt,
        place: id,
    }
}

// Refused at the lowest id that asks for what is not built.
#[tactic(auto, unfolding(crate::specs::Drawn::unbuilt_id, settings::specs::Settings::settings_in))]
fn check_built(cells: &[u32; 768]) -> Result<(), Refusal>
    ensures { MatchResult result
        (λ _. unbuilt_id (settings_in (in_cells cells.now)) ≡ 0)
        (λ why. (why ≡ not_built (unbuilt_id (settings_in (in_cells cells.now))))
        × (unbuilt_id (settings_in (in_cells cells.now)) ≢ 0)) }
{
    let update = cells[0xE0];
    let operation = cells[0x100];
    let format = cells[0x117];
    if update % 8 != 0 {
        return Err(not_built(0xE0));
    }
    if operation_unbuilt(operation) {
        return Err(not_built(0x100));
    }
    if format_unbuilt(format) {
        return Err(not_built(0x117));
    }
    Ok(())
}

// format is the word of 116.
#[tactic(auto, unfolding(crate::specs::Drawn::largest))]
fn largest_depth(format: u32) -> u32
    ensures { result ≡ largest (bits format 0 1) }
{
    if format % 4 == 0 { 65535 } else { 16777215 }
}

// Refused at the place where the depth is above the largest.
fn check_depth(depth: u32, top: u32, place: usize) -> Result<(), Refusal>
    ensures { MatchResult result (λ _. depth ≤ top) (λ why. (why ≡ too_deep place) × (top < depth)) }
{
    if top < depth {
        return Err(Refusal {
            reason: Reason::DepthAboveLargest,
            place,
        });
    }
    Ok(())
}

// Of cells whose codes all have a name.
#[tactic(auto, unfolding(crate::specs::Drawn::drawn_with, settings::specs::Settings::settings_in))]
fn draw_with(
    cells: &[u32; 768],
    g: Given,
    incoming: u32,
    stored: Stored,
) -> Result<Outcome, Refusal>
    ensures { result ≡ drawn_with (settings_in (in_cells cells.now)) g incoming stored }
{
    check_built(cells)?;
    let top = largest_depth(cells[0x116]);
    check_depth(incoming, top, 0)?;
    check_depth(stored.depth, top, 1)?;
    Ok(find_outcome(cells, g, incoming, stored))
}

// What becomes of a fragment: the verdict, and the colour, stencil and depth that are then stored; or refused with 6 at 0, 13 or 14 at
// the lowest id, or 12 at 0 for the incoming depth, 1 for the stored. Its numbers are those of `told`.
#[tactic(auto, using(decode::proofs::Cases::decodable_held, decode::proofs::Cases::else_refused), unfolding(crate::specs::Drawn::drawn_from))]
pub fn draw(
    cells: &[u32],
    fog: &[u32],
    light: &[u32],
    given: Given,
    incoming: u32,
    stored: Stored,
) -> Result<Outcome, Refusal>
    ensures answer { result ≡ drawn_of (st cells.now fog.now light.now) given incoming stored }
    ensures numbers { told result ≡ told (drawn_of (st cells.now fog.now light.now) given incoming stored) }
{
    let cells = decode::decodable_cells(cells, fog, light)?;
    draw_with(cells, given, incoming, stored)
}
