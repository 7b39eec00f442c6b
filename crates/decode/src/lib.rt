// The decoded state of the 66 held registers: their settings, or a refusal. The contracts cite specs/Decoded.antt.
#![tactic(auto)]

ghost use Rattle.std.specs.Prelude.{◌≡◌, true, false, MatchResult};
ghost use Rattle.registers.specs.State.{st, sized};
ghost use Rattle.settings.specs.Ranges.{in_cells};
ghost use Rattle.settings.specs.Settings.{settings_in};
ghost use Rattle.decode.specs.Codes.{checks, lowest};
ghost use Rattle.decode.specs.Decoded.{told, decoded_of, decodable, length_refusal, code_refusal, refusal_of};

use settings::records::Settings;
use words::{Reason, Refusal};

mod codes;

// The cells, where the three buffers have a state's lengths.
fn sized_cells<'a>(cells: &'a [u32], fog: &[u32], light: &[u32]) -> Result<&'a [u32; 768], Refusal>
    ensures { MatchResult result
        (λ a. (a.now ≡ cells.now) × (sized (st cells.now fog.now light.now) ≡ true))
        (λ why. (why ≡ length_refusal) × (sized (st cells.now fog.now light.now) ≡ false)) }
{
    let refusal = Refusal {
        reason: Reason::BufferLength,
        place: 0,
    };
    if !registers::is_sized(cells, fog, light) {
        return Err(refusal);
    }
    cells.try_into().map_err(|_| refusal)
}

fn code_refusal(cells: &[u32; 768]) -> Refusal
    ensures { result ≡ code_refusal (lowest (checks (settings_in (in_cells cells.now)))) }
{
    Refusal {
        reason: Reason::CodeWithoutName,
        place: codes::lowest_id(cells),
    }
}

// The cells, where the buffers have a state's lengths and every code has a name; or the refusal, 6 at place 0, else 13 at the lowest id
// that holds a code without a name. For a caller that reads from the cells the registers that it uses. The lowest id is looked for in a
// call of its own, so that a state that is decodable doesn't pay for the search.
#[tactic(auto, using(crate::proofs::Lowest::lowest_none), unfolding(crate::specs::Decoded::decodable, crate::specs::Decoded::refusal_of))]
pub fn decodable_cells<'a>(
    cells: &'a [u32],
    fog: &[u32],
    light: &[u32],
) -> Result<&'a [u32; 768], Refusal>
    ensures { MatchResult result
        (λ a. (a.now ≡ cells.now) × (decodable (st cells.now fog.now light.now) ≡ true))
        (λ why. (why ≡ refusal_of (st cells.now fog.now light.now)) × (decodable (st cells.now fog.now light.now) ≡ false)) }
{
    let cells = sized_cells(cells, fog, light)?;
    if codes::any_lacks(cells) {
        return Err(code_refusal(cells));
    }
    Ok(cells)
}

// Whether it isn't refused.
#[tactic(auto, using(crate::proofs::Lowest::lowest_none), unfolding(crate::specs::Decoded::decodable, crate::specs::Decoded::refusal_of))]
pub fn is_decodable(cells: &[u32], fog: &[u32], light: &[u32]) -> bool
    ensures { result ≡ decodable (st cells.now fog.now light.now) }
{
    match sized_cells(cells, fog, light) {
        Ok(cells) => !codes::any_lacks(cells),
        Err(_) => false,
    }
}

// The refusal of a state that isn't decodable.
#[tactic(auto, using(crate::proofs::Lowest::lowest_none), unfolding(crate::specs::Decoded::decodable, crate::specs::Decoded::refusal_of))]
pub fn refusal_of(cells: &[u32], fog: &[u32], light: &[u32]) -> Refusal
    ensures { result ≡ refusal_of (st cells.now fog.now light.now) }
{
    match sized_cells(cells, fog, light) {
        Ok(cells) => code_refusal(cells),
        Err(why) => why,
    }
}

// The decoded state of the three buffers; or refused with 6 at place 0, or 13 at the lowest id that holds a code without a name. Its
// numbers are those of `told`: 0 and the fields, or the refusal's number and place.
#[tactic(auto, unfolding(crate::specs::Decoded::decodable, crate::specs::Decoded::refusal_of, crate::specs::Decoded::decoded_of))]
pub fn decode(cells: &[u32], fog: &[u32], light: &[u32]) -> Result<Settings, Refusal>
    ensures answer { result ≡ decoded_of (st cells.now fog.now light.now) }
    ensures numbers { told result ≡ told (decoded_of (st cells.now fog.now light.now)) }
{
    let cells = decodable_cells(cells, fog, light)?;
    Ok(settings::read_settings(cells))
}
