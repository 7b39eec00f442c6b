// A list that arrives in pieces: a reader that is opened, fed parts cut anywhere, and closed. It works on a spare state that is lent beside
// the live one. The contracts cite specs/Pieces.antt, and specs/Progress.antt of `parts`.
#![tactic(auto)]

ghost use Rattle.std.specs.Prelude.{◌≡◌};
ghost use Rattle.numbers.specs.Answer.{neither};
ghost use Rattle.registers.specs.State.{st, Lengths};
ghost use Rattle.copies.specs.Copy.{taken};
ghost use Rattle.words.specs.Reasons.{number_of};
ghost use Rattle.reader.specs.Read.{told, told_both};
ghost use Rattle.parts.specs.Progress.{fresh, counted, judged_so_far, closing, fault_number};
ghost use Rattle.pieces.specs.Pieces as going;
ghost use Rattle.pieces.specs.Pieces.{opening, open_answer, opened_spare, feeding, feed_answer, fed_spare};
ghost use Rattle.pieces.specs.Pieces.{close_answers, close_progress, closed_live, closed_spare};

use parts::Progress;
use reader::Counts;
use registers::lent::Lent;
use words::{Reason, Refusal};

// A reading of which no word has come.
pub fn fresh_progress() -> Progress
    ensures { result ≡ fresh }
{
    Progress::default()
}

// The held bits and the entries of one state go to another, both in buffers of a state's lengths.
fn take_state(
    cells: &mut [u32],
    fog: &mut [u32],
    light: &mut [u32],
    from_cells: &[u32],
    from_fog: &[u32],
    from_light: &[u32],
)
    requires lengths { Lengths cells.old fog.old light.old }
    requires from_lengths { Lengths from_cells.now from_fog.now from_light.now }
    ensures { st cells.new fog.new light.new
        ≡ taken (st cells.old fog.old light.old)
        (st from_cells.now from_fog.now from_light.now) }
{
    let cells = cells.first_chunk_mut::<768>().unwrap();
    let fog = fog.first_chunk_mut::<128>().unwrap();
    let light = light.first_chunk_mut::<6144>().unwrap();
    let from_cells = from_cells.first_chunk::<768>().unwrap();
    let from_fog = from_fog.first_chunk::<128>().unwrap();
    let from_light = from_light.first_chunk::<6144>().unwrap();
    copies::take_state(cells, fog, light, from_cells, from_fog, from_light);
}

// A reading is opened: the spare state takes the held bits and entries of the live one; or 6, and nothing changes.
pub fn open(
    cells: &[u32],
    fog: &[u32],
    light: &[u32],
    spare_cells: &mut [u32],
    spare_fog: &mut [u32],
    spare_light: &mut [u32],
) -> Result<Progress, Refusal>
    ensures answer { result
        ≡ opening (st cells.now fog.now light.now)
        (st spare_cells.old spare_fog.old spare_light.old) }
    ensures spare { st spare_cells.new spare_fog.new spare_light.new
        ≡ opened_spare (st cells.now fog.now light.now)
        (st spare_cells.old spare_fog.old spare_light.old) }
    ensures numbers { going.told result
        ≡ open_answer (st cells.now fog.now light.now)
        (st spare_cells.old spare_fog.old spare_light.old) }
{
    if !registers::is_sized(cells, fog, light) {
        return Err(Refusal {
            reason: Reason::BufferLength,
            place: 0,
        });
    }
    if !registers::is_sized(spare_cells, spare_fog, spare_light) {
        return Err(Refusal {
            reason: Reason::BufferLength,
            place: 0,
        });
    }
    take_state(spare_cells, spare_fog, spare_light, cells, fog, light);
    Ok(fresh_progress())
}

// The count is held at 65,537.
fn held_count(p: Progress) -> Progress
    ensures { result ≡ counted p }
{
    Progress {
        come: p.come.min(65537),
        ..p
    }
}

// A part of the list is fed: how many words have come, with the progress to go on from; or 6, and nothing changes.
pub fn feed(
    p: Progress,
    cells: &mut [u32],
    fog: &mut [u32],
    light: &mut [u32],
    part: &[u32],
) -> Result<Progress, Refusal>
    ensures answer { result ≡ feeding p (st cells.old fog.old light.old) part.now }
    ensures state { st cells.new fog.new light.new
        ≡ fed_spare p (st cells.old fog.old light.old) part.now }
    ensures numbers { going.told result ≡ feed_answer p (st cells.old fog.old light.old) part.now }
{
    if !registers::is_sized(cells, fog, light) {
        return Err(Refusal {
            reason: Reason::BufferLength,
            place: 0,
        });
    }
    let cells = cells.first_chunk_mut::<768>().unwrap();
    let fog = fog.first_chunk_mut::<128>().unwrap();
    let light = light.first_chunk_mut::<6144>().unwrap();
    let mut state = Lent { cells, fog, light };
    Ok(held_count(parts::take_part(p, &mut state, part)))
}

// The reason of a fault, also where a progress that no call made has another number.
fn fault_of(fault: u32) -> Reason
    ensures { number_of result ≡ fault_number fault }
{
    match fault {
        3 => Reason::IdAbove2ff,
        4 => Reason::JumpRegister,
        _ => Reason::PortMask,
    }
}

// What the commands so far say, were the list to end here.
fn judged_so_far(p: Progress) -> Result<usize, Refusal>
    ensures { told result ≡ judged_so_far p }
{
    if (p.left == 0) & (p.pad == 0) & (p.begun == 0) {
        if p.fault != 0 {
            return Err(Refusal {
                reason: fault_of(p.fault),
                place: p.place as usize,
            });
        }
        return Ok(p.writes as usize);
    }
    Err(Refusal {
        reason: Reason::WordsMissing,
        place: p.place as usize,
    })
}

// The verdict that a progress leads to: 1, then 15, then what the commands say.
fn verdict_so_far(p: Progress) -> Result<usize, Refusal>
    ensures { told result ≡ closing p }
{
    if 65536 < p.come {
        return Err(Refusal {
            reason: Reason::ListTooLong,
            place: 0,
        });
    }
    if p.come % 4 != 0 {
        return Err(Refusal {
            reason: Reason::IllegalLength,
            place: 0,
        });
    }
    judged_so_far(p)
}

// What a close tells: the number of writes in the expansion and how many of them made a difference, or a refusal; and the progress to go on
// from, which is fresh after any verdict but 6.
#[derive(Clone, Copy, Debug, PartialEq, Eq)]
pub struct Closed {
    pub verdict: Result<Counts, Refusal>,
    pub progress: Progress,
}

fn wrong_length(p: Progress) -> Closed
    ensures verdict { told_both result.verdict ≡ neither 6 0 }
    ensures progress { result.progress ≡ p }
{
    Closed {
        verdict: Err(Refusal {
            reason: Reason::BufferLength,
            place: 0,
        }),
        progress: p,
    }
}

// A reading is closed: on acceptance the live state takes the held bits and entries of the spare, on any refusal but 6 the spare those of
// the live.
pub fn close(
    p: Progress,
    cells: &mut [u32],
    fog: &mut [u32],
    light: &mut [u32],
    spare_cells: &mut [u32],
    spare_fog: &mut [u32],
    spare_light: &mut [u32],
) -> Closed
    ensures answer { told_both result.verdict
        ≡ close_answers p (st cells.old fog.old light.old)
        (st spare_cells.old spare_fog.old spare_light.old) }
    ensures progress { result.progress
        ≡ close_progress p (st cells.old fog.old light.old)
        (st spare_cells.old spare_fog.old spare_light.old) }
    ensures live { st cells.new fog.new light.new
        ≡ closed_live p (st cells.old fog.old light.old)
        (st spare_cells.old spare_fog.old spare_light.old) }
    ensures spare { st spare_cells.new spare_fog.new spare_light.new
        ≡ closed_spare p (st cells.old fog.old light.old)
        (st spare_cells.old spare_fog.old spare_light.old) }
{
    if !registers::is_sized(cells, fog, light) {
        return wrong_length(p);
    }
    if !registers::is_sized(spare_cells, spare_fog, spare_light) {
        return wrong_length(p);
    }
    let progress = fresh_progress();
    match verdict_so_far(p) {
        Err(why) => {
            take_state(spare_cells, spare_fog, spare_light, cells, fog, light);
            let verdict = Err(why);
            Closed { verdict, progress }
        }
        Ok(writes) => {
            take_state(cells, fog, light, spare_cells, spare_fog, spare_light);
            let differences = p.differences;
            Closed {
                verdict: Ok(Counts {
                    writes,
                    differences,
                }),
                progress,
            }
        }
    }
}
