// A list read into a state: judged whole, and then applied, with its writes that made a difference counted on the way. The contracts cite
// specs/ListVerdict.antt and specs/Read.antt.
#![tactic(auto)]

ghost use Rattle.std.specs.Prelude.{◌≡◌, true, ◌+◌, ◌<◌, ◌≤◌, length};
ghost use Rattle.numbers.specs.Pick.{pick};
ghost use Rattle.words.specs.Commands.{all_writes, expansion, well_formed};
ghost use Rattle.registers.specs.State.{st};
ghost use Rattle.registers.specs.Lent.{lent, buffers};
ghost use Rattle.registers.specs.Applied.{apply_all, differences};
ghost use Rattle.commands.specs.Clear.{last_id, clear};
ghost use Rattle.reader.specs.ListVerdict.{judged, verdict, all_allowed};
ghost use Rattle.reader.specs.Read.{told, told_both, read_answers, read_state};

use registers::held::HeldTable;
use registers::lent::Lent;
use words::{Reason, Refusal};

// Of a list that was read: the number of writes in its expansion, and how many of them made a difference.
#[derive(Clone, Copy, Debug, PartialEq, Eq)]
pub struct Counts {
    pub writes: usize,
    pub differences: u32,
}

// How many of a command's writes need a look: all of them where one can be at fault, and none else.
fn deciding(id: u32, mask: u32, count: u32, step: u32) -> u32
    requires { (id < 0x10000) × (count < 256) }
    ensures { result ≡ pick (clear id (last_id id count step) mask) 0 (count + 1) }
{
    if commands::is_clear(id, commands::last_id(id, count, step), mask) {
        0
    } else {
        count + 1
    }
}

// The verdict on a list's commands, whatever its length: in order, each for its words and then for its writes. Document 01 asks for
// nested loops that are left by a label.
fn judge_commands(list: &[u32]) -> Result<usize, Refusal>
    ensures { told result ≡ judged list.now }
{
    let mut at: usize = 0;
    let mut n: usize = 0;
    'commands: loop {
        if list.len() <= at {
            break 'commands Ok(n);
        }
        let head = words::head_at(list, at);
        let Ok(h) = head else {
            break 'commands words::refusal_in(head).map_or(Ok(n), Err);
        };
        let mut id = h.id;
        for _ in 0..deciding(h.id, h.mask, h.count, h.step) {
            if let Some(reason) = words::fault(id, h.mask) {
                break 'commands Err(Refusal { reason, place: at });
            }
            id += h.step;
        }
        n += commands::added(h.mask, h.count) as usize;
        at += words::words_taken(h);
    }
}

// The verdict on a list of any length, over 65,536 words too: 15 where its words aren't a multiple of 4, else the one on its commands.
pub fn judge_list(list: &[u32]) -> Result<usize, Refusal>
    ensures { told result ≡ verdict list.now }
{
    if list.len() % 4 != 0 {
        return Err(Refusal {
            reason: Reason::IllegalLength,
            place: 0,
        });
    }
    judge_commands(list)
}

// A list's expansion, one masked write after another: how many writes made a difference. The list is well formed and its writes are
// allowed, so that those of mask 0 change nothing, and are applied like any others: a test for them would cost more. By steps: a command's
// length, read on the way, tells where the next begins.
fn apply_list(state: &mut Lent<'_>, list: &[u32]) -> u32
    requires lengths { length list.now ≤ 65536 }
    requires list_value { (well_formed list.now ≡ true) × (all_allowed (all_writes list.now) ≡ true) }
    ensures same { buffers state.new ≡ buffers state.old }
    ensures count { result ≡ differences (lent state.old) (expansion list.now) }
    ensures state { lent state.new ≡ apply_all (lent state.old) (expansion list.now) }
{
    let table = HeldTable::new();
    let mut at = 0;
    let mut n: u32 = 0;
    while at < list.len() {
        let h = words::parts(list[at + 1]);
        let taken = words::words_taken(h);
        n += commands::apply_run(state, &table, h, list[at], list, at + 2);
        at += taken;
    }
    n
}

// A list read into a state: the number of writes in its expansion and how many of them made a difference, or a refusal, 6 before 1 before
// the verdict's, 15 first; a refused list changes nothing.
#[tactic(auto, unfolding(crate::specs::Read::read_answer, crate::specs::Read::read_answers, crate::specs::Read::read_state))]
pub fn read(
    cells: &mut [u32],
    fog: &mut [u32],
    light: &mut [u32],
    list: &[u32],
) -> Result<Counts, Refusal>
    ensures answer { told_both result ≡ read_answers (st cells.old fog.old light.old) list.now }
    ensures state { st cells.new fog.new light.new
        ≡ read_state (st cells.old fog.old light.old) list.now }
{
    if !registers::is_sized(cells, fog, light) {
        return Err(Refusal {
            reason: Reason::BufferLength,
            place: 0,
        });
    }
    let too_long = 65536 < list.len();
    if too_long {
        return Err(Refusal {
            reason: Reason::ListTooLong,
            place: 0,
        });
    }
    let writes = judge_list(list)?;
    let cells = cells.first_chunk_mut::<768>().unwrap();
    let fog = fog.first_chunk_mut::<128>().unwrap();
    let light = light.first_chunk_mut::<6144>().unwrap();
    let mut state = Lent { cells, fog, light };
    let differences = apply_list(&mut state, list);
    Ok(Counts {
        writes,
        differences,
    })
}
