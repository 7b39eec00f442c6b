// What one write does to a state of three lent buffers, and whether it made a difference. The contracts cite specs/Applied.antt and
// specs/Single.antt.
#![tactic(auto)]

ghost use Rattle.std.specs.Prelude.{◌≡◌, not, ◌+◌, ◌<◌, ◌≤◌, eqb};
ghost use Rattle.numbers.specs.Pick.{pick};
ghost use Rattle.words.specs.Writes.{writing};
ghost use Rattle.registers.specs.State.{st, sized, Words32};
ghost use Rattle.registers.specs.Lent.{lent, buffers};
ghost use Rattle.registers.specs.Applied.{put, differs};
ghost use Rattle.registers.specs.Single.{told, write_answer, write_state};

use held::HeldTable;
use lent::Lent;
use words::{Reason, Refusal};

pub mod held;
pub mod lent;

// 1 where a word is another than it was, else 0.
pub fn changed(old: u32, new: u32) -> u32
    ensures { (result ≡ pick (not (eqb new old)) 1 0) × (result ≤ 1) }
{
    u32::from(new != old)
}

impl Lent<'_> {
    // One write of `value` to `id`, in the bytes of `bytes`: `n`, one more where it made a difference. Held registers come first, which
    // are most. It is counted here, and not by the caller, so that a write to an id that isn't held adds nothing, not even 0.
    // In line: in a call of its own it loads the buffers' places anew for each write, and rising ids are fed 1.6 times as slowly.
    #[inline(always)]
    pub fn put_one(&mut self, table: &HeldTable, id: u32, bytes: u32, value: u32, n: u32) -> u32
        requires { n < 0xFFFFFFFF }
        ensures same { buffers self.new ≡ buffers self.old }
        ensures count { (result ≡ n + pick (differs (lent self.old) id bytes value) 1 0) × (result ≤ n + 1) }
        ensures state { lent self.new ≡ put (lent self.old) id bytes value }
    {
        if let Some(bits) = table.row_of(id) {
            let i = id as usize;
            let old = self.cells[i];
            let new = ports::merged(bits & bytes, old, value);
            self.cells[i] = new;
            return n + changed(old, new);
        }
        if (0xE8 <= id) & (id <= 0xEF) {
            ports::put_fog(self.cells, self.fog, value);
            return n + 1;
        }
        if (0x1C8 <= id) & (id <= 0x1CF) {
            ports::put_light(self.cells, self.light, value);
            return n + 1;
        }
        n
    }
}

// The three buffers have a state's lengths. That the cells are 32-bit words, their type says.
pub fn is_sized(cells: &[u32], fog: &[u32], light: &[u32]) -> bool
    ensures sized { result ≡ sized (st cells.now fog.now light.now) }
    ensures words { Words32 cells.now }
{
    (cells.len() == 768) & (fog.len() == 128) & (light.len() == 6144)
}

// One write applied to a state, and whether it made a difference; or refused with 6, 9, 3, 4 or 5, in this order, at place 0, and then
// nothing changes.
pub fn write(
    cells: &mut [u32],
    fog: &mut [u32],
    light: &mut [u32],
    id: u32,
    mask: u32,
    value: u32,
) -> Result<bool, Refusal>
    ensures answer { told result ≡ write_answer (st cells.old fog.old light.old) (writing id mask value) }
    ensures state { st cells.new fog.new light.new
        ≡ write_state (st cells.old fog.old light.old) (writing id mask value) }
{
    if !is_sized(cells, fog, light) {
        return Err(Refusal {
            reason: Reason::BufferLength,
            place: 0,
        });
    }
    let too_wide = 15 < mask;
    if too_wide {
        return Err(Refusal {
            reason: Reason::MaskAbove15,
            place: 0,
        });
    }
    if let Some(reason) = words::fault(id, mask) {
        return Err(Refusal { reason, place: 0 });
    }
    let cells = cells.first_chunk_mut::<768>().unwrap();
    let fog = fog.first_chunk_mut::<128>().unwrap();
    let light = light.first_chunk_mut::<6144>().unwrap();
    let mut state = Lent { cells, fog, light };
    let bytes = ports::spread_mask(mask);
    let difference = state.put_one(&HeldTable::new(), id, bytes, value, 0);
    Ok(difference != 0)
}
