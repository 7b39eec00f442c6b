// A run of writes packed into the shortest list: the writes are checked, and then put as the list written for them (crate filling). The
// contracts cite specs/Checks.antt and specs/Packing.antt, those within specs/Looking.antt; the list itself is defined in crate runs.
#![tactic(auto)]

ghost use Rattle.std.specs.Prelude.{◌≡◌, ℕ, ◌≤◌, true, List, length};
ghost use Rattle.words.specs.Reasons.{numbered, told};
ghost use Rattle.words.specs.Writes.{kept};
ghost use Rattle.runs.specs.PackedList.{writes, written};
ghost use Rattle.planning.specs.RunWrites.{run_writes};
ghost use Rattle.numbers.specs.Room.{if_room, space_after};
ghost use Rattle.packer.specs.Checks.{wrong, check_answer, found};
ghost use Rattle.packer.specs.Packing.{pack_answer, pack_space};
ghost use Rattle.packer.specs.Looking.{Clear, Looks};

use planning::Run;
use words::{Reason, Refusal};

// Why a write to `id` under `mask` is refused, if it is.
fn wrong_with(id: u32, mask: u32) -> Option<Reason>
    ensures { numbered result ≡ wrong id mask }
{
    let too_wide = 15 < mask;
    if too_wide {
        return Some(Reason::MaskAbove15);
    }
    words::fault(id, mask)
}

// 1 for a write that is refused or has mask 0, else 0. One test asks for both ends of the masks.
fn counted(id: u32, mask: u32) -> u32
    ensures { (result ≤ 1) × (result ≡ 0 → (wrong id mask ≡ 0) × (1 ≤ mask)) }
{
    if 14 < mask.wrapping_sub(1) {
        return 1;
    }
    if words::fault(id, mask).is_none() {
        return 0;
    }
    1
}

// How many writes are refused or have mask 0. All are looked at, without a branch that depends on one of them, so that several go at once.
fn count_wrong(ids: &[u32], masks: &[u32]) -> u32
    requires { (length ids.now ≡ length masks.now) × (length ids.now ≤ 4096) }
    ensures { (vs : List ℕ) → length ids.now ≡ length vs → result ≡ 0
        → Clear 0 (writes ids.now masks.now vs) }
{
    let mut count = 0;
    for i in 0..ids.len() {
        count += counted(ids[i], masks[i]);
    }
    count
}

// Whether no write is refused and none has mask 0, as of most runs. A short run is searched as fast as it is counted.
fn all_right(ids: &[u32], masks: &[u32]) -> bool
    requires { (length ids.now ≡ length masks.now) × (length ids.now ≤ 4096) }
    ensures { (vs : List ℕ) → length ids.now ≡ length vs → result ≡ true
        → Clear 0 (writes ids.now masks.now vs) }
{
    if 16 <= ids.len() {
        return count_wrong(ids, masks) == 0;
    }
    for i in 0..ids.len() {
        if counted(ids[i], masks[i]) != 0 {
            return false;
        }
    }
    true
}

// Looks at the writes: 7, 8, or the first write that is refused, with 9, 3, 4 or 5 and its index. Else whether it is known that none of
// them has mask 0: most runs are passed at once.
fn look(ids: &[u32], masks: &[u32], values: &[u32]) -> Result<bool, Refusal>
    ensures { Looks ids.now masks.now values.now result }
{
    let n = ids.len();
    if !((n == masks.len()) & (n == values.len())) {
        return Err(Refusal {
            reason: Reason::LengthsDiffer,
            place: 0,
        });
    }
    if 4096 < n {
        return Err(Refusal {
            reason: Reason::TooManyWrites,
            place: 0,
        });
    }
    if all_right(ids, masks) {
        return Ok(true);
    }
    for i in 0..n {
        if let Some(reason) = wrong_with(ids[i], masks[i]) {
            return Err(Refusal { reason, place: i });
        }
    }
    Ok(false)
}

// What is wrong with the writes: 7, 8, or the first write that is refused, with 9, 3, 4 or 5 and its index.
pub fn check(ids: &[u32], masks: &[u32], values: &[u32]) -> Result<(), Refusal>
    ensures { found result ≡ check_answer ids.now masks.now values.now }
{
    look(ids, masks, values)?;
    Ok(())
}

// Puts the list of writes that are not refused, or refuses with 10.
fn pack_checked(given: Run, live: bool, space: &mut [u32]) -> Result<usize, Refusal>
    requires { live ≡ true → kept (run_writes given) ≡ run_writes given }
    ensures { let l = written (run_writes given.entry) in
        (told result ≡ if_room 10 (length l) (length space.old)) × (space.new ≡ space_after (told result) l space.old) }
{
    let room = space.len();
    let need = filling::put_list(given, live, space);
    if room < need {
        return Err(Refusal {
            reason: Reason::NoRoom,
            place: need,
        });
    }
    Ok(need)
}

// Packs writes into the start of the space and answers how many words it put there, or refuses: 7, 8, then each write in order for 9, 3,
// 4, 5 with its index, then 10 with the words needed. Space past what is written keeps its contents; on a refusal all of it does.
pub fn pack(ids: &[u32], masks: &[u32], values: &[u32], space: &mut [u32]) -> Result<usize, Refusal>
    ensures { (told result ≡ pack_answer ids.now masks.now values.now (length space.old))
        × (space.new ≡ pack_space ids.now masks.now values.now space.old) }
{
    let live = look(ids, masks, values)?;
    let given = Run { ids, masks, values };
    pack_checked(given, live, space)
}
