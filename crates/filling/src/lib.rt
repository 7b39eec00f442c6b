// A run of writes that can be packed, put into the space as the list written for it: those of mask 0 are dropped, the others' commands
// planned from the run's end (crate planning) and laid out from its start (crate laying), and the list is filled to a multiple of 4 words.
// The contracts cite specs/Putting.antt; the list itself is defined in crate runs.
#![tactic(auto)]

ghost use Rattle.std.specs.Prelude.{◌≡◌, true, ◌∷◌, ◌++◌, ◌+◌, ◌≤◌, ◌<◌, length, take, drop};
ghost use Rattle.words.specs.Writes.{kept};
ghost use Rattle.runs.specs.PackedList.{packed, filled, written};
ghost use Rattle.planning.specs.RunWrites.{run_writes};
ghost use Rattle.filling.specs.Putting.{Keeps, Puts};

use planning::Run;

// Puts the pair that fills a list, parameter 0 and header 0, at `at`.
fn put_pair(space: &mut [u32], at: usize)
    requires { at + 2 ≤ length space.old }
    ensures { space.new ≡ take at space.old ++ 0 ∷ 0 ∷ drop (at + 2) space.old }
{
    space[at] = 0;
    space[at + 1] = 0;
}

// The list of all the writes, filled. `least` and `extra` are room to plan in.
fn fill(given: Run, least: &mut [u16], extra: &mut [u8], space: &mut [u32]) -> usize
    requires { (length given.ids.now < length least.old) × (length given.ids.now ≤ length extra.old) }
    ensures { Puts (filled (packed (run_writes given.entry))) result space.old
        space.new }
{
    let laid = planning::plan_run(given.ids, given.masks, least, extra);
    let need = laid + laid % 4;
    if space.len() < need {
        return need;
    }
    if need < 2 {
        return need;
    }
    // The pair comes first, and a list that needs none is laid out over it: whether it does, only chance decides.
    put_pair(space, need - 2);
    laying::lay_out(given, extra, space);
    need
}

// Copies the writes whose mask isn't 0, in their order, to the end of the room lent for them, and answers where they start there.
fn keep(given: Run, kept_ids: &mut [u32], kept_masks: &mut [u32], kept_values: &mut [u32]) -> usize
    requires { (length given.ids.now ≤ length kept_ids.old) × (length kept_ids.old ≡ length kept_masks.old)
        × (length kept_ids.old ≡ length kept_values.old) }
    ensures { Keeps (run_writes given.entry) result kept_ids.new kept_masks.new
        kept_values.new }
{
    let mut at = kept_ids.len();
    for i in (0..given.ids.len()).rev() {
        let mask = given.masks[i];
        let unmasked = mask == 0;
        if unmasked {
            continue;
        }
        at -= 1;
        kept_ids[at] = given.ids[i];
        kept_masks[at] = mask;
        kept_values[at] = given.values[i];
    }
    at
}

// The list of the writes whose mask isn't 0. Room to keep them in is made here, where it is needed: a call of its own, so that other runs
// pay nothing for it.
#[inline(never)]
fn fill_kept<const N: usize>(
    given: Run,
    least: &mut [u16; N],
    extra: &mut [u8; N],
    space: &mut [u32],
) -> usize
    requires { (length given.ids.now < N) × (N ≤ 4097) }
    ensures { Puts (written (run_writes given.entry)) result space.old
        space.new }
{
    let mut kept_ids = [0u32; N];
    let mut kept_masks = [0u32; N];
    let mut kept_values = [0u32; N];
    let at = keep(given, &mut kept_ids, &mut kept_masks, &mut kept_values);
    let ids = &kept_ids[..];
    let masks = &kept_masks[..];
    let values = &kept_values[..];
    let kept = Run {
        ids: &ids[at..],
        masks: &masks[at..],
        values: &values[at..],
    };
    fill(kept, least, extra, space)
}

// The list written for fewer than N writes, with room to plan in for so many.
fn put_within<const N: usize>(given: Run, live: bool, space: &mut [u32]) -> usize
    requires { (length given.ids.now < N) × (N ≤ 4097)
        × (live ≡ true → kept (run_writes given) ≡ run_writes given) }
    ensures { Puts (written (run_writes given.entry)) result space.old
        space.new }
{
    let mut least = [0u16; N];
    let mut extra = [0u8; N];
    if live {
        return fill(given, &mut least, &mut extra, space);
    }
    fill_kept::<N>(given, &mut least, &mut extra, space)
}

// Puts the list written for writes that can be packed at the start of the space, where there is room for it, and answers its words in any
// case; where the writes are known to be `live`, none of them has mask 0. Room to plan in is zeroed when it is made, so a short run is
// given little.
pub fn put_list(given: Run, live: bool, space: &mut [u32]) -> usize
    requires { live ≡ true → kept (run_writes given) ≡ run_writes given }
    ensures { Puts (written (run_writes given.entry)) result space.old
        space.new }
{
    if given.ids.len() <= 128 {
        return put_within::<129>(given, live, space);
    }
    put_within::<4097>(given, live, space)
}
