// The writes of a list's expansion: the list is judged as the reader judges it, and then its writes are put into three buffers, ids, masks
// and values, command by command; those of mask 0 are passed over. The contracts cite specs/Listed.antt.
#![tactic(auto)]

ghost use Rattle.std.specs.Prelude.{◌≡◌, true, ◌++◌, ◌≤◌, length, drop};
ghost use Rattle.words.specs.Writes.{ids_in, masks_in, values_in};
ghost use Rattle.words.specs.Commands.{expansion, well_formed};
ghost use Rattle.words.specs.Reasons.{told};
ghost use Rattle.writes.specs.Listed.{writes_answer, writes_ids, writes_masks, writes_values};
ghost use Rattle.writes.specs.Rows.{CommandFits, with_row};

use words::{Reason, Refusal};

// The ids of the writes of the command at `at`, into the places from `k` on.
fn put_ids(list: &[u32], at: usize, ids: &mut [u32], k: usize)
    requires { CommandFits list.now at ids.old k }
    ensures { ids.new ≡ with_row ids_in list.now at ids.old k }
{
    let h = words::parts(list[at + 1]);
    let step = h.step;
    let n = h.count as usize + 1;
    let mut next = h.id;
    for id in ids[k..k + n].iter_mut() {
        *id = next;
        next += step;
    }
}

// Their masks.
fn put_masks(list: &[u32], at: usize, masks: &mut [u32], k: usize)
    requires { CommandFits list.now at masks.old k }
    ensures { masks.new ≡ with_row masks_in list.now at masks.old k }
{
    let h = words::parts(list[at + 1]);
    let n = h.count as usize + 1;
    masks[k..k + n].fill(h.mask);
}

// Their values: the first stands before the header, the others after it.
fn put_values(list: &[u32], at: usize, values: &mut [u32], k: usize)
    requires { CommandFits list.now at values.old k }
    ensures { values.new ≡ with_row values_in list.now at values.old k }
{
    let h = words::parts(list[at + 1]);
    let n = h.count as usize + 1;
    values[k] = list[at];
    for j in 1..n {
        values[k + j] = list[at + 1 + j];
    }
}

// The writes of a short command, one after another.
fn put_short(
    list: &[u32],
    at: usize,
    ids: &mut [u32],
    masks: &mut [u32],
    values: &mut [u32],
    k: usize,
)
    requires command_fits { CommandFits list.now at ids.old k }
    requires ids_len { (length ids.old ≡ length masks.old) × (length ids.old ≡ length values.old) }
    ensures ids { ids.new ≡ with_row ids_in list.now at ids.old k }
    ensures masks { masks.new ≡ with_row masks_in list.now at masks.old k }
    ensures values { values.new ≡ with_row values_in list.now at values.old k }
{
    let h = words::parts(list[at + 1]);
    let mask = h.mask;
    let step = h.step;
    let n = h.count as usize + 1;
    let mut id = h.id;
    ids[k] = id;
    masks[k] = mask;
    values[k] = list[at];
    for m in 1..n {
        id += step;
        ids[k + m] = id;
        masks[k + m] = mask;
        values[k + m] = list[at + 1 + m];
    }
}

// The writes of the command at `at`, into the places from `k` on. A long command's go row by row, each row in a loop that runs as a copy
// or a fill does; a short one's go in one loop, because three that end where chance decides cost more.
fn put_command(
    list: &[u32],
    at: usize,
    ids: &mut [u32],
    masks: &mut [u32],
    values: &mut [u32],
    k: usize,
)
    requires command_fits { CommandFits list.now at ids.old k }
    requires ids_len { (length ids.old ≡ length masks.old) × (length ids.old ≡ length values.old) }
    ensures ids { ids.new ≡ with_row ids_in list.now at ids.old k }
    ensures masks { masks.new ≡ with_row masks_in list.now at masks.old k }
    ensures values { values.new ≡ with_row values_in list.now at values.old k }
{
    let h = words::parts(list[at + 1]);
    if h.count < 16 {
        put_short(list, at, ids, masks, values, k);
        return;
    }
    put_ids(list, at, ids, k);
    put_masks(list, at, masks, k);
    put_values(list, at, values, k);
}

// The expansion of a well-formed list, into buffers that have room for it. A command of mask 0 adds nothing to it.
fn put_list(list: &[u32], ids: &mut [u32], masks: &mut [u32], values: &mut [u32])
    requires list_value { well_formed list.now ≡ true }
    requires list_in_bounds { (length (expansion list.now) ≤ length ids.old) × (length ids.old ≡ length masks.old)
        × (length ids.old ≡ length values.old) }
    ensures ids { ids.new
        ≡ ids_in (expansion list.now) ++ drop (length (expansion list.now)) ids.old }
    ensures masks { masks.new
        ≡ masks_in (expansion list.now) ++ drop (length (expansion list.now)) masks.old }
    ensures values { values.new
        ≡ values_in (expansion list.now) ++ drop (length (expansion list.now)) values.old }
{
    let mut at = 0;
    let mut k = 0;
    // Each turn goes on by a command's words, which its header tells: no range, and no iterator of the library, steps so.
    while at < list.len() {
        let h = words::parts(list[at + 1]);
        let taken = words::words_taken(h);
        let unmasked = h.mask == 0;
        if unmasked {
            at += taken;
            continue;
        }
        let count = h.count as usize;
        put_command(list, at, ids, masks, values, k);
        k += count + 1;
        at += taken;
    }
}

// The expansion of a list put into three buffers of one length, from their start: how many writes it has; or a refusal, 7, then the
// reader's of the list, then 22 with the places needed. Places past the writes keep their contents; on a refusal all of them do.
pub fn writes_of(
    list: &[u32],
    ids: &mut [u32],
    masks: &mut [u32],
    values: &mut [u32],
) -> Result<usize, Refusal>
    ensures answer { told result ≡ writes_answer list.now ids.old masks.old values.old }
    ensures ids { ids.new ≡ writes_ids list.now ids.old masks.old values.old }
    ensures masks { masks.new ≡ writes_masks list.now ids.old masks.old values.old }
    ensures values { values.new ≡ writes_values list.now ids.old masks.old values.old }
{
    let room = ids.len();
    if !((room == masks.len()) & (room == values.len())) {
        return Err(Refusal {
            reason: Reason::LengthsDiffer,
            place: 0,
        });
    }
    if 65536 < list.len() {
        return Err(Refusal {
            reason: Reason::ListTooLong,
            place: 0,
        });
    }
    let n = reader::judge_list(list)?;
    if room < n {
        return Err(Refusal {
            reason: Reason::TooFewPlaces,
            place: n,
        });
    }
    put_list(list, ids, masks, values);
    Ok(n)
}
