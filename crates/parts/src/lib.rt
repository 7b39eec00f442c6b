// The words of a part of a list, one after another, and how many of the writes that they make made a difference. The contracts cite
// specs/Progress.antt and specs/Leads.antt.
#![tactic(auto)]

ghost use Rattle.std.specs.Prelude.{◌≡◌, ◌+◌, ◌<◌, ◌≤◌, true, length};
ghost use Rattle.numbers.specs.Bits.{spread};
ghost use Rattle.words.specs.Header.{id_of, mask_of};
ghost use Rattle.words.specs.Writes.{writing, kept, fault_of};
ghost use Rattle.registers.specs.Lent.{lent, buffers};
ghost use Rattle.registers.specs.Applied.{apply_all, differences};
ghost use Rattle.commands.specs.Run.{run_from, run_with};
ghost use Rattle.commands.specs.Clear.{last_id, clear};
ghost use Rattle.parts.specs.Leads.{Leads};
ghost use Rattle.parts.specs.Progress.{first_of, headed, sound, next, makes, made, onward};

use registers::held::HeldTable;
use registers::lent::Lent;
use words::Header;

// How far a reading has come: what the words so far leave for the next one to go by. Numbers throughout, since C keeps them as words, any
// of which may come back.
#[derive(Clone, Copy, Debug, Default, PartialEq, Eq)]
pub struct Progress {
    // the words that have come, held at 65,537
    pub come: u32,
    // the first word of the present command, counted from the list's start
    pub place: u32,
    // 1 where the command's first parameter has come and its header hasn't
    pub begun: u32,
    // that parameter
    pub first: u32,
    // the id of the last write, the mask, and by how much ids rise
    pub id: u32,
    pub mask: u32,
    pub step: u32,
    // the extra parameters and the padding words that are still to come
    pub left: u32,
    pub pad: u32,
    // the writes of all headers so far, but for those of mask 0
    pub writes: u32,
    // the number of the first fault, 0 for none
    pub fault: u32,
    // how many of the writes made so far made a difference
    pub differences: u32,
}

// The first fault: the one so far, or that of a write to `id` under `mask`.
fn first_fault(earlier: u32, id: u32, mask: u32) -> u32
    ensures { result ≡ first_of earlier (fault_of id mask) }
{
    if earlier != 0 {
        return earlier;
    }
    match words::fault(id, mask) {
        Some(reason) => u32::from(reason),
        None => 0,
    }
}

// One write, in the bytes of its mask, unless there is a fault so far or its mask is 0: 1 where it made a difference, else 0.
fn put_sound(
    state: &mut Lent<'_>,
    table: &HeldTable,
    fault: u32,
    id: u32,
    mask: u32,
    value: u32,
) -> u32
    ensures same { buffers state.new ≡ buffers state.old }
    ensures difference { result ≡ differences (lent state.old) (sound fault (writing id mask value)) }
    ensures state { lent state.new ≡ apply_all (lent state.old) (sound fault (writing id mask value)) }
{
    if fault != 0 {
        return 0;
    }
    let unmasked = mask == 0;
    if unmasked {
        return 0;
    }
    let bytes = ports::spread_mask(mask);
    state.put_one(table, id, bytes, value, 0)
}

// The progress after a word, and whether the write that it makes made a difference: 1 or 0.
#[derive(Clone, Copy)]
struct Taken {
    progress: Progress,
    difference: u32,
}

// The header of the present command.
fn take_header(p: Progress, state: &mut Lent<'_>, table: &HeldTable, x: u32) -> Taken
    requires come_bound { p.come ≤ 65535 }
    ensures same { buffers state.new ≡ buffers state.old }
    ensures progress { result.progress ≡ headed p x }
    ensures difference { result.difference
        ≡ differences (lent state.old)
        (sound (headed p x).fault (writing (id_of x) (mask_of x) p.first)) }
    ensures state { lent state.new
        ≡ apply_all (lent state.old)
        (sound (headed p x).fault (writing (id_of x) (mask_of x) p.first)) }
{
    let h = words::parts(x);
    let fault = first_fault(p.fault, h.id, h.mask);
    let difference = put_sound(state, table, fault, h.id, h.mask, p.first);
    let mut q = p;
    q.come = p.come + 1;
    q.begun = 0;
    q.id = h.id;
    q.mask = h.mask;
    q.step = h.step;
    q.left = h.count;
    q.pad = (2 + h.count) % 2;
    q.writes = p.writes.wrapping_add(commands::added(h.mask, h.count));
    q.fault = fault;
    Taken {
        progress: q,
        difference,
    }
}

// One word: the progress after it, and the write that it makes.
fn take_word(p: Progress, state: &mut Lent<'_>, table: &HeldTable, x: u32) -> Taken
    ensures same { buffers state.new ≡ buffers state.old }
    ensures progress { result.progress ≡ next p x }
    ensures difference { result.difference ≡ differences (lent state.old) (makes p x) }
    ensures state { lent state.new ≡ apply_all (lent state.old) (makes p x) }
{
    let mut q = p;
    if 65535 < p.come {
        q.come = 65537;
        return Taken {
            progress: q,
            difference: 0,
        };
    }
    q.come = p.come + 1;
    if 0 < p.left {
        let id = p.id.wrapping_add(p.step);
        let fault = first_fault(p.fault, id, p.mask);
        let difference = put_sound(state, table, fault, id, p.mask, x);
        q.id = id;
        q.left = p.left - 1;
        q.fault = fault;
        return Taken {
            progress: q,
            difference,
        };
    }
    if 0 < p.pad {
        q.pad = p.pad - 1;
        return Taken {
            progress: q,
            difference: 0,
        };
    }
    if 0 < p.begun {
        return take_header(p, state, table, x);
    }
    if p.fault == 0 {
        q.place = p.come;
        q.begun = 1;
        q.first = x;
        return Taken {
            progress: q,
            difference: 0,
        };
    }
    Taken {
        progress: q,
        difference: 0,
    }
}

// Writes to ids from `h.id` on, one for each of the `h.count` values that stand in `list` from `from` on: how many of them made a
// difference. To a port's data every write does. While ids rise the buffers' places are kept in locals: by way of `state` they would be
// loaded anew for each write.
fn put_run(state: &mut Lent<'_>, table: &HeldTable, h: Header, list: &[u32], from: usize) -> u32
    requires id_bound { (h.id ≤ 0x20000) × (h.count < 256) × (h.step ≤ 1) × (from + h.count ≤ length list.now) }
    ensures same { buffers state.new ≡ buffers state.old }
    ensures count { (result
        ≡ differences (lent state.old)
        (run_from list.now from h.count h.id h.mask h.step))
        × (result ≤ h.count) }
    ensures state { lent state.new
        ≡ apply_all (lent state.old)
        (run_from list.now from h.count h.id h.mask h.step) }
{
    let id = h.id;
    if h.step == 0 {
        if (0xE8 <= id) & (id <= 0xEF) {
            ports::upload_fog(state.cells, state.fog, list, from, h.count);
            return h.count;
        }
        if (0x1C8 <= id) & (id <= 0x1CF) {
            ports::upload_light(state.cells, state.light, list, from, h.count);
            return h.count;
        }
        return commands::apply_values(state.cells, table, h, list, from);
    }
    let mask = h.mask;
    let bytes = ports::spread_mask(mask);
    let cells = &mut *state.cells;
    let fog = &mut *state.fog;
    let light = &mut *state.light;
    let mut own = Lent { cells, fog, light };
    let mut n: u32 = 0;
    for k in 0..h.count {
        let value = list[from + k as usize];
        n = own.put_one(table, id + k, bytes, value, n);
    }
    n
}

// The writes of a command with the header `h`, none of which can be at fault, but for those of mask 0, which change nothing: its first
// value is `first`, the others stand in `list` from `from` on. Tells how many of them made a difference. `commands::apply_run` does the
// same, and is left to `reader`: a function that is called from more places than one is not put in line, and reading was slower.
fn put_command(
    state: &mut Lent<'_>,
    table: &HeldTable,
    h: Header,
    first: u32,
    list: &[u32],
    from: usize,
) -> u32
    requires id_bound { (h.id < 0x20000) × (h.count < 256) × (h.step ≤ 1) × (from + h.count ≤ length list.now) }
    requires sound { clear h.id (last_id h.id h.count h.step) h.mask ≡ true }
    ensures same { buffers state.new ≡ buffers state.old }
    ensures count { result ≡ differences (lent state.old) (kept (run_with h first list.now from)) }
    ensures state { lent state.new ≡ apply_all (lent state.old) (kept (run_with h first list.now from)) }
{
    let mask = h.mask;
    let bytes = ports::spread_mask(mask);
    let n = state.put_one(table, h.id, bytes, first, 0);
    if h.count == 0 {
        return n;
    }
    let rest = Header {
        id: h.id + h.step,
        mask,
        count: h.count,
        step: h.step,
    };
    n + put_run(state, table, rest, list, from)
}

// How far a step led within a part, and how many of the writes that it made made a difference.
#[derive(Clone, Copy)]
struct Reached {
    progress: Progress,
    at: usize,
    differences: usize,
}

// The word at `at`.
fn take_one(
    p: Progress,
    state: &mut Lent<'_>,
    table: &HeldTable,
    part: &[u32],
    at: usize,
) -> Reached
    requires at_in_bounds { at < length part.now }
    ensures same { buffers state.new ≡ buffers state.old }
    ensures further { at < result.at }
    ensures leads { Leads part.now p at (lent state.old)
        result.progress result.at (lent state.new) result.differences }
{
    let w = take_word(p, state, table, part[at]);
    let progress = w.progress;
    Reached {
        progress,
        at: at + 1,
        differences: w.difference as usize,
    }
}

// The commands from `at` on whose words are all here and below the limit, one after another, as long as none of their writes can be at
// fault. How many words one takes tells where the next begins, which no iterator gives. What the next word goes by is kept apart, and put
// together at the end: a progress that is written in parts and read whole holds up each command.
fn take_commands(
    p: Progress,
    state: &mut Lent<'_>,
    table: &HeldTable,
    part: &[u32],
    at: usize,
) -> Reached
    requires at_in_bounds { (at ≤ length part.now) × (p.left ≡ 0) × (p.pad ≡ 0) × (p.begun ≡ 0) × (p.fault ≡ 0) }
    ensures same { buffers state.new ≡ buffers state.old }
    ensures leads { Leads part.now p at (lent state.old)
        result.progress result.at (lent state.new) result.differences }
{
    let mut come = p.come;
    let mut place = p.place;
    let mut first = p.first;
    let mut id = p.id;
    let mut mask = p.mask;
    let mut step = p.step;
    let mut writes = p.writes;
    let mut i = at;
    let mut differences: usize = 0;
    'commands: while 2 <= part.len() - i {
        let h = words::parts(part[i + 1]);
        let taken = words::words_taken(h);
        let last = commands::last_id(h.id, h.count, h.step);
        let here = (taken <= part.len() - i) & (come as usize + taken <= 65536);
        if !(here & commands::is_clear(h.id, last, h.mask)) {
            break 'commands;
        }
        let n = put_command(state, table, h, part[i], part, i + 2);
        differences += n as usize;
        place = come;
        come += (h.count + 3) / 2 * 2;
        first = part[i];
        id = last;
        mask = h.mask;
        step = h.step;
        writes = writes.wrapping_add(commands::added(h.mask, h.count));
        i += taken;
    }
    Reached {
        progress: Progress {
            come,
            place,
            begun: p.begun,
            first,
            id,
            mask,
            step,
            left: p.left,
            pad: p.pad,
            writes,
            fault: p.fault,
            differences: p.differences,
        },
        at: i,
        differences,
    }
}

// How many extra parameters can be taken in one run: those that are here and below the limit, at most 256.
fn run_length(left: u32, come: u32, here: usize) -> u32
    requires { (0 < left) × (come ≤ 65535) × (0 < here) }
    ensures { (0 < result) × (result ≤ left) × (come + result ≤ 65536) × (result ≤ here) × (result ≤ 256) }
{
    let most = left.min(65536 - come).min(256);
    here.min(most as usize) as u32
}

// The extra parameters that are here, in one run, if none of their writes can be at fault.
fn take_extras(
    p: Progress,
    state: &mut Lent<'_>,
    table: &HeldTable,
    part: &[u32],
    at: usize,
) -> Reached
    requires at_in_bounds { (at < length part.now) × (0 < p.left) }
    ensures same { buffers state.new ≡ buffers state.old }
    ensures leads { Leads part.now p at (lent state.old)
        result.progress result.at (lent state.new) result.differences }
{
    if !((p.fault == 0) & (p.step <= 1) & (p.id <= 0xFFFF) & (p.come <= 65535)) {
        return Reached {
            progress: p,
            at,
            differences: 0,
        };
    }
    let n = run_length(p.left, p.come, part.len() - at);
    let first = p.id + p.step;
    let last = commands::last_id(first, n - 1, p.step);
    if !commands::is_clear(first, last, p.mask) {
        return Reached {
            progress: p,
            at,
            differences: 0,
        };
    }
    let h = Header {
        id: first,
        mask: p.mask,
        count: n - 1,
        step: p.step,
    };
    let differences = put_command(state, table, h, part[at], part, at + 1);
    let mut q = p;
    q.come = p.come + n;
    q.id = last;
    q.left = p.left - n;
    Reached {
        progress: q,
        at: at + n as usize,
        differences: differences as usize,
    }
}

// Some words from `at` on at once, commands or extra parameters; or none.
fn take_several(
    p: Progress,
    state: &mut Lent<'_>,
    table: &HeldTable,
    part: &[u32],
    at: usize,
) -> Reached
    requires at_in_bounds { at < length part.now }
    ensures same { buffers state.new ≡ buffers state.old }
    ensures leads { Leads part.now p at (lent state.old)
        result.progress result.at (lent state.new) result.differences }
{
    if 0 < p.left {
        return take_extras(p, state, table, part, at);
    }
    if (p.left == 0) & (p.pad == 0) & (p.begun == 0) & (p.fault == 0) {
        return take_commands(p, state, table, part, at);
    }
    Reached {
        progress: p,
        at,
        differences: 0,
    }
}

// Some words from `at` on, and one at least.
fn take_some(
    p: Progress,
    state: &mut Lent<'_>,
    table: &HeldTable,
    part: &[u32],
    at: usize,
) -> Reached
    requires at_in_bounds { at < length part.now }
    ensures same { buffers state.new ≡ buffers state.old }
    ensures further { at < result.at }
    ensures leads { Leads part.now p at (lent state.old)
        result.progress result.at (lent state.new) result.differences }
{
    let r = take_several(p, state, table, part, at);
    if at < r.at {
        return r;
    }
    let reached = r.progress;
    take_one(reached, state, table, part, r.at)
}

// A part, from its first word to its last, by steps of one word or more, each of which tells where the next begins. The differences of its
// writes are added at the end.
pub fn take_part(p: Progress, state: &mut Lent<'_>, part: &[u32]) -> Progress
    ensures same { buffers state.new ≡ buffers state.old }
    ensures progress { result ≡ onward p (lent state.old) part.now }
    ensures state { lent state.new ≡ apply_all (lent state.old) (made p part.now) }
{
    let table = HeldTable::new();
    let mut q = p;
    let mut at: usize = 0;
    let mut n: usize = 0;
    while at < part.len() {
        let r = take_some(q, state, &table, part, at);
        let reached = r.progress;
        q = reached;
        at = r.at;
        n += r.differences;
    }
    q.differences = p.differences.wrapping_add((n % 0x100000000) as u32);
    q
}
