// One command's writes applied to a state, one after another, by what the command writes to, with how many of them made a difference; and
// when none of its writes can be at fault.
// The contracts cite specs/Run.antt, specs/ToOne.antt, specs/Changes.antt and specs/Clear.antt.
#![tactic(auto)]

ghost use Rattle.std.specs.Prelude.{◌≡◌, List, ℕ, ◌+◌, ◌≤◌, ◌<◌, eqb, length};
ghost use Rattle.numbers.specs.Pick.{pick};
ghost use Rattle.numbers.specs.Bits.{merge};
ghost use Rattle.words.specs.Header.{adds_with};
ghost use Rattle.registers.specs.State.{st};
ghost use Rattle.registers.specs.Lent.{lent, buffers};
ghost use Rattle.registers.specs.Applied.{apply_all, differences};
ghost use Rattle.commands.specs.Run.{run_from, run_with};
ghost use Rattle.commands.specs.ToOne.{ToOne};
ghost use Rattle.commands.specs.Changes.{change, changes};
ghost use Rattle.commands.specs.Clear.{last_id, clear};

use registers::held::HeldTable;
use registers::lent::Lent;
use words::Header;

// The last id of a command with `count` extra parameters.
pub fn last_id(id: u32, count: u32, step: u32) -> u32
    requires { (id < 0x20000) × (count < 256) }
    ensures { result ≡ last_id id count step }
{
    if step == 0 { id } else { id + count }
}

// How many writes a command adds to the expansion: with mask 0 none.
pub fn added(mask: u32, count: u32) -> u32
    requires { count < 256 }
    ensures { (result ≡ adds_with mask count) × (result ≤ count + 1) }
{
    if mask == 0 { 0 } else { count + 1 }
}

// No write to an id of first..last under `mask` can be at fault: the range ends below 300h and meets neither a jump register nor, but for
// mask Fh, a port's data.
pub fn is_clear(first: u32, last: u32, mask: u32) -> bool
    ensures { result ≡ clear first last mask }
{
    (last <= 0x2FF)
        & ((last < 0x23C) | (0x23D < first))
        & ((mask == 15) | ((last < 0xE8) | (0xEF < first)) & ((last < 0x1C8) | (0x1CF < first)))
}

// A command to rising ids, one write after another: its first value is `first`, the others stand in `list` from `from` on. Tells how many
// of its writes made a difference.
fn apply_rising(
    state: &mut Lent<'_>,
    table: &HeldTable,
    h: Header,
    first: u32,
    list: &[u32],
    from: usize,
) -> u32
    requires id_bound { (h.id < 0x20000) × (h.count < 256) × (h.step ≡ 1) × (from + h.count ≤ length list.now) }
    ensures same { buffers state.new ≡ buffers state.old }
    ensures count { result ≡ differences (lent state.old) (run_with h first list.now from) }
    ensures state { lent state.new ≡ apply_all (lent state.old) (run_with h first list.now from) }
{
    let mask = h.mask;
    let bytes = ports::spread_mask(mask);
    let mut n = state.put_one(table, h.id, bytes, first, 0);
    for k in 0..h.count {
        let id = h.id + 1 + k;
        let value = list[from + k as usize];
        n = state.put_one(table, id, bytes, value, n);
    }
    n
}

// How often a cell that holds `c` changes by one to three values. Always three comparisons: where values lack, the last stands in, which
// changes nothing, so that no branch goes by their number.
fn few_changes(e: u32, old: u32, c: u32, values: &[u32]) -> u32
    requires { (0 < length values.now) × (length values.now ≤ 3) }
    ensures { (result ≡ changes e old c values.now 0 (length values.now)) × (result ≤ 3) }
{
    let last = values.len() - 1;
    let one = ports::merged(e, old, values[0]);
    let two = ports::merged(e, old, values[last.min(1)]);
    let three = ports::merged(e, old, values[last]);
    registers::changed(c, one) + registers::changed(one, two) + registers::changed(two, three)
}

// The same by any number of values. Each goes into the cell as it was at first, so that none waits for the one before it.
fn many_changes(e: u32, old: u32, c: u32, values: &[u32]) -> u32
    requires { length values.now < 256 }
    ensures { (result ≡ changes e old c values.now 0 (length values.now)) × (result ≤ length values.now) }
{
    let mut cell = c;
    let mut n: u32 = 0;
    for value in values {
        let next = ports::merged(e, old, *value);
        n += registers::changed(cell, next);
        cell = next;
    }
    n
}

// How often a cell that holds `old` changes by `first` and then by `values`.
fn count_changes(e: u32, old: u32, first: u32, values: &[u32]) -> u32
    requires { length values.now < 256 }
    ensures { result ≡ change old (merge e old first) + changes e old (merge e old first) values.now 0 (length values.now) }
{
    let c = ports::merged(e, old, first);
    let n = registers::changed(old, c);
    if values.len() == 0 {
        return n;
    }
    if values.len() <= 3 {
        return n + few_changes(e, old, c, values);
    }
    n + many_changes(e, old, c, values)
}

// The last of a command's values, where `last` is that of its extra parameters.
fn last_value(first: u32, count: u32, last: u32) -> u32
    ensures { result ≡ pick (eqb count 0) first last }
{
    if count == 0 { first } else { last }
}

// A command to one id that is no port's data: of its values the last decides, and each counts that changes the cell. A word stands before
// `from`, so that there is one to look at even where there are no others.
fn apply_same(
    cells: &mut [u32; 768],
    table: &HeldTable,
    h: Header,
    first: u32,
    list: &[u32],
    from: usize,
) -> u32
    requires to_one { ToOne h × (h.count < 256) × (from + h.count ≤ length list.now) × (0 < from) }
    ensures count { (fog light : List ℕ) → result ≡ differences (st cells.old fog light) (run_with h first list.now from) }
    ensures state { (fog light : List ℕ) → st cells.new fog light
        ≡ apply_all (st cells.old fog light) (run_with h first list.now from) }
{
    let bits = table.bits_of(h.id);
    if bits == 0 {
        return 0;
    }
    let i = h.id as usize;
    let e = bits & ports::spread_mask(h.mask);
    let old = cells[i];
    let value = last_value(first, h.count, list[from + h.count as usize - 1]);
    cells[i] = ports::merged(e, old, value);
    count_changes(e, old, first, &list[from..from + h.count as usize])
}

// Writes to one id that is no port's data, one for each of the `h.count` values that stand in `list` from `from` on: as above, without a
// first value apart.
pub fn apply_values(
    cells: &mut [u32; 768],
    table: &HeldTable,
    h: Header,
    list: &[u32],
    from: usize,
) -> u32
    requires to_one { ToOne h × (h.count < 256) × (from + h.count ≤ length list.now) }
    ensures count { (fog light : List ℕ) → result
        ≡ differences (st cells.old fog light) (run_from list.now from h.count h.id h.mask 0) }
    ensures state { (fog light : List ℕ) → st cells.new fog light
        ≡ apply_all (st cells.old fog light) (run_from list.now from h.count h.id h.mask 0) }
{
    let bits = table.bits_of(h.id);
    if bits == 0 {
        return 0;
    }
    if h.count == 0 {
        return 0;
    }
    let i = h.id as usize;
    let mask = h.mask;
    let e = bits & ports::spread_mask(mask);
    let old = cells[i];
    cells[i] = ports::merged(e, old, list[from + h.count as usize - 1]);
    many_changes(e, old, old, &list[from..from + h.count as usize])
}

// The writes of a command with the header `h`, by what it writes to: a port's data, one other id, or ids that rise. Its first value is
// `first`, the others stand in `list` from `from` on, which is not its start. Tells how many of them made a difference. Its mask isn't
// looked at: allowed writes of mask 0, which belong to no expansion, change nothing (law `kept_same`).
pub fn apply_run(
    state: &mut Lent<'_>,
    table: &HeldTable,
    h: Header,
    first: u32,
    list: &[u32],
    from: usize,
) -> u32
    requires id_bound { (h.id < 0x20000) × (h.count < 256) × (h.step ≤ 1) × (from + h.count ≤ length list.now) × (0 < from) }
    ensures same { buffers state.new ≡ buffers state.old }
    ensures count { result ≡ differences (lent state.old) (run_with h first list.now from) }
    ensures state { lent state.new ≡ apply_all (lent state.old) (run_with h first list.now from) }
{
    let id = h.id;
    let rises = h.step != 0;
    if rises {
        return apply_rising(state, table, h, first, list, from);
    }
    if (0xE8 <= id) & (id <= 0xEF) {
        ports::put_fog(state.cells, state.fog, first);
        ports::upload_fog(state.cells, state.fog, list, from, h.count);
        return h.count + 1;
    }
    if (0x1C8 <= id) & (id <= 0x1CF) {
        ports::put_light(state.cells, state.light, first);
        ports::upload_light(state.cells, state.light, list, from, h.count);
        return h.count + 1;
    }
    apply_same(state.cells, table, h, first, list, from)
}
