// What a write does to one word under its mask, and a data write or an upload to the two table ports. The contracts cite
// specs/Ports.antt and specs/Uploads.antt.
#![tactic(auto)]

ghost use Rattle.std.specs.Prelude.{◌≡◌, ◌+◌, ◌*◌, ◌/◌, ◌≤◌, ◌<◌, length};
ghost use Rattle.numbers.specs.Bits.{spread, merge};
ghost use Rattle.ports.specs.Ports.{entry, named, rise, fog_cells, fog_entries, light_cells, light_entries};
ghost use Rattle.ports.specs.Uploads.{filled, wrapped, uploaded, risen, fog_cells_after, fog_uploaded, light_cells_after, light_uploaded};

// The bytes that a mask names, all ones: the product brings each of its four bits to the foot of a byte.
pub fn spread_mask(m: u32) -> u32
    ensures { result ≡ spread m }
{
    (m % 16 * 0x204081 & 0x1010101) * 0xFF
}

// Of the bits e the new, of all others the old.
pub fn merged(e: u32, old: u32, new: u32) -> u32
    ensures { result ≡ merge e old new }
{
    (old & !e) | (new & e)
}

// An entry with the low 24 bits of v.
pub fn entered(old: u32, v: u32) -> u32
    ensures { result ≡ entry old v }
{
    old / 0x1000000 * 0x1000000 + v % 0x1000000
}

// An index in the low bits of x, of N values, that rises k times.
fn risen<const N: u32>(x: u32, k: u32) -> u32
    requires { (0 < N) × (N ≤ 256) × (x / N * N + N ≤ 0x100000000) × (k < 256) }
    ensures { result ≡ risen N x k }
{
    x / N * N + (x % N + k) % N
}

// `risen::<256>(x, 1)` in whole words: that becomes a store of the low byte alone, which holds up the next look at the cell.
fn risen256(x: u32) -> u32
    ensures { result ≡ rise 256 x }
{
    if x % 256 == 255 { x - 255 } else { x + 1 }
}

// The light table t is named.
fn is_named(t: u32) -> bool
    ensures { result ≡ named t }
{
    (t != 2) & (t != 7) & (t < 0x18)
}

// A write to the fog port's data.
pub fn put_fog(cells: &mut [u32; 768], fog: &mut [u32; 128], value: u32)
    ensures { (cells.new ≡ fog_cells cells.old)
        × (fog.new ≡ fog_entries cells.old fog.old value) }
{
    let x = cells[0xE6];
    let i = (x % 128) as usize;
    fog[i] = entered(fog[i], value);
    cells[0xE6] = risen::<128>(x, 1);
}

// A write to the light port's data: an unnamed table keeps its entries, and the index rises all the same.
pub fn put_light(cells: &mut [u32; 768], light: &mut [u32; 6144], value: u32)
    ensures { (cells.new ≡ light_cells cells.old)
        × (light.new ≡ light_entries cells.old light.old value) }
{
    let x = cells[0x1C5];
    cells[0x1C5] = risen256(x);
    let t = x / 256 % 32;
    if is_named(t) {
        let i = (t * 256 + x % 256) as usize;
        light[i] = entered(light[i], value);
    }
}

// Words of `list`, n of them from j on, go to the entries from e on. By index: after a loop over `iter_mut` and `zip` nothing is known of
// what it wrote.
fn fill(entries: &mut [u32], e: usize, list: &[u32], j: usize, n: usize)
    requires { (e + n ≤ length entries.old) × (j + n ≤ length list.now) }
    ensures { entries.new ≡ filled entries.old e list.now j n }
{
    for k in 0..n {
        entries[e + k] = entered(entries[e + k], list[j + k]);
    }
}

fn wrap(size: usize, i: usize) -> usize
    ensures { result ≡ wrapped size i }
{
    if i < size { i } else { 0 }
}

// `count` words of `list`, from `from` on, go to a port's open table, from its entry `first` on, in stretches that its end cuts: how long
// one is tells where the next begins, which no iterator gives.
fn upload(
    entries: &mut [u32],
    table: usize,
    size: usize,
    first: usize,
    list: &[u32],
    from: usize,
    count: usize,
)
    requires { (first < size) × (table + size ≤ length entries.old) × (from + count ≤ length list.now) }
    ensures { entries.new ≡ uploaded size table first entries.old list.now from count }
{
    let mut i = first;
    let mut j = from;
    let mut left = count;
    while 0 < left {
        let n = left.min(size - i);
        fill(entries, table + i, list, j, n);
        i = wrap(size, i + n);
        j += n;
        left -= n;
    }
}

// `count` words of `list`, from `from` on, written to the fog port's data one after another.
pub fn upload_fog(
    cells: &mut [u32; 768],
    fog: &mut [u32; 128],
    list: &[u32],
    from: usize,
    count: u32,
)
    requires { (from + count ≤ length list.now) × (count < 256) }
    ensures { (cells.new ≡ fog_cells_after cells.old count)
        × (fog.new ≡ fog_uploaded cells.old fog.old list.now from count) }
{
    let x = cells[0xE6];
    upload(fog, 0, 128, (x % 128) as usize, list, from, count as usize);
    cells[0xE6] = risen::<128>(x, count);
}

// The same for the light port's data: an unnamed table keeps its entries, and the index rises all the same.
pub fn upload_light(
    cells: &mut [u32; 768],
    light: &mut [u32; 6144],
    list: &[u32],
    from: usize,
    count: u32,
)
    requires { (from + count ≤ length list.now) × (count < 256) }
    ensures { (cells.new ≡ light_cells_after cells.old count)
        × (light.new ≡ light_uploaded cells.old light.old list.now from count) }
{
    let x = cells[0x1C5];
    let t = x / 256 % 32;
    cells[0x1C5] = risen::<256>(x, count);
    if is_named(t) {
        upload(
            light,
            (t * 256) as usize,
            256,
            (x % 256) as usize,
            list,
            from,
            count as usize,
        );
    }
}
