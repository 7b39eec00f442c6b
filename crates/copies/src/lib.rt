// What one state takes of another: the held bits of its cells, and its entries. The contracts cite specs/Copy.antt.
#![tactic(auto)]

ghost use Rattle.std.specs.Prelude.{◌≡◌, ◌<◌, length};
ghost use Rattle.registers.specs.State.{st};
ghost use Rattle.copies.specs.Copy.{cell_taking, entry_taking, taking, taken};

use registers::held::HeldTable;

// The cell of `id`, with the held bits of `new`.
fn cell_taken(table: &HeldTable, id: u32, old: u32, new: u32) -> u32
    ensures { result ≡ cell_taking id old new }
{
    let bits = table.bits_of(id);
    if bits == 0 {
        return old;
    }
    ports::merged(bits, old, new)
}

fn take_cells(to: &mut [u32; 768], from: &[u32; 768])
    ensures { to.new ≡ taking cell_taking 768 to.old from.now }
{
    let table = HeldTable::new();
    for id in 0..768u32 {
        let i = id as usize;
        to[i] = cell_taken(&table, id, to[i], from[i]);
    }
}

// Not by `zip`: after a loop over `iter_mut` and `zip` nothing is known of what it wrote.
fn take_entries(to: &mut [u32], from: &[u32])
    requires { length to.old ≡ length from.now }
    ensures { to.new ≡ taking entry_taking (length from.now) to.old from.now }
{
    for (i, entry) in to.iter_mut().enumerate() {
        *entry = ports::entered(*entry, from[i]);
    }
}

// The held bits and the entries of one state go to another.
pub fn take_state(
    cells: &mut [u32; 768],
    fog: &mut [u32; 128],
    light: &mut [u32; 6144],
    from_cells: &[u32; 768],
    from_fog: &[u32; 128],
    from_light: &[u32; 6144],
)
    ensures { st cells.new fog.new light.new
        ≡ taken (st cells.old fog.old light.old)
        (st from_cells.now from_fog.now from_light.now) }
{
    take_cells(cells, from_cells);
    take_entries(fog, from_fog);
    take_entries(light, from_light);
}
