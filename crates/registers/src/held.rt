// The held registers as constant tables: 66 rows of an id and its held-bit word, in the order of the document's table, and for each low
// byte of an id the row to look at.
ghost use Rattle.std.specs.Prelude.{◌≡◌, ◌≢◌, MatchOption};
ghost use Rattle.registers.specs.Held.{bits_of};
ghost use Rattle.registers.specs.Tables.{held_table, slot_table, LookupTables};

// A row: the id, and the bits that it holds.
const HELD: [u32; 132] = [
    0x040, 0x00000003, 0x041, 0x00FFFFFF, 0x043, 0x00FFFFFF, 0x048, 0x00FFFFFF, 0x049, 0x00FFFFFF,
    0x04A, 0x00FFFFFF, 0x04B, 0x00FFFFFF, 0x04D, 0x00FFFFFF, 0x04E, 0x00FFFFFF, 0x0E1, 0x00FFFFFF,
    0x042, 0xFFFFFFFF, 0x044, 0xFFFFFFFF, 0x0FD, 0xFFFFFFFF, 0x103, 0xFFFFFFFF, 0x047, 0x00000001,
    0x06D, 0x00000001, 0x065, 0x00000003, 0x114, 0x00000003, 0x115, 0x00000003, 0x116, 0x00000003,
    0x066, 0x03FF03FF, 0x067, 0x03FF03FF, 0x068, 0x03FF03FF, 0x0E0, 0x0301FF0F, 0x0E6, 0x0000007F,
    0x100, 0x03000103, 0x101, 0xFFFF0707, 0x102, 0x0000000F, 0x112, 0x0000000F, 0x113, 0x0000000F,
    0x104, 0x0000FF71, 0x105, 0xFFFFFF71, 0x106, 0x00000777, 0x107, 0x00001F71, 0x117, 0x00070003,
    0x1C5, 0x00001FFF, 0x0C0, 0x0FFF0FFF, 0x0C1, 0x00777FFF, 0x0C2, 0x000F000F, 0x0C3, 0xFFFFFFFF,
    0x0C4, 0x00030003, 0x0C8, 0x0FFF0FFF, 0x0C9, 0x00777FFF, 0x0CA, 0x000F000F, 0x0CB, 0xFFFFFFFF,
    0x0CC, 0x00030003, 0x0D0, 0x0FFF0FFF, 0x0D1, 0x00777FFF, 0x0D2, 0x000F000F, 0x0D3, 0xFFFFFFFF,
    0x0D4, 0x00030003, 0x0D8, 0x0FFF0FFF, 0x0D9, 0x00777FFF, 0x0DA, 0x000F000F, 0x0DB, 0xFFFFFFFF,
    0x0DC, 0x00030003, 0x0F0, 0x0FFF0FFF, 0x0F1, 0x00777FFF, 0x0F2, 0x000F000F, 0x0F3, 0xFFFFFFFF,
    0x0F4, 0x00030003, 0x0F8, 0x0FFF0FFF, 0x0F9, 0x00777FFF, 0x0FA, 0x000F000F, 0x0FB, 0xFFFFFFFF,
    0x0FC, 0x00030003,
];

// The row to look at for each low byte of an id: no two held ids share theirs.
const SLOTS: [u8; 256] = [
    25, 26, 27, 13, 30, 31, 32, 33, 0, 1, 0, 1, 0, 1, 0, 1, 0, 1, 28, 29, 17, 18, 19, 34, 0, 1, 0,
    1, 0, 1, 0, 1, 0, 1, 0, 1, 0, 1, 0, 1, 0, 1, 0, 1, 0, 1, 0, 1, 0, 1, 0, 1, 0, 1, 0, 1, 0, 1, 0,
    1, 0, 1, 0, 1, 0, 1, 10, 2, 11, 1, 0, 14, 3, 4, 5, 6, 0, 7, 8, 1, 0, 1, 0, 1, 0, 1, 0, 1, 0, 1,
    0, 1, 0, 1, 0, 1, 0, 1, 0, 1, 0, 16, 20, 21, 22, 1, 0, 1, 0, 15, 0, 1, 0, 1, 0, 1, 0, 1, 0, 1,
    0, 1, 0, 1, 0, 1, 0, 1, 0, 1, 0, 1, 0, 1, 0, 1, 0, 1, 0, 1, 0, 1, 0, 1, 0, 1, 0, 1, 0, 1, 0, 1,
    0, 1, 0, 1, 0, 1, 0, 1, 0, 1, 0, 1, 0, 1, 0, 1, 0, 1, 0, 1, 0, 1, 0, 1, 0, 1, 0, 1, 0, 1, 0, 1,
    0, 1, 0, 1, 0, 1, 0, 1, 36, 37, 38, 39, 40, 35, 0, 1, 41, 42, 43, 44, 45, 1, 0, 1, 46, 47, 48,
    49, 50, 1, 0, 1, 51, 52, 53, 54, 55, 1, 0, 1, 23, 9, 0, 1, 0, 1, 24, 1, 0, 1, 0, 1, 0, 1, 0, 1,
    56, 57, 58, 59, 60, 1, 0, 1, 61, 62, 63, 64, 65, 12, 0, 1,
];

// The tables as values.
pub fn held_table() -> [u32; 132]
    ensures { result ≡ held_table }
{
    HELD
}

pub fn slot_table() -> [u8; 256]
    ensures { result ≡ slot_table }
{
    SLOTS
}

// Both tables, made once by an entry point and lent down to each look-up: a constant array is written anew wherever it is indexed.
#[derive(Clone, Copy)]
pub struct HeldTable {
    slots: [u8; 256],
    rows: [u32; 132],
    ghost known: { LookupTables slots rows },
}

impl HeldTable {
    pub fn new() -> HeldTable {
        HeldTable {
            slots: slot_table(),
            rows: held_table(),
        }
    }

    // The bits that the register `id` holds, if it is held: those of the one row that can be its own.
    pub(super) fn row_of(&self, id: u32) -> Option<u32>
        ensures { MatchOption result (bits_of id ≡ 0) (λ bits. (bits ≡ bits_of id) × (bits ≢ 0)) }
    {
        let row = 2 * usize::from(self.slots[(id % 256) as usize]);
        if self.rows[row] == id {
            Some(self.rows[row + 1])
        } else {
            None
        }
    }

    // The bits that the register `id` holds, 0 where it isn't held.
    pub fn bits_of(&self, id: u32) -> u32
        ensures { result ≡ bits_of id }
    {
        self.row_of(id).unwrap_or(0)
    }
}
