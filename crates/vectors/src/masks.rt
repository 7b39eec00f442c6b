// Masks: document 004, "Parameter masking", and document 01, "A command" and "Held registers".
use crate::{four, show};
use std::io;

// 004: "commands 0x00010107 and 0x00020107 refer to the same thing but write different parts of the parameter."
fn parts(rt: &HostRuntime) -> io::Result<()> {
    four::cell_after(rt, "00010107", [0x1F71, 0x00010107, 0, 0], 0x107)?;
    four::cell_after(rt, "00020107", [0x1F71, 0x00020107, 0, 0], 0x107)?;
    four::cell_after(rt, "both", [0x1F71, 0x00010107, 0x1F71, 0x00020107], 0x107)
}

// 004: "setting bit 16 to zero indicates that the least significant byte of the parameter will not be overwritten, setting
// bit 17 to zero indicates that the parameter's second LSB will not be overwritten, etc."
fn bytes_kept(rt: &HostRuntime) -> io::Result<()> {
    four::cell_after(
        rt,
        "bit 16 zero",
        [0x11223344, 0x000F0042, 0xAABBCCDD, 0x000E0042],
        0x42,
    )?;
    four::cell_after(
        rt,
        "bit 17 zero",
        [0x11223344, 0x000F0042, 0xAABBCCDD, 0x000D0042],
        0x42,
    )?;
    four::cell_after(
        rt,
        "bit 18 zero",
        [0x11223344, 0x000F0042, 0xAABBCCDD, 0x000B0042],
        0x42,
    )?;
    four::cell_after(
        rt,
        "bit 19 zero",
        [0x11223344, 0x000F0042, 0xAABBCCDD, 0x00070042],
        0x42,
    )?;
    // no byte at all: the write changes nothing, and doesn't count (02)
    four::cell_after(
        rt,
        "no mask bit",
        [0x11223344, 0x000F0042, 0xAABBCCDD, 0x00000042],
        0x42,
    )
}

// 01: "A write to a held register replaces, of the bits it holds, those in the bytes whose mask bit is 1."
fn held_bits(rt: &HostRuntime) -> io::Result<()> {
    four::cell_after(
        rt,
        "bits that 40 holds",
        [0xFFFFFFFF, 0x000F0040, 0, 0],
        0x40,
    )?;
    // 004, "GPUREG_TEXENV_UPDATE_BUFFER": "Texture combiner buffer inputs are typically written with a mask of 0x2, and the
    // gas/fog mode configuration is typically written with a mask of 0x5."
    four::cell_after(
        rt,
        "combiner buffer inputs",
        [0xFFFFFFFF, 0x000200E0, 0, 0],
        0xE0,
    )?;
    four::cell_after(rt, "gas/fog mode", [0xFFFFFFFF, 0x000500E0, 0, 0], 0xE0)?;
    // 01: "An allowed write to any other id, port data apart, changes nothing": 45 isn't held, and its neighbours are
    show::cells_after(
        rt,
        "an id that isn't held",
        &[0xFFFFFFFF, 0x000F0045, 0, 0],
        &[0x44, 0x45, 0x46, 0x47],
    )
}

pub(crate) fn all(rt: &HostRuntime) -> io::Result<()> {
    show::group(rt, "masks")?;
    parts(rt)?;
    bytes_kept(rt)?;
    held_bits(rt)
}
