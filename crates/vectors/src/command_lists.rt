// Commands and their expansion: document 004, "Overview" and "Command Header", and document 01, "A command".
use crate::{four, show};
use std::io;

// 004: "If consecutive writing mode is enabled in the command header, the current command index will be incremented after
// each parameter write."
fn consecutive(rt: &HostRuntime) -> io::Result<()> {
    // 004: 'the sequence "0xAAAAAAAA 0x802F011C 0xBBBBBBBB 0xCCCCCCCC" is equivalent to a call to commands 0xF011C ..,
    // 0xF011D .. and 0xF011E'
    four::judged(
        rt,
        "consecutive",
        [0xAAAAAAAA, 0x802F011C, 0xBBBBBBBB, 0xCCCCCCCC],
    )?;
    // 004: "If consecutive writing mode were disabled, the command would be equivalent to three consecutive calls to 0xF011C"
    four::judged(
        rt,
        "not consecutive",
        [0xAAAAAAAA, 0x002F011C, 0xBBBBBBBB, 0xCCCCCCCC],
    )?;
    // the same on registers that are held: five of them, one after another, and
    show::cells_after(
        rt,
        "consecutive, held",
        &[
            2, 0x804F0040, 0x45E000, 0x38111110, 0x469000, 0x3747AE14, 0, 0,
        ],
        &[0x40, 0x41, 0x42, 0x43, 0x44],
    )?;
    // "Otherwise, the parameters will be consecutively written to the same register": the last one stays
    show::cells_after(
        rt,
        "not consecutive, held",
        &[1, 0x002F0102, 2, 3],
        &[0x102, 0x103, 0x104],
    )?;
    // 004, "Aliases": "a consecutively writing command based at 02C0 will write its first parameter to .. INDEX and ever
    // subsequent ones to .. DATA"
    show::judged(
        rt,
        "aliases",
        &[0x80000000, 0x808F02C0, 1, 2, 3, 4, 5, 6, 7, 8, 0, 0],
    )
}

// 004: "Each command is at least 8 bytes wide"; "more parameter words may follow (potentially including a padding word ..)".
fn widths(rt: &HostRuntime) -> io::Result<()> {
    // 01: "The empty list is well formed"
    show::judged(rt, "no command", &[0; 0])?;
    // 004: "In the simplest case, a command is exactly 8 bytes wide": two of them
    show::cells_after(
        rt,
        "commands of two words",
        &[2, 0x000F0040, 3, 0x000F0102],
        &[0x40, 0x102],
    )?;
    // 004: "a padding word to align commands to multiples of 8 bytes"; 01: "Any padding word .. accepted"
    four::judged(rt, "padded", [1, 0x001F0041, 2, 0])?;
    four::judged(rt, "padded with a number", [1, 0x001F0041, 2, 0xDEADBEEF])?;
    // 01: "a command needs more words than are left": six, with three extra parameters
    four::judged(rt, "words left out", [1, 0x003F0041, 2, 3])?;
    // 01: "Commands stand one after another": the next begins after the padding
    show::cells_after(
        rt,
        "after the padding",
        &[1, 0x001F0041, 2, 0, 3, 0x000F0042, 0, 0],
        &[0x41, 0x42],
    )
}

// 004, "Command Header".
fn headers(rt: &HostRuntime) -> io::Result<()> {
    // "28-30 Unused"; 01: "any unused bits are accepted"
    four::cell_after(rt, "unused bits", [2, 0x700F0040, 0, 0x70000000], 0x40)?;
    // "20-27 Number of extra parameters (may be zero)": at most 255, which with the padding word makes 258 words, and with the
    // pair 260 (02: "258 becomes 260")
    let mut list = [0u32; 260];
    list[1] = 0x0FFF0040;
    show::judged(rt, "255 extra", &list)?;
    show::judged(rt, "255 extra, of which two are left out", &list[..256])?;
    list[259] = 0x000F0040;
    show::judged(rt, "255 extra, and a lone write", &list)
}

pub(crate) fn all(rt: &HostRuntime) -> io::Result<()> {
    show::group(rt, "commands")?;
    consecutive(rt)?;
    widths(rt)?;
    headers(rt)
}
