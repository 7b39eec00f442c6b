// Refused lists: document 01, "Numbers given back", with the jump registers of document 004.
use crate::{four, show};
use std::io;

// 01: "id above 2FFh".
fn ids(rt: &HostRuntime) -> io::Result<()> {
    four::judged(rt, "2fe, one extra", [1, 0x801F02FE, 2, 0])?;
    // 01, "Easy errors here": "Letting id 2FFh step to 000h"
    four::judged(rt, "2fe, two extra", [1, 0x802F02FE, 2, 3])?;
    four::judged(rt, "2ff, two extra, one id", [1, 0x002F02FF, 2, 3])?;
    four::judged(rt, "300", [1, 0x000F0300, 0, 0])?;
    four::judged(rt, "ffff", [1, 0x000FFFFF, 0, 0])
}

// 01: "id 23Ch or 23Dh"; 004, "GPUREG_CMDBUF_JUMP0": "This register triggers a jump to the first command buffer."
fn jumps(rt: &HostRuntime) -> io::Result<()> {
    // sizes and addresses of both buffers are set up, and then the first is jumped to
    show::judged(
        rt,
        "238 to 23b",
        &[4, 0x803F0238, 4, 0x300000, 0x300004, 0, 0, 0],
    )?;
    show::judged(
        rt,
        "238 to 23c",
        &[4, 0x804F0238, 4, 0x300000, 0x300004, 1, 0, 0],
    )?;
    four::judged(rt, "23b, one extra", [1, 0x801F023B, 2, 0])?;
    four::judged(rt, "23c", [1, 0x000F023C, 0, 0])?;
    four::judged(rt, "23d", [1, 0x000F023D, 0, 0])?;
    four::judged(rt, "23e", [1, 0x000F023E, 0, 0])
}

// 01: "Reading: 6, 1, then commands in order, each 2 first and then its writes; the first write at fault ends the reading,
// however deep in its command, with the command's first word as place."
fn order(rt: &HostRuntime) -> io::Result<()> {
    show::judged(
        rt,
        "the second command",
        &[1, 0x001F0041, 2, 0, 3, 0x000F0300, 0, 0],
    )?;
    four::judged(rt, "words before writes", [1, 0x003F0300, 2, 3])?;
    four::judged(
        rt,
        "a fault before missing words",
        [1, 0x000F0300, 2, 0x001F0041],
    )?;
    // port data 1C8 is the ninth write, and the jump register far behind it
    let mut list = [0u32; 204];
    list[1] = 0x8C8301C0;
    show::judged(rt, "the first fault of many", &list)?;
    // 01, "Easy errors here": "Applying writes while still looking for refusals"
    four::cell_after(
        rt,
        "nothing is applied",
        [1, 0x000F0041, 2, 0x000F023C],
        0x41,
    )
}

pub(crate) fn all(rt: &HostRuntime) -> io::Result<()> {
    show::group(rt, "refusals")?;
    ids(rt)?;
    jumps(rt)?;
    order(rt)
}
