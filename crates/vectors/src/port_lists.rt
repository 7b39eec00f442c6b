// The two ports: document 004, "GPUREG_FOG_LUT_DATAi" and "GPUREG_LIGHTING_LUT_DATAi", and document 01, "Ports".
use crate::{four, show};
use std::io;

fn fog(rt: &HostRuntime) -> io::Result<()> {
    // 004: "Each write to these registers writes the provided value to the fog look-up table, starting at the index
    // selected with GPUREG_FOG_LUT_INDEX"
    show::fog_after(
        rt,
        "fog, one id",
        &[0, 0x000F00E6, 0x111111, 0x001F00E8, 0x222222, 0, 0, 0],
        &[0, 1, 2],
    )?;
    // "These registers", E8 to EF, are one port
    show::fog_after(
        rt,
        "fog, eight ids",
        &[5, 0x000F00E6, 1, 0x807F00E8, 2, 3, 4, 5, 6, 7, 8, 0],
        &[4, 5, 6, 7, 8, 9, 10, 11, 12, 13],
    )?;
    // "0-23 LUT data"; 01: "The low 24 bits"
    show::fog_after(rt, "fog, 24 bits", &[0xFFFFFFFF, 0x000F00E8, 0, 0], &[0])?;
    // 01: "then E6 rises by one, 127 to 0"
    show::fog_after(
        rt,
        "fog, 127 to 0",
        &[127, 0x000F00E6, 0x111111, 0x001F00E8, 0x222222, 0, 0, 0],
        &[127, 0],
    )?;
    // 01: "004 gives a 16-bit index and 002 seven bits; 002 decides"
    show::fog_after(
        rt,
        "fog, a long index",
        &[0xFF82, 0x000F00E6, 0x333333, 0x000F00E8],
        &[2],
    )
}

fn light(rt: &HostRuntime) -> io::Result<()> {
    // 004, "Format of an entry": 24 bits; "GPUREG_LIGHTING_LUT_INDEX": "0-7 Starting index", "8-12 Look-up table"; table 1 is D1
    show::light_after(
        rt,
        "light, D1",
        &[0x110, 0x000F01C5, 0xFF123456, 0x000F01C8],
        &[0x10F, 0x110, 0x111],
    )?;
    // 01: "then bits 0-7 rise by one, 255 to 0, and the table number stays"
    show::light_after(
        rt,
        "light, 255 to 0",
        &[0x1FF, 0x000F01C5, 1, 0x001F01C8, 2, 0, 0, 0],
        &[0x1FF, 0x100, 0x200],
    )?;
    // 004: "16-23 DA0-7"; the last table with a name
    four::light_after(
        rt,
        "light, DA7",
        [0x17FF, 0x000F01C5, 7, 0x000F01CF],
        0x17FF,
    )?;
    // 01: "Tables 2, 7 and 18h-1Fh aren't named in 000: their entries never change, but the index rises"
    four::light_after(
        rt,
        "light, table 2",
        [0x200, 0x000F01C5, 7, 0x000F01C8],
        0x200,
    )?;
    four::light_after(
        rt,
        "light, table 7",
        [0x7FF, 0x000F01C5, 7, 0x000F01C8],
        0x7FF,
    )?;
    show::light_after(
        rt,
        "light, table 1f",
        &[0x1F03, 0x000F01C5, 7, 0x000F01C8],
        &[0x3, 0x1703],
    )
}

// 01: a write is allowed if, "for a port's data id, its mask is Fh"; "No lent memory changes on any refusal".
fn masked(rt: &HostRuntime) -> io::Result<()> {
    show::fog_after(rt, "fog, mask e", &[5, 0x000F00E6, 1, 0x000E00E8], &[0, 5])?;
    show::fog_after(rt, "fog, mask 0", &[5, 0x000F00E6, 1, 0x000000EF], &[0, 5])?;
    show::light_after(
        rt,
        "light, mask 7",
        &[5, 0x000F01C5, 1, 0x000701C8],
        &[0, 5],
    )
}

pub(crate) fn all(rt: &HostRuntime) -> io::Result<()> {
    show::group(rt, "ports")?;
    fog(rt)?;
    light(rt)?;
    masked(rt)
}
