// Did that write change anything? Request 2 of document 02.
use crate::{four, show};
use std::io;

// "A single masked write should also say whether the cell, entry or index it touches differs afterwards"; 107 holds 1F71
fn single_writes(rt: &HostRuntime) -> io::Result<()> {
    let held = [0x1F71, 0x000F0107, 0, 0];
    show::written(rt, "another value", 0x107, 15, 0x1F71)?;
    four::written_after(rt, "the value that is there", held, 0x107, 15, 0x1F71)?;
    four::written_after(
        rt,
        "equal in the byte that is written",
        held,
        0x107,
        1,
        0x71,
    )?;
    four::written_after(
        rt,
        "another in the byte that is written",
        held,
        0x107,
        2,
        0x71,
    )
}

// where no held bit becomes another
fn beside_the_held(rt: &HostRuntime) -> io::Result<()> {
    let held = [0x1F71, 0x000F0107, 0, 0];
    four::written_after(rt, "bytes without held bits", held, 0x107, 12, 0xFFFF0000)?;
    four::written_after(rt, "bits beside the held ones", held, 0x107, 15, 0xFFFFFFFF)?;
    four::written_after(rt, "mask 0", held, 0x107, 0, 0)?;
    four::written_after(rt, "an id that isn't held", held, 0x11C, 15, 1)
}

fn indices(rt: &HostRuntime) -> io::Result<()> {
    four::written_after(
        rt,
        "an index with its own value",
        [5, 0x000F00E6, 0, 0],
        0xE6,
        15,
        5,
    )?;
    four::written_after(
        rt,
        "an index with another",
        [5, 0x000F00E6, 0, 0],
        0xE6,
        15,
        6,
    )?;
    show::written(rt, "refused", 0x23C, 15, 0)
}

// "A port data write counts, since its index always moves"
fn ports(rt: &HostRuntime) -> io::Result<()> {
    show::written(rt, "fog data that its entry holds", 0xE8, 15, 0)?;
    show::written(rt, "light data that its entry holds", 0x1C8, 15, 0)?;
    four::written_after(
        rt,
        "an unnamed table's data",
        [0x200, 0x000F01C5, 0, 0],
        0x1C8,
        15,
        0,
    )
}

// "That second number is the count over the expansion, each write judged on the state left by those before it"
fn lists(rt: &HostRuntime) -> io::Result<()> {
    four::counts(
        rt,
        "11C to 11E",
        [0xAAAAAAAA, 0x802F011C, 0xBBBBBBBB, 0xCCCCCCCC],
    )?;
    four::counts(rt, "41 to 43", [1, 0x802F0041, 2, 3])?;
    four::counts_after(
        rt,
        "41 to 43 once more",
        [1, 0x802F0041, 2, 3],
        [1, 0x802F0041, 2, 3],
    )
}

// to one id
fn values(rt: &HostRuntime) -> io::Result<()> {
    four::counts(rt, "one value twice", [5, 0x001F0041, 5, 0])?;
    four::counts_after(
        rt,
        "there and back",
        [5, 0x000F0041, 0, 0],
        [5, 0x002F0041, 6, 5],
    )?;
    show::counts(
        rt,
        "five values, the third and the last as before",
        &[1, 0x004F0041, 2, 2, 1, 1, 0, 0],
    )?;
    four::counts(rt, "a table's data, twice the same", [0, 0x001F00E8, 0, 0])?;
    show::counts(rt, "no write", &[])
}

// "A refused list gives neither count"
fn refusals(rt: &HostRuntime) -> io::Result<()> {
    four::counts(rt, "a jump at the end", [1, 0x000F0041, 0, 0x000F023C])
}

pub(crate) fn all(rt: &HostRuntime) -> io::Result<()> {
    show::group(rt, "differences")?;
    single_writes(rt)?;
    beside_the_held(rt)?;
    indices(rt)?;
    ports(rt)?;
    lists(rt)?;
    values(rt)?;
    refusals(rt)
}
