// Lists that arrive in pieces: request 1 of document 02.
use crate::{four, show};
use std::io;

// "cut anywhere, zero words too"
fn cuttings(rt: &HostRuntime) -> io::Result<()> {
    four::in_parts(rt, "one part", [2, 0x000F0040, 0, 0], 4, 4, 0x40)?;
    four::in_parts(
        rt,
        "between first parameter and header",
        [2, 0x000F0040, 0, 0],
        1,
        3,
        0x40,
    )?;
    four::in_parts(rt, "parts of zero words", [2, 0x000F0040, 0, 0], 0, 4, 0x40)?;
    show::cut_twice(
        rt,
        "before the padding word",
        &[1, 0x801F0041, 2, 0],
        3,
        4,
        &[0x41, 0x42],
    )?;
    // E6 is set to 0, and three words go to the port's data
    show::cut_twice(
        rt,
        "in a run of port data",
        &[0, 0x000F00E6, 1, 0x002F00E8, 2, 3, 0, 0],
        5,
        6,
        &[0xE6],
    )
}

// "the verdict, the place counted from the list's start and the live state are those of reading the joined list at once"
fn refusals(rt: &HostRuntime) -> io::Result<()> {
    four::in_parts(
        rt,
        "at fault in the second part",
        [2, 0x000F0040, 2, 0x000F0300],
        2,
        4,
        0x40,
    )?;
    // 01, "A command": a command that lacks words is 2, before its writes
    show::cut_twice(
        rt,
        "words left out",
        &[1, 0x803F0041, 2, 3],
        3,
        4,
        &[0x41, 0x42],
    )?;
    show::cut_twice(
        rt,
        "words missing, a write at fault",
        &[1, 0x803F0300, 2, 3],
        1,
        2,
        &[],
    )?;
    // the first command at fault ends the reading, and its words are counted on
    show::cut_twice(
        rt,
        "at fault, and counted on",
        &[1, 0x000F0300, 2, 0x000F0040, 1, 0x003F0041, 2, 3],
        2,
        4,
        &[0x40],
    )
}

// n words, zero but for the first two, cut at two places.
fn long(
    rt: &HostRuntime,
    label: &str,
    begin: [u32; 2],
    n: usize,
    first: usize,
    second: usize,
) -> io::Result<()> {
    let mut words = [0u32; 65539];
    words[0] = begin[0];
    words[1] = begin[1];
    let list: &[u32] = &words;
    if n <= list.len() {
        show::cut_twice(rt, label, &list[0..n], first, second, &[])?;
    }
    Ok(())
}

// "The 65,536 limit is on the joined length"; feeding answers are "held at 65,537"
fn limit(rt: &HostRuntime) -> io::Result<()> {
    long(rt, "65,536 words", [0, 0], 65536, 65536, 65536)?;
    long(rt, "one word more", [0, 0], 65539, 65536, 65537)?;
    long(rt, "a fault before them", [1, 0x000F0300], 65538, 2, 65538)
}

// 02: "refusal 15, place 0, tested after 1 and before any command, also at the close"
fn lengths(rt: &HostRuntime) -> io::Result<()> {
    long(rt, "two words more", [0, 0], 65538, 65536, 65537)?;
    long(rt, "two words less", [1, 0x000F0300], 65534, 2, 65534)
}

pub(crate) fn all(rt: &HostRuntime) -> io::Result<()> {
    show::group(rt, "pieces")?;
    cuttings(rt)?;
    refusals(rt)?;
    limit(rt)?;
    lengths(rt)
}
