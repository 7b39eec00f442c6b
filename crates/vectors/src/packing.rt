// Packing: document 01, "Packing", its examples, and lengths around a command's 256 writes; request 3 of document 02, which fills lists
// and drops writes with mask 0.
use crate::show;
use std::io;
use words::Refusal;

// The answer, as `label, n writes: N words` or with its refusal.
fn put_packed(
    rt: &HostRuntime,
    label: &str,
    n: usize,
    answer: Result<usize, Refusal>,
) -> io::Result<()> {
    match answer {
        Ok(words) => show::words_of(rt, label, n, words),
        Err(why) => show::refusal_of(rt, label, n, why),
    }
}

// The first n writes, packed into `room` words of the space.
fn pack_first(
    rt: &HostRuntime,
    label: &str,
    n: usize,
    room: usize,
    ids: &[u32],
    masks: &[u32],
    values: &[u32],
    space: &mut [u32],
) -> io::Result<()> {
    if ids.len() < n {
        return Ok(());
    }
    if masks.len() < n {
        return Ok(());
    }
    if values.len() < n {
        return Ok(());
    }
    if space.len() < room {
        return Ok(());
    }
    let answer = packer::pack(&ids[0..n], &masks[0..n], &values[0..n], &mut space[0..room]);
    put_packed(rt, label, n, answer)
}

// n writes to 41, with room for `room` words. 01: "256 equal ids: 258 words; 257: 260"; 02: "258 becomes 260".
fn equal_ids(rt: &HostRuntime, n: usize, room: usize) -> io::Result<()> {
    let mut space = [0u32; 1200];
    pack_first(
        rt,
        "equal ids",
        n,
        room,
        &[0x41u32; 600],
        &[15u32; 600],
        &[7u32; 600],
        &mut space,
    )
}

// 0, 1, 2, ..
fn rising() -> [u32; 600] {
    let mut ids = [0u32; 600];
    for (n, id) in ids.iter_mut().enumerate() {
        *id = n as u32;
    }
    ids
}

// n writes to rising ids, the first 0, ports among them.
fn rising_ids(rt: &HostRuntime, n: usize) -> io::Result<()> {
    let mut space = [0u32; 1200];
    pack_first(
        rt,
        "rising ids",
        n,
        1200,
        &rising(),
        &[15u32; 600],
        &[7u32; 600],
        &mut space,
    )
}

// Packs writes, and shows the words that were put.
fn pack_shown(
    rt: &HostRuntime,
    label: &str,
    ids: &[u32],
    masks: &[u32],
    values: &[u32],
    space: &mut [u32],
) -> io::Result<()> {
    let answer = packer::pack(ids, masks, values, space);
    put_packed(rt, label, ids.len(), answer)?;
    let Ok(words) = answer else {
        return Ok(());
    };
    if words == 0 {
        return Ok(());
    }
    if words <= space.len() {
        show::list_words(rt, &space[0..words])?;
    }
    Ok(())
}

// A few writes of the values 1, 2, 3, ..
fn masked(rt: &HostRuntime, label: &str, ids: &[u32], masks: &[u32]) -> io::Result<()> {
    let mut space = [0u32; 16];
    let values: &[u32] = &[1, 2, 3, 4, 5];
    let n = ids.len();
    if n <= values.len() {
        pack_shown(rt, label, ids, masks, &values[0..n], &mut space)?;
    }
    Ok(())
}

// Two of them.
fn pair(rt: &HostRuntime, label: &str, ids: [u32; 2], masks: [u32; 2]) -> io::Result<()> {
    masked(rt, label, &ids, &masks)
}

// All with the mask 15.
fn run(rt: &HostRuntime, label: &str, ids: &[u32]) -> io::Result<()> {
    let masks: &[u32] = &[15u32; 8];
    let n = ids.len();
    if n <= masks.len() {
        masked(rt, label, ids, &masks[0..n])?;
    }
    Ok(())
}

// Writes with the mask 15, and values of their own.
fn valued(rt: &HostRuntime, label: &str, ids: &[u32], values: &[u32]) -> io::Result<()> {
    let mut space = [0u32; 16];
    let masks: &[u32] = &[15u32; 8];
    let n = ids.len();
    if n <= masks.len() {
        pack_shown(rt, label, ids, &masks[0..n], values, &mut space)?;
    }
    Ok(())
}

fn runs(rt: &HostRuntime) -> io::Result<()> {
    // 01's two examples, and "Taking the longest run first: 8 words where 6 do"; 02: "The six-word examples gain the pair `0 0`"
    run(rt, "41 41 42 43", &[0x41, 0x41, 0x42, 0x43])?;
    run(rt, "41 41 42", &[0x41, 0x41, 0x42])?;
    run(rt, "41 42 43 43 43", &[0x41, 0x42, 0x43, 0x43, 0x43])
}

fn short_runs(rt: &HostRuntime) -> io::Result<()> {
    run(rt, "no write", &[0; 0])?;
    valued(rt, "a lone write", &[0x107], &[0x1F71])?;
    // refused: 3 at its index, and lengths that differ
    run(rt, "41 300", &[0x41, 0x300])?;
    valued(rt, "two ids, one value", &[0x41, 0x42], &[1])
}

// 02: "Writes with mask 0 are still checked, but no longer belong to an expansion: the packer drops them"
fn dropped(rt: &HostRuntime) -> io::Result<()> {
    masked(
        rt,
        "41, then 99 with mask 0, then 42",
        &[0x41, 0x99, 0x42],
        &[15, 0, 15],
    )?;
    masked(
        rt,
        "99 with mask 0 before 41, between and after",
        &[0x99, 0x41, 0x99, 0x41, 0x99],
        &[0, 15, 0, 15, 0],
    )?;
    masked(
        rt,
        "41, 42 and 43, 42 with mask 0",
        &[0x41, 0x42, 0x43],
        &[15, 0, 15],
    )?;
    pair(rt, "mask 0 alone", [0x41, 0x42], [0, 0])
}

// "still checked", and "the index in a packer's refusal .. still count every write given"
fn still_checked(rt: &HostRuntime) -> io::Result<()> {
    pair(rt, "mask 0, and then 300", [0x41, 0x300], [0, 15])?;
    pair(rt, "300 with mask 0", [0x41, 0x300], [15, 0])?;
    pair(rt, "23C with mask 0", [0x41, 0x23C], [15, 0])?;
    pair(rt, "port data with mask 0", [0x41, 0xE8], [15, 0])
}

fn equal_lengths(rt: &HostRuntime) -> io::Result<()> {
    equal_ids(rt, 1, 1200)?;
    equal_ids(rt, 254, 1200)?;
    equal_ids(rt, 255, 1200)?;
    equal_ids(rt, 256, 1200)?;
    equal_ids(rt, 257, 1200)?;
    equal_ids(rt, 258, 1200)?;
    equal_ids(rt, 509, 1200)?;
    equal_ids(rt, 510, 1200)?;
    equal_ids(rt, 511, 1200)?;
    equal_ids(rt, 512, 1200)?;
    equal_ids(rt, 513, 1200)?;
    // room for all but one word, and just enough
    equal_ids(rt, 256, 259)?;
    equal_ids(rt, 256, 260)
}

fn rising_lengths(rt: &HostRuntime) -> io::Result<()> {
    rising_ids(rt, 255)?;
    rising_ids(rt, 256)?;
    rising_ids(rt, 257)?;
    rising_ids(rt, 258)?;
    rising_ids(rt, 510)?;
    rising_ids(rt, 511)?;
    rising_ids(rt, 512)?;
    rising_ids(rt, 513)
}

pub(crate) fn all(rt: &HostRuntime) -> io::Result<()> {
    show::group(rt, "packing")?;
    runs(rt)?;
    short_runs(rt)?;
    dropped(rt)?;
    still_checked(rt)?;
    equal_lengths(rt)?;
    rising_lengths(rt)
}
