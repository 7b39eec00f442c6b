// The sixteen-byte rule, and writes with mask 0: request 3 of document 02.
use crate::{four, show};
use std::io;

// "Lists whose words aren't a multiple of 4 are now refusal 15, place 0, tested after 1 and before any command"
fn lengths(rt: &HostRuntime) -> io::Result<()> {
    show::judged(rt, "a lone word", &[2])?;
    show::judged(rt, "two words", &[2, 0x000F0040])?;
    show::judged(rt, "two words that lack one", &[1, 0x001F0041])?;
    show::judged(rt, "padding left out", &[1, 0x001F0041, 2])?;
    show::judged(
        rt,
        "six words, and a jump",
        &[1, 0x000F0041, 0, 0, 1, 0x000F023C],
    )?;
    // 004: "A common pitfall is having the finalization command (write to register 0x0010) not executed because it was the last 8
    // bytes of a non-0x10 byte aligned command buffer"; "0x12345678 is the value typically written by commercial software"
    show::judged(
        rt,
        "the end of a buffer in an odd pair",
        &[0x12345678, 0x000F0010],
    )?;
    four::judged(rt, "the end of a buffer", [0, 0, 0x12345678, 0x000F0010])
}

// n words, all zero, that are read.
fn zeros(rt: &HostRuntime, label: &str, n: usize) -> io::Result<()> {
    let words: &[u32] = &[0u32; 65538];
    if n <= words.len() {
        show::cells_after(rt, label, &words[0..n], &[])?;
    }
    Ok(())
}

// "after 1"
fn limit(rt: &HostRuntime) -> io::Result<()> {
    zeros(rt, "65,534 words", 65534)?;
    zeros(rt, "65,536 words", 65536)?;
    zeros(rt, "65,537 words", 65537)?;
    zeros(rt, "65,538 words", 65538)
}

// "Writes with mask 0 are still checked, but no longer belong to an expansion .. the counts of an expansion leave them out"
fn mask_0(rt: &HostRuntime) -> io::Result<()> {
    four::counts(
        rt,
        "41, then 42 with mask 0",
        [1, 0x000F0041, 2, 0x00000042],
    )?;
    show::counts(
        rt,
        "41 to 43 with mask 0, then 44",
        &[1, 0x80200041, 2, 3, 4, 0x000F0044, 0, 0],
    )?;
    four::counts(rt, "300 with mask 0", [1, 0x000F0041, 2, 0x00000300])?;
    show::counts(
        rt,
        "23B and 23C with mask 0",
        &[1, 0x000F0041, 0, 0, 1, 0x8010023B, 2, 0],
    )?;
    four::counts(rt, "fog data with mask 0", [1, 0x000F0041, 2, 0x000000E8])
}

pub(crate) fn all(rt: &HostRuntime) -> io::Result<()> {
    show::group(rt, "sixteen bytes")?;
    lengths(rt)?;
    limit(rt)?;
    mask_0(rt)
}
