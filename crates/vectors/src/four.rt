// Lists of four words, given by value: an array is much less to prove at a call than a slice of one, so that the examples that
// have four words, which are most, are shown by these.
use crate::show;
use std::io;

// The answer alone.
pub(crate) fn judged(rt: &HostRuntime, label: &str, list: [u32; 4]) -> io::Result<()> {
    show::judged(rt, label, &list)
}

// The answer, and the cell of an id.
pub(crate) fn cell_after(rt: &HostRuntime, label: &str, list: [u32; 4], id: u32) -> io::Result<()> {
    show::cells_after(rt, label, &list, &[id])
}

// The answer, the light index, and a light entry.
pub(crate) fn light_after(
    rt: &HostRuntime,
    label: &str,
    list: [u32; 4],
    entry: u32,
) -> io::Result<()> {
    show::light_after(rt, label, &list, &[entry])
}

// Both numbers.
pub(crate) fn counts(rt: &HostRuntime, label: &str, list: [u32; 4]) -> io::Result<()> {
    show::counts_after(rt, label, &[], &list)
}

// Both numbers of the second of two lists.
pub(crate) fn counts_after(
    rt: &HostRuntime,
    label: &str,
    before: [u32; 4],
    list: [u32; 4],
) -> io::Result<()> {
    show::counts_after(rt, label, &before, &list)
}

// What a single write tells after the list.
pub(crate) fn written_after(
    rt: &HostRuntime,
    label: &str,
    before: [u32; 4],
    id: u32,
    mask: u32,
    value: u32,
) -> io::Result<()> {
    show::written_after(rt, label, &before, id, mask, value)
}

// The list in three parts: to the first cut, on to the second, and the rest; and the cell of an id.
pub(crate) fn in_parts(
    rt: &HostRuntime,
    label: &str,
    list: [u32; 4],
    first: usize,
    second: usize,
    id: u32,
) -> io::Result<()> {
    show::cut_twice(rt, label, &list, first, second, &[id])
}
