// How a vector is shown: its label with the answer's line, and then what some cells or entries hold after it was read into
// a state of zeros.
use parts::Progress;
use reader::Counts;
use std::io;
use std::io::Write;
use words::Refusal;

fn put_answer(rt: &HostRuntime, label: &str, verdict: Result<usize, Refusal>) -> io::Result<()> {
    let mut line = [0u8; 64];
    let n = lines::line_for(verdict, &mut line);
    print!(rt; "{label}: ")?;
    io::writer(rt).write_all(&line[..n])
}

// What reading answers, but for its second number.
fn put_reading(rt: &HostRuntime, label: &str, answer: Result<Counts, Refusal>) -> io::Result<()> {
    put_answer(rt, label, answer.map(|counts| counts.writes))
}

// Both numbers: the answer's line, and how many of the writes made a difference.
fn put_counts(rt: &HostRuntime, label: &str, answer: Result<Counts, Refusal>) -> io::Result<()> {
    put_reading(rt, label, answer)?;
    if let Ok(counts) = answer {
        println!(rt; "  differences {}", counts.differences)?;
    }
    Ok(())
}

// What a buffer holds at these places, in hexadecimal, as `  cell 107 = 00001f71`.
fn put_words(rt: &HostRuntime, kind: &str, buffer: &[u32], places: &[u32]) -> io::Result<()> {
    for place in places {
        let at = *place as usize;
        if let Some(word) = buffer.get(at) {
            println!(rt; "  {kind}{at:03x} = {word:08x}")?;
        }
    }
    Ok(())
}

// A group's heading.
pub(crate) fn group(rt: &HostRuntime, name: &str) -> io::Result<()> {
    println!(rt; "-- {name}")
}

// The answer alone.
pub(crate) fn judged(rt: &HostRuntime, label: &str, list: &[u32]) -> io::Result<()> {
    put_answer(rt, label, reader::judge_list(list))
}

// The answer, the cells of these ids, and these entries of the fog table and of the light tables, numbered through all of them.
fn state_after(
    rt: &HostRuntime,
    label: &str,
    list: &[u32],
    ids: &[u32],
    fog_entries: &[u32],
    light_entries: &[u32],
) -> io::Result<()> {
    let mut cells = [0u32; 768];
    let mut fog = [0u32; 128];
    let mut light = [0u32; 6144];
    put_reading(
        rt,
        label,
        reader::read(&mut cells, &mut fog, &mut light, list),
    )?;
    put_words(rt, "cell ", &cells, ids)?;
    put_words(rt, "fog ", &fog, fog_entries)?;
    put_words(rt, "light ", &light, light_entries)
}

// The answer, and the cells of these ids.
pub(crate) fn cells_after(
    rt: &HostRuntime,
    label: &str,
    list: &[u32],
    ids: &[u32],
) -> io::Result<()> {
    state_after(rt, label, list, ids, &[], &[])
}

// The answer, the fog index, and these fog entries.
pub(crate) fn fog_after(
    rt: &HostRuntime,
    label: &str,
    list: &[u32],
    entries: &[u32],
) -> io::Result<()> {
    state_after(rt, label, list, &[0xE6], entries, &[])
}

// The answer, the light index, and these light entries.
pub(crate) fn light_after(
    rt: &HostRuntime,
    label: &str,
    list: &[u32],
    entries: &[u32],
) -> io::Result<()> {
    state_after(rt, label, list, &[0x1C5], &[], entries)
}

// A packed run: its writes and its words.
pub(crate) fn words_of(rt: &HostRuntime, label: &str, n: usize, words: usize) -> io::Result<()> {
    println!(rt; "{label}, {n} writes: {words} words")
}

// A run that is refused.
pub(crate) fn refusal_of(rt: &HostRuntime, label: &str, n: usize, why: Refusal) -> io::Result<()> {
    let mut line = [0u8; 64];
    let k = lines::line_for(Err(why), &mut line);
    print!(rt; "{label}, {n} writes: ")?;
    io::writer(rt).write_all(&line[..k])
}

// The words of a list, in hexadecimal.
pub(crate) fn list_words(rt: &HostRuntime, list: &[u32]) -> io::Result<()> {
    print!(rt; " ")?;
    for word in list {
        print!(rt; " {word:08x}")?;
    }
    println!(rt;)
}

// What opening or feeding goes on from; a refusal is shown.
fn gone_on(rt: &HostRuntime, going: Result<Progress, Refusal>) -> io::Result<Progress> {
    match going {
        Ok(p) => Ok(p),
        Err(why) => {
            put_answer(rt, "  not fed", Err(why))?;
            Ok(pieces::fresh_progress())
        }
    }
}

// The reading goes on by a part.
fn fed(
    rt: &HostRuntime,
    p: Progress,
    cells: &mut [u32],
    fog: &mut [u32],
    light: &mut [u32],
    part: &[u32],
) -> io::Result<Progress> {
    gone_on(rt, pieces::feed(p, cells, fog, light, part))
}

// Three parts fed to a reader over states of zeros: both numbers at the close, how many words had come after each part, and the
// live state's cells of these ids.
fn in_parts(
    rt: &HostRuntime,
    label: &str,
    first: &[u32],
    second: &[u32],
    third: &[u32],
    ids: &[u32],
) -> io::Result<()> {
    let mut cells = [0u32; 768];
    let mut fog = [0u32; 128];
    let mut light = [0u32; 6144];
    let mut spare_cells = [0u32; 768];
    let mut spare_fog = [0u32; 128];
    let mut spare_light = [0u32; 6144];
    let opened = gone_on(
        rt,
        pieces::open(
            &cells,
            &fog,
            &light,
            &mut spare_cells,
            &mut spare_fog,
            &mut spare_light,
        ),
    )?;
    let p = fed(
        rt,
        opened,
        &mut spare_cells,
        &mut spare_fog,
        &mut spare_light,
        first,
    )?;
    let q = fed(
        rt,
        p,
        &mut spare_cells,
        &mut spare_fog,
        &mut spare_light,
        second,
    )?;
    let r = fed(
        rt,
        q,
        &mut spare_cells,
        &mut spare_fog,
        &mut spare_light,
        third,
    )?;
    let closed = pieces::close(
        r,
        &mut cells,
        &mut fog,
        &mut light,
        &mut spare_cells,
        &mut spare_fog,
        &mut spare_light,
    );
    let verdict = closed.verdict;
    put_counts(rt, label, verdict)?;
    put_words(rt, "come ", &[p.come, q.come, r.come], &[0, 1, 2])?;
    put_words(rt, "cell ", &cells, ids)
}

// The same of a list that is cut at two places.
pub(crate) fn cut_twice(
    rt: &HostRuntime,
    label: &str,
    list: &[u32],
    first: usize,
    second: usize,
    ids: &[u32],
) -> io::Result<()> {
    if list.len() < second {
        return Ok(());
    }
    if second < first {
        return Ok(());
    }
    in_parts(
        rt,
        label,
        &list[0..first],
        &list[first..second],
        &list[second..],
        ids,
    )
}

// Both numbers of the second of two lists, which are read one after the other into a state of zeros.
pub(crate) fn counts_after(
    rt: &HostRuntime,
    label: &str,
    before: &[u32],
    list: &[u32],
) -> io::Result<()> {
    let mut cells = [0u32; 768];
    let mut fog = [0u32; 128];
    let mut light = [0u32; 6144];
    let _ = reader::read(&mut cells, &mut fog, &mut light, before);
    put_counts(
        rt,
        label,
        reader::read(&mut cells, &mut fog, &mut light, list),
    )
}

// Both numbers of a list.
pub(crate) fn counts(rt: &HostRuntime, label: &str, list: &[u32]) -> io::Result<()> {
    counts_after(rt, label, &[], list)
}

fn put_written(rt: &HostRuntime, label: &str, answer: Result<bool, Refusal>) -> io::Result<()> {
    match answer {
        Ok(true) => println!(rt; "{label}: a difference"),
        Ok(false) => println!(rt; "{label}: none"),
        Err(why) => put_answer(rt, label, Err(why)),
    }
}

// What a single write tells that is made on a state of zeros after the list was read into it.
pub(crate) fn written_after(
    rt: &HostRuntime,
    label: &str,
    before: &[u32],
    id: u32,
    mask: u32,
    value: u32,
) -> io::Result<()> {
    let mut cells = [0u32; 768];
    let mut fog = [0u32; 128];
    let mut light = [0u32; 6144];
    let _ = reader::read(&mut cells, &mut fog, &mut light, before);
    put_written(
        rt,
        label,
        registers::write(&mut cells, &mut fog, &mut light, id, mask, value),
    )
}

// What a single write tells on a state of zeros.
pub(crate) fn written(
    rt: &HostRuntime,
    label: &str,
    id: u32,
    mask: u32,
    value: u32,
) -> io::Result<()> {
    written_after(rt, label, &[], id, mask, value)
}
