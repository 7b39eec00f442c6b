// What the functions that C calls do, thin over the library's entry points; `pica_c` exports them. Each answers one number: high 32 bits
// the refusal's number, 0 where it answered; low 32 bits the answer, or the refusal's place. The contracts cite specs/Calls.antt.
#![tactic(auto)]

ghost use Rattle.std.specs.Prelude.{◌≡◌, length};
ghost use Rattle.words.specs.Reasons as words;
ghost use Rattle.words.specs.Writes.{writing};
ghost use Rattle.registers.specs.State.{st};
ghost use Rattle.registers.specs.Single.{write_answer, write_state};
ghost use Rattle.reader.specs.Read.{read_answers, read_state};
ghost use Rattle.pieces.specs.Pieces.{opening, opened_spare, feeding, fed_spare, close_answers, close_progress, closed_live, closed_spare};
ghost use Rattle.pieces.specs.Pieces as pieces;
ghost use Rattle.writes.specs.Listed.{writes_answer, writes_ids, writes_masks, writes_values};
ghost use Rattle.packer.specs.Packing.{pack_answer, pack_space};
ghost use Rattle.decode.specs.Decoded.{decoded_of};
ghost use Rattle.pica.specs.Calls.{answer, answers, differences_after};
ghost use Rattle.pica.specs.Calls.{decode_call, fields_after, fragment_of, fragment_call, stored_words_after};
ghost use Rattle.pica.specs.Readers.{progress_of, words_of, reader_after};

use parts::Progress;
use words::Refusal;

mod colours;
mod readers;

// A refusal's number above, its place or the answer below.
fn told(given: Result<usize, Refusal>) -> u64
    ensures { result ≡ answer (words.told given) }
{
    let (number, value) = match given {
        Ok(n) => (0, n),
        Err(why) => (u32::from(why.reason), why.place),
    };
    number as u64 * 0x100000000 + value as u64 % 0x100000000
}

// A list read into a state: the number of writes in its expansion; in `differences` how many of them made a difference, untouched on a
// refusal.
pub fn pica_read(
    cells: &mut [u32],
    fog: &mut [u32],
    light: &mut [u32],
    list: &[u32],
    differences: &mut [u32; 1],
) -> u64
    ensures answer { result ≡ answers (read_answers (st cells.old fog.old light.old) list.now) }
    ensures differences { differences.new
        ≡ differences_after (read_answers (st cells.old fog.old light.old) list.now)
        differences.old }
    ensures state { st cells.new fog.new light.new
        ≡ read_state (st cells.old fog.old light.old) list.now }
{
    let answer = reader::read(cells, fog, light, list);
    if let Ok(counts) = answer {
        *differences = [counts.differences];
    }
    told(answer.map(|counts| counts.writes))
}

// How a reading goes on, laid into the reader and told: the words that have come, or the refusal.
fn told_going(reader: &mut [u32; 12], going: Result<Progress, Refusal>) -> u64
    ensures answer { result ≡ answer (pieces.told going) }
    ensures reader { reader.new ≡ reader_after going reader.old }
{
    if let Ok(p) = going {
        *reader = readers::words_of(p);
    }
    told(going.map(|p| p.come as usize))
}

// A list that arrives in pieces is opened: 0.
pub fn pica_open(
    cells: &[u32],
    fog: &[u32],
    light: &[u32],
    spare_cells: &mut [u32],
    spare_fog: &mut [u32],
    spare_light: &mut [u32],
    reader: &mut [u32; 12],
) -> u64
    ensures answer { result
        ≡ answer
        (pieces.told
        (opening (st cells.now fog.now light.now)
        (st spare_cells.old spare_fog.old spare_light.old))) }
    ensures reader { reader.new
        ≡ reader_after
        (opening (st cells.now fog.now light.now)
        (st spare_cells.old spare_fog.old spare_light.old))
        reader.old }
    ensures spare { st spare_cells.new spare_fog.new spare_light.new
        ≡ opened_spare (st cells.now fog.now light.now)
        (st spare_cells.old spare_fog.old spare_light.old) }
{
    let went = pieces::open(cells, fog, light, spare_cells, spare_fog, spare_light);
    told_going(reader, went)
}

// A part of the list is fed: how many words have come, held at 65,537.
pub fn pica_feed(
    spare_cells: &mut [u32],
    spare_fog: &mut [u32],
    spare_light: &mut [u32],
    reader: &mut [u32; 12],
    part: &[u32],
) -> u64
    ensures answer { result
        ≡ answer
        (pieces.told
        (feeding (progress_of reader.old)
        (st spare_cells.old spare_fog.old spare_light.old) part.now)) }
    ensures reader { reader.new
        ≡ reader_after
        (feeding (progress_of reader.old)
        (st spare_cells.old spare_fog.old spare_light.old) part.now)
        reader.old }
    ensures spare { st spare_cells.new spare_fog.new spare_light.new
        ≡ fed_spare (progress_of reader.old)
        (st spare_cells.old spare_fog.old spare_light.old) part.now }
{
    let p = readers::progress_of(reader);
    let went = pieces::feed(p, spare_cells, spare_fog, spare_light, part);
    told_going(reader, went)
}

// The list is closed: the number of writes in its expansion; in `differences` how many of them made a difference, untouched on a refusal.
pub fn pica_close(
    cells: &mut [u32],
    fog: &mut [u32],
    light: &mut [u32],
    spare_cells: &mut [u32],
    spare_fog: &mut [u32],
    spare_light: &mut [u32],
    reader: &mut [u32; 12],
    differences: &mut [u32; 1],
) -> u64
    ensures answer { result
        ≡ answers
        (close_answers (progress_of reader.old) (st cells.old fog.old light.old)
        (st spare_cells.old spare_fog.old spare_light.old)) }
    ensures differences { differences.new
        ≡ differences_after
        (close_answers (progress_of reader.old) (st cells.old fog.old light.old)
        (st spare_cells.old spare_fog.old spare_light.old))
        differences.old }
    ensures reader { reader.new
        ≡ words_of
        (close_progress (progress_of reader.old) (st cells.old fog.old light.old)
        (st spare_cells.old spare_fog.old spare_light.old)) }
    ensures live { st cells.new fog.new light.new
        ≡ closed_live (progress_of reader.old) (st cells.old fog.old light.old)
        (st spare_cells.old spare_fog.old spare_light.old) }
    ensures spare { st spare_cells.new spare_fog.new spare_light.new
        ≡ closed_spare (progress_of reader.old) (st cells.old fog.old light.old)
        (st spare_cells.old spare_fog.old spare_light.old) }
{
    let p = readers::progress_of(reader);
    let closed = pieces::close(p, cells, fog, light, spare_cells, spare_fog, spare_light);
    let verdict = closed.verdict;
    *reader = readers::words_of(closed.progress);
    if let Ok(made) = verdict {
        *differences = [made.differences];
    }
    told(verdict.map(|made| made.writes))
}

// One write applied to a state: 1 if it made a difference, else 0.
pub fn pica_write(
    cells: &mut [u32],
    fog: &mut [u32],
    light: &mut [u32],
    id: u32,
    mask: u32,
    value: u32,
) -> u64
    ensures answer { result ≡ answer (write_answer (st cells.old fog.old light.old) (writing id mask value)) }
    ensures state { st cells.new fog.new light.new
        ≡ write_state (st cells.old fog.old light.old) (writing id mask value) }
{
    told(registers::write(cells, fog, light, id, mask, value).map(usize::from))
}

// The writes of a list, put into three buffers: how many there are.
pub fn pica_writes(list: &[u32], ids: &mut [u32], masks: &mut [u32], values: &mut [u32]) -> u64
    ensures answer { result ≡ answer (writes_answer list.now ids.old masks.old values.old) }
    ensures ids { ids.new ≡ writes_ids list.now ids.old masks.old values.old }
    ensures masks { masks.new ≡ writes_masks list.now ids.old masks.old values.old }
    ensures values { values.new ≡ writes_values list.now ids.old masks.old values.old }
{
    told(writes::writes_of(list, ids, masks, values))
}

// Writes packed into the shortest list: how many words of the space it takes.
pub fn pica_pack(ids: &[u32], masks: &[u32], values: &[u32], space: &mut [u32]) -> u64
    ensures answer { result ≡ answer (pack_answer ids.now masks.now values.now (length space.old)) }
    ensures space { space.new ≡ pack_space ids.now masks.now values.now space.old }
{
    told(packer::pack(ids, masks, values, space))
}

// The decoded state, one word a field: 0.
pub fn pica_decode(cells: &[u32], fog: &[u32], light: &[u32], fields: &mut [u32; 204]) -> u64
    ensures answer { result ≡ decode_call (decoded_of (st cells.now fog.now light.now)) }
    ensures fields { fields.new
        ≡ fields_after (decoded_of (st cells.now fog.now light.now)) fields.old }
{
    let answer = decode::decode(cells, fog, light);
    if let Ok(settings) = answer {
        flat::lay_settings(fields, settings);
    }
    told(answer.map(|_| 0))
}

// What becomes of a fragment: the verdict's number, and what is then stored.
pub fn pica_fragment(
    cells: &[u32],
    fog: &[u32],
    light: &[u32],
    given: &[u32; 11],
    stored: &mut [u32; 3],
) -> u64
    ensures answer { result ≡ fragment_call (fragment_of (st cells.now fog.now light.now) given.now) }
    ensures stored { stored.new
        ≡ stored_words_after (fragment_of (st cells.now fog.now light.now) given.now)
        stored.old }
{
    let g = colours::given_of(given);
    let old = colours::stored_of(given);
    let answer = fragment::draw(cells, fog, light, g, given[7], old);
    if let Ok(outcome) = answer {
        *stored = colours::words_stored(outcome.stored);
    }
    told(answer.map(|outcome| outcome.verdict as usize))
}
