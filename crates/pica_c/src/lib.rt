// The functions that C calls, under their names in the static library. Each calls the function of its name of `pica` and promises the same.
#![tactic(auto)]

ghost use Rattle.std.specs.Prelude.{◌≡◌, length};
ghost use Rattle.words.specs.Writes.{writing};
ghost use Rattle.registers.specs.State.{st};
ghost use Rattle.registers.specs.Single.{write_answer, write_state};
ghost use Rattle.reader.specs.Read.{read_answers, read_state};
ghost use Rattle.pieces.specs.Pieces.{opening, opened_spare, feeding, fed_spare, close_answers, close_progress, closed_live, closed_spare};
ghost use Rattle.pieces.specs.Pieces as pieces;
ghost use Rattle.writes.specs.Listed.{writes_answer, writes_ids, writes_masks, writes_values};
ghost use Rattle.packer.specs.Packing.{pack_answer, pack_space};
ghost use Rattle.decode.specs.Decoded.{decoded_of};
ghost use Rattle.pica.specs.Calls.{answer, answers, differences_after};
ghost use Rattle.pica.specs.Calls.{decode_call, fields_after, fragment_of, fragment_call, stored_words_after};
ghost use Rattle.pica.specs.Readers.{progress_of, words_of, reader_after};

// A list read into a state: the number of writes in its expansion; in `differences` how many of them made a difference, untouched on a
// refusal.
#[unsafe(no_mangle)]
pub extern "C" fn pica_read(
    cells: &mut [u32],
    fog: &mut [u32],
    light: &mut [u32],
    list: &[u32],
    differences: &mut [u32; 1],
) -> u64
    ensures answer { result ≡ answers (read_answers (st cells.old fog.old light.old) list.now) }
    ensures differences { differences.new
        ≡ differences_after (read_answers (st cells.old fog.old light.old) list.now)
        differences.old }
    ensures state { st cells.new fog.new light.new
        ≡ read_state (st cells.old fog.old light.old) list.now }
{
    pica::pica_read(cells, fog, light, list, differences)
}

// A list that arrives in pieces is opened: 0.
#[unsafe(no_mangle)]
pub extern "C" fn pica_open(
    cells: &[u32],
    fog: &[u32],
    light: &[u32],
    spare_cells: &mut [u32],
    spare_fog: &mut [u32],
    spare_light: &mut [u32],
    reader: &mut [u32; 12],
) -> u64
    ensures answer { result
        ≡ answer
        (pieces.told
        (opening (st cells.now fog.now light.now)
        (st spare_cells.old spare_fog.old spare_light.old))) }
    ensures reader { reader.new
        ≡ reader_after
        (opening (st cells.now fog.now light.now)
        (st spare_cells.old spare_fog.old spare_light.old))
        reader.old }
    ensures spare { st spare_cells.new spare_fog.new spare_light.new
        ≡ opened_spare (st cells.now fog.now light.now)
        (st spare_cells.old spare_fog.old spare_light.old) }
{
    pica::pica_open(
        cells,
        fog,
        light,
        spare_cells,
        spare_fog,
        spare_light,
        reader,
    )
}

// A part of the list is fed: how many words have come, held at 65,537.
#[unsafe(no_mangle)]
pub extern "C" fn pica_feed(
    spare_cells: &mut [u32],
    spare_fog: &mut [u32],
    spare_light: &mut [u32],
    reader: &mut [u32; 12],
    part: &[u32],
) -> u64
    ensures answer { result
        ≡ answer
        (pieces.told
        (feeding (progress_of reader.old)
        (st spare_cells.old spare_fog.old spare_light.old) part.now)) }
    ensures reader { reader.new
        ≡ reader_after
        (feeding (progress_of reader.old)
        (st spare_cells.old spare_fog.old spare_light.old) part.now)
        reader.old }
    ensures spare { st spare_cells.new spare_fog.new spare_light.new
        ≡ fed_spare (progress_of reader.old)
        (st spare_cells.old spare_fog.old spare_light.old) part.now }
{
    pica::pica_feed(spare_cells, spare_fog, spare_light, reader, part)
}

// The list is closed: the number of writes in its expansion; in `differences` how many of them made a difference, untouched on a refusal.
#[unsafe(no_mangle)]
pub extern "C" fn pica_close(
    cells: &mut [u32],
    fog: &mut [u32],
    light: &mut [u32],
    spare_cells: &mut [u32],
    spare_fog: &mut [u32],
    spare_light: &mut [u32],
    reader: &mut [u32; 12],
    differences: &mut [u32; 1],
) -> u64
    ensures answer { result
        ≡ answers
        (close_answers (progress_of reader.old) (st cells.old fog.old light.old)
        (st spare_cells.old spare_fog.old spare_light.old)) }
    ensures differences { differences.new
        ≡ differences_after
        (close_answers (progress_of reader.old) (st cells.old fog.old light.old)
        (st spare_cells.old spare_fog.old spare_light.old))
        differences.old }
    ensures reader { reader.new
        ≡ words_of
        (close_progress (progress_of reader.old) (st cells.old fog.old light.old)
        (st spare_cells.old spare_fog.old spare_light.old)) }
    ensures live { st cells.new fog.new light.new
        ≡ closed_live (progress_of reader.old) (st cells.old fog.old light.old)
        (st spare_cells.old spare_fog.old spare_light.old) }
    ensures spare { st spare_cells.new spare_fog.new spare_light.new
        ≡ closed_spare (progress_of reader.old) (st cells.old fog.old light.old)
        (st spare_cells.old spare_fog.old spare_light.old) }
{
    pica::pica_close(
        cells,
        fog,
        light,
        spare_cells,
        spare_fog,
        spare_light,
        reader,
        differences,
    )
}

// One write applied to a state: 1 if it made a difference, else 0.
#[unsafe(no_mangle)]
pub extern "C" fn pica_write(
    cells: &mut [u32],
    fog: &mut [u32],
    light: &mut [u32],
    id: u32,
    mask: u32,
    value: u32,
) -> u64
    ensures answer { result ≡ answer (write_answer (st cells.old fog.old light.old) (writing id mask value)) }
    ensures state { st cells.new fog.new light.new
        ≡ write_state (st cells.old fog.old light.old) (writing id mask value) }
{
    pica::pica_write(cells, fog, light, id, mask, value)
}

// The writes of a list, put into three buffers: how many there are.
#[unsafe(no_mangle)]
pub extern "C" fn pica_writes(
    list: &[u32],
    ids: &mut [u32],
    masks: &mut [u32],
    values: &mut [u32],
) -> u64
    ensures answer { result ≡ answer (writes_answer list.now ids.old masks.old values.old) }
    ensures ids { ids.new ≡ writes_ids list.now ids.old masks.old values.old }
    ensures masks { masks.new ≡ writes_masks list.now ids.old masks.old values.old }
    ensures values { values.new ≡ writes_values list.now ids.old masks.old values.old }
{
    pica::pica_writes(list, ids, masks, values)
}

// Writes packed into the shortest list: how many words of the space it takes.
#[unsafe(no_mangle)]
pub extern "C" fn pica_pack(ids: &[u32], masks: &[u32], values: &[u32], space: &mut [u32]) -> u64
    ensures answer { result ≡ answer (pack_answer ids.now masks.now values.now (length space.old)) }
    ensures space { space.new ≡ pack_space ids.now masks.now values.now space.old }
{
    pica::pica_pack(ids, masks, values, space)
}

// The decoded state, one word a field: 0.
#[unsafe(no_mangle)]
pub extern "C" fn pica_decode(
    cells: &[u32],
    fog: &[u32],
    light: &[u32],
    fields: &mut [u32; 204],
) -> u64
    ensures answer { result ≡ decode_call (decoded_of (st cells.now fog.now light.now)) }
    ensures fields { fields.new
        ≡ fields_after (decoded_of (st cells.now fog.now light.now)) fields.old }
{
    pica::pica_decode(cells, fog, light, fields)
}

// What becomes of a fragment: the verdict's number, and what is then stored.
#[unsafe(no_mangle)]
pub extern "C" fn pica_fragment(
    cells: &[u32],
    fog: &[u32],
    light: &[u32],
    given: &[u32; 11],
    stored: &mut [u32; 3],
) -> u64
    ensures answer { result ≡ fragment_call (fragment_of (st cells.now fog.now light.now) given.now) }
    ensures stored { stored.new
        ≡ stored_words_after (fragment_of (st cells.now fog.now light.now) given.now)
        stored.old }
{
    pica::pica_fragment(cells, fog, light, given, stored)
}
