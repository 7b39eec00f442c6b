// The twelve words that a C caller keeps of a reading in progress. The contracts cite specs/Readers.antt.
ghost use Rattle.std.specs.Prelude.{◌≡◌};
ghost use Rattle.pica.specs.Readers.{progress_of, words_of};

use parts::Progress;

pub fn progress_of(reader: &[u32; 12]) -> Progress
    ensures { result ≡ progress_of reader.now }
{
    Progress {
        come: reader[0],
        place: reader[1],
        begun: reader[2],
        first: reader[3],
        id: reader[4],
        mask: reader[5],
        step: reader[6],
        left: reader[7],
        pad: reader[8],
        writes: reader[9],
        fault: reader[10],
        differences: reader[11],
    }
}

pub fn words_of(p: Progress) -> [u32; 12]
    ensures { result ≡ words_of p }
{
    [
        p.come,
        p.place,
        p.begun,
        p.first,
        p.id,
        p.mask,
        p.step,
        p.left,
        p.pad,
        p.writes,
        p.fault,
        p.differences,
    ]
}
