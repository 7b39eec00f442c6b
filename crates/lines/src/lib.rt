// The small program's line: the bytes of an input read as words, and the verdict on them as text. The contracts cite specs/Lines.antt.
#![tactic(auto)]

ghost use Rattle.std.specs.Prelude.{◌≡◌, ◌+◌, ◌*◌, ◌/◌, ◌≤◌, length, take};
ghost use Rattle.numbers.specs.Answer.{answered, refused};
ghost use Rattle.words.specs.Reasons.{told_by};
ghost use Rattle.lines.specs.Text.{decimal, over, Put};
ghost use Rattle.lines.specs.Lines.{words_in, line_for, line_of};

use itoa::Buffer;
use words::Refuses;

// Puts a text at `at`, and answers the place after it.
fn put_text(line: &mut [u8], at: usize, text: &[u8]) -> usize
    requires { at + length text.now ≤ length line.old }
    ensures { (result ≡ at + length text.now) × (line.new ≡ over line.old at text.now) }
{
    let end = at + text.len();
    line[at..end].copy_from_slice(text);
    end
}

// Puts a number in decimal at `at`, and answers the place after it.
#[tactic(auto, using(crate::proofs::Text::decimal_printed))]
fn put_decimal(line: &mut [u8], at: usize, n: usize) -> usize
    requires { at + length (decimal n) ≤ length line.old }
    ensures { (result ≡ at + length (decimal n)) × (line.new ≡ over line.old at (decimal n)) }
{
    let mut digits = Buffer::new();
    put_text(line, at, digits.format(n).as_bytes())
}

// The line for an accepted list.
fn put_ok(line: &mut [u8], n: usize) -> usize
    requires { 64 ≤ length line.old }
    ensures { Put line.old (line_for (answered n)) result line.new }
{
    let a = put_text(line, 0, b"ok ");
    let b = put_decimal(line, a, n);
    put_text(line, b, b"\n")
}

// The line for a refused one, whatever its number, one that no `Reason` has too. It has at most 53 bytes: the texts 12, each number 20, and
// the newline.
pub fn put_refused(line: &mut [u8; 64], number: u32, place: usize) -> usize
    ensures { Put line.old (line_for (refused number place)) result line.new }
{
    let a = put_text(line, 0, b"refused ");
    let b = put_decimal(line, a, number as usize);
    let c = put_text(line, b, b" at ");
    let d = put_decimal(line, c, place);
    put_text(line, d, b"\n")
}

// The line that gives a verdict, at the start of the lent space; answers how many bytes it has. The space past it keeps its contents. Where
// nothing tells what would refuse, as of a bare `Ok(n)`, the call names it: `line_for::<Refusal>`.
pub fn line_for<R: Refuses + Drop>(verdict: Result<usize, R>, line: &mut [u8; 64]) -> usize
    ensures { Put line.old (line_for (told_by R.number R.place verdict)) result line.new }
{
    match verdict {
        Ok(n) => put_ok(line, n),
        Err(r) => put_refused(line, r.number(), r.place()),
    }
}

// The words in the bytes, at the start of the lent space; answers how many there are.
fn put_words(bytes: &[u8], words: &mut [u32]) -> usize
    requires { length bytes.now / 4 ≤ length words.old }
    ensures { (result ≡ length bytes.now / 4) × (take result words.new ≡ words_in bytes.now) }
{
    let n = bytes.len() / 4;
    for i in 0..n {
        let at = 4 * i;
        words[i] = u32::from_le_bytes([bytes[at], bytes[at + 1], bytes[at + 2], bytes[at + 3]]);
    }
    n
}

// The line for all the bytes of an input, at the start of the lent space; answers how many bytes it has. The space past it
// keeps its contents.
pub fn line_of(bytes: &[u8], line: &mut [u8; 64]) -> usize
    ensures { Put line.old (line_of bytes.now) result line.new }
{
    if (bytes.len() <= 65536) & (bytes.len() % 4 == 0) {
        let mut words = [0u32; 16384];
        let n = put_words(bytes, &mut words);
        line_for(reader::judge_list(&words[..n]), line)
    } else {
        put_text(line, 0, b"input\n")
    }
}
