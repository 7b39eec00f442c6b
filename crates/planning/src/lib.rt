// The plan of a run: from its end to its start, the least words of what is left and the size of the first command there.
// The contracts cite specs/Plan.antt.
#![tactic(auto)]

ghost use Rattle.std.specs.Prelude.{◌≡◌, ◌&&◌, List, ℕ, ◌+◌, ◌-◌, ◌≤◌, ◌<◌, min, eqb, ltb, length, drop};
ghost use Rattle.numbers.specs.Pick.{pick};
ghost use Rattle.cuts.specs.Cuts.{words};
ghost use Rattle.runs.specs.PackedList.{writes};
ghost use Rattle.planning.specs.Plan.{size_by, words_by, Longest, Chose, Planned};

mod run;

pub use run::Run;

// The words of a command of k writes.
pub fn words_of(k: usize) -> usize
    requires { k ≤ 4096 }
    ensures { result ≡ words k }
{
    k / 2 * 2 + 2
}

// The step to the next id: 1 where it is one further, else 0.
fn step_to(id: u32, next: u32) -> usize
    ensures { result ≡ pick (eqb next (id + 1)) 1 0 }
{
    usize::from(next as usize == id as usize + 1)
}

// How many writes go on by `step`, where a `run` of them goes on by the step `was`: ids that go on by one step do not go on by the other.
fn going_on(step: usize, was: usize, run: usize) -> usize
    ensures { result ≡ pick (eqb step was) run 1 }
{
    if step == was {
        return run;
    }
    1
}

// A write together with the `rest` after it, where the next has its mask and the id `step` further; else alone.
fn linked(id: u32, next: u32, step: usize, alike: bool, rest: usize) -> usize
    requires { (step < 2) × (rest ≤ 4096) }
    ensures { result ≡ pick (eqb next (id + step) && alike) (rest + 1) 1 }
{
    if (next as usize == id as usize + step) & alike {
        return rest + 1;
    }
    1
}

// A RUN of writes is what one command could carry, were it not for the limit of 256. The plan holds what is left after it (`last`) and
// after all of it but one write (`before`), in words; a run shorter than two is taken for one of two. Each is found without a branch that
// only chance decides.

// An end of a run: as it was from the next write on where the run is of three or more, else anew.
fn end_at(run: usize, was: usize, anew: usize) -> usize
    ensures { result ≡ pick (ltb 2 run) was anew }
{
    if 2 < run {
        return was;
    }
    anew
}

// The words from a run's first write on, by its ends: an even run takes those of one write fewer, with the last of it or without.
fn words_by(run: usize, last: usize, before: usize) -> usize
    requires { (run ≤ 4096) × (last ≤ 8192) × (before ≤ 8192) }
    ensures { result ≡ words_by run last before }
{
    if run % 2 == 0 {
        return run + before;
    }
    run + 1 + last
}

// The same of a run whose ends are known for three writes or more: one or two take two words more than `next`, what is left after the first
// of them.
fn words_at(run: usize, next: usize, last: usize, before: usize) -> usize
    requires { (run ≤ 4096) × (next ≤ 8192) × (last ≤ 8192) × (before ≤ 8192) }
    ensures { result ≡ pick (ltb 2 run) (words_by run last before) (next + 2) }
{
    let long = words_by(run, last, before);
    if 2 < run {
        return long;
    }
    next + 2
}

// The first command's size where it can carry n writes: n, or one fewer where that takes fewer words, which an even n alone can do: an odd
// n has no padding word to save.
fn size_by(n: usize, last: usize, before: usize) -> usize
    requires { (1 ≤ n) × (last ≤ 65535) }
    ensures { result ≡ size_by n last before }
{
    if (n % 2 == 0) & (before < last + 2) {
        return n - 1;
    }
    n
}

// The first command's size, and the words of the run with it.
#[derive(Clone, Copy)]
struct Choice {
    size: usize,
    words: usize,
}

// The choice at write i. A run longer than a command doesn't end where the command does, so what is left there is looked up.
fn choose(least: &[u16], i: usize, run: usize, last: usize, before: usize, words: usize) -> Choice
    requires { Longest least.now i run last before words }
    ensures { Chose (min 256 run) (drop (i + 1) least.now) result }
{
    if 256 < run {
        let fewer = usize::from(least[i + 255]);
        let size = size_by(256, usize::from(least[i + 256]), fewer);
        return Choice {
            size,
            words: 256 + fewer,
        };
    }
    let size = size_by(run, last, before);
    Choice { size, words }
}

// Plans a run, whatever its values: answers its least words, and puts one fewer than the size of the first command from each write on into
// `extra`.
pub fn plan_run(ids: &[u32], masks: &[u32], least: &mut [u16], extra: &mut [u8]) -> usize
    requires { (length ids.now ≡ length masks.now) × (length ids.now ≤ 4096) × (length ids.now < length least.old)
        × (length ids.now ≤ length extra.old) }
    ensures { (vs : List ℕ) → length ids.now ≡ length vs
        → Planned (writes ids.now masks.now vs) result extra.new }
{
    let n = ids.len();
    let mut need = 0;
    let mut after = 0;
    let mut was = 0;
    let mut run = 0;
    let mut last = 0;
    let mut before = 0;
    let mut next_id = 0;
    let mut next_mask = 0;
    least[n] = 0;
    for i in (0..n).rev() {
        let id = ids[i];
        let mask = masks[i];
        let step = step_to(id, next_id);
        run = linked(
            id,
            next_id,
            step,
            next_mask == mask,
            going_on(step, was, run),
        );
        was = step;
        next_id = id;
        next_mask = mask;
        let words = words_at(run, need, last, before);
        last = end_at(run, last, after);
        before = end_at(run, before, need);
        let chosen = choose(least, i, run, last, before, words);
        after = need;
        need = chosen.words;
        least[i] = need as u16;
        extra[i] = (chosen.size - 1) as u8;
    }
    need
}
