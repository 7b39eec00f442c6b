// The planned commands laid out one after another, from the run's start. The contracts cite specs/Laying.antt, the sizes of crate planning
// and the packed list of crate runs.
#![tactic(auto)]

ghost use Rattle.std.specs.Prelude.{◌≡◌, ◌++◌, ◌+◌, ◌≤◌, ◌<◌, eqb, length, drop};
ghost use Rattle.std.proofs.Math.Seq.{paste};
ghost use Rattle.numbers.specs.Pick.{pick};
ghost use Rattle.cuts.specs.Cuts.{words};
ghost use Rattle.runs.specs.PackedList.{header, command, OneCommand, packed};
ghost use Rattle.planning.specs.RunWrites.{run_writes};
ghost use Rattle.planning.specs.Plan.{Sizes};
ghost use Rattle.laying.specs.Laying.{step_at, after_short};

use planning::Run;

// A command's header.
fn header_of(id: u32, mask: u32, k: usize, step: u32) -> u32
    requires { (id < 0x10000) × (mask < 16) × (1 ≤ k) × (k ≤ 256) × (step < 2) }
    ensures { result ≡ header id mask k step }
{
    id + mask * 0x10000 + (k - 1) as u32 * 0x100000 + step * 0x80000000
}

// Bit 31 of the command of k writes from i on.
fn step_at(ids: &[u32], i: usize, k: usize) -> u32
    requires { (1 ≤ k) × (i + k ≤ length ids.now) }
    ensures { (result ≡ step_at ids.now i k) × (result < 2) }
{
    if k < 2 {
        return 0;
    }
    u32::from(ids[i + 1] != ids[i])
}

// The word after the second parameter, in a command of two or three writes: the third parameter, or the padding word.
fn third(k: usize, last: u32) -> u32
    ensures { result ≡ pick (eqb k 3) last 0 }
{
    if k == 3 {
        return last;
    }
    0
}

// Writes what follows the first two words of a command of fewer than four writes: a loop over so few would end where chance decides.
fn put_short(values: &[u32], i: usize, k: usize, space: &mut [u32], at: usize)
    requires { (1 ≤ k) × (k < 4) × (i + k ≤ length values.now) × (at + words k ≤ length space.old) }
    ensures { space.new ≡ after_short values.now i k space.old at }
{
    if k <= 1 {
        return;
    }
    space[at + 2] = values[i + 1];
    space[at + 3] = third(k, values[i + k - 1]);
}

// Copies words into the space at `at`. It stays a call of its own: within `put_command` it would cost the many short commands, which copy
// nothing.
#[inline(never)]
fn copy_in(words: &[u32], space: &mut [u32], at: usize)
    requires { at + length words.now ≤ length space.old }
    ensures { space.new ≡ paste space.old at words.now (length words.now) }
{
    for (i, &word) in words.iter().enumerate() {
        space[at + i] = word;
    }
}

// Writes the command of k writes from i on into the space at `at`.
fn put_command(given: Run, i: usize, k: usize, space: &mut [u32], at: usize)
    requires { OneCommand (drop i (run_writes given)) k
        × (i + k ≤ length given.ids.now) × (at + words k ≤ length space.old) }
    ensures { space.new
        ≡ paste space.old at
        (command k (drop i (run_writes given.entry))) (words k) }
{
    space[at] = given.values[i];
    space[at + 1] = header_of(given.ids[i], given.masks[i], k, step_at(given.ids, i, k));
    if k < 4 {
        put_short(given.values, i, k, space, at);
        return;
    }
    copy_in(&given.values[i + 1..i + k], space, at + 2);
    if k % 2 == 0 {
        space[at + 1 + k] = 0;
    }
}

// Writes the packed list to the start of the space, by the sizes that were planned.
pub fn lay_out(given: Run, extra: &[u8], space: &mut [u32])
    requires { (length given.ids.now ≤ length extra.now) × Sizes (run_writes given) extra.now
        × (length (packed (run_writes given)) ≤ length space.old) }
    ensures { let l = packed (run_writes given.entry) in
        space.new ≡ l ++ drop (length l) space.old }
{
    let mut i = 0;
    let mut at = 0;
    // Each turn goes on by a command's size, which is read there: no range, and no iterator of the library, steps so.
    while i < given.ids.len() {
        let k = usize::from(extra[i]) + 1;
        put_command(given, i, k, space, at);
        at += planning::words_of(k);
        i += k;
    }
}
