// A list of command words: a header taken apart, and what is wrong with a single write.
// The contracts cite specs/Header.antt, specs/Taken.antt and specs/Writes.antt.
#![tactic(auto)]

ghost use Rattle.std.specs.Prelude.{◌≡◌, refl, ℕ};
ghost use mathlib.Core.Path.{ap};
ghost use Rattle.words.specs.declared.Refusal.{Refusal};
ghost use Rattle.words.specs.Header.{id_of, mask_of, count_of, step_of, words_with};
ghost use Rattle.words.specs.Taken.{head_of, told, head_numbers, refusal_in};
ghost use Rattle.words.specs.Reasons.{number_of, numbered};
ghost use Rattle.words.specs.Writes.{fault_of};

// Why a call refuses: a row of the table "Numbers given back", or 15 and 22 of document 02, each under the document's number.
#[derive(Clone, Copy, Debug, PartialEq, Eq)]
pub enum Reason {
    ListTooLong = 1,
    WordsMissing = 2,
    IdAbove2ff = 3,
    JumpRegister = 4,
    PortMask = 5,
    BufferLength = 6,
    LengthsDiffer = 7,
    TooManyWrites = 8,
    MaskAbove15 = 9,
    NoRoom = 10,
    DepthAboveLargest = 12,
    CodeWithoutName = 13,
    NotBuilt = 14,
    IllegalLength = 15,
    TooFewPlaces = 22,
}

impl From<Reason> for u32 {
    ghost from_gives = { λ reason n. n ≡ number_of reason };

    fn from(reason: Reason) -> u32 {
        reason as u32
    }
}

// A refusal: why, and its place.
#[derive(Clone, Copy, Debug, PartialEq, Eq)]
pub struct Refusal {
    pub reason: Reason,
    pub place: usize,
}

// A refusal as its number and its place.
impl From<Refusal> for (u32, usize) {
    ghost from_gives = { λ r t. (t.0 ≡ number_of r.reason) × (t.1 ≡ r.place) };

    fn from(r: Refusal) -> (u32, usize) {
        (u32::from(r.reason), r.place)
    }
}

// What refuses by a number at a place: a `Refusal`, or any number, also one that no `Reason` has, with a place. Each kind can be made of
// every `Refusal`, with its number and place (law `says`), so that `?` hands one on as any of them.
pub trait Refuses: From<Refusal> {
    ghost number: { Self → ℕ };

    ghost place: { Self → ℕ };

    ghost moved: { Self → ℕ → Self };

    fn number(&self) -> u32
        ensures { result ≡ number self.now };

    fn place(&self) -> usize
        ensures { result ≡ place self.now };

    // The same at another place, as where a list is a part of another.
    fn at(self, other: usize) -> Self
        ensures { result ≡ moved self other };

    ghost stays: { (r : Self) → moved r (place r) ≡ r };

    ghost moves: { (r : Self) (p : ℕ) → (number (moved r p) ≡ number r) × (place (moved r p) ≡ p) };

    ghost says: { (x : Refusal) (r : Self) → Self.from_gives x r → (number r ≡ number_of x.reason) × (place r ≡ x.place) };
}

impl Refuses for Refusal {
    ghost number = { λ r. number_of r.reason };

    ghost place = { λ r. r.place };

    ghost moved = { λ r p. record { reason = r.reason; place = p } };

    ghost stays = { λ r. refl };

    ghost moves = { λ r p. (refl, refl) };

    ghost says = { λ x r e. (ap (λ q. number_of q.reason) e, ap (λ q. q.place) e) };

    fn number(&self) -> u32 {
        u32::from(self.reason)
    }

    fn place(&self) -> usize {
        self.place
    }

    fn at(self, other: usize) -> Refusal {
        Refusal {
            place: other,
            ..self
        }
    }
}

impl Refuses for (u32, usize) {
    ghost number = { λ t. t.0 };

    ghost place = { λ t. t.1 };

    ghost moved = { λ t p. (t.0, p) };

    ghost stays = { λ t. refl };

    ghost moves = { λ t p. (refl, refl) };

    ghost says = { λ x t e. e };

    fn number(&self) -> u32 {
        self.0
    }

    fn place(&self) -> usize {
        self.1
    }

    fn at(self, other: usize) -> (u32, usize) {
        (self.0, other)
    }
}

// The parts of a header: count is the number of extra parameters, step 1 where ids rise.
#[derive(Clone, Copy, Debug, PartialEq, Eq)]
pub struct Header {
    pub id: u32,
    pub mask: u32,
    pub count: u32,
    pub step: u32,
}

// A header word taken apart.
pub fn parts(h: u32) -> Header
    ensures { (result.id ≡ id_of h) × (result.mask ≡ mask_of h) × (result.count ≡ count_of h) × (result.step ≡ step_of h) }
{
    Header {
        id: h % 0x10000,
        mask: h / 0x10000 % 16,
        count: h / 0x100000 % 256,
        step: h / 0x80000000 % 2,
    }
}

// The words that a command with this header takes: two and the extra parameters, rounded up to an even number by the padding word.
pub fn words_taken(h: Header) -> usize
    ensures { result ≡ words_with h.count }
{
    let count = h.count as usize;
    (count + 3) / 2 * 2
}

// The header of the command whose first word stands at `at`, taken apart; or refused with 2 at `at` where the command's words aren't
// all there.
pub fn head_at(list: &[u32], at: usize) -> Result<Header, Refusal>
    ensures answer { result ≡ head_of list.now at }
    ensures numbers { told result ≡ head_numbers list.now at }
{
    let lacking = Err(Refusal {
        reason: Reason::WordsMissing,
        place: at,
    });
    if list.len() <= at {
        return lacking;
    }
    let left = list.len() - at;
    if left < 2 {
        return lacking;
    }
    let h = parts(list[at + 1]);
    if left < words_taken(h) {
        return lacking;
    }
    Ok(h)
}

// The refusal that an answer of `head_at` holds, or whatever refuses where a `Refusal` would stand; none where the header was taken apart.
// Where nothing tells what would refuse, the call names it: `refusal_in::<Refusal>`.
pub fn refusal_in<R: Refuses + Drop>(head: Result<Header, R>) -> Option<R>
    ensures { result ≡ refusal_in head }
{
    head.err()
}

// The fault of a write to `id` under `mask`, none where it is allowed.
#[tactic(auto, unfolding(crate::specs::Writes::fault_of))]
pub fn fault(id: u32, mask: u32) -> Option<Reason>
    ensures { numbered result ≡ fault_of id mask }
{
    if 0x2FF < id {
        return Some(Reason::IdAbove2ff);
    }
    if (id == 0x23C) | (id == 0x23D) {
        return Some(Reason::JumpRegister);
    }
    if ((0xE8 <= id) & (id <= 0xEF) | (0x1C8 <= id) & (id <= 0x1CF)) & (mask != 15) {
        return Some(Reason::PortMask);
    }
    None
}
