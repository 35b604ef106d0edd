// A channel's name, and the kind that it tells: document 01, "Numbers", and document 02, K1.
#![tactic(auto)]

ghost use Rattle.std.specs.Prelude.{◌≡◌, true, false, ◌||◌, ◌&&◌, [], ◌++◌, ◌+◌, ◌-◌, ◌≤◌, ◌<◌, leb, length, take, replicate};
ghost use Rattle.lists.specs.Lists.{run, same};
ghost use Rattle.octets.specs.Octets.{is_letter, is_digit};
ghost use Rattle.synth.specs.Kinds.{kind_of};
ghost use Rattle.synth.specs.Channel.{well_named};
ghost use Rattle.channelnames.specs.Names.{name_of, kind_by, kept_name};

// How many bytes the longest name has.
pub const LONGEST: usize = 44;

// A name as it is kept: the first `size` of `bytes`, for there is no heap, and C keeps both as numbers.
// No invariant says that the size is within: loading builds a name of 45 on purpose, which no sound channel has.
#[derive(Clone, Copy)]
pub struct Name {
    pub bytes: [u8; LONGEST],
    pub size: usize,
}

// How many letters or digits stand at the front. `position` and `take_while` were tried, and the proof did not close.
fn word(name: &[u8]) -> usize
    ensures { (result ≡ run (λ b. is_letter b || is_digit b) name.now) × (result ≤ length name.now) }
{
    for (i, b) in name.iter().enumerate() {
        if !octets::is_letter_or_digit(*b) {
            return i;
        }
    }
    name.len()
}

// How many bytes the end of a name has that tells the kind.
const RESOURCE: usize = 12;

// Up to here it costs less to look at the letters and digits alone.
const SHORT: usize = 8;

// Whether letters and digits are all that stands before the end, at `k`. Where they are many they are looked for in the
// whole name, for only there does the compiler test several bytes at a time: one by one was tried and too slow
// (docs/PERFORMANCE.md, "What was tried").
fn has_word(name: &[u8], k: usize) -> bool
    requires { length name.now ≡ k + 12 }
    ensures { (result ≡ true → run (λ b. is_letter b || is_digit b) (take k name.now) ≡ k)
        × (result ≡ false → well_named name.now ≡ false) }
{
    if k < SHORT {
        word(&name[..k]) == k
    } else {
        word(name) == k
    }
}

// 1 to 32 letters or digits, then `@speechsynth` or `@speechrecog`. The end is counted from behind, so that no byte of
// it is looked at twice.
pub fn well_named(name: &[u8]) -> bool
    ensures { result ≡ well_named name.now }
{
    if name.len() <= RESOURCE || LONGEST < name.len() {
        return false;
    }
    let k = name.len() - RESOURCE;
    if !has_word(name, k) {
        return false;
    }
    octets::equal(&name[k..], b"@speechsynth") || octets::equal(&name[k..], b"@speechrecog")
}

// The kind that the name tells. A synthesizer's is told by its last byte.
pub fn kind(n: Name) -> answer::Kind
    ensures { result ≡ kind_of (name_of n) }
{
    let size = n.size;
    if size < RESOURCE || LONGEST < size {
        return answer::Kind::Synthesizer;
    }
    // the array alone: a byte of the name in its place would cost a copy of all of it, here and below
    let bytes = n.bytes;
    if bytes[size - 1] != b'g' {
        return answer::Kind::Synthesizer;
    }
    if octets::equal(&bytes[size - RESOURCE..size], b"@speechrecog") {
        answer::Kind::Recognizer
    } else {
        answer::Kind::Synthesizer
    }
}

// The kind of a well-formed name, which its last byte tells.
// Beside `kind`: contracts name both, and of a well-formed name one byte is enough.
pub fn kind_by(n: Name) -> answer::Kind
    ensures { result ≡ kind_by (name_of n) }
{
    let size = n.size;
    if size == 0 || LONGEST < size {
        return answer::Kind::Synthesizer;
    }
    let bytes = n.bytes;
    if bytes[size - 1] == b'g' {
        answer::Kind::Recognizer
    } else {
        answer::Kind::Synthesizer
    }
}

// Any name at all may be handed in, its size past the array too.
pub fn is_well_named(n: Name) -> bool
    ensures { result ≡ well_named (name_of n) }
{
    let bytes = n.bytes;
    n.size <= LONGEST && well_named(&bytes[..n.size])
}

// Whether the name is `v`. One longer than the array is none.
pub fn is_name(n: Name, v: &[u8]) -> bool
    ensures { result ≡ (leb (length (name_of n)) 44 && same (name_of n) v.now) }
{
    let bytes = n.bytes;
    n.size <= LONGEST && octets::equal(&bytes[..n.size], v)
}

// The name `v` as it is kept; an empty one where it is longer than the array.
pub fn kept(v: &[u8]) -> Name
    ensures value { length v.now ≤ 44 → result ≡ kept_name v.now }
    ensures value_2 { 44 < length v.now → result ≡ kept_name [] }
{
    let size = v.len();
    if LONGEST < size {
        return Name {
            bytes: [0; LONGEST],
            size: 0,
        };
    }
    let mut bytes = [0; LONGEST];
    bytes[..size].copy_from_slice(v);
    Name { bytes, size }
}
