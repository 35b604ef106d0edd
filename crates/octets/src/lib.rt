// What a byte may be: document 01, "Fields".
#![tactic(auto)]

ghost use Rattle.std.specs.Prelude.{◌≡◌, ◌||◌, ◌+◌, ◌≤◌, length, drop};
ghost use Rattle.lists.specs.Lists.{same};
ghost use Rattle.octets.specs.Octets.{is_digit, is_capital, is_letter, classes};
ghost use Rattle.octets.specs.Octets.{lowered as lowered_of, alike as alike_of};
ghost use Rattle.octets.specs.Steps.{packed};

// The bits of a byte's class.
pub const DIGIT: u8 = 1;

pub const CAPITAL: u8 = 2;

pub const NAME: u8 = 4;

pub const VALUE: u8 = 8;

pub const BLANK: u8 = 16;

pub const GAP: u8 = 32;

// What each of the 256 bytes may be, as the sum of these bits: document 01 asks for one constant table of 256 entries.
const CLASS: [u8; 256] = [
    0, 0, 0, 0, 0, 0, 0, 0, 0, 56, // HT
    32, // LF
    0, 0, 32, // CR
    0, 0, 0, 0, 0, 0, 0, 0, 0, 0, 0, 0, 0, 0, 0, 0, 0, 0, 56, // SP
    8, 8, 8, 8, 8, 8, 8, 8, 8, 8, 8, 8, 12, // -
    8, 8, 13, // 0
    13, 13, 13, 13, 13, 13, 13, 13, 13, 8, // :
    8, 8, 8, 8, 8, 8, 14, // A
    14, 14, 14, 14, 14, 14, 14, 14, 14, 14, 14, 14, 14, 14, 14, 14, 14, 14, 14, 14, 14, 14, 14, 14,
    14, 8, 8, 8, 8, 8, 8, 12, // a
    12, 12, 12, 12, 12, 12, 12, 12, 12, 12, 12, 12, 12, 12, 12, 12, 12, 12, 12, 12, 12, 12, 12, 12,
    12, 8, 8, 8, 8, 0, // DEL
    8, 8, 8, 8, 8, 8, 8, 8, 8, 8, 8, 8, 8, 8, 8, 8, 8, 8, 8, 8, 8, 8, 8, 8, 8, 8, 8, 8, 8, 8, 8, 8,
    8, 8, 8, 8, 8, 8, 8, 8, 8, 8, 8, 8, 8, 8, 8, 8, 8, 8, 8, 8, 8, 8, 8, 8, 8, 8, 8, 8, 8, 8, 8, 8,
    8, 8, 8, 8, 8, 8, 8, 8, 8, 8, 8, 8, 8, 8, 8, 8, 8, 8, 8, 8, 8, 8, 8, 8, 8, 8, 8, 8, 8, 8, 8, 8,
    8, 8, 8, 8, 8, 8, 8, 8, 8, 8, 8, 8, 8, 8, 8, 8, 8, 8, 8, 8, 8, 8, 8, 8, 8, 8, 8, 8, 8, 8, 8, 8,
];

// The table. A constant is laid out anew wherever it is used, so a caller takes it once and lends it on.
pub fn table() -> [u8; 256]
    ensures { result ≡ classes }
{
    CLASS
}

// Three tests without the table, where taking it would cost more: start lines and names of channels test a few bytes of
// a message.
pub fn is_digit(b: u8) -> bool
    ensures { result ≡ is_digit b }
{
    b.is_ascii_digit()
}

pub fn is_capital(b: u8) -> bool
    ensures { result ≡ is_capital b }
{
    b.is_ascii_uppercase()
}

pub fn is_letter_or_digit(b: u8) -> bool
    ensures { result ≡ (is_letter b || is_digit b) }
{
    b.is_ascii_alphanumeric()
}

// A capital as its small letter, any other byte as it is.
pub fn lowered(b: u8) -> u8
    ensures { result ≡ lowered_of b }
{
    b.to_ascii_lowercase()
}

// Four bytes as one number, the first the least. The compiler makes it one load. By `from_le_bytes` the bytes would be
// indexed one by one as well.
fn half(s: &[u8], at: usize) -> u64
    requires { at + 4 ≤ length s.now }
    ensures { result ≡ packed s.now at 0 4 }
{
    s[at] as u64
        + 256 * (s[at + 1] as u64)
        + 65536 * (s[at + 2] as u64)
        + 16777216 * (s[at + 3] as u64)
}

// Eight bytes.
fn word(s: &[u8], at: usize) -> u64
    requires { at + 8 ≤ length s.now }
    ensures { result ≡ packed s.now at 0 8 }
{
    half(s, at) + 4294967296 * half(s, at + 4)
}

// What is left of two texts from `at` on, byte by byte.
fn equal_by_one(a: &[u8], b: &[u8], at: usize) -> bool
    requires { length a.now ≡ length b.now }
    ensures { result ≡ same (drop at a.now) (drop at b.now) }
{
    // by places: only what is left from `at` on is compared
    for i in at..a.len() {
        if a[i] != b[i] {
            return false;
        }
    }
    true
}

// The same, the first four bytes at once where there are so many.
fn equal_by_four(a: &[u8], b: &[u8], at: usize) -> bool
    requires { (length a.now ≡ length b.now) × (at ≤ length a.now) }
    ensures { result ≡ same (drop at a.now) (drop at b.now) }
{
    if a.len() - at < 4 {
        return equal_by_one(a, b, at);
    }
    if half(a, at) != half(b, at) {
        return false;
    }
    equal_by_one(a, b, at + 4)
}

// Eight bytes at a time. `a == b` would take twice the instructions for a name of ten to twenty bytes: against a text
// that is constant, as most are, these words are numbers, and std's comparison is not inlined.
pub fn equal(a: &[u8], b: &[u8]) -> bool
    ensures { result ≡ same a.now b.now }
{
    if a.len() != b.len() {
        return false;
    }
    // a `while`: what is left goes to `equal_by_four` from `i` on, and a `for` keeps its counter
    let mut i: usize = 0;
    while 8 <= a.len() - i {
        if word(a, i) != word(b, i) {
            return false;
        }
        i += 8;
    }
    equal_by_four(a, b, i)
}

// Equal but for the case of letters. Texts that are equal as they are need no small letters.
pub fn alike(a: &[u8], b: &[u8]) -> bool
    ensures { result ≡ alike_of a.now b.now }
{
    if equal(a, b) {
        return true;
    }
    if a.len() != b.len() {
        return false;
    }
    for i in 0..a.len() {
        let (x, y) = (a[i], b[i]);
        if x != y && lowered(x) != lowered(y) {
            return false;
        }
    }
    true
}
