// One field, with all its lines: document 01, "Fields", and document 02, K2. Whoever reads fields takes the table of
// byte classes once, and lends it.
#![tactic(auto)]

ghost use Rattle.std.specs.Prelude.{◌≡◌, Bool, ℕ, ◌+◌, ◌-◌, ◌≤◌, ◌<◌, length, get_or, drop, take};
ghost use Rattle.octets.specs.Octets.{classes, Stands};
ghost use Rattle.message.specs.Folds.{is_fold};
ghost use Rattle.message.specs.Fields.{trim_end, field_line};
ghost use Rattle.fieldlines.specs.Steps.{IsEnd, field_within, line_of, ends_at, value_run, field_to};

// The places of a field's name and value in the frame.
#[derive(Clone, Copy, PartialEq, Eq, Debug)]
pub struct Field {
    pub name: message::Span,
    pub value: message::Span,
}

// The byte at `i` is of a class.
fn is_of(f: &[u8], class: &[u8; 256], i: usize, kind: u8) -> bool
    requires { i < length f.now }
    ensures { class.now ≡ classes → (test : ℕ → Bool) → Stands kind test
        → result ≡ test (get_or f.now i 0) }
{
    class[f[i] as usize] & kind != 0
}

// The end of the bytes of a class at `at`, byte by byte. A `for` was tried: it cost `field_line` two to four percent.
fn class_end_by_one(f: &[u8], class: &[u8; 256], at: usize, kind: u8) -> usize
    ensures { IsEnd f.now class.now kind at result }
{
    let mut i = at;
    while i < f.len() && is_of(f, class, i, kind) {
        i += 1;
    }
    i
}

// The same, four bytes at a time while there are so many: byte by byte, reading a header takes a fifth longer.
fn class_end(f: &[u8], class: &[u8; 256], at: usize, kind: u8) -> usize
    ensures { IsEnd f.now class.now kind at result }
{
    let last = f.len().saturating_sub(3);
    let mut i = at;
    while i < last {
        for j in i..i + 4 {
            if !is_of(f, class, j, kind) {
                return j;
            }
        }
        i += 4;
    }
    class_end_by_one(f, class, i, kind)
}

// The end of the bytes from `at` to `end` without the blanks and folds at their end.
fn solid_end(f: &[u8], class: &[u8; 256], at: usize, end: usize) -> usize
    requires { (at ≤ end) × (end ≤ length f.now) }
    ensures { (at ≤ result) × (class.now ≡ classes
        → result ≡ at + length (trim_end (take (end - at) (drop at f.now)))) }
{
    // by places: the answer is a place, and `is_of` takes one
    for e in (at..end).rev() {
        if !is_of(f, class, e, octets::GAP) {
            return e + 1;
        }
    }
    at
}

// CRLF stands at `at`, and a blank behind it: the field goes on.
fn goes_on(f: &[u8], at: usize) -> bool
    requires { at ≤ length f.now }
    ensures { result ≡ is_fold (drop at f.now) }
{
    matches!(&f[at..], [b'\r', b'\n', b' ' | b'\t', ..])
}

// CRLF stands at `at`, and no blank behind it: the field ends.
fn ends(f: &[u8], at: usize) -> bool
    requires { at ≤ length f.now }
    ensures { result ≡ ends_at (drop at f.now) }
{
    matches!(&f[at..], [b'\r', b'\n', ..]) && !goes_on(f, at)
}

// The end of the value bytes and folds at `at`. A `while`, for it goes on by what was found and not by one.
fn folds_end(f: &[u8], class: &[u8; 256], at: usize) -> usize
    requires { at ≤ length f.now }
    ensures { (at ≤ result) × (result ≤ length f.now)
        × (class.now ≡ classes → result ≡ at + value_run (drop at f.now)) }
{
    let mut i = class_end(f, class, at, octets::VALUE);
    while goes_on(f, i) {
        i = class_end(f, class, i + 2, octets::VALUE);
    }
    i
}

// What a line is, and where the next one begins.
#[derive(Clone, Copy, PartialEq, Eq, Debug)]
pub enum Line {
    Empty(usize),
    Field(Field, usize),
}

// The field whose name stands from `at` to `n`, and whose value from `v` to `end`, without the gaps at its end.
fn placed(f: &[u8], class: &[u8; 256], at: usize, n: usize, v: usize, end: usize) -> Field
    requires { (at ≤ n) × (v ≤ end) × (end ≤ length f.now) }
    ensures { class.now ≡ classes → result ≡ field_within f.now at n v end }
{
    let last = solid_end(f, class, v, end);
    Field {
        name: message::Span {
            start: at,
            len: n - at,
        },
        value: message::Span {
            start: v,
            len: last - v,
        },
    }
}

// A field at `at` whose name ends at `n` and whose value stands up to `end`: it may go on there.
fn folded(f: &[u8], class: &[u8; 256], at: usize, n: usize, end: usize) -> Option<Line>
    requires { (at ≤ n) × (n < end) × (end ≤ length f.now) }
    ensures { class.now ≡ classes
        → result ≡ line_of (field_to f.now at n (end + value_run (drop end f.now))) }
{
    let next = folds_end(f, class, end);
    if !ends(f, next) {
        return None;
    }
    let v = class_end_by_one(&f[..next], class, n + 1, octets::GAP);
    Some(Line::Field(placed(f, class, at, n, v, next), next + 2))
}

// The field or empty line at `at`, where `class` is the table of `octets::table`. A field of one line, as nearly all
// are, is read without a look at folds. It is safe with any other table, so that no type can say which one is lent.
pub fn field_line(f: &[u8], class: &[u8; 256], at: usize) -> Option<Line>
    ensures { class.now ≡ classes → result ≡ line_of (field_line at (drop at f.now)) }
{
    let n = class_end(f, class, at, octets::NAME);
    if n == at {
        if readers::crlf(f, at) {
            return Some(Line::Empty(at + 2));
        }
        return None;
    }
    if n - at > 64 || !readers::has(f, n, b':') {
        return None;
    }
    let v = class_end_by_one(f, class, n + 1, octets::BLANK);
    let end = class_end(f, class, v, octets::VALUE);
    if !ends(f, end) {
        return folded(f, class, at, n, end);
    }
    Some(Line::Field(placed(f, class, at, n, v, end), end + 2))
}
