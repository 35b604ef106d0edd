// The words of a start line: document 01, "Start lines".
#![tactic(auto)]

ghost use Rattle.std.specs.Prelude.{◌≡◌, ◌+◌, ◌≤◌, IsTrue, length, drop};
ghost use Rattle.lists.specs.Lists.{run};
ghost use Rattle.startwords.specs.Runs.{is_naming, id_at, begins, last_at};

use message::RequestState;

// The greatest request-id: document 01, "Numbers".
const GREATEST_ID: u64 = 4294967295;

// The state that ends a line, and where the lines after it begin.
#[derive(Clone, Copy, PartialEq, Eq, Debug)]
pub struct Last {
    pub state: RequestState,
    pub next: usize,
}

// The bytes of `t` stand at the front. Not by `starts_with`, which is a call here: `octets::equal` costs a few
// instructions where the text is known.
fn text(rest: &[u8], t: &[u8]) -> bool
    ensures value { result ≡ begins t.now rest.now }
    ensures bound { IsTrue result → length t.now ≤ length rest.now }
{
    t.len() <= rest.len() && octets::equal(&rest[..t.len()], t)
}

// A byte of a name.
fn is_naming(b: u8) -> bool
    ensures { result ≡ is_naming b }
{
    octets::is_capital(b) || b == b'-'
}

// The end of the name bytes at `at`.
pub fn name_end(f: &[u8], at: usize) -> usize
    ensures { result ≡ at + run is_naming (drop at f.now) }
{
    for i in at..f.len() {
        if !is_naming(f[i]) {
            return i;
        }
    }
    at.max(f.len())
}

// A request-id at `at`: 1 to 10 digits within range.
pub fn request_id(f: &[u8], at: usize) -> Option<digits::Numeral>
    ensures { result ≡ id_at at (drop at f.now) }
{
    let digits::Digits { value, count } = digits::digits_at(f, at, 10);
    (count != 0 && value <= GREATEST_ID).then_some(digits::Numeral {
        value,
        next: at + count,
    })
}

// A state at `at`, with CRLF behind it.
pub fn last_state(f: &[u8], at: usize) -> Option<Last>
    ensures { result ≡ last_at at (drop at f.now) }
{
    let rest = f.get(at..)?;
    if text(rest, b"PENDING\r\n") {
        Some(Last {
            state: RequestState::Pending,
            next: at + 9,
        })
    } else if text(rest, b"IN-PROGRESS\r\n") {
        Some(Last {
            state: RequestState::InProgress,
            next: at + 13,
        })
    } else if text(rest, b"COMPLETE\r\n") {
        Some(Last {
            state: RequestState::Complete,
            next: at + 10,
        })
    } else {
        None
    }
}
