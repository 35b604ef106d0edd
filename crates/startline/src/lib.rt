// Start lines: document 01, "Start lines", and which of them ask for settings: document 02, K5.
#![tactic(auto)]

ghost use Rattle.std.specs.Prelude.{◌≡◌, ◌||◌, drop};
ghost use Rattle.lists.specs.Lists.{same};
ghost use Rattle.octets.specs.Octets.{bytes};
ghost use Rattle.message.specs.StartLines.{start_line as start_line_of};
ghost use Rattle.message.specs.Reading.{asks_params};
ghost use Rattle.startline.specs.StartLine.{start_of, started_of};
ghost use Rattle.startline.specs.Rules.{said, told, from_status, from_id, behind_name, from_name};

use message::{RequestState, Span};

// What a start line says; a name is a part of the frame.
#[derive(Clone, Copy, PartialEq, Eq, Debug)]
pub enum Start {
    Request(Span, u64),
    Response(u64, u64, RequestState),
    Event(Span, u64, RequestState),
}

// A start line, and where the lines after it begin.
#[derive(Clone, Copy, PartialEq, Eq, Debug)]
pub struct StartLine {
    pub start: Start,
    pub next: usize,
}

// The longest name: document 01, "Numbers".
const LONGEST_NAME: usize = 32;

// A response: request-id, three digits, state.
fn response(f: &[u8], at: usize) -> Option<StartLine>
    ensures { started_of result ≡ told from_id at (said (drop at f.now)) }
{
    let id = startwords::request_id(f, at)?;
    if !readers::has(f, id.next, b' ') {
        return None;
    }
    status(f, id.next + 1, id.value)
}

// What stands behind a response's request-id: three digits, state.
fn status(f: &[u8], at: usize, id: u64) -> Option<StartLine>
    ensures { started_of result ≡ told (from_status id) at (said (drop at f.now)) }
{
    let digits = digits::digits_at(f, at, 3);
    if digits.count != 3 || !readers::has(f, at + 3, b' ') {
        return None;
    }
    let last = startwords::last_state(f, at + 4)?;
    Some(StartLine {
        start: Start::Response(id, digits.value, last.state),
        next: last.next,
    })
}

// What stands behind a name: a request-id, and for an event a state.
fn behind_name(f: &[u8], at: usize, name: Span) -> Option<StartLine>
    ensures { started_of result ≡ told (behind_name name) at (said (drop at f.now)) }
{
    let id = startwords::request_id(f, at)?;
    if readers::crlf(f, id.next) {
        return Some(StartLine {
            start: Start::Request(name, id.value),
            next: id.next + 2,
        });
    }
    if !readers::has(f, id.next, b' ') {
        return None;
    }
    let last = startwords::last_state(f, id.next + 1)?;
    Some(StartLine {
        start: Start::Event(name, id.value, last.state),
        next: last.next,
    })
}

// A request or an event: both begin with a name.
// Here and below not by `get`: a reference in an Option is laid out for 64 bits (docs/DECISIONS.md).
fn named(f: &[u8], at: usize) -> Option<StartLine>
    ensures { started_of result ≡ told (from_name at) at (said (drop at f.now)) }
{
    if f.len() <= at {
        return None;
    }
    if !octets::is_capital(f[at]) {
        return None;
    }
    let end = startwords::name_end(f, at);
    let len = end - at;
    if LONGEST_NAME < len || !readers::has(f, end, b' ') {
        return None;
    }
    behind_name(f, end + 1, Span { start: at, len })
}

// The start line of the frame `f`, whose opening has `k` bytes. It goes over the line once.
pub fn start_line(f: &[u8], k: usize) -> Option<StartLine>
    ensures { started_of result ≡ start_line_of k f.now }
{
    if f.len() <= k {
        return None;
    }
    if octets::is_digit(f[k]) {
        response(f, k)
    } else {
        named(f, k)
    }
}

// SET-PARAMS or GET-PARAMS. Names of other lengths cost next to nothing. Not by `methodnames`: methods are a channel's,
// of `synth`, and reading alone knows of none.
pub fn is_params(name: &[u8]) -> bool
    ensures { result ≡ (same name.now (bytes "SET-PARAMS")
        || same name.now (bytes "GET-PARAMS")) }
{
    octets::equal(name, b"SET-PARAMS") || octets::equal(name, b"GET-PARAMS")
}

// The start line is that of such a request.
pub fn asks_params(f: &[u8], start: Start) -> bool
    ensures { result ≡ asks_params f.now (start_of start) }
{
    matches!(start, Start::Request(name, _) if is_params(message::part(f, name)))
}
