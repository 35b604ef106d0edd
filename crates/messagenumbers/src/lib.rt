// A frame and a message as the numbers that C reads. include/klarvesimo.h has their layout.
#![tactic(auto)]

ghost use Rattle.std.specs.Prelude.{◌≡◌, [], ◌∷◌, ◌++◌, ◌≤◌, length};
ghost use Rattle.message.specs.Reading.{fields_from};
ghost use Rattle.startline.specs.StartLine.{start_of};
ghost use Rattle.messagenumbers.specs.Layout.{handed, start_numbers as start_numbers_of, state_number, fields_numbers};

use framing::Framed;
use message::{RequestState, Span};
use startline::Start;

// A frame's version and the lengths of its opening and of itself at the front of `out`, or 7 where they are more than
// it holds.
// A number, 0 or 7, and no Result: the contract (`handed`) names the number that C gets.
pub fn hand_over_frame(frame: Framed, out: &mut [u64]) -> u32
    ensures { record { number = result; out = out.new }
        ≡ handed (frame.major ∷ frame.minor ∷ frame.opening ∷ frame.length ∷ []) out.old }
{
    if out.len() < 4 {
        return 7;
    }
    out[..4].copy_from_slice(&[
        frame.major,
        frame.minor,
        frame.opening as u64,
        frame.length as u64,
    ]);
    0
}

// The states are numbered in their order, from 1 on.
fn state_number(state: RequestState) -> u64
    ensures { result ≡ state_number state }
{
    state as u64 + 1
}

const NO_NAME: Span = Span { start: 0, len: 0 };

// The numbers of a start line, with the version.
pub fn start_numbers(major: u64, minor: u64, start: Start) -> [u64; 8]
    ensures { result ≡ start_numbers_of major minor (start_of start) }
{
    let (kind, name, id, status, state) = match start {
        Start::Request(name, id) => (1, name, id, 0, 0),
        Start::Response(id, status, state) => (2, NO_NAME, id, status, state_number(state)),
        Start::Event(name, id, state) => (3, name, id, 0, state_number(state)),
    };
    [
        kind,
        major,
        minor,
        name.start as u64,
        name.len as u64,
        id,
        status,
        state,
    ]
}

// The numbers of a start line, those in front of the fields and those of the fields at the front of `out`, or 7 where
// they are more than it holds.
fn hand(start: &[u64; 8], front: &[u64; 8], fields: &[u64], out: &mut [u64]) -> u32
    requires { length fields.now ≤ 128 }
    ensures { record { number = result; out = out.new }
        ≡ handed (start.now ++ front.now ++ fields.now) out.old }
{
    let end = 16 + fields.len();
    if out.len() < end {
        return 7;
    }
    out[..8].copy_from_slice(start);
    out[8..16].copy_from_slice(front);
    out[16..end].copy_from_slice(fields);
    0
}

// The message's numbers at the front of `out`, or 7 where they are more than it holds. They are written when it is sure
// that they fit and that the fields are good: until then their places stand in an array of this call. `params` is what
// `startline::asks_params` says of the start line.
pub fn hand_over(f: &[u8], at: usize, params: bool, start: &[u64; 8], out: &mut [u64]) -> u32
    ensures { record { number = result; out = out.new }
        ≡ handed (start.now ++ fields_numbers f.now (fields_from params f.now at)) out.old }
{
    let mut places = [0u64; 4 * header::MOST_FIELDS];
    let read = header::read_header(f, at, params, &mut places);
    let Some(h) = &read else {
        return hand(start, &[0; 8], &[], out);
    };
    let front = [
        1,
        h.count as u64,
        h.body.start as u64,
        h.body.len as u64,
        u64::from(h.mask),
        0,
        0,
        0,
    ];
    hand(start, &front, &places[..4 * h.count], out)
}
