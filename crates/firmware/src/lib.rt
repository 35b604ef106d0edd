// Framing and reading as C calls them, by `firmware_c`: numbers and buffers in, numbers out. include/klarvesimo.h is
// their manual.
#![tactic(auto)]

ghost use Rattle.std.specs.Prelude.{◌≡◌};
ghost use Rattle.message.specs.StartLines.{start_line};
ghost use Rattle.firmware.specs.Face.{frame_face, read_face, called};
ghost use Rattle.firmware.specs.Steps.{frame_as};

use framing::Framed;

pub fn klarvesimo_frame(s: &[u8], out: &mut [u64]) -> u32
    ensures { record { number = result; out = out.new }
        ≡ frame_face s.now out.old }
{
    match framing::frame(s) {
        Ok(frame) => messagenumbers::hand_over_frame(frame, out),
        Err(why) => why.number(),
    }
}

pub fn klarvesimo_read(s: &[u8], out: &mut [u64], consumed: &mut [u64; 1]) -> u32
    ensures { record { number = result; consumed = consumed.new; out = out.new }
        ≡ called consumed.old (read_face s.now out.old) }
{
    consumed[0] = 0;
    let read = match framing::frame(s) {
        Ok(frame) => read_frame(&s[..frame.length], frame, out),
        Err(why) => Read {
            number: why.number(),
            consumed: 0,
        },
    };
    consumed[0] = read.consumed;
    read.number
}

// What a call of reading hands back: its number, and the count consumed.
// No Result: refusal 5 says a count consumed, and so does 0. C gets both numbers whichever it is.
#[derive(Clone, Copy, PartialEq, Eq, Debug)]
struct Read {
    number: u32,
    consumed: u64,
}

// The bytes `f` of a frame.
fn read_frame(f: &[u8], frame: Framed, out: &mut [u64]) -> Read
    ensures { record { number = result.number; consumed = result.consumed; out = out.new }
        ≡ frame_as f.now frame.major frame.minor (start_line frame.opening f.now) out.old }
{
    let length = f.len() as u64;
    let Some(line) = startline::start_line(f, frame.opening) else {
        return Read {
            number: 5,
            consumed: length,
        };
    };
    let start = messagenumbers::start_numbers(frame.major, frame.minor, line.start);
    let params = startline::asks_params(f, line.start);
    let number = messagenumbers::hand_over(f, line.next, params, &start, out);
    let consumed = if number == 0 { length } else { 0 };
    Read { number, consumed }
}
