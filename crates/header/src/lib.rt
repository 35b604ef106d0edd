// The fields of a frame and its body: document 01, "Fields" and judgement 2, and document 02, K5.
#![tactic(auto)]

ghost use Rattle.std.specs.Prelude.{◌≡◌, ◌+◌, ◌≤◌, ◌<◌, length, drop};
ghost use Rattle.octets.specs.Octets.{classes};
ghost use Rattle.message.specs.Message.{part as part_of};
ghost use Rattle.message.specs.Fields.{field_line};
ghost use Rattle.message.specs.Known.{known_of};
ghost use Rattle.message.specs.Reading.{fields_from, agrees as agrees_of};
ghost use Rattle.header.specs.Header.{header_of, Kept};
ghost use Rattle.header.specs.Steps.{step_of, stated_of, given_by, kept_at};

// A message has at most so many fields, and there is room for the values of so many known names.
pub const MOST_FIELDS: usize = names::MOST_FIELDS;

pub const MOST_NAMES: usize = 16;

// What stands after the start line, where judgement 2 passes it: how many fields there are, the names that came as bits
// of `mask`, the body, and the place of each name's value, by the name's number; of a number that came more than once,
// the last one's.
// Values beside a mask, not Options: document 01 asks for the mask, which says which of them came.
#[derive(Clone, Copy)]
pub struct Header {
    pub count: usize,
    pub mask: u16,
    pub body: message::Span,
    pub values: [message::Span; MOST_NAMES],
}

// The number that `v` writes, where 1 to 19 digits are all of it.
pub fn number(v: &[u8]) -> Option<u64>
    ensures { result ≡ stated_of v.now }
{
    let d = digits::digits_at(v, 0, 19);
    (d.count == v.len() && d.count != 0).then_some(d.value)
}

// Content-Length, whose value is at `p` where its bit is set, agrees with the `left` bytes of the body.
fn agrees(f: &[u8], mask: u16, p: message::Span, left: usize) -> bool
    ensures { result ≡ agrees_of (given_by mask 2 (part_of f.now p)) left }
{
    if mask & names::CONTENT_LENGTH == 0 {
        return left == 0;
    }
    number(message::part(f, p)) == Some(left as u64)
}

// Which known name the field `x` has. Tried: `message::part`, which looks whether the name lies in the frame, makes
// reading a header slower by five percent.
fn known_of(f: &[u8], x: fieldlines::Field) -> message::Known
    requires { x.name.start + x.name.len ≤ length f.now }
    ensures { result ≡ known_of (part_of f.now x.name) }
{
    names::known(&f[x.name.start..x.name.start + x.name.len])
}

const NOWHERE: message::Span = message::Span { start: 0, len: 0 };

// The next line, judged after `count` fields with the known names in `mask`: a field with its name, or where the body
// begins. In a SET-PARAMS or a GET-PARAMS, as `params` says, more names count as known.
// What the next line is, not which step to run: one function reads it, and one loop acts on it.
#[derive(Clone, Copy)]
enum Step {
    End(usize),
    Field(fieldlines::Field, message::Known, usize),
}

fn next_step(
    f: &[u8],
    class: &[u8; 256],
    at: usize,
    params: bool,
    count: usize,
    mask: u16,
) -> Option<Step>
    requires { class.now ≡ classes }
    ensures { result ≡ step_of params count mask f.now (field_line at (drop at f.now)) }
{
    match fieldlines::field_line(f, class, at)? {
        fieldlines::Line::Empty(next) => Some(Step::End(next)),
        fieldlines::Line::Field(x, next) => {
            let k = known_of(f, x);
            names::may_come(params, count, mask, k).then_some(Step::Field(x, k, next))
        }
    }
}

// The four numbers of the field `x`, which is the field `j`, where they fit. Tried: `copy_from_slice` from an array of
// four makes reading a header slower by eight percent.
fn keep(places: &mut [u64], j: usize, x: fieldlines::Field)
    requires { j < 32 }
    ensures { places.new ≡ kept_at j x places.old }
{
    let at = 4 * j;
    if at + 4 <= places.len() {
        places[at] = x.name.start as u64;
        places[at + 1] = x.name.len as u64;
        places[at + 2] = x.value.start as u64;
        places[at + 3] = x.value.len as u64;
    }
}

// The fields of the frame `f` from `at` on, and the body after them, in one pass over the lines; the body is not looked
// at. `places` gets the four numbers of each field, of as many as fit.
pub fn read_header(f: &[u8], at: usize, params: bool, places: &mut [u64]) -> Option<Header>
    ensures { (result ≡ header_of f.now (fields_from params f.now at))
        × Kept places.old (fields_from params f.now at) places.new }
{
    let class = octets::table();
    let mut values = [NOWHERE; MOST_NAMES];
    let mut mask: u16 = 0;
    let mut count = 0;
    let mut i = at;
    // only the line itself says where the next one begins, or that it was the last
    loop {
        match next_step(f, &class, i, params, count, mask)? {
            Step::End(start) => {
                let len = f.len() - start;
                let stated = values[names::index(message::Known::ContentLength)];
                if !agrees(f, mask, stated, len) {
                    return None;
                }
                return Some(Header {
                    count,
                    mask,
                    body: message::Span { start, len },
                    values,
                });
            }
            Step::Field(field, k, next) => {
                mask |= names::bit(k);
                values[names::index(k)] = field.value;
                keep(places, count, field);
                count += 1;
                i = next;
            }
        }
    }
}
