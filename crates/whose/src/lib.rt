// Whose request it is, told from the start line alone: document 02, K3.
#![tactic(auto)]

ghost use Rattle.std.specs.Prelude.{◌≡◌, ◌&&◌, min, ltb, length, drop};
ghost use Rattle.startline.specs.StartLine.{start_of};
ghost use Rattle.whose.specs.Whose.{whose, id_in, number, unread, whose_face};
ghost use Rattle.whose.specs.Steps.{has_line, opened};

// Why the request-id of the message at the front of the lent bytes is not known.
// Not `framing::NoFrame`: 3 is never said here, and 5 is.
#[derive(Clone, Copy, PartialEq, Eq, Debug)]
pub enum NoId {
    More = 1,
    NoMessage = 2,
    TooShort = 4,
    Malformed = 5,
}

impl From<readers::Misread> for NoId {
    ghost from_gives = { λ why result. result ≡ unread why };

    fn from(why: readers::Misread) -> NoId {
        match why {
            readers::Misread::Short => NoId::More,
            readers::Misread::Wrong => NoId::NoMessage,
        }
    }
}

impl NoId {
    // The paper's number of it.
    pub fn number(self) -> u32
        ensures { result ≡ number self }
    {
        self as u32
    }
}

// A start line is looked for in so many bytes.
pub const LOOKED_AT: usize = 128;

fn id_in(start: startline::Start) -> u64
    ensures { result ≡ id_in (start_of start) }
{
    match start {
        startline::Start::Request(_, id)
        | startline::Start::Response(id, _, _)
        | startline::Start::Event(_, id, _) => id,
    }
}

// How many of the lent bytes are looked at: those inside the stated length, and never more than 128.
fn looked_at(stated: u64, lent: usize) -> usize
    ensures { result ≡ min lent (min 128 stated) }
{
    lent.min(stated.min(LOOKED_AT as u64) as usize)
}

// The line may still come: fewer bytes than 128 and than stated are lent.
fn may_come(stated: u64, lent: usize) -> bool
    ensures { result ≡ (ltb lent 128 && ltb lent stated) }
{
    lent < LOOKED_AT && (lent as u64) < stated
}

// A CRLF stands in `s` from `at` on.
fn has_line(s: &[u8], at: usize) -> bool
    ensures { result ≡ has_line (drop at s.now) }
{
    for i in at..s.len() {
        if readers::crlf(s, i) {
            return true;
        }
    }
    false
}

// Behind an opening. Only where the line may still come is it looked for once more.
fn behind_opening(s: &[u8], front: framing::Front) -> Result<u64, NoId>
    ensures { result ≡ opened front.length front.opening.stated s.now }
{
    let stated = front.opening.stated;
    if stated < front.length as u64 {
        return Err(NoId::TooShort);
    }
    let window = &s[..looked_at(stated, s.len())];
    match startline::start_line(window, front.length) {
        Some(line) => Ok(id_in(line.start)),
        None if may_come(stated, s.len()) && !has_line(window, front.length) => Err(NoId::More),
        None => Err(NoId::Malformed),
    }
}

// Any bytes at all may be lent. Nothing past the first 128 is looked at.
#[tactic(auto, unfolding(crate::specs::Whose::whose))]
pub fn whose_request(s: &[u8]) -> Result<u64, NoId>
    ensures { result ≡ whose s.now }
{
    behind_opening(s, framing::read_opening(s)?)
}

// The same as C calls it, by `whose_c`; include/klarvesimo.h is its manual.
#[tactic(auto, unfolding(crate::specs::Whose::whose_face))]
pub fn klarvesimo_whose(s: &[u8], id: &mut [u64; 1]) -> u32
    ensures { record { number = result; id = id.new } ≡ whose_face s.now id.old }
{
    match whose_request(s) {
        Ok(told) => {
            id[0] = told;
            0
        }
        Err(why) => why.number(),
    }
}
