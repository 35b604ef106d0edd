// Cutting lent bytes into messages: document 01, "Framing".
#![tactic(auto)]

ghost use Rattle.std.specs.Prelude.{◌≡◌, [], ◌∷◌, drop};
ghost use Rattle.readers.specs.Readers.{text as text_of};
ghost use Rattle.readers.specs.Steps.{placed};
ghost use Rattle.framing.specs.Framing.{opening, framing, measured, unread, refusal};
ghost use Rattle.framing.specs.Steps.{front_of};

// What an opening says: the version, and the length of the whole message.
#[derive(Clone, Copy, PartialEq, Eq, Debug)]
pub struct Opening {
    pub major: u64,
    pub minor: u64,
    pub stated: u64,
}

// The opening at the front of the lent bytes, and its own length.
#[derive(Clone, Copy, PartialEq, Eq, Debug)]
pub struct Front {
    pub opening: Opening,
    pub length: usize,
}

// A message that is there whole: its version, and the lengths of its opening and of all of it.
#[derive(Clone, Copy, PartialEq, Eq, Debug)]
pub struct Framed {
    pub major: u64,
    pub minor: u64,
    pub opening: usize,
    pub length: usize,
}

// Why no message stands at the front of the lent bytes, or not yet.
#[derive(Clone, Copy, PartialEq, Eq, Debug)]
pub enum NoFrame {
    More = 1,
    NoMessage = 2,
    TooLong = 3,
    TooShort = 4,
}

impl NoFrame {
    // The paper's number.
    pub fn number(self) -> u32
        ensures { result ≡ refusal (Err self) }
    {
        self as u32
    }
}

impl From<readers::Misread> for NoFrame {
    ghost from_gives = { λ why result. result ≡ unread why };

    fn from(why: readers::Misread) -> NoFrame {
        match why {
            readers::Misread::Short => NoFrame::More,
            readers::Misread::Wrong => NoFrame::NoMessage,
        }
    }
}

// The byte `b` at `at`: the position after it. As a text it would cost more tests.
// Not by `get`: a reference in an Option is laid out for 64 bits (docs/DECISIONS.md, "Other processors").
fn byte_at(s: &[u8], at: usize, b: u8) -> Result<usize, readers::Misread>
    ensures { result ≡ placed at (text_of (b ∷ []) (drop at s.now)) }
{
    if s.len() <= at {
        return Err(readers::Misread::Short);
    }
    if s[at] != b {
        return Err(readers::Misread::Wrong);
    }
    Ok(at + 1)
}

// The opening at the front of `s`. It looks at 31 bytes at most (proofs/Theorems/FirstBytes).
#[tactic(auto, using(crate::proofs::Stepping::by_steps))]
pub fn read_opening(s: &[u8]) -> Result<Front, readers::Misread>
    ensures { result ≡ front_of (opening s.now) }
{
    let at = readers::text(s, 0, b"MRCP/")?;
    let major = digits::number(s, at, 2)?;
    let at = byte_at(s, major.next, b'.')?;
    let minor = digits::number(s, at, 2)?;
    let at = byte_at(s, minor.next, b' ')?;
    let stated = digits::number(s, at, 19)?;
    let length = byte_at(s, stated.next, b' ')?;
    let opening = Opening {
        major: major.value,
        minor: minor.value,
        stated: stated.value,
    };
    Ok(Front { opening, length })
}

// With an opening, where `lent` bytes are there: 3, then 4, then 1.
pub fn measure(front: Front, lent: usize) -> Result<Framed, NoFrame>
    ensures { result ≡ measured front.opening front.length lent }
{
    let Opening {
        major,
        minor,
        stated,
    } = front.opening;
    if 16384 < stated {
        return Err(NoFrame::TooLong);
    }
    let length = stated as usize;
    if length < front.length {
        return Err(NoFrame::TooShort);
    }
    if lent < length {
        return Err(NoFrame::More);
    }
    Ok(Framed {
        major,
        minor,
        opening: front.length,
        length,
    })
}

// Where the message at the front of `s` ends.
#[tactic(auto, unfolding(crate::specs::Framing::framing))]
pub fn frame(s: &[u8]) -> Result<Framed, NoFrame>
    ensures { result ≡ framing s.now }
{
    measure(read_opening(s)?, s.len())
}
