// What every call on a channel returns: document 01, "Refusal numbers" and "How tight the promises are".
#![tactic(auto)]

ghost use Rattle.std.specs.Prelude.{◌≡◌};
ghost use Rattle.calls.specs.Refusals.{number_of, unframed};
ghost use Rattle.calls.specs.declared.Refusal.TheVariants.{NoRoom};

// Why a call on a channel is refused, with the number that C gets.
// Not `framing::NoFrame` in a variant: `as u32` gives the number of variants without values alone.
#[derive(Clone, Copy, PartialEq, Eq, Debug)]
pub enum Refusal {
    More = 1,
    NoMessage = 2,
    TooLong = 3,
    TooShort = 4,
    MalformedLine = 5,
    NoRequest = 6,
    NoRoom = 7,
    NothingAwaited = 8,
    NoCause = 9,
    NoScore = 11,
    NotKept = 12,
    NotSound = 21,
}

impl Refusal {
    pub fn number(self) -> u32
        ensures { result ≡ number_of self }
    {
        self as u32
    }
}

// A refused call writes nothing and leaves the channel as it was, so it gives back neither.
#[derive(Clone, Copy, PartialEq, Eq, Debug)]
pub struct Refused {
    pub refusal: Refusal,
    pub consumed: usize,
}

// Nothing is consumed, but of a frame that is no request.
impl From<Refusal> for Refused {
    ghost from_gives = { λ e r. r ≡ record { refusal = e; consumed = 0 } };

    fn from(refusal: Refusal) -> Refused {
        Refused {
            refusal,
            consumed: 0,
        }
    }
}

impl From<framing::NoFrame> for Refused {
    ghost from_gives = { λ why r. r ≡ record { refusal = unframed why; consumed = 0 } };

    fn from(why: framing::NoFrame) -> Refused {
        let refusal = match why {
            framing::NoFrame::More => Refusal::More,
            framing::NoFrame::NoMessage => Refusal::NoMessage,
            framing::NoFrame::TooLong => Refusal::TooLong,
            framing::NoFrame::TooShort => Refusal::TooShort,
        };
        Refused::from(refusal)
    }
}

impl From<output::TooLong> for Refused {
    ghost from_gives = { λ _ r. r ≡ record { refusal = NoRoom; consumed = 0 } };

    fn from(_e: output::TooLong) -> Refused {
        Refused::from(Refusal::NoRoom)
    }
}

// What a handled call returns: the counts consumed and written, the last id seen, the channel, and the edition that it
// makes.
#[derive(Clone, Copy)]
pub struct Handled {
    pub consumed: usize,
    pub written: usize,
    pub last: Option<u32>,
    pub channel: channel::Channel,
    pub further: Option<synth::Edition>,
}
