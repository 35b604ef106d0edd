// The trace file: document 02, K7. What it is; `tracereader` and `tracewriter` have the code.
#![tactic(auto)]

ghost use Rattle.std.specs.Prelude.{◌≡◌};
ghost use Rattle.traces.specs.Refusals.{number_of};

// A file is no longer than so many bytes.
pub const LONGEST: usize = 65536;

// Why reading or writing is refused.
#[derive(Clone, Copy, PartialEq, Eq, Debug)]
pub enum Refusal {
    NoRoom, // the finished file outgrows the output or 65,536 bytes
    NoTrace, // no trace file, or nothing that recording can have left
    Misframed, // a frame or its entry is wrong, or what comes is not exactly one frame
    NoSuchMessage, // there is no message n
}

impl Refusal {
    // The paper's number.
    pub fn number(self) -> u32
        ensures { result ≡ number_of self }
    {
        match self {
            Refusal::NoRoom => 7,
            Refusal::NoTrace => 13,
            Refusal::Misframed => 14,
            Refusal::NoSuchMessage => 22,
        }
    }
}

// What recording leaves: how many bytes are used, and how many messages they are.
#[derive(Clone, Copy, PartialEq, Eq, Debug)]
pub struct Recorded {
    pub used: usize,
    pub count: usize,
}
