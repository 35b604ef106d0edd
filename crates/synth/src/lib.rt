// A channel of either kind: its states and queue, the order of judgement, and the calls on it.
#![tactic(auto)]

// A synthesizer is idle, speaking or paused, a recognizer idle, recognizing or recognized.
#[derive(Clone, Copy, PartialEq, Eq, Debug)]
pub enum State {
    Idle,
    Speaking,
    Paused,
    Recognizing,
    Recognized,
}

// The methods of document 01, of K1 and of K5; every other name is unknown.
#[derive(Clone, Copy, PartialEq, Eq, Debug)]
pub enum Method {
    Speak,
    Stop,
    Pause,
    Resume,
    Control,
    BargeInOccurred,
    Unknown,
    Recognize,
    StartInputTimers,
    SetParams,
    GetParams,
}

// An outstanding request: its request-id, whether barge-in kills it, and the threshold of its score, in millionths: the
// single-precision number is that of a level, and is worked out where the score is compared with it.
// Any threshold: C's numbers may give more than a level has, and loading refuses them.
#[derive(Clone, Copy)]
pub struct Entry {
    pub id: u32,
    pub kill: bool,
    pub threshold: u32,
}

// A level between 0 and 1, kept twice: by its millionths and as a single-precision number.
#[derive(Clone, Copy)]
pub struct Level {
    pub millionths: u32,
    pub single: f32,
}

// A setting: none, a yes or no, a whole number of milliseconds, or a level.
// Unset is a case of the definitions and sort 0 of C's numbers: document 01 names the form.
#[derive(Clone, Copy)]
pub enum Setting {
    Unset,
    Flag(bool),
    Millis(u64),
    Level(Level),
}

// An edition of the settings of either kind of channel; those of the other kind are unset.
#[derive(Clone, Copy)]
pub struct Edition {
    pub kill: Setting,
    pub fetch: Setting,
    pub silence: Setting,
    pub confidence: Setting,
    pub sensitivity: Setting,
}
