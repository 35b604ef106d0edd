// The answers and events of a channel: document 01, "Bytes written".
#![tactic(auto)]

ghost use Rattle.std.specs.Prelude.{◌≡◌, ◌≤◌, [], cond, length, get_or};
ghost use Rattle.message.specs.declared.RequestState.{RequestState};
ghost use Rattle.answer.specs.Answers.{cause_names, event_name};
ghost use Rattle.answer.specs.declared.Kind.{Kind};

// A status code.
#[derive(Clone, Copy, PartialEq, Eq, Debug)]
pub struct Status {
    pub code: u32,
}

// A response, but for the ids that it lists.
#[derive(Clone, Copy)]
pub struct Answer {
    pub id: u32,
    pub status: Status,
    pub state: message::RequestState,
}

// The kinds of channel.
#[derive(Clone, Copy, PartialEq, Eq, Debug)]
pub enum Kind {
    Synthesizer,
    Recognizer,
}

// How many causes SPEAK-COMPLETE has, 000 to 007, and RECOGNITION-COMPLETE, 000 to 015.
pub const SYNTHESIZER_CAUSES: u32 = 8;

pub const RECOGNIZER_CAUSES: u32 = 16;

// The recognizer's cause 011: its request ended with the one before it.
// A cause is a number: C hands it in, and each kind of channel has names of its own for it.
pub const CANCELLED: u32 = 11;

// How many bytes the names of a kind's causes have together.
pub const SYNTHESIZER_BYTES: usize = 92;

pub const RECOGNIZER_BYTES: usize = 247;

impl Status {
    pub const SUCCESS: Status = Status { code: 200 };

    pub const SOME_IGNORED: Status = Status { code: 201 };

    pub const METHOD_NOT_ALLOWED: Status = Status { code: 401 };

    pub const NOT_VALID_IN_STATE: Status = Status { code: 402 };

    pub const UNSUPPORTED_FIELD: Status = Status { code: 403 };

    pub const ILLEGAL_VALUE: Status = Status { code: 404 };

    pub const NO_SUCH_CHANNEL: Status = Status { code: 405 };

    pub const FIELD_MISSING: Status = Status { code: 406 };

    pub const OPERATION_FAILED: Status = Status { code: 407 };

    pub const NO_CONTENT: Status = Status { code: 408 };

    pub const UNSUPPORTED_VALUE: Status = Status { code: 409 };

    pub const OUT_OF_ORDER: Status = Status { code: 410 };

    pub const VERSION_UNSUPPORTED: Status = Status { code: 502 };

    // A success: 201 where a field was ignored.
    pub fn success(ignored: bool) -> Status
        ensures { result.code ≡ cond ignored 201 200 }
    {
        if ignored {
            Self::SOME_IGNORED
        } else {
            Self::SUCCESS
        }
    }

    // The answer to request `id` with this status, whose request is at an end.
    // One function for each answer: document 01 asks for functions of the type that build them.
    pub fn complete(self, id: u32) -> Answer
        ensures { (result.id ≡ id) × (result.status ≡ self) × (result.state ≡ RequestState.Complete) }
    {
        Answer {
            id,
            status: self,
            state: message::RequestState::Complete,
        }
    }

    // The same for a request that waits.
    pub fn pending(self, id: u32) -> Answer
        ensures { (result.id ≡ id) × (result.status ≡ self) × (result.state ≡ RequestState.Pending) }
    {
        Answer {
            id,
            status: self,
            state: message::RequestState::Pending,
        }
    }

    // The same for a request that goes on.
    pub fn in_progress(self, id: u32) -> Answer
        ensures { (result.id ≡ id) × (result.status ≡ self) × (result.state ≡ RequestState.InProgress) }
    {
        Answer {
            id,
            status: self,
            state: message::RequestState::InProgress,
        }
    }
}

// How many causes a kind has.
pub fn cause_count(kind: Kind) -> u32
    ensures { result ≡ length (cause_names kind) }
{
    match kind {
        Kind::Synthesizer => SYNTHESIZER_CAUSES,
        Kind::Recognizer => RECOGNIZER_CAUSES,
    }
}

// The event that ends a kind's requests.
pub fn event_name(kind: Kind) -> &'static [u8]
    ensures text { result.now ≡ event_name kind }
    ensures most { length result.now ≤ 20 }
{
    match kind {
        Kind::Synthesizer => b"SPEAK-COMPLETE",
        Kind::Recognizer => b"RECOGNITION-COMPLETE",
    }
}

// The name of a kind's cause; no byte where there is no such cause.
pub fn cause_name(kind: Kind, cause: u32) -> &'static [u8]
    ensures text { result.now ≡ get_or (cause_names kind) cause [] }
    ensures most { length result.now ≤ 27 }
{
    match kind {
        Kind::Synthesizer => match cause {
            0 => b"normal",
            1 => b"barge-in",
            2 => b"parse-failure",
            3 => b"uri-failure",
            4 => b"error",
            5 => b"language-unsupported",
            6 => b"lexicon-load-failure",
            7 => b"cancelled",
            _ => b"",
        },
        Kind::Recognizer => match cause {
            0 => b"success",
            1 => b"no-match",
            2 => b"no-input-timeout",
            3 => b"hotword-maxtime",
            4 => b"grammar-load-failure",
            5 => b"grammar-compilation-failure",
            6 => b"recognizer-error",
            7 => b"speech-too-early",
            8 => b"success-maxtime",
            9 => b"uri-failure",
            10 => b"language-unsupported",
            11 => b"cancelled",
            12 => b"semantics-failure",
            13 => b"partial-match",
            14 => b"partial-match-maxtime",
            15 => b"no-match-maxtime",
            _ => b"",
        },
    }
}
