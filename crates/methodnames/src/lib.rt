// Which method a request names: document 01, "Start lines" and judgement 7, and document 02, K1 and K5.
#![tactic(auto)]

ghost use Rattle.std.specs.Prelude.{◌≡◌};
ghost use Rattle.synth.specs.Request.{method_of, is_params};
ghost use Rattle.synth.specs.Kinds.{method_in};

use answer::Kind;
use synth::Method;

// The method of that name. Its length says with which one or two to compare it: most names cost one comparison.
pub fn method(name: &[u8]) -> Method
    ensures { result ≡ method_of name.now }
{
    match name.len() {
        4 if octets::equal(name, b"STOP") => Method::Stop,
        5 if octets::equal(name, b"SPEAK") => Method::Speak,
        5 if octets::equal(name, b"PAUSE") => Method::Pause,
        6 if octets::equal(name, b"RESUME") => Method::Resume,
        7 if octets::equal(name, b"CONTROL") => Method::Control,
        9 if octets::equal(name, b"RECOGNIZE") => Method::Recognize,
        10 if octets::equal(name, b"SET-PARAMS") => Method::SetParams,
        10 if octets::equal(name, b"GET-PARAMS") => Method::GetParams,
        17 if octets::equal(name, b"BARGE-IN-OCCURRED") => Method::BargeInOccurred,
        18 if octets::equal(name, b"START-INPUT-TIMERS") => Method::StartInputTimers,
        _ => Method::Unknown,
    }
}

// The method, where a channel of that kind has it: one of the other kind's is as unknown as any other name.
pub fn method_in(kind: Kind, m: Method) -> Method
    ensures { result ≡ method_in kind m }
{
    match (kind, m) {
        (Kind::Synthesizer, Method::Recognize | Method::StartInputTimers) => Method::Unknown,
        (
            Kind::Recognizer,
            Method::Speak
            | Method::Pause
            | Method::Resume
            | Method::Control
            | Method::BargeInOccurred,
        ) => Method::Unknown,
        _ => m,
    }
}

// SET-PARAMS or GET-PARAMS.
pub fn is_params(m: Method) -> bool
    ensures { result ≡ is_params m }
{
    matches!(m, Method::SetParams | Method::GetParams)
}
