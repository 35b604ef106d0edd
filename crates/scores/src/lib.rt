// What an engine report counts as, by its score: document 02, K1.
#![tactic(auto)]

ghost use Rattle.std.specs.Prelude.{◌≡◌, ◌≤◌};
ghost use Rattle.std.specs.Float.Ieee.{lt};
ghost use Rattle.synth.specs.Levels.{single};
ghost use Rattle.synth.specs.Calls.{is_no_score};
ghost use Rattle.synth.specs.States.{is_match, counted};

// What a match whose score is not greater than the threshold counts as.
const NO_MATCH: u32 = 1;

// Whether the score is no number; a synthesizer's is not judged.
pub fn is_none(kind: answer::Kind, score: f32) -> bool
    ensures { result ≡ is_no_score kind score }
{
    match kind {
        answer::Kind::Synthesizer => false,
        answer::Kind::Recognizer => score.is_nan(),
    }
}

// Causes 000 and 008.
pub fn is_match(cause: u32) -> bool
    ensures { result ≡ is_match cause }
{
    matches!(cause, 0 | 8)
}

// Whether the score is greater than the threshold of so many millionths.
fn is_greater(threshold: u32, score: f32) -> bool
    ensures { threshold ≤ 1000000 → result ≡ lt (single threshold) score }
{
    levels::single(threshold) < score
}

// The cause that a report with this score counts as.
pub fn counted(threshold: u32, cause: u32, score: f32) -> u32
    ensures { threshold ≤ 1000000 → result ≡ counted threshold cause score }
{
    if is_match(cause) && !is_greater(threshold, score) {
        return NO_MATCH;
    }
    cause
}
