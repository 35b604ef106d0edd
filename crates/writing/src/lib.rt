// The writers called from C, one message a call, for the comparison with the second program and the benchmark; the
// product's own face has calls on a channel instead.
#![tactic(auto)]

ghost use Rattle.std.specs.Prelude.{◌≡◌, MatchOption};
ghost use Rattle.std.proofs.Math.Option.{none, some};
ghost use Rattle.writing.specs.Writing.{told, state_at, wrote_response, wrote_event};

// The number and the count of a write.
// Numbers: this face is C's, and its contract names 7 and 9.
fn tell(w: Result<usize, output::TooLong>, written: &mut [u64; 1]) -> u32
    ensures { record { number = result; written = written.new } ≡ told w written.old }
{
    let (number, count) = match w {
        Ok(n) => (0, n as u64),
        Err(output::TooLong) => (7, 0),
    };
    written[0] = count;
    number
}

// The request state with that number.
// Not a TryFrom: the numbers are this face's alone.
fn state_of(number: u32) -> Option<message::RequestState>
    ensures { MatchOption result (state_at number ≡ none) (λ s. state_at number ≡ some s) }
{
    match number {
        1 => Some(message::RequestState::Pending),
        2 => Some(message::RequestState::InProgress),
        3 => Some(message::RequestState::Complete),
        _ => None,
    }
}

// The response to a request in the state with that number; 9 where there is no such state.
pub fn klarvesimo_write_response(
    name: &[u8],
    id: u32,
    status: u32,
    state: u32,
    ids: &[u32],
    out: &mut [u8],
    written: &mut [u64; 1],
) -> u32
    ensures { record { number = result; written = written.new; out = out.new }
        ≡ wrote_response name.now id status (state_at state) ids.now written.old
        out.old }
{
    let Some(state) = state_of(state) else {
        written[0] = 0;
        return 9;
    };
    let a = answer::Answer {
        id,
        status: answer::Status { code: status },
        state,
    };
    tell(output::respond(out, name, a, ids), written)
}

// The event that ends a SPEAK; 9 where there is no such cause.
pub fn klarvesimo_write_event(
    name: &[u8],
    id: u32,
    cause: u32,
    out: &mut [u8],
    written: &mut [u64; 1],
) -> u32
    ensures { record { number = result; written = written.new; out = out.new }
        ≡ wrote_event name.now id cause written.old out.old }
{
    let kind = answer::Kind::Synthesizer;
    if answer::cause_count(kind) <= cause {
        written[0] = 0;
        return 9;
    }
    tell(output::complete(out, kind, name, id, cause), written)
}
