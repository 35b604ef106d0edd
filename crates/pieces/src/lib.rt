// The pieces of a response or an event, each written into a lent output that has room for it: document 01, "Bytes
// written".
#![tactic(auto)]

ghost use Rattle.std.specs.Prelude.{◌++◌, ◌+◌, ◌≤◌, length};
ghost use Rattle.octets.specs.Octets.{crlf};
ghost use Rattle.writers.specs.Decimal.{width};
ghost use Rattle.writers.specs.Buffer.{Wrote};
ghost use Rattle.message.specs.Message.{response as response_line, event as event_line};
ghost use Rattle.message.specs.StartLines.{state_text};
ghost use Rattle.message.specs.declared.RequestState.{RequestState};
ghost use Rattle.answer.specs.Written.{start_text, field_text, fields_text};
ghost use Rattle.answer.specs.IdList.{behind_commas};
ghost use Rattle.answer.specs.Answers.{
  channel_identifier,
  active_request_id_list,
  event_name,
  completion_cause,
};
ghost use Rattle.pieces.specs.Steps.{opening_text};

fn put_state(out: &mut [u8], at: usize, state: message::RequestState) -> usize
    requires { at + length (state_text state) ≤ length out.old }
    ensures { Wrote out.old at (state_text state) out.new result }
{
    match state {
        message::RequestState::Pending => writers::put_bytes(out, at, b"PENDING"),
        message::RequestState::InProgress => writers::put_bytes(out, at, b"IN-PROGRESS"),
        message::RequestState::Complete => writers::put_bytes(out, at, b"COMPLETE"),
    }
}

// What a message begins with: version and length, up to the space.
pub fn put_opening(out: &mut [u8], at: usize, size: usize) -> usize
    requires { at + (10 + width size) ≤ length out.old }
    ensures { Wrote out.old at (opening_text size) out.new result }
{
    let a = writers::put_bytes(out, at, b"MRCP/2.0 ");
    let b = writers::put_digits(out, a, size as u64);
    writers::put_bytes(out, b, b" ")
}

// The rest of a response's start line.
pub fn put_response_line(out: &mut [u8], at: usize, a: answer::Answer) -> usize
    requires { at + (7 + width a.id + length (state_text a.state)) ≤ length out.old }
    ensures { Wrote out.old at (start_text (response_line a.id a.status.code a.state) ++ crlf)
        out.new result }
{
    let p = writers::put_digits(out, at, u64::from(a.id));
    let q = writers::put_bytes(out, p, b" ");
    let r = writers::put_three(out, q, a.status.code);
    let s = writers::put_bytes(out, r, b" ");
    let t = put_state(out, s, a.state);
    writers::put_bytes(out, t, b"\r\n")
}

// The rest of the start line of the event that ends request `id`.
pub fn put_event_line(out: &mut [u8], at: usize, kind: answer::Kind, id: u32) -> usize
    requires { at + (12 + length (event_name kind) + width id) ≤ length out.old }
    ensures { Wrote out.old at
        (start_text (event_line (event_name kind) id RequestState.Complete) ++ crlf) out.new result }
{
    let p = writers::put_bytes(out, at, answer::event_name(kind));
    let q = writers::put_bytes(out, p, b" ");
    let r = writers::put_digits(out, q, u64::from(id));
    writers::put_bytes(out, r, b" COMPLETE\r\n")
}

pub fn put_channel_identifier(out: &mut [u8], at: usize, name: &[u8]) -> usize
    requires { at + (21 + length name.now) ≤ length out.old }
    ensures { Wrote out.old at (field_text (channel_identifier name.now))
        out.new result }
{
    let p = writers::put_bytes(out, at, b"Channel-Identifier:");
    let q = writers::put_bytes(out, p, name);
    writers::put_bytes(out, q, b"\r\n")
}

// Each id with a comma before it.
fn put_behind_commas(out: &mut [u8], at: usize, ids: &[u32]) -> usize
    requires { at + length (behind_commas ids.now) ≤ length out.old }
    ensures { Wrote out.old at (behind_commas ids.now) out.new result }
{
    let mut p = at;
    for id in ids {
        p = writers::put_bytes(out, p, b",");
        p = writers::put_digits(out, p, u64::from(*id));
    }
    p
}

// The list field; nothing where there is nothing to list.
pub fn put_id_list(out: &mut [u8], at: usize, ids: &[u32]) -> usize
    requires { at + length (fields_text (active_request_id_list ids.now)) ≤ length out.old }
    ensures { Wrote out.old at (fields_text (active_request_id_list ids.now))
        out.new result }
{
    let Some((first, others)) = ids.split_first() else {
        return at;
    };
    let p = writers::put_bytes(out, at, b"Active-Request-Id-List:");
    let q = writers::put_digits(out, p, u64::from(*first));
    let r = put_behind_commas(out, q, others);
    writers::put_bytes(out, r, b"\r\n")
}

// The cause of the event that ends a request; no name where there is no such cause.
pub fn put_cause(out: &mut [u8], at: usize, kind: answer::Kind, cause: u32) -> usize
    requires { at + (19 + length (completion_cause kind cause).value) ≤ length out.old }
    ensures { Wrote out.old at (field_text (completion_cause kind cause)) out.new result }
{
    let p = writers::put_bytes(out, at, b"Completion-Cause:");
    let q = writers::put_three(out, p, cause);
    let r = writers::put_bytes(out, q, b" ");
    let s = writers::put_bytes(out, r, answer::cause_name(kind, cause));
    writers::put_bytes(out, s, b"\r\n")
}
