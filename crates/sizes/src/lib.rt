// How many bytes responses and events have, counted up to one more than the lent output holds: document 01, "Bytes
// written" and refusal 7.
#![tactic(auto)]

ghost use Rattle.std.specs.Prelude.{◌≡◌, ◌+◌, ◌^◌, ◌≤◌, ◌<◌, min, map, length};
ghost use Rattle.writers.specs.Decimal.{width};
ghost use Rattle.writers.specs.SelfLength.{self_length};
ghost use Rattle.message.specs.StartLines.{state_text};
ghost use Rattle.answer.specs.Written.{fields_text, written, written_all};
ghost use Rattle.answer.specs.IdList.{behind_commas};
ghost use Rattle.answer.specs.Answers.{active_request_id_list, response_of, complete, completes};
ghost use Rattle.answer.specs.declared.Kind.{Kind};
ghost use Rattle.sizes.specs.Steps.{telling_of};

// How many bytes the word of a state has.
fn state_width(state: message::RequestState) -> usize
    ensures { (result ≡ length (state_text state)) × (result ≤ 11) }
{
    match state {
        message::RequestState::Pending => 7,
        message::RequestState::InProgress => 11,
        message::RequestState::Complete => 8,
    }
}

// How many bytes the words of a response's start line have.
fn words_size(a: answer::Answer) -> usize
    ensures { (result ≡ 5 + width a.id + length (state_text a.state)) × (result ≤ 36) }
{
    5 + writers::width(u64::from(a.id)) + state_width(a.state)
}

// The size of the ids, each with a comma before it, or cap + 1 where it is above cap.
fn commas_size(ids: &[u32], cap: usize) -> usize
    requires { cap < 2 ^ 63 }
    ensures { result ≡ min (length (behind_commas ids.now)) (cap + 1) }
{
    let mut n = 0;
    for id in ids {
        n += 1 + writers::width(u64::from(*id));
        if cap < n {
            return cap + 1;
        }
    }
    n
}

// The size of the list field, or cap + 1 where it is above cap.
fn list_size(ids: &[u32], cap: usize) -> usize
    requires { cap < 2 ^ 63 }
    ensures { result ≡ min (length (fields_text (active_request_id_list ids.now))) (cap + 1) }
{
    let Some((first, others)) = ids.split_first() else {
        return 0;
    };
    let n = 25 + writers::width(u64::from(*first)) + commas_size(others, cap);
    n.min(cap + 1)
}

// The size of a message with the fields Channel-Identifier and others, and no body, where the words of its start line
// and the other fields have `rest` bytes; or cap + 1 where it is above cap.
fn message_size(name: &[u8], rest: usize, cap: usize) -> usize
    requires { cap < 2 ^ 63 }
    ensures { result ≡ min (self_length (35 + length name.now + rest)) (cap + 1) }
{
    let size = writers::self_length((35 + name.len()).saturating_add(rest));
    size.min(cap + 1)
}

// The size of the response, or one more than `out` holds where it is longer.
pub fn response_size(name: &[u8], a: answer::Answer, ids: &[u32], out: &[u8]) -> usize
    ensures { result ≡ min (length (written (response_of name.now a ids.now)))
        (length out.now + 1) }
{
    let cap = out.len();
    message_size(name, words_size(a) + list_size(ids, cap), cap)
}

// The size of the answer that tells fields, or one more than `out` holds where it is longer.
pub fn telling_size(name: &[u8], a: answer::Answer, fields: &[u8], out: &[u8]) -> usize
    ensures { result ≡ min (length (telling_of name.now a fields.now))
        (length out.now + 1) }
{
    message_size(name, words_size(a) + fields.len(), out.len())
}

// The size of the event that ends request `id`, or one more than `out` holds where it is longer.
pub fn complete_size(kind: answer::Kind, name: &[u8], id: u32, cause: u32, out: &[u8]) -> usize
    ensures { result ≡ min (length (written (complete kind name.now id cause)))
        (length out.now + 1) }
{
    let words = 10 + answer::event_name(kind).len() + writers::width(u64::from(id));
    let field = 23 + answer::cause_name(kind, cause).len();
    message_size(name, words + field, out.len())
}

// The size of those that end the requests with 011, or one more than `out` holds where it is above that.
// A sum of its own beside `commas_size`: each is measured by its own definition.
fn cancelled_size(name: &[u8], ids: &[u32], out: &[u8]) -> usize
    ensures { result ≡ min
        (length (written_all (map (λ i. complete Kind.Recognizer name.now i 11) ids.now)))
        (length out.now + 1) }
{
    let cap = out.len();
    let mut n = 0;
    for id in ids {
        n += complete_size(answer::Kind::Recognizer, name, *id, answer::CANCELLED, out);
        if cap < n {
            return cap + 1;
        }
    }
    n
}

// The size of those that end the requests, the first with `cause` and the others with 011, or one more than `out` holds
// where it is above that.
pub fn complete_all_size(name: &[u8], ids: &[u32], cause: u32, out: &[u8]) -> usize
    ensures { result ≡ min
        (length (written_all (completes Kind.Recognizer name.now ids.now cause)))
        (length out.now + 1) }
{
    let Some((first, others)) = ids.split_first() else {
        return 0;
    };
    let size = complete_size(answer::Kind::Recognizer, name, *first, cause, out);
    size.saturating_add(cancelled_size(name, others, out))
        .min(out.len() + 1)
}
