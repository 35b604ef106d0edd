// What a request comes to, whatever its method: document 01, "States and queue".
#![tactic(auto)]

ghost use Rattle.std.specs.Prelude.{◌≡◌, cond};
ghost use Rattle.message.specs.declared.RequestState.TheVariants.{Complete};
ghost use Rattle.queue.specs.Queue.{no_ids};
ghost use Rattle.outcomes.specs.Outcomes.{outcome};

// What is answered, the ids that the answer lists, and the channel's state and queue afterwards.
#[derive(Clone, Copy)]
pub struct Outcome {
    pub answer: answer::Answer,
    pub listed: queue::Ids,
    pub state: synth::State,
    pub queue: queue::Queue,
}

// A failed request answers COMPLETE and changes nothing more.
pub fn failed(state: synth::State, queue: queue::Queue, id: u32, status: answer::Status) -> Outcome
    ensures { result ≡ outcome id status.code Complete no_ids state queue }
{
    Outcome {
        answer: status.complete(id),
        listed: queue::list_none(),
        state,
        queue,
    }
}

// A success that is at an end: 201 where a field was ignored.
pub fn succeeded(
    id: u32,
    ignored: bool,
    listed: queue::Ids,
    state: synth::State,
    queue: queue::Queue,
) -> Outcome
    ensures { result ≡ outcome id (cond ignored 201 200) Complete listed state queue }
{
    Outcome {
        answer: answer::Status::success(ignored).complete(id),
        listed,
        state,
        queue,
    }
}
