// Trace files as C is to call them: document 02, K7.
#![tactic(auto)]

ghost use Rattle.std.specs.Prelude.{◌≡◌};
ghost use Rattle.recorder.specs.Face.{message_face, record_face, finish_face};

// Message n of a file, from 1: where it begins and how long it is. No pointer is handed back over C.
#[unsafe(no_mangle)]
#[tactic(auto, unfolding(crate::specs::Face::message_face))]
pub extern "C" fn klarvesimo_trace_message(f: &[u8], n: u64, place: &mut [u64; 2]) -> u32
    ensures { record { number = result; place = place.new }
        ≡ message_face f.now n place.old }
{
    match tracereader::message_at(f, n as usize) {
        Ok(message) => {
            place[0] = message.start as u64;
            place[1] = message.len as u64;
            0
        }
        Err(refusal) => refusal.number(),
    }
}

// The caller keeps the trace as two numbers: the bytes used in the output, and the messages recorded there.
#[unsafe(no_mangle)]
#[tactic(auto, unfolding(crate::specs::Face::record_face))]
pub extern "C" fn klarvesimo_trace_record(out: &mut [u8], trace: &mut [u64; 2], m: &[u8]) -> u32
    ensures { record { number = result; trace = trace.new; out = out.new }
        ≡ record_face out.old trace.old m.now }
{
    match tracewriter::record_message(out, trace[0] as usize, trace[1] as usize, m) {
        Ok(recorded) => {
            trace[0] = recorded.used as u64;
            trace[1] = recorded.count as u64;
            0
        }
        Err(refusal) => refusal.number(),
    }
}

#[unsafe(no_mangle)]
#[tactic(auto, unfolding(crate::specs::Face::finish_face))]
pub extern "C" fn klarvesimo_trace_finish(
    out: &mut [u8],
    used: u64,
    count: u64,
    length: &mut [u64; 1],
) -> u32
    ensures { record { number = result; length = length.new; out = out.new }
        ≡ finish_face out.old used count length.old }
{
    match tracewriter::finish(out, used as usize, count as usize) {
        Ok(n) => {
            length[0] = n as u64;
            0
        }
        Err(refusal) => refusal.number(),
    }
}
