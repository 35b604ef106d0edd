// `writing` as C calls it: each function is the crate's function of that name, with its contract.
#![tactic(auto)]

ghost use Rattle.std.specs.Prelude.{◌≡◌};
ghost use Rattle.writing.specs.Writing.{state_at, wrote_response, wrote_event};

#[unsafe(no_mangle)]
pub extern "C" fn klarvesimo_write_response(
    name: &[u8],
    id: u32,
    status: u32,
    state: u32,
    ids: &[u32],
    out: &mut [u8],
    written: &mut [u64; 1],
) -> u32
    ensures { record { number = result; written = written.new; out = out.new }
        ≡ wrote_response name.now id status (state_at state) ids.now written.old
        out.old }
{
    writing::klarvesimo_write_response(name, id, status, state, ids, out, written)
}

#[unsafe(no_mangle)]
pub extern "C" fn klarvesimo_write_event(
    name: &[u8],
    id: u32,
    cause: u32,
    out: &mut [u8],
    written: &mut [u64; 1],
) -> u32
    ensures { record { number = result; written = written.new; out = out.new }
        ≡ wrote_event name.now id cause written.old out.old }
{
    writing::klarvesimo_write_event(name, id, cause, out, written)
}
