// What the fields of a request say, asked for by name: document 01, "Fields", and judgements 2, 3, 6, 9 and 11, and
// document 02, K5.
#![tactic(auto)]

ghost use Rattle.std.specs.Prelude.{◌≡◌};
ghost use Rattle.message.specs.Message.{part, on_fields};
ghost use Rattle.message.specs.Reading.{fields_from};
ghost use Rattle.request.specs.Telling.{Told, value_by};

// The fields of the frame `f` from `at` on, with the names that count as known, where they pass judgement 2; no place
// of a field is kept but these names' values.
pub fn read(f: &[u8], at: usize, params: bool) -> Option<header::Header>
    ensures { Told params f.now result
        (on_fields (part f.now) (fields_from params f.now at)) }
{
    header::read_header(f, at, params, &mut [])
}

// The value of the known name `k`, where it came.
pub fn value(h: header::Header, k: message::Known) -> Option<message::Span>
    ensures { result ≡ value_by h k }
{
    values::given_at(h.mask, names::bit(k), h.values[names::index(k)])
}
