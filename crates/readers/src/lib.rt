// Texts read from bytes: the steps that framing and message reading are made of.
#![tactic(auto)]

ghost use Rattle.std.specs.Prelude.{◌≡◌, drop};
ghost use Rattle.readers.specs.Readers.{text as text_of};
ghost use Rattle.readers.specs.Words.{starts, is_crlf};
ghost use Rattle.readers.specs.Steps.{placed};

// Why nothing was read: the bytes end too soon, or they are wrong.
#[derive(Clone, Copy, PartialEq, Eq, Debug)]
pub enum Misread {
    Short,
    Wrong,
}

// The bytes of `t` at `at`: the position after them.
pub fn text(s: &[u8], at: usize, t: &[u8]) -> Result<usize, Misread>
    ensures { result ≡ placed at (text_of t.now (drop at s.now)) }
{
    let rest = &s[at.min(s.len())..];
    if rest.starts_with(t) {
        return Ok(at + t.len());
    }
    if t.starts_with(rest) {
        return Err(Misread::Short);
    }
    Err(Misread::Wrong)
}

// The byte `b` stands at `at`.
pub fn has(f: &[u8], at: usize, b: u8) -> bool
    ensures { result ≡ starts b (drop at f.now) }
{
    at < f.len() && f[at] == b
}

// CRLF stands at `at`.
pub fn crlf(f: &[u8], at: usize) -> bool
    ensures { result ≡ is_crlf (drop at f.now) }
{
    has(f, at, b'\r') && has(f, at + 1, b'\n')
}
