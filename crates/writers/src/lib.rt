// How many digits a number has, the length that counts its own, and bytes and digits written into a lent output.
#![tactic(auto)]

ghost use Rattle.std.specs.Prelude.{◌≡◌, ◌+◌, ◌-◌, ◌^◌, ◌≤◌, min, length};
ghost use Rattle.writers.specs.Decimal.{digits, width as width_of, three_digits};
ghost use Rattle.writers.specs.SelfLength.{self_length};
ghost use Rattle.writers.specs.Buffer.{Wrote};

// How many digits n has; 0 has one.
pub fn width(n: u64) -> usize
    ensures { (result ≡ width_of n) × (result ≤ 20) }
{
    n.max(1).ilog10() as usize + 1
}

// The greatest base for which the length, with twenty digits more, is a usize: 2 ^ 64 - 21.
const MOST: usize = usize::MAX - 20;

// The length that a message states which has `base` bytes besides the digits of that length. A base above MOST counts
// as MOST.
pub fn self_length(base: usize) -> usize
    ensures { result ≡ self_length (min base (2 ^ 64 - 21)) }
{
    let b = base.min(MOST);
    let once = b + width(b as u64);
    b + width(once as u64)
}

// Writes `src` at `at`; returns the place behind it. A loop, since `copy_from_slice` was tried, and calls memmove: more
// instructions for pieces as short as these, and one function more that some boards would have to have.
// `out` and `at`, no cursor, and the room a `requires`: the size is worked out once in front, and no piece tests it.
pub fn put_bytes(out: &mut [u8], at: usize, src: &[u8]) -> usize
    requires { at + length src.now ≤ length out.old }
    ensures { Wrote out.old at src.now out.new result }
{
    for (k, b) in src.iter().enumerate() {
        out[at + k] = *b;
    }
    at + src.len()
}

// Writes the digits of n at `at`, the last one first; returns the place behind them.
// A `while`, since `for k in (at..end).rev()` was tried, and costs a number of one digit twelve instructions more.
pub fn put_digits(out: &mut [u8], at: usize, n: u64) -> usize
    requires { at + width_of n ≤ length out.old }
    ensures { Wrote out.old at (digits n) out.new result }
{
    let end = at + width(n);
    let mut k = end - 1;
    let mut m = n;
    while 10 <= m {
        out[k] = b'0' + (m % 10) as u8;
        m /= 10;
        k -= 1;
    }
    out[k] = b'0' + m as u8;
    end
}

// Writes the last three digits of n at `at`; returns the place behind them.
pub fn put_three(out: &mut [u8], at: usize, n: u32) -> usize
    requires { at + 3 ≤ length out.old }
    ensures { Wrote out.old at (three_digits n) out.new result }
{
    let digits = [
        b'0' + (n / 100 % 10) as u8,
        b'0' + (n / 10 % 10) as u8,
        b'0' + (n % 10) as u8,
    ];
    put_bytes(out, at, &digits)
}
