// Runs of digits, and the numbers that they write.
#![tactic(auto)]

ghost use Rattle.std.specs.Prelude.{◌≡◌, true, false, ◌+◌, ◌-◌, ◌≤◌, ◌<◌, length, drop};
ghost use Rattle.octets.specs.Octets.{is_digit};
ghost use Rattle.readers.specs.Readers.{number as number_of};
ghost use Rattle.digits.specs.Steps.{scanned, one_to19, digits_at};

// A number that was read, and the position after it.
#[derive(Clone, Copy, PartialEq, Eq, Debug)]
pub struct Numeral {
    pub value: u64,
    pub next: usize,
}

// A run of digits: the number that it writes, and how many digits it has.
// Not a `Numeral`: a count of digits and a place in the bytes are two things.
#[derive(Clone, Copy, PartialEq, Eq, Debug)]
pub struct Digits {
    pub value: u64,
    pub count: usize,
}

// What a byte is worth as a digit; above 9 where it is none. So one operation gives both what is tested and what is
// added: an instruction less for each digit than a difference of bytes, which has to be widened behind its test.
fn digit_value(b: u8) -> u8
    ensures { (9 < result → is_digit b ≡ false) × (result ≤ 9 → (is_digit b ≡ true) × (result ≡ b - 48)) }
{
    b ^ 48
}

// The digits of `l` from `at` on, as far as they go. This loop is the one that reads digits. Where `l` ends a constant
// further than `at`, the compiler lays its turns out in a row, and none asks where the bytes end. It goes by positions
// of `l`: by a count of its own each digit costs an instruction more.
fn run(l: &[u8], at: usize) -> Numeral
    requires { (at ≤ length l.now) × (length l.now ≤ at + 19) }
    ensures behind { at ≤ result.next }
    ensures digits { record { value = result.value; count = result.next - at } ≡ digits_at 19 (drop at l.now) }
{
    let mut value = 0;
    for next in at..l.len() {
        let d = digit_value(l[next]);
        if 9 < d {
            return Numeral { value, next };
        }
        value = value * 10 + u64::from(d);
    }
    let next = l.len();
    Numeral { value, next }
}

// The digits at `at`, at most `most` of them. Whether so many bytes are there is asked once, in front of them. Always
// inlined, with `number`, so that a caller's constant lays the loop out.
#[inline(always)]
fn run_at(s: &[u8], at: usize, most: usize) -> Numeral
    requires { (at ≤ length s.now) × (most ≤ 19) }
    ensures behind { at ≤ result.next }
    ensures digits { record { value = result.value; count = result.next - at } ≡ digits_at most (drop at s.now) }
{
    if s.len() - at < most {
        run(s, at)
    } else {
        run(&s[..at + most], at)
    }
}

// The digits at `at`, at most `most` of them, and never more than 19, which a u64 holds.
pub fn digits_at(s: &[u8], at: usize, most: usize) -> Digits
    ensures { result ≡ digits_at most (drop at s.now) }
{
    let from = at.min(s.len());
    let Numeral { value, next } = run_at(s, from, most.min(19));
    Digits {
        value,
        count: next - from,
    }
}

// A number of 1 to `max` digits at `at`, where `max` is 1 to 19 itself; another counts as the nearest of these. It ends
// at a byte that is no digit: where fewer than `max` digits are there, the end of the bytes leaves it open.
#[inline(always)]
pub fn number(s: &[u8], at: usize, max: usize) -> Result<Numeral, readers::Misread>
    ensures { result ≡ scanned at (number_of (one_to19 max) (drop at s.now)) }
{
    let most = max.clamp(1, 19);
    let from = at.min(s.len());
    let run = run_at(s, from, most);
    if s.len() - from < most && run.next == s.len() {
        return Err(readers::Misread::Short);
    }
    if run.next == from {
        return Err(readers::Misread::Wrong);
    }
    Ok(run)
}
