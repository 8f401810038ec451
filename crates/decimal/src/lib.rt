// The value of a number text, digit by digit, each operation rounded once.
#![tactic(auto)]

ghost use Rattle.std.specs.Prelude.{◌≡◌, ◌-◌, ◌^◌, ◌≤◌, length};
ghost use Rattle.std.specs.List.{prefix_len, fold};
ghost use Rattle.std.specs.Float.{binary64};
ghost use Rattle.std.specs.Float.Ieee.{div};
ghost use Rattle.decimal.specs.Number.{digit};
ghost use Rattle.decimal.specs.Value.{num, next_digit, signed as signedBy, decimal, value_of};
ghost use Rattle.decimal.specs.Compute.{is_fraction, after_whole, unsigned, decimal_of, number_of};

const MOST_WHOLE_DIGITS: usize = 3;

const MOST_FRACTION_DIGITS: usize = 9;

const TEN: f64 = 10.0;

// The powers of ten up to the most digits after a point.
const POWERS_OF_TEN: [u32; 10] = [
    1, 10, 100, 1000, 10000, 100000, 1000000, 10000000, 100000000, 1000000000,
];

fn is_digit(c: u8) -> bool
    ensures { result ≡ digit c }
{
    c.is_ascii_digit()
}

// How many digits a text begins with.
fn leading_digits(text: &[u8]) -> usize
    ensures { result ≡ prefix_len digit text.now }
{
    text.iter().take_while(|c| is_digit(**c)).count()
}

fn digit_of(c: u8) -> u8
    ensures { result ≡ c - 0x30 }
{
    c.saturating_sub(b'0')
}

// Ten times plus the digit.
fn next_digit(value: f64, c: u8) -> f64
    ensures { result ≡ next_digit value c }
{
    TEN * value + digit_of(c) as f64
}

fn accumulate(value: f64, digits: &[u8]) -> f64
    ensures { result ≡ fold next_digit value digits.now }
{
    digits.iter().fold(value, |v, c| next_digit(v, *c))
}

fn power_of_ten(n: usize) -> u32
    requires { n ≤ 9 }
    ensures { result ≡ 10 ^ n }
{
    POWERS_OF_TEN[n]
}

// One division by the power of ten.
fn scaled(digits: f64, places: usize) -> f64
    requires { places ≤ 9 }
    ensures { result ≡ div binary64 digits (num (10 ^ places)) }
{
    digits / power_of_ten(places) as f64
}

fn signed(minus: bool, x: f64) -> f64
    ensures { result ≡ signedBy minus x }
{
    if minus { -x } else { x }
}

fn value(minus: bool, whole: &[u8], fraction: &[u8]) -> f64
    requires { length fraction.now ≤ 9 }
    ensures { result ≡ value_of (decimal minus whole.now fraction.now) }
{
    let units = accumulate(0.0, whole);
    let digits = accumulate(units, fraction);
    signed(minus, scaled(digits, fraction.len()))
}

// What may stand after a point: 1 to 9 digits and nothing else.
fn is_fraction(text: &[u8]) -> bool
    ensures { result ≡ is_fraction text.now }
{
    1 <= text.len() && text.len() <= MOST_FRACTION_DIGITS && leading_digits(text) == text.len()
}

// A number text after its sign and the digits before a point.
fn read_fraction(minus: bool, whole: &[u8], rest: &[u8]) -> Option<f64>
    ensures { result ≡ number_of (after_whole minus whole.now rest.now) }
{
    if rest.len() < 1 {
        return Some(value(minus, whole, rest));
    }
    if rest[0] != b'.' {
        return None;
    }
    let fraction = &rest[1..];
    if !is_fraction(fraction) {
        return None;
    }
    Some(value(minus, whole, fraction))
}

// A number text after its sign.
fn read_unsigned(minus: bool, text: &[u8]) -> Option<f64>
    ensures { result ≡ number_of (unsigned minus text.now) }
{
    let n = leading_digits(text);
    if n < 1 || MOST_WHOLE_DIGITS < n {
        return None;
    }
    read_fraction(minus, &text[..n], &text[n..])
}

// The value of a number text; nothing of any other text.
pub fn read_number(text: &[u8]) -> Option<f64>
    ensures { result ≡ number_of (decimal_of text.now) }
{
    if text.len() < 1 {
        return None;
    }
    if text[0] == b'-' {
        return read_unsigned(true, &text[1..]);
    }
    read_unsigned(false, text)
}
