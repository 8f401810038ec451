// The bytes of one character: what its first byte says, and one byte more.
ghost use Rattle.std.specs.Prelude.{◌≡◌};
ghost use Rattle.text.specs.Lists.{inside, span};
ghost use Rattle.text.specs.Decode.{second_low, second_high};
ghost use Rattle.decode.specs.Sequence.{lead as leadWith, lead_of, Takes, taking};

// How many bytes follow, the limits of the next, and the bits so far.
#[derive(Clone, Copy)]
pub struct Sequence {
    pub more: usize,
    pub low: u8,
    pub high: u8,
    pub bits: u32,
}

// No character begins so: stands for the count of bytes that follow.
pub const NEVER: usize = 4;

#[tactic(auto, unfolding(text::specs::Decode::second_low))]
fn second_low(b: u8) -> u8
    ensures { result ≡ second_low b }
{
    match b {
        0xe0 => 0xa0,
        0xf0 => 0x90,
        _ => 0x80,
    }
}

#[tactic(auto, unfolding(text::specs::Decode::second_high))]
fn second_high(b: u8) -> u8
    ensures { result ≡ second_high b }
{
    match b {
        0xed => 0x9f,
        0xf4 => 0x8f,
        _ => 0xbf,
    }
}

fn lead_with(more: usize, bits: u8, b: u8) -> Sequence
    ensures { result ≡ leadWith more bits b }
{
    Sequence {
        more,
        low: second_low(b),
        high: second_high(b),
        bits: text::wide_byte(bits),
    }
}

// What a first byte says.
#[tactic(auto, unfolding(crate::specs::Sequence::lead_of))]
pub fn lead_of(b: u8) -> Sequence
    ensures { result ≡ lead_of b }
{
    if b < 0x80 {
        return lead_with(0, b, b);
    }
    if b < 0xc2 {
        return lead_with(NEVER, 0, b);
    }
    if b < 0xe0 {
        return lead_with(1, b - 0xc0, b);
    }
    if b < 0xf0 {
        return lead_with(2, b - 0xe0, b);
    }
    if b < 0xf5 {
        return lead_with(3, b - 0xf0, b);
    }
    lead_with(NEVER, 0, b)
}

// A byte may stand next.
pub fn follows(s: Sequence, b: u8) -> bool
    ensures { result ≡ inside b (span s.low s.high) }
{
    text::between(
        text::wide_byte(b),
        text::wide_byte(s.low),
        text::wide_byte(s.high),
    )
}

// With the next byte.
pub fn with_byte(s: Sequence, b: u8) -> Sequence
    requires { Takes s b }
    ensures { result ≡ taking s b }
{
    let more = s.more - 1;
    let bits = s.bits * 64 + text::wide_byte(b - 0x80);
    Sequence {
        more,
        low: 0x80,
        high: 0xbf,
        bits,
    }
}
