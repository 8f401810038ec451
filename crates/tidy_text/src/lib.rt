// The tidy text of a grammar, by one scan over its tokens in the grammar table.
#![tactic(auto)]

ghost use Rattle.std.specs.Prelude.{◌≡◌, true, List, [], ◌∷◌, ◌<◌, ◌≤◌, length};
ghost use Rattle.text.specs.Lists.{pick};
ghost use Rattle.tree.specs.Tokens.{Token};
ghost use Rattle.tokens.specs.Lengths.{Left};
ghost use Rattle.encode.specs.Out.{Wrote, enc};
ghost use Rattle.tidy.specs.Scan.{kind_of, past, joint, before, begins, scan};
ghost use Rattle.tidy.specs.Numbers.{kind_by, joint_by};
ghost use Rattle.tidy_writer.specs.Walk.{SomeLeft};
ghost use Rattle.tidy_text.specs.Whole.{AllFit, error_number, Concludes};

use text::{BytePlace, limits, refusals};

// The refusal of a tidy text that has more bytes than a grammar may have.
pub const TIDY_TOO_LONG: u32 = 28;

// What joins two factors, by the kind of the token behind the second.
fn put_joint(out: &mut [u8], limit: BytePlace, pos: BytePlace, kind: u32) -> BytePlace
    requires { limit.0 ≤ length out.old }
    ensures { Wrote limit.0 pos.0 out.old result.0 out.new (joint_by kind) }
{
    if kind == tokens::TO_REPEAT0SEP {
        return encode::put_all(out, limit, pos, b"**");
    }
    if kind == tokens::TO_REPEAT1SEP {
        return encode::put_all(out, limit, pos, b"++");
    }
    encode::put_all(out, limit, pos, b", ")
}

// What joins the factor that begins at k to the one before it.
fn put_joint_before(
    out: &mut [u8],
    limit: BytePlace,
    pos: BytePlace,
    t: &[u32],
    end: usize,
    k: usize,
) -> BytePlace
    requires { (limit.0 ≤ length out.old) × SomeLeft t.now end k }
    ensures { (ts : List Token) → Left t.now end k ts
        → Wrote limit.0 pos.0 out.old result.0 out.new (joint (past 0 ts)) }
{
    let behind = tidy_writer::past_factor(t, end, k);
    if behind >= end {
        return put_joint(out, limit, pos, tokens::RULE_END);
    }
    put_joint(out, limit, pos, t[behind])
}

// What stands before the token at k, which may begin a list.
fn put_between(
    out: &mut [u8],
    limit: BytePlace,
    pos: BytePlace,
    t: &[u32],
    end: usize,
    k: usize,
    first: bool,
) -> BytePlace
    requires { (limit.0 ≤ length out.old) × SomeLeft t.now end k × (k < end) }
    ensures { (x : Token) (ts : List Token) → Left t.now end k (x ∷ ts)
        → Wrote limit.0 pos.0 out.old result.0 out.new (pick first [] (before (kind_of x) ts)) }
{
    if first {
        return pos;
    }
    let kind = t[k];
    if kind < tokens::RULE_HEAD {
        return put_joint_before(out, limit, pos, t, end, k);
    }
    if kind < tokens::MEMBER_QUOTED {
        return pos;
    }
    if kind < tokens::SET_END {
        return encode::put_all(out, limit, pos, b"; ");
    }
    if kind == tokens::SET_END {
        return pos;
    }
    if kind < tokens::CLOSE_GROUP {
        return put_joint_before(out, limit, pos, t, end, k);
    }
    pos
}

// A list begins after a token of the kind.
#[tactic(auto, unfolding(tidy::specs::Numbers::kind_by))]
fn begins_list(kind: u32) -> bool
    ensures { result ≡ begins (kind_by kind) }
{
    tokens::INCLUDE <= kind && kind < tokens::MEMBER_QUOTED
        || kind == tokens::OPEN_GROUP
        || kind == tokens::NEXT_ALTERNATIVE
}

// All tokens up to the end.
pub fn put_grammar(out: &mut [u8], limit: BytePlace, t: &[u32], end: usize) -> BytePlace
    requires { (limit.0 ≤ length out.old) × SomeLeft t.now end 0 }
    ensures { (ts : List Token) → Left t.now end 0 ts → AllFit ts
        → Wrote limit.0 0 out.old result.0 out.new (scan true ts) }
{
    let mut pos = BytePlace(0);
    let mut first = true;
    let mut k = 0;
    while k < end {
        pos = put_between(out, limit, pos, t, end, k, first);
        pos = tidy_writer::put_token(out, limit, pos, t, k);
        first = begins_list(t[k]);
        k = tokens::token_end(t, k);
    }
    pos
}

// Why there is no tidy text: it has more bytes than a grammar may have, or than the lent buffer.
#[derive(Clone, Copy)]
pub enum TidyError {
    TidyTooLong,
    ResultTooLong,
}

impl TidyError {
    // The number of the refusal.
    pub fn number(self) -> u32
        ensures { result ≡ error_number self }
    {
        match self {
            TidyError::TidyTooLong => TIDY_TOO_LONG,
            TidyError::ResultTooLong => refusals::RESULT_TOO_LONG,
        }
    }
}

// The count of the tidy text's bytes; or 28, and then 23: the text is written into 4,096 local bytes first, so that 28 is told
// whatever buffer is lent.
pub fn tidy(t: &[u32], end: usize, res: &mut [u8]) -> Result<usize, TidyError>
    requires { SomeLeft t.now end 0 }
    ensures { (ts : List Token) → Left t.now end 0 ts → AllFit ts
        → Concludes (enc (scan true ts)) res.old res.new result }
{
    let mut whole = [0u8; limits::GRAMMAR_BYTES];
    let n = put_grammar(&mut whole, BytePlace(limits::GRAMMAR_BYTES), t, end);
    let count = n.0;
    if count > limits::GRAMMAR_BYTES {
        return Err(TidyError::TidyTooLong);
    }
    let room = res.len();
    if count > room {
        return Err(TidyError::ResultTooLong);
    }
    encode::put_all(res, BytePlace(room), BytePlace(0), &whole[..count]);
    Ok(count)
}
