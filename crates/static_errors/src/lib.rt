// The static rules 5 to 10, judged on the tokens of a syntax tree in a table.
#![tactic(auto)]

ghost use Rattle.std.specs.Prelude.{true, ◌≡◌, List, ℕ, ◌+◌, ◌≤◌, length, take};
ghost use Rattle.std.proofs.Math.Seq.{slice};
ghost use Rattle.text.specs.Lists.{any, same, repeats, chars};
ghost use Rattle.plain.specs.Static.{unassignable as noCharacter};
ghost use Rattle.tree.specs.Tree.{Grammar};
ghost use Rattle.tree.specs.Tokens.{Token};
ghost use Rattle.tokens.specs.Lengths.{length_at};
ghost use Rattle.tokens.specs.Names.{name_at, Named};
ghost use Rattle.static_errors.specs.Parts.{part_at, lacking, bad_code, end_codes, bad_codes, backward, classless, faulty, failing};
ghost use Rattle.static_errors.specs.Scan.{Tokens, Listing, Looking, Finding, Noting, Noted, Indexing, Indexed, Scanning, names_at, fails, name_refusal, code_refusal, refusal_of};
ghost use Rattle.static_errors.specs.Held.{Holds, Held, static_of, rule_number, ruling_number, asked_number};
ghost use Rattle.plain.specs.Static.{mismatched};

use text::refusals;
use tokens::Form;

// The name at a is one of those listed, from a place of the list on.
pub fn found(table: &[u32], a: usize, index: &[u32], from: usize, n: usize) -> bool
    requires { Finding table.now a index.now from n }
    ensures { result ≡ any (same (name_at table.now a)) (names_at table.now (slice from n index.now)) }
{
    for i in from..n {
        if tokens::same_name(table, a, text::wide(index[i])) {
            return true;
        }
    }
    false
}

// A name is listed twice.
fn repeated(table: &[u32], index: &[u32], n: usize) -> bool
    requires { Listing table.now index.now n }
    ensures { result ≡ repeats (names_at table.now (take n index.now)) }
{
    for i in 0..n {
        if found(table, text::wide(index[i]), index, i + 1, n) {
            return true;
        }
    }
    false
}

// The rule that is broken.
#[derive(Clone, Copy)]
pub enum StaticError {
    UndefinedName,
    RepeatedRule,
    HexTooLarge,
    HexNoCharacter,
    BackwardRange,
    UnknownClass,
}

impl StaticError {
    // The number of the refusal.
    pub fn number(self) -> u32
        ensures { result ≡ rule_number self }
    {
        match self {
            StaticError::UndefinedName => refusals::UNDEFINED_NAME,
            StaticError::RepeatedRule => refusals::REPEATED_RULE,
            StaticError::HexTooLarge => refusals::HEX_TOO_LARGE,
            StaticError::HexNoCharacter => refusals::HEX_NO_CHARACTER,
            StaticError::BackwardRange => refusals::BACKWARD_RANGE,
            StaticError::UnknownClass => refusals::UNKNOWN_CLASS,
        }
    }
}

// A surrogate or noncharacter.
#[tactic(auto, unfolding(plain::specs::Static::unassignable))]
fn unassignable(v: u32) -> bool
    ensures { result ≡ noCharacter v }
{
    text::between(v, 0xd800, 0xdfff) || text::between(v, 0xfdd0, 0xfdef) || 0xfffe <= v % 0x10000
}

fn bad_code(rule: StaticError, v: u32) -> bool
    ensures { result ≡ bad_code (rule_number rule) v }
{
    match rule {
        StaticError::HexTooLarge => 0x10ffff < v,
        _ => unassignable(v),
    }
}

// The same of an end of a range, where it is a hex number.
pub fn bad_end(rule: StaticError, hex: u32, v: u32) -> bool
    ensures { result ≡ any (bad_code (rule_number rule)) (end_codes hex v) }
{
    hex == 1 && bad_code(rule, v)
}

// Each rule at the token at k: 7 and 8, 9, 10, 5.
fn bad_codes(table: &[u32], k: usize, rule: StaticError) -> bool
    requires { k + length_at table.now k ≤ length table.now }
    ensures { result ≡ bad_codes (rule_number rule) (part_at table.now k) }
{
    match Form::of(table[k]) {
        Form::Code => bad_code(rule, table[k + tokens::VALUE]),
        Form::Range => {
            bad_end(rule, table[k + tokens::FROM_CODED], table[k + tokens::FROM])
                || bad_end(rule, table[k + tokens::TO_CODED], table[k + tokens::TO])
        }
        _ => false,
    }
}

fn runs_back(table: &[u32], k: usize) -> bool
    requires { k + length_at table.now k ≤ length table.now }
    ensures { result ≡ backward (part_at table.now k) }
{
    match Form::of(table[k]) {
        Form::Range => table[k + tokens::TO] < table[k + tokens::FROM],
        _ => false,
    }
}

fn no_class(table: &[u32], k: usize) -> bool
    requires { k + length_at table.now k ≤ length table.now }
    ensures { result ≡ classless (part_at table.now k) }
{
    match Form::of(table[k]) {
        Form::Class => {
            let class = category::class_of(table[k + tokens::CAPITAL], table[k + tokens::SMALL]);
            category::CLASSES <= class
        }
        _ => false,
    }
}

// The name at k is that of the place `guess` of the list.
fn guessed(table: &[u32], k: usize, index: &[u32], n: usize, guess: usize) -> bool
    requires { Finding table.now k index.now 0 n }
    ensures { result ≡ true → any (same (name_at table.now k)) (names_at table.now (take n index.now)) ≡ true }
{
    guess < n && tokens::same_name(table, k, text::wide(index[guess]))
}

fn lacks(table: &[u32], k: usize, index: &[u32], n: usize, guess: usize) -> bool
    requires { Looking table.now k index.now n }
    ensures { result ≡ lacking (names_at table.now (take n index.now)) (part_at table.now k) }
{
    match Form::of(table[k]) {
        Form::Name => !guessed(table, k, index, n, guess) && !found(table, k, index, 0, n),
        _ => false,
    }
}

// Any of these.
fn breaks_any(table: &[u32], k: usize, index: &[u32], n: usize, guess: usize) -> bool
    requires { Looking table.now k index.now n }
    ensures { result ≡ faulty (names_at table.now (take n index.now)) (part_at table.now k) }
{
    match Form::of(table[k]) {
        Form::Bare => false,
        Form::Name | Form::Head | Form::Text => lacks(table, k, index, n, guess),
        Form::Code | Form::Range | Form::Class => {
            bad_codes(table, k, StaticError::HexTooLarge)
                || bad_codes(table, k, StaticError::HexNoCharacter)
                || runs_back(table, k)
                || no_class(table, k)
        }
    }
}

// The number that stands for any of them.
const ANY: u32 = 0;

// The token at k breaks the rule of that number, or any. 6 is no rule of a token: it and all numbers that no rule has are taken for 8.
// `guess` is a place of the list at which a name is looked for first.
pub fn breaks(table: &[u32], k: usize, index: &[u32], n: usize, rule: u32, guess: usize) -> bool
    requires { Looking table.now k index.now n }
    ensures { result ≡ failing rule (names_at table.now (take n index.now)) (part_at table.now k) }
{
    if rule == refusals::UNDEFINED_NAME {
        return lacks(table, k, index, n, guess);
    }
    if rule == refusals::BACKWARD_RANGE {
        return runs_back(table, k);
    }
    if rule == refusals::UNKNOWN_CLASS {
        return no_class(table, k);
    }
    if rule == ANY {
        return breaks_any(table, k, index, n, guess);
    }
    if rule == refusals::HEX_TOO_LARGE {
        return bad_codes(table, k, StaticError::HexTooLarge);
    }
    bad_codes(table, k, StaticError::HexNoCharacter)
}

// The same of a rule, or of any where none is given.
fn breaks_asked(
    table: &[u32],
    k: usize,
    index: &[u32],
    n: usize,
    rule: Option<StaticError>,
    guess: usize,
) -> bool
    requires { Looking table.now k index.now n }
    ensures { result ≡ failing (asked_number rule) (names_at table.now (take n index.now)) (part_at table.now k) }
{
    match rule {
        Some(rule) => breaks(table, k, index, n, rule.number(), guess),
        None => breaks_any(table, k, index, n, guess),
    }
}

// Where the next name is looked for first: rules are often used in the order in which they are defined.
fn next_guess(kind: u32, guess: usize, n: usize) -> usize {
    match Form::of(kind) {
        Form::Name if n <= guess => 0,
        Form::Name => guess + 1,
        _ => guess,
    }
}

// Some token breaks the rule, or any where none is given.
fn broken(table: &[u32], end: usize, index: &[u32], n: usize, rule: Option<StaticError>) -> bool
    requires { Scanning table.now end index.now n }
    ensures { (ts : List Token) → Tokens table.now end 0 ts → result ≡ any (fails (asked_number rule) (names_at table.now (take n index.now))) ts }
{
    let mut guess = 1;
    let mut k = 0;
    while k < end {
        if breaks_asked(table, k, index, n, rule, guess) {
            return true;
        }
        guess = next_guess(table[k], guess, n);
        k = tokens::token_end(table, k);
    }
    false
}

// Lists the token at k where it is a rule's head.
fn note(table: &[u32], k: usize, index: &mut [u32], n: usize) -> usize
    requires { Noting table.now k index.old n }
    ensures { Noted table.now k index.old n result index.new }
{
    match Form::of(table[k]) {
        Form::Head => {
            index[n] = k as u32;
            n + 1
        }
        _ => n,
    }
}

// Lists the places of all rules' heads; how many there are.
pub fn heads(table: &[u32], end: usize, index: &mut [u32]) -> usize
    requires { Indexing table.now end index.old }
    ensures { Indexed table.now end result index.new }
{
    let mut n = 0;
    let mut k = 0;
    while k < end {
        n = note(table, k, index, n);
        k = tokens::token_end(table, k);
    }
    n
}

fn name_refusal(table: &[u32], end: usize, index: &[u32], n: usize) -> Result<(), StaticError>
    requires { Scanning table.now end index.now n }
    ensures { (ts : List Token) → Tokens table.now end 0 ts → ruling_number result ≡ name_refusal (names_at table.now (take n index.now)) ts }
{
    if broken(table, end, index, n, Some(StaticError::UndefinedName)) {
        return Err(StaticError::UndefinedName);
    }
    if repeated(table, index, n) {
        return Err(StaticError::RepeatedRule);
    }
    Ok(())
}

fn code_refusal(table: &[u32], end: usize, index: &[u32], n: usize) -> Result<(), StaticError>
    requires { Scanning table.now end index.now n }
    ensures { (ts : List Token) → Tokens table.now end 0 ts → ruling_number result ≡ code_refusal (names_at table.now (take n index.now)) ts }
{
    if broken(table, end, index, n, Some(StaticError::HexTooLarge)) {
        return Err(StaticError::HexTooLarge);
    }
    if broken(table, end, index, n, Some(StaticError::HexNoCharacter)) {
        return Err(StaticError::HexNoCharacter);
    }
    if broken(table, end, index, n, Some(StaticError::BackwardRange)) {
        return Err(StaticError::BackwardRange);
    }
    if broken(table, end, index, n, Some(StaticError::UnknownClass)) {
        return Err(StaticError::UnknownClass);
    }
    Ok(())
}

// The first rule that is broken, each looked for by itself.
fn first_refusal(table: &[u32], end: usize, index: &[u32], n: usize) -> Result<(), StaticError>
    requires { Scanning table.now end index.now n }
    ensures { (ts : List Token) → Tokens table.now end 0 ts → ruling_number result ≡ refusal_of (names_at table.now (take n index.now)) ts }
{
    name_refusal(table, end, index, n)?;
    code_refusal(table, end, index, n)
}

// The same. Most often no token breaks any rule, which one scan tells.
fn refusal(table: &[u32], end: usize, index: &[u32], n: usize) -> Result<(), StaticError>
    requires { Scanning table.now end index.now n }
    ensures { (ts : List Token) → Tokens table.now end 0 ts → ruling_number result ≡ refusal_of (names_at table.now (take n index.now)) ts }
{
    if broken(table, end, index, n, None) {
        return first_refusal(table, end, index, n);
    }
    if repeated(table, index, n) {
        return Err(StaticError::RepeatedRule);
    }
    Ok(())
}

// The first of 5 to 10 that applies to the syntax tree in the table, where the index has room for all heads.
fn refusal_by(table: &[u32], end: usize, index: &mut [u32]) -> Result<(), StaticError>
    requires { Held table.now end × (end ≤ length index.old) }
    ensures { (g : Grammar) → Holds table.now end g → ruling_number result ≡ static_of g }
{
    let n = heads(table, end, index);
    refusal(table, end, index, n)
}

// Most syntax trees take few numbers: a short index is cleared sooner.
const FEW: usize = 2048;

fn few_refusal(table: &[u32], end: usize) -> Result<(), StaticError>
    requires { Held table.now end × (end ≤ 2048) }
    ensures { (g : Grammar) → Holds table.now end g → ruling_number result ≡ static_of g }
{
    let mut index = [0u32; FEW];
    refusal_by(table, end, &mut index)
}

// The first of 5 to 10 that applies to the syntax tree in the table.
pub fn static_refusal(table: &[u32], end: usize) -> Result<(), StaticError>
    requires { Held table.now end }
    ensures { (g : Grammar) → Holds table.now end g → ruling_number result ≡ static_of g }
{
    if end <= FEW {
        return few_refusal(table, end);
    }
    let mut index = [0u32; text::limits::GRAMMAR_TABLE];
    refusal_by(table, end, &mut index)
}

// The characters of `1.0` in a token at the table's start.
const ONE_LENGTH: u32 = 3;

const SECOND: usize = tokens::CHARS + 1;

const THIRD: usize = tokens::CHARS + 2;

// The name at the table's start is `1.0`.
fn is_one(table: &[u32]) -> bool
    requires { Named table.now 0 }
    ensures { result ≡ same (name_at table.now 0) (chars "1.0") }
{
    table[tokens::COUNT] == ONE_LENGTH
        && table[tokens::CHARS] == 0x31
        && table[SECOND] == 0x2e
        && table[THIRD] == 0x30
}

// A prolog names a version other than `1.0`.
pub fn version_mismatch(table: &[u32], end: usize) -> bool
    requires { Held table.now end }
    ensures { (g : Grammar) → Holds table.now end g → result ≡ mismatched g }
{
    table[0] == tokens::VERSION && !is_one(table)
}
