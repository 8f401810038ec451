// The state of a read in rounds: one array of fixed length that keeps grammar and record whole, a number for each byte.
#![tactic(auto)]

ghost use Rattle.std.specs.Prelude.{◌≡◌, true, ℕ, ◌+◌, ◌≤◌, length, get_or};
ghost use Rattle.tells.specs.Tells.{Tells};
ghost use Rattle.state.specs.State.{state_length, rounds_of, BytesAt, Head, Keeps, Kept, headed, Counted, Blank};

use text::limits;

// The numbers before the bytes.
const TAG: usize = 0;

const ROUNDS: usize = 1;

const FINISHED: usize = 2;

const GRAMMAR_LENGTH: usize = 3;

const RECORD_LENGTH: usize = 4;

// Where the bytes begin, and how many of a record there may be: four for each character.
const GRAMMAR: usize = 8;

const RECORD: usize = GRAMMAR + limits::GRAMMAR_BYTES;

const RECORD_BYTES: usize = 4 * limits::RECORD_CHARACTERS;

pub const LENGTH: usize = RECORD + RECORD_BYTES;

// "ixml" in ASCII: the tag of a state that a start made.
const STARTED: u32 = 1769500012;

// As many rounds as a read may take: 512 rules, 201 places.
const MOST_ROUNDS: u32 = 102912;

// Whether the numbers from a place on are these bytes.
fn bytes_at(state: &[u32], at: usize, bytes: &[u8]) -> bool
    requires { (at + length bytes.now ≤ length state.now) × (length state.now ≡ state_length) }
    ensures { Tells result (BytesAt state.now at bytes.now) }
{
    for i in 0..bytes.len() {
        if state[at + i] != text::wide_byte(bytes[i]) {
            return false;
        }
    }
    true
}

// Whether the tag, the counts and the lengths are those of a state of such a grammar and record.
fn is_head(state: &[u32], grammar: usize, record: usize) -> bool
    requires { length state.now ≡ state_length }
    ensures { Tells result (Head state.now grammar «record») }
{
    if limits::GRAMMAR_BYTES < grammar {
        return false;
    }
    if RECORD_BYTES < record {
        return false;
    }
    if state[TAG] != STARTED {
        return false;
    }
    if MOST_ROUNDS < state[ROUNDS] {
        return false;
    }
    if 1 < state[FINISHED] {
        return false;
    }
    if text::wide(state[GRAMMAR_LENGTH]) != grammar {
        return false;
    }
    text::wide(state[RECORD_LENGTH]) == record
}

// Whether the state is one of this grammar and this record.
pub fn keeps(state: &[u32], grammar: &[u8], record: &[u8]) -> bool
    requires { length state.now ≡ state_length }
    ensures { Tells result (Keeps grammar.now «record».now state.now) }
{
    if !is_head(state, grammar.len(), record.len()) {
        return false;
    }
    if !bytes_at(state, GRAMMAR, grammar) {
        return false;
    }
    bytes_at(state, RECORD, record)
}

// The numbers from a place on take the bytes.
fn keep(state: &mut [u32], at: usize, bytes: &[u8])
    requires { (at + length bytes.now ≤ length state.old) × (length state.old ≡ state_length) }
    ensures { Kept state.old state.new at bytes.now }
{
    for i in 0..bytes.len() {
        state[at + i] = text::wide_byte(bytes[i]);
    }
}

// The numbers before the bytes, of a read that has just begun.
fn put_head(state: &mut [u32], grammar: u32, record: u32)
    requires { length state.old ≡ state_length }
    ensures { state.new ≡ headed state.old grammar «record» }
{
    state[TAG] = STARTED;
    state[ROUNDS] = 0;
    state[FINISHED] = 0;
    state[GRAMMAR_LENGTH] = grammar;
    state[RECORD_LENGTH] = record;
}

// The state of a read that has just begun.
pub fn begin(state: &mut [u32], grammar: &[u8], record: &[u8])
    requires { (length state.old ≡ state_length) × (length grammar.now ≤ 4096) × (length «record».now ≤ 800) }
    ensures { Keeps grammar.now «record».now state.new × (rounds_of state.new ≡ 0) × (get_or state.new 2 0 ≡ 0) }
{
    keep(state, GRAMMAR, grammar);
    keep(state, RECORD, record);
    put_head(state, grammar.len() as u32, record.len() as u32);
}

// So many rounds are done.
pub fn count(state: &mut [u32], rounds: u32, finished: u32)
    requires { length state.old ≡ state_length }
    ensures { Counted state.old state.new rounds finished }
{
    state[ROUNDS] = rounds;
    state[FINISHED] = finished;
}

pub fn rounds(state: &[u32]) -> u32
    requires { length state.now ≡ state_length }
    ensures { result ≡ rounds_of state.now }
{
    state[ROUNDS]
}

pub fn finished(state: &[u32]) -> bool
    requires { length state.now ≡ state_length }
    ensures { Tells result (get_or state.now 2 0 ≡ 1) }
{
    state[FINISHED] == 1
}

// The state of no read.
pub fn wipe(state: &mut [u32])
    ensures { Blank state.new }
{
    state.fill(0);
}
