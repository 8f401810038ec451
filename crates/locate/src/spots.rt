// The places of a grammar's spots by one scan of its text.
ghost use Rattle.std.specs.Prelude.{◌≡◌, ◌+◌, ◌≤◌, ◌<◌, length, set, false};
ghost use Rattle.text.specs.Lists.{pick};
ghost use Rattle.places.specs.Scan.{sign as Sign, opens as Opens, onward as Onward, step as Step};
ghost use Rattle.places.specs.Scan.{quoted, comment};
ghost use Rattle.locate.specs.Spots.{meant, goes_on, Within, Stepping, Located};

// Where the scan stands: between words; in a name, class or hex number; in a string, whose quote it is, or behind such a quote, which may
// be doubled; in a comment, by how many are open around it.
#[derive(Clone, Copy)]
enum State {
    Between,
    Word,
    Quoted(u32),
    Closed(u32),
    Comment(u32),
}

#[tactic(auto, unfolding(places::specs::Scan::sign))]
fn sign(c: u32) -> bool
    ensures { result ≡ Sign c }
{
    c == spacing::NUMBER_SIGN || c == spacing::OPEN_SQUARE || c == spacing::OPEN_ROUND
}

// Something begins at the character.
#[tactic(auto, unfolding(places::specs::Scan::opens))]
fn opens(c: u32) -> bool
    ensures { result ≡ Opens c }
{
    spacing::name_start(c) || spacing::quote(c) || sign(c)
}

// After a character that stands between words.
#[tactic(auto, unfolding(places::specs::Scan::onward))]
fn onward(c: u32) -> State
    ensures { meant result ≡ Onward c }
{
    if spacing::name_start(c) || c == spacing::NUMBER_SIGN {
        return State::Word;
    }
    if spacing::quote(c) {
        return State::Quoted(c);
    }
    if c == spacing::OPEN_BRACE {
        return State::Comment(0);
    }
    State::Between
}

// The character goes on in what the scan stands in.
fn goes_on(state: State, c: u32) -> bool
    ensures { result ≡ goes_on (meant state) c }
{
    match state {
        State::Between => false,
        State::Word => spacing::name_follower(c),
        State::Quoted(_) | State::Comment(_) => true,
        State::Closed(q) => c == q,
    }
}

// Something begins at the character, unless it goes on in something.
fn begins(on: bool, c: u32) -> bool
    ensures { result ≡ pick on false (Opens c) }
{
    !on && opens(c)
}

// After a character in a comment.
fn in_comment(depth: u32, c: u32) -> State
    requires { depth < 4294967295 }
    ensures { meant result ≡ Step (comment depth) c }
{
    if c == spacing::OPEN_BRACE {
        return State::Comment(depth + 1);
    }
    if c != spacing::CLOSE_BRACE {
        return State::Comment(depth);
    }
    if depth == 0 {
        return State::Between;
    }
    State::Comment(depth - 1)
}

// After a character in a string.
fn in_string(q: u32, c: u32) -> State
    ensures { meant result ≡ Step (quoted q) c }
{
    if c == q {
        return State::Closed(q);
    }
    State::Quoted(q)
}

// After a character that goes on in something.
fn within(state: State, c: u32) -> State
    requires { Within state c }
    ensures { meant result ≡ Step (meant state) c }
{
    match state {
        State::Between | State::Word => State::Word,
        State::Quoted(q) => in_string(q, c),
        State::Closed(q) => State::Quoted(q),
        State::Comment(depth) => in_comment(depth, c),
    }
}

// After a character.
fn step(on: bool, state: State, c: u32) -> State
    requires { Stepping on state c }
    ensures { meant result ≡ Step (meant state) c }
{
    if on {
        return within(state, c);
    }
    onward(c)
}

// Puts the place i into the array, where a spot is there; how many there are.
fn put(places: &mut [u32], n: usize, i: usize, there: bool) -> usize
    requires { (n < length places.old) × (i < 4294967295) }
    ensures { (result ≡ pick there (n + 1) n) × (places.new ≡ pick there (set places.old n i) places.old) }
{
    if there {
        places[n] = i as u32;
        return n + 1;
    }
    n
}

// Puts the place of each spot into the array.
pub fn locate(text: &[u32], places: &mut [u32])
    requires { (length text.now ≤ length places.old) × (length text.now < 4294967295) }
    ensures { Located text.now places.new }
{
    let mut n = 0;
    let mut state = State::Between;
    for i in 0..text.len() {
        let c = text[i];
        let on = goes_on(state, c);
        n = put(places, n, i, begins(on, c));
        state = step(on, state, c);
    }
}
