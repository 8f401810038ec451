// The position gate: two attribute texts and a grower's gate come to a verdict, or to a refusal. None of the exported calls requires
// anything of its caller.
#![tactic(auto)]

ghost use Rattle.std.specs.Prelude.{◌≡◌, ◌&&◌};
ghost use Rattle.std.specs.Float.Ieee.{le};
ghost use Rattle.decimal.specs.Nearest.{finite as is_finite};
ghost use Rattle.gate.specs.Gate.{limits, sound, beyond, out_of_range, inside as is_inside, exchanged as exchange};
ghost use Rattle.gate.specs.Gate.{is_box, swapped, verdict_of};
ghost use Rattle.gate.specs.Compute.{placed, ruling_of};
ghost use Rattle.gate.specs.Calls.{verdict_number, refusal_number, shown as shows, Ruled, NumberRead};

// How the exported answers number the refusals.
const UNSOUND_GATE: u32 = 30;

const NO_NUMBER: u32 = 31;

const OUT_OF_RANGE: u32 = 32;

const ANSWERED: u32 = 0;

// The greatest sizes of a latitude and a longitude, in degrees.
const MOST_LATITUDE: f64 = 90.0;

const MOST_LONGITUDE: f64 = 180.0;

// How the exported answers number the verdicts.
const NO_VERDICT: u32 = 0;

const INSIDE: u32 = 1;

const SWAPPED: u32 = 2;

const SUSPECT: u32 = 3;

#[derive(Clone, Copy)]
pub struct Latitude(pub f64);

#[derive(Clone, Copy)]
pub struct Longitude(pub f64);

#[derive(Clone, Copy)]
pub struct Position {
    pub lat: Latitude,
    pub lon: Longitude,
}

// What a grower gives: limits of latitude, and in a box of longitude too.
#[derive(Clone, Copy)]
pub enum Gate {
    Box {
        south: f64,
        north: f64,
        west: f64,
        east: f64,
    },
    Band {
        south: f64,
        north: f64,
    },
    Anywhere,
}

#[derive(Clone, Copy)]
pub enum Verdict {
    Inside,
    Swapped,
    Suspect,
}

// Why there is no verdict: a limit that is not finite or above its other one, a text that is no number text, a value beyond the
// greatest sizes.
#[derive(Clone, Copy)]
pub enum GateRefusal {
    UnsoundGate,
    NoNumber,
    OutOfRange,
}

impl GateRefusal {
    // The number of the refusal.
    pub fn number(self) -> u32
        ensures { result ≡ refusal_number self }
    {
        match self {
            GateRefusal::UnsoundGate => UNSOUND_GATE,
            GateRefusal::NoNumber => NO_NUMBER,
            GateRefusal::OutOfRange => OUT_OF_RANGE,
        }
    }
}

// A ruling as it is exported: 0 and a verdict by its number, or a refusal and no verdict.
#[repr(C)]
#[derive(Clone, Copy)]
pub struct GateAnswer {
    pub number: u32,
    pub verdict: u32,
}

// The value of a number text: 0 and the value, or a refusal and the value 0.
#[repr(C)]
#[derive(Clone, Copy)]
pub struct NumberAnswer {
    pub number: u32,
    pub value: f64,
}

#[tactic(auto, using(crate::proofs::Constants::finite_law))]
fn finite(x: f64) -> bool
    ensures { result ≡ is_finite x }
{
    x.is_finite()
}

fn are_limits(low: f64, high: f64) -> bool
    ensures { result ≡ limits low high }
{
    finite(low) && finite(high) && !(high < low)
}

fn is_sound(gate: Gate) -> bool
    ensures { result ≡ sound gate }
{
    match gate {
        Gate::Box {
            south,
            north,
            west,
            east,
        } => are_limits(south, north) && are_limits(west, east),
        Gate::Band { south, north } => are_limits(south, north),
        Gate::Anywhere => true,
    }
}

fn is_beyond(most: f64, x: f64) -> bool
    ensures { result ≡ beyond most x }
{
    x < -most || most < x
}

#[tactic(auto, using(crate::proofs::Constants::ninety, crate::proofs::Constants::half_turn))]
fn is_out_of_range(position: Position) -> bool
    ensures { result ≡ out_of_range position }
{
    is_beyond(MOST_LATITUDE, position.lat.0) || is_beyond(MOST_LONGITUDE, position.lon.0)
}

// The limits are included.
fn between(low: f64, high: f64, x: f64) -> bool
    ensures { result ≡ (le low x && le x high) }
{
    low <= x && x <= high
}

fn inside(gate: Gate, position: Position) -> bool
    ensures { result ≡ is_inside gate position }
{
    let lat = position.lat.0;
    let lon = position.lon.0;
    match gate {
        Gate::Box {
            south,
            north,
            west,
            east,
        } => between(south, north, lat) && between(west, east, lon),
        Gate::Band { south, north } => between(south, north, lat),
        Gate::Anywhere => true,
    }
}

// The latitude taken for the longitude, and the longitude for the latitude.
fn exchanged(position: Position) -> Position
    ensures { result ≡ exchange position }
{
    let lat = position.lat.0;
    let lon = position.lon.0;
    Position {
        lat: Latitude(lon),
        lon: Longitude(lat),
    }
}

fn is_box(gate: Gate) -> bool
    ensures { result ≡ is_box gate }
{
    matches!(gate, Gate::Box { .. })
}

// Inside once the values are exchanged, as only a box can tell.
#[tactic(auto, using(crate::proofs::Constants::ninety))]
fn is_swapped(gate: Gate, position: Position) -> bool
    ensures { result ≡ swapped gate position }
{
    let other = exchanged(position);
    is_box(gate) && !is_beyond(MOST_LATITUDE, other.lat.0) && inside(gate, other)
}

// The verdict on a position.
pub fn judge(gate: Gate, position: Position) -> Verdict
    ensures { result ≡ verdict_of gate position }
{
    if inside(gate, position) {
        return Verdict::Inside;
    }
    if is_swapped(gate, position) {
        return Verdict::Swapped;
    }
    Verdict::Suspect
}

// A position that is out of range is refused before any exchange.
fn place(gate: Gate, position: Position) -> Result<Verdict, GateRefusal>
    ensures { result ≡ placed gate position }
{
    if is_out_of_range(position) {
        return Err(GateRefusal::OutOfRange);
    }
    Ok(judge(gate, position))
}

// The gate is judged first, then both texts, then the position.
pub fn rule(gate: Gate, lat: &[u8], lon: &[u8]) -> Result<Verdict, GateRefusal>
    ensures { result ≡ ruling_of gate lat.now lon.now }
{
    if !is_sound(gate) {
        return Err(GateRefusal::UnsoundGate);
    }
    let x = decimal::read_number(lat).ok_or(GateRefusal::NoNumber)?;
    let y = decimal::read_number(lon).ok_or(GateRefusal::NoNumber)?;
    place(
        gate,
        Position {
            lat: Latitude(x),
            lon: Longitude(y),
        },
    )
}

fn number_of(verdict: Verdict) -> u32
    ensures { result ≡ verdict_number verdict }
{
    match verdict {
        Verdict::Inside => INSIDE,
        Verdict::Swapped => SWAPPED,
        Verdict::Suspect => SUSPECT,
    }
}

fn shown(ruling: Result<Verdict, GateRefusal>) -> GateAnswer
    ensures { result ≡ shows ruling }
{
    match ruling {
        Ok(verdict) => GateAnswer {
            number: ANSWERED,
            verdict: number_of(verdict),
        },
        Err(refusal) => GateAnswer {
            number: refusal.number(),
            verdict: NO_VERDICT,
        },
    }
}

// The ruling of a box: the limits of latitude, low and high, then those of longitude.
pub fn ixml_gate_box(
    south: f64,
    north: f64,
    west: f64,
    east: f64,
    lat: &[u8],
    lon: &[u8],
) -> GateAnswer
    ensures { Ruled (Gate.Box south north west east) lat.now lon.now result }
{
    shown(rule(
        Gate::Box {
            south,
            north,
            west,
            east,
        },
        lat,
        lon,
    ))
}

// The ruling of a band between two latitudes.
pub fn ixml_gate_band(south: f64, north: f64, lat: &[u8], lon: &[u8]) -> GateAnswer
    ensures { Ruled (Gate.Band south north) lat.now lon.now result }
{
    shown(rule(Gate::Band { south, north }, lat, lon))
}

// The ruling of a gate without limits.
pub fn ixml_gate_anywhere(lat: &[u8], lon: &[u8]) -> GateAnswer
    ensures { Ruled Gate.Anywhere lat.now lon.now result }
{
    shown(rule(Gate::Anywhere, lat, lon))
}

// The value of a number text.
pub fn ixml_number(text: &[u8]) -> NumberAnswer
    ensures { NumberRead text.now result }
{
    match decimal::read_number(text) {
        Some(value) => NumberAnswer {
            number: ANSWERED,
            value,
        },
        None => NumberAnswer {
            number: NO_NUMBER,
            value: 0.0,
        },
    }
}
