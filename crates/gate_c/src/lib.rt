// The position gate's calls for C, as include/ixml_gate.h declares them: each is that of the library. None requires anything of its caller.
#![tactic(auto)]

ghost use Rattle.gate.specs.Calls.{Ruled, NumberRead};

use gate::{Gate, GateAnswer, NumberAnswer};

#[unsafe(no_mangle)]
pub extern "C" fn ixml_gate_box(
    south: f64,
    north: f64,
    west: f64,
    east: f64,
    lat: &[u8],
    lon: &[u8],
) -> GateAnswer
    ensures { Ruled (Gate.Box south north west east) lat.now lon.now result }
{
    gate::ixml_gate_box(south, north, west, east, lat, lon)
}

#[unsafe(no_mangle)]
pub extern "C" fn ixml_gate_band(south: f64, north: f64, lat: &[u8], lon: &[u8]) -> GateAnswer
    ensures { Ruled (Gate.Band south north) lat.now lon.now result }
{
    gate::ixml_gate_band(south, north, lat, lon)
}

#[unsafe(no_mangle)]
pub extern "C" fn ixml_gate_anywhere(lat: &[u8], lon: &[u8]) -> GateAnswer
    ensures { Ruled Gate.Anywhere lat.now lon.now result }
{
    gate::ixml_gate_anywhere(lat, lon)
}

#[unsafe(no_mangle)]
pub extern "C" fn ixml_number(text: &[u8]) -> NumberAnswer
    ensures { NumberRead text.now result }
{
    gate::ixml_number(text)
}
