// The place in a grammar's text of what breaks a static rule: the places of all that is written, in an array of their own, and the first
// that is at fault.
#![tactic(auto)]

mod faults;
mod spots;

ghost use Rattle.std.specs.Prelude.{◌≡◌};
ghost use Rattle.places.specs.Tokens.{place_of};
ghost use Rattle.static_errors.specs.Held.{rule_number};
ghost use Rattle.locate.specs.Asked.{Asked};

use static_errors::StaticError;
use text::{CharPlace, limits};

// Each symbol, member and rule's name of a grammar has a spot, in the order of the text; the array has the place of each. A name has the
// place after its mark, a literal that of its quote or `#`, a set or group that of its bracket, a range those of both its ends.
pub fn fault_place(text: &[u32], table: &[u32], end: usize, rule: StaticError) -> CharPlace
    requires { Asked text.now table.now end (rule_number rule) }
    ensures { result.0 ≡ place_of (rule_number rule) text.now }
{
    let mut places = [0u32; limits::GRAMMAR_BYTES];
    spots::locate(text, &mut places);
    let spot = faults::first_fault(table, end, rule);
    CharPlace(tokens::look(&places, spot))
}
