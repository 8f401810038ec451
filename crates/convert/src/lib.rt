// A left parse as XML: what forbids it, and then its bytes.
#![tactic(auto)]

ghost use Rattle.std.specs.Prelude.{◌≡◌, ◌*◌, ◌≤◌, length};
ghost use Rattle.tree.specs.Tree.{Grammar};
ghost use Rattle.derive.specs.Derive.{Row};
ghost use Rattle.convert.specs.Concluded.{refusal_number, Ready, Annotated, Parsing, Concludes};

use dynamic_errors::DynamicError;
use markup::StateWords;
use text::{limits, refusals};
use writer::Plan;

// Two numbers are noted of each entry of a left parse.
const NOTES: usize = 2 * limits::READING_NUMBERS;

const FEW_NUMBERS: usize = 512;

const FEW_NOTES: usize = 2 * FEW_NUMBERS;

// Why there is no XML.
#[derive(Clone, Copy)]
pub enum ConvertError {
    Forbidden(DynamicError),
    TooLong,
}

impl ConvertError {
    // The number of the refusal.
    pub fn number(self) -> u32
        ensures { result ≡ refusal_number self }
    {
        match self {
            ConvertError::Forbidden(error) => error.number(),
            ConvertError::TooLong => refusals::RESULT_TOO_LONG,
        }
    }
}

// The count of the XML's bytes, or 17 to 23, of a left parse whose entries are noted.
pub fn conclude(
    table: &[u32],
    root: usize,
    parse: &[u32],
    record: &[u32],
    due: StateWords,
    scratch: &mut [u64],
    out: &mut [u8],
) -> Result<usize, ConvertError>
    requires { Annotated table.now root parse.now «record».now scratch.old }
    ensures { (g : Grammar) (t : Row) → Parsing table.now root parse.now «record».now g t
        → Concludes g «record».now t due.ambiguous due.mismatch out.old out.new result }
{
    let review = dynamic_errors::first_error(table, root, parse, record, scratch);
    review.verdict.map_err(ConvertError::Forbidden)?;
    let extent = review.extent;
    let plan = Plan { due, extent };
    writer::write_xml(table, root, parse, record, plan, scratch, out).ok_or(ConvertError::TooLong)
}

// The same of a reading, with room for two numbers of each entry.
fn convert_with(
    table: &[u32],
    root: usize,
    parse: &[u32],
    record: &[u32],
    due: StateWords,
    scratch: &mut [u64],
    out: &mut [u8],
) -> Result<usize, ConvertError>
    requires { Ready table.now root parse.now «record».now × (2 * length parse.now ≤ length scratch.old) }
    ensures { (g : Grammar) (t : Row) → Parsing table.now root parse.now «record».now g t
        → Concludes g «record».now t due.ambiguous due.mismatch out.old out.new result }
{
    left_parse::note(table, root, parse, scratch);
    conclude(table, root, parse, record, due, scratch, out)
}

// The same. The numbers noted of the entries are local: 65,536 bytes, but 8,192 if the entries are few.
pub fn convert(
    table: &[u32],
    root: usize,
    parse: &[u32],
    record: &[u32],
    ambiguous: bool,
    mismatch: bool,
    out: &mut [u8],
) -> Result<usize, ConvertError>
    requires { Ready table.now root parse.now «record».now }
    ensures { (g : Grammar) (t : Row) → Parsing table.now root parse.now «record».now g t
        → Concludes g «record».now t ambiguous mismatch out.old out.new result }
{
    let due = StateWords {
        ambiguous,
        mismatch,
    };
    if parse.len() <= FEW_NUMBERS {
        let mut few = [0u64; FEW_NOTES];
        return convert_with(table, root, parse, record, due, &mut few, out);
    }
    let mut notes = [0u64; NOTES];
    convert_with(table, root, parse, record, due, &mut notes, out)
}
