// What the program writes for two files: the answer to the job that they are, or why there is none.
#![tactic(auto)]

ghost use Rattle.std.specs.Prelude.{OnOk, option_copied};
ghost use Rattle.cli.specs.Output.{Holds, job_text, Replies, Answered};

use calls::ixml_convert;
use std::io;
use std::io::{Read, Write};
use text::limits;

// The XML and a line end.
pub const WRITTEN_BYTES: usize = limits::PROGRAM_BYTES + 1;

// A byte more than a file may have tells that it is too long.
const SEEN_BYTES: usize = limits::FILE_BYTES + 1;

// What is written for a job, with the tables and the buffer that the program lends.
fn convert(grammar: &[u8], input: &[u8], out: &mut [u8; WRITTEN_BYTES]) -> usize
    ensures { Holds (job_text grammar.now input.now) out.new result }
{
    let mut main_table = [0u32; limits::PROGRAM_TABLE];
    let grammar_table = [0u32; limits::GRAMMAR_TABLE];
    let mut xml = [0u8; limits::PROGRAM_BYTES];
    let a = ixml_convert(grammar, input, &mut main_table, &grammar_table, &mut xml);
    let fault = a.places.fault;
    cli::show(a.number, a.length, a.version, fault, &xml, out)
}

// What is written for two files, by what is seen of each: its first 4,097 bytes, if it can be read.
pub fn reply(grammar: Option<&[u8]>, input: Option<&[u8]>, out: &mut [u8; WRITTEN_BYTES]) -> usize
    ensures { Replies (option_copied grammar.entry) (option_copied input.entry) out.new result }
{
    let Some(grammar) = grammar else {
        return cli::show_unreadable(out);
    };
    let Some(input) = input else {
        return cli::show_unreadable(out);
    };
    if limits::FILE_BYTES < input.len() {
        return cli::show_long(out);
    }
    convert(grammar, input, out)
}

// Reads the files of a job, one after the other, and writes what there is to say of them. The only errors are
// the writer's, which may then have taken a part of it.
pub fn answer<G: Read + Drop, R: Read + Drop, W: Write>(
    grammar: G,
    input: R,
    writer: &mut W,
) -> io::Result<()>
    ensures { OnOk result (Answered (G.remaining grammar) (R.remaining input)
        (W.contents writer.old) (W.contents writer.new)) }
{
    let mut shown = [0u8; SEEN_BYTES];
    let mut read = [0u8; SEEN_BYTES];
    let first = cli::load(grammar, &mut shown);
    let second = cli::load(input, &mut read);
    let mut out = [0u8; WRITTEN_BYTES];
    let n = reply(
        first.map(|n| &shown[..n]),
        second.map(|n| &read[..n]),
        &mut out,
    );
    writer.write_all(&out[..n])
}
