// The bytes that are written for an answer.
ghost use Rattle.std.specs.Prelude.{◌≡◌, ◌+◌, ◌≤◌, ◌<◌, length, take, ◌++◌};
ghost use Rattle.answer.specs.Program.{decimal, fail_document};
ghost use Rattle.cli.specs.Output.{Put, Holds, Shows, fail_head, body_of, refusal, no_file, long_file};

use std::cmp::min;
use text::{limits, refusals};

// The XML and a line end.
const WRITTEN_BYTES: usize = limits::PROGRAM_BYTES + 1;

// Puts a text after the first `at` bytes, and answers where it ends.
fn put(text: &[u8], out: &mut [u8], at: usize) -> usize
    requires { at + length text.now ≤ length out.old }
    ensures { Put text.now at out.old out.new result }
{
    let end = at + text.len();
    out[at..end].copy_from_slice(text);
    end
}

// The document that says that a record does not fit, up to the digits of the place.
fn put_head(version: bool, out: &mut [u8]) -> usize
    requires { 128 ≤ length out.old }
    ensures { (result ≤ 100) × (take result out.new ≡ fail_head version) }
{
    if version {
        return put(
            b"<fail xmlns:ixml='http://invisiblexml.org/NS' ixml:state='failed version-mismatch' place='",
            out,
            0,
        );
    }
    put(
        b"<fail xmlns:ixml='http://invisiblexml.org/NS' ixml:state='failed' place='",
        out,
        0,
    )
}

// A digit; a larger number has none.
fn digit(d: u32) -> u8
    ensures { d < 10 → result ≡ 48 + d }
{
    if d < 10 {
        return b'0' + d as u8;
    }
    b'?'
}

// A number below 1,000 in decimal.
fn put_decimal(n: u32, out: &mut [u8], at: usize) -> usize
    requires { at + 3 ≤ length out.old }
    ensures { (result ≤ at + 3) × (n < 1000 → take result out.new ≡ take at out.old ++ decimal n) }
{
    if n < 10 {
        return put(&[digit(n)], out, at);
    }
    if n < 100 {
        return put(&[digit(n / 10), digit(n % 10)], out, at);
    }
    put(
        &[digit(n / 100), digit(n / 10 % 10), digit(n % 10)],
        out,
        at,
    )
}

// The whole document, with a place below 1,000.
fn put_fail(version: bool, place: u32, out: &mut [u8]) -> usize
    requires { 128 ≤ length out.old }
    ensures { (result ≤ 128) × (place < 1000 → take result out.new ≡ fail_document version place) }
{
    let at = put_head(version, out);
    let end = put_decimal(place, out, at);
    put(b"'/>", out, end)
}

// `refused` and a number below 100.
fn put_refused(n: u32, out: &mut [u8]) -> usize
    requires { 128 ≤ length out.old }
    ensures { (result ≤ 128) × (n < 100 → take result out.new ≡ refusal n) }
{
    let at = put(b"refused ", out, 0);
    put_decimal(n, out, at)
}

// What is written for an answer, up to the line end.
fn put_answer(
    number: u32,
    size: usize,
    version: bool,
    place: usize,
    xml: &[u8],
    out: &mut [u8],
) -> usize
    requires { (length xml.now ≤ 65536) × (65537 ≤ length out.old) }
    ensures { (result ≤ 65536) × (number < 100 → place < 1000 → take result out.new ≡ body_of number size version place xml.now) }
{
    if number == refusals::ANSWERED {
        let n = min(size, xml.len());
        return put(&xml[..n], out, 0);
    }
    if number == refusals::NO_READING {
        let shown = min(place, 999) as u32;
        return put_fail(version, shown, out);
    }
    put_refused(number, out)
}

// What is written for an answer: the first `size` bytes of the XML, the document of a record
// that does not fit, with the place of the fault, or the refusal's number; and a line end.
pub fn show(
    number: u32,
    size: usize,
    version: bool,
    place: usize,
    xml: &[u8],
    out: &mut [u8; WRITTEN_BYTES],
) -> usize
    requires { length xml.now ≤ 65536 }
    ensures { Shows number size version place xml.now out.new result }
{
    let at = put_answer(number, size, version, place, xml, out);
    put(b"\n", out, at)
}

// What is written where a file cannot be read.
pub fn show_unreadable(out: &mut [u8; WRITTEN_BYTES]) -> usize
    ensures { Holds no_file out.new result }
{
    put(b"unreadable\n", out, 0)
}

// What is written where the record file is too long to be read.
pub fn show_long(out: &mut [u8; WRITTEN_BYTES]) -> usize
    ensures { Holds long_file out.new result }
{
    put(b"refused 14\n", out, 0)
}
