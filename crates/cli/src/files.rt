// The files that arguments name, and the first bytes of one.
ghost use Rattle.std.specs.Prelude.{◌≡◌, ◌≤◌, IfOk, IfSome, length, take};
ghost use Rattle.cli.specs.Output.{Chunked, Fetched};

use std::env::FillError;
use std::io::{ErrorKind, Read};
use std::rt::{Env, Files};
use std::{fs, io};

// More bytes than a path may have.
const PATH_BYTES: usize = 4096;

// Whether the program was given argument i. One that is too long for a buffer is there too.
pub fn is_given(rt: &impl Env, i: usize) -> bool {
    !matches!(rt.arg(i, &mut []), Err(FillError::NotPresent))
}

// The file that an argument names. It is opened where it is first read.
#[derive(Drop)]
pub struct NamedFile<'a, H: Env + Files> {
    host: &'a H,
    index: usize,
    file: Option<H::File>,
}

// The file that argument i names.
pub fn named<H: Env + Files>(host: &H, i: usize) -> NamedFile<'_, H> {
    NamedFile {
        host,
        index: i,
        file: None,
    }
}

// Opens the file that argument i names. A name is text: one that is no UTF-8 names none.
fn open<H: Env + Files>(host: &H, i: usize) -> io::Result<H::File> {
    let mut path = [0u8; PATH_BYTES];
    let Ok(n) = host.arg(i, &mut path) else {
        return Err(io::Error::from(ErrorKind::NotFound));
    };
    let Ok(name) = str::from_utf8(&path[..n]) else {
        return Err(io::Error::from(ErrorKind::InvalidInput));
    };
    fs::open(host, name)
}

// A file that cannot be opened fails at each read.
impl<H: Env + Files> Read for NamedFile<'_, H> {
    fn read(&mut self, buf: &mut [u8]) -> io::Result<usize> {
        match &mut self.file {
            Some(file) => file.read(buf),
            None => {
                let mut file = open(self.host, self.index)?;
                let got = file.read(buf);
                self.file = Some(file);
                got
            }
        }
    }
}

// Reads once, into the buffer from a place on; what stands before it is kept. Where what was read ends, or none at the end of the file.
fn read_some<R: Read>(reader: &mut R, buf: &mut [u8], at: usize) -> io::Result<Option<usize>>
    requires { at ≤ length buf.old }
    ensures chunked { Chunked result at buf.old buf.new }
    ensures fetched { Fetched result at buf.new (R.remaining reader.old) (R.remaining reader.new) }
{
    match reader.read(&mut buf[at..])? {
        0 => Ok(None),
        n => Ok(Some(at + n)),
    }
}

// Reads until the buffer is full or the file ends; how many bytes there were.
fn fill<R: Read>(reader: &mut R, buf: &mut [u8]) -> io::Result<usize>
    ensures bound { IfOk result (λ n. n ≤ length buf.new) }
    ensures known { IfSome (R.remaining reader.old) (λ bs. IfOk result (λ n. take n buf.new ≡ take (length buf.old) bs)) }
{
    let mut done = 0;
    while done < buf.len() {
        let Some(next) = read_some(reader, buf, done)? else {
            return Ok(done);
        };
        done = next;
    }
    Ok(done)
}

// How many of a file's first bytes the buffer took, all that it has room for; nothing, if a read failed. Then the file is
// closed.
pub fn load<R: Read + Drop>(mut file: R, buf: &mut [u8]) -> Option<usize>
    ensures bound { IfSome result (λ n. n ≤ length buf.new) }
    ensures known { IfSome (R.remaining file) (λ bs. IfSome result (λ n. take n buf.new ≡ take (length buf.old) bs)) }
{
    fill(&mut file, buf).ok()
}
