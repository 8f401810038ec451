// Every limit of a job: the numbers of crates/text/specs/Limits.antt.

// Bytes of a grammar.
pub const GRAMMAR_BYTES: usize = 4096;
// Levels of round brackets, and of comments.
pub const LEVELS: usize = 16;
// The size of a grammar.
pub const GRAMMAR_SIZE: usize = 512;
// Characters of a record.
pub const RECORD_CHARACTERS: usize = 200;
// Numbers of the grammar table.
pub const GRAMMAR_TABLE: usize = 16384;
// Numbers of a reading.
pub const READING_NUMBERS: usize = 4096;
// Numbers of the main table, and bytes of the result, that the program lends.
pub const PROGRAM_TABLE: usize = 16384;

pub const PROGRAM_BYTES: usize = 65536;
// Bytes of a record file that the program reads.
pub const FILE_BYTES: usize = 4096;
