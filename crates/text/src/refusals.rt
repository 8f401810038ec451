// The numbers of an answer, by the names that include/ixml.h gives them.
pub const ANSWERED: u32 = 0;

pub const GRAMMAR_TOO_LONG: u32 = 1;

pub const GRAMMAR_NOT_UTF8: u32 = 2;

pub const GRAMMAR_CHARACTER: u32 = 3;

pub const NOT_IXML: u32 = 4;

pub const UNDEFINED_NAME: u32 = 5;

pub const REPEATED_RULE: u32 = 6;

pub const HEX_TOO_LARGE: u32 = 7;

pub const HEX_NO_CHARACTER: u32 = 8;

pub const BACKWARD_RANGE: u32 = 9;

pub const UNKNOWN_CLASS: u32 = 10;

pub const GRAMMAR_TOO_LARGE: u32 = 11;

pub const UNPRODUCTIVE_RULE: u32 = 24;

pub const RECORD_NOT_UTF8: u32 = 12;

pub const RECORD_CHARACTER: u32 = 13;

pub const RECORD_TOO_LONG: u32 = 14;

pub const TABLE_TOO_SHORT: u32 = 15;

pub const NO_READING: u32 = 16;

pub const READING_TOO_LONG: u32 = 29;

pub const REPEATED_ATTRIBUTE: u32 = 17;

pub const NOT_XML_NAME: u32 = 18;

pub const NOT_XML_CHARACTER: u32 = 19;

pub const ATTRIBUTE_ROOT: u32 = 20;

pub const DELETED_ROOT: u32 = 21;

pub const ATTRIBUTE_XMLNS: u32 = 22;

pub const RESULT_TOO_LONG: u32 = 23;
