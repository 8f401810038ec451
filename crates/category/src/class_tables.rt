// The tables of classes. A class is its place in the definition's list: the thirty categories, then L M N P S Z C and LC.

// How many classes there are.
pub const CLASSES: usize = 38;

// A class's first and last category in one number: the first in units of this, and the last.
pub const SPAN_UNIT: u16 = 32;

pub const SPAN: [u16; CLASSES] = [
    0, // Lu
    33, // Ll
    66, // Lt
    99, // Lm
    132, // Lo
    165, // Mn
    198, // Mc
    231, // Me
    264, // Nd
    297, // Nl
    330, // No
    363, // Pc
    396, // Pd
    429, // Ps
    462, // Pe
    495, // Pi
    528, // Pf
    561, // Po
    594, // Sm
    627, // Sc
    660, // Sk
    693, // So
    726, // Zs
    759, // Zl
    792, // Zp
    825, // Cc
    858, // Cf
    891, // Cs
    924, // Co
    957, // Cn
    4, // L
    167, // M
    266, // N
    369, // P
    597, // S
    728, // Z
    829, // C
    2, // LC
];

// A class's letters in one number, its key: the first in units of this, and the second, 0 if there is none.
pub const KEY_UNIT: u32 = 256;

pub const KEY: [u16; CLASSES] = [
    19573, // Lu
    19564, // Ll
    19572, // Lt
    19565, // Lm
    19567, // Lo
    19822, // Mn
    19811, // Mc
    19813, // Me
    20068, // Nd
    20076, // Nl
    20079, // No
    20579, // Pc
    20580, // Pd
    20595, // Ps
    20581, // Pe
    20585, // Pi
    20582, // Pf
    20591, // Po
    21357, // Sm
    21347, // Sc
    21355, // Sk
    21359, // So
    23155, // Zs
    23148, // Zl
    23152, // Zp
    17251, // Cc
    17254, // Cf
    17267, // Cs
    17263, // Co
    17262, // Cn
    19456, // L
    19712, // M
    19968, // N
    20480, // P
    21248, // S
    23040, // Z
    17152, // C
    19523, // LC
];

// Where a class stands in the table of slots: its key modulo one, then the other. No two classes share a slot.
pub const FIRST_MODULUS: u32 = 135;

pub const SLOTS: usize = 75;

// The class of each slot; 0 in a slot that no class has.
pub const CLASS_AT: [u8; SLOTS] = [
    13, 0, 31, 0, 0, 0, 0, 36, 37, 0, 0, 0, 0, 8, 0, 35, 30, 19, 0, 0, 33, 9, 0, 0, 10, 20, 6, 18,
    7, 21, 0, 25, 0, 0, 26, 0, 0, 5, 0, 0, 0, 0, 29, 28, 0, 0, 0, 27, 32, 1, 3, 0, 4, 34, 0, 0, 0,
    2, 0, 11, 12, 14, 16, 23, 0, 15, 0, 24, 0, 0, 22, 17, 0, 0, 0,
];

// Whether some known code point is of a class.
pub const KNOWN_CLASS: [bool; CLASSES] = [
    true, // Lu
    true, // Ll
    false, // Lt
    false, // Lm
    true, // Lo
    true, // Mn
    false, // Mc
    false, // Me
    true, // Nd
    false, // Nl
    true, // No
    true, // Pc
    true, // Pd
    true, // Ps
    true, // Pe
    true, // Pi
    true, // Pf
    true, // Po
    true, // Sm
    true, // Sc
    true, // Sk
    true, // So
    true, // Zs
    false, // Zl
    false, // Zp
    true, // Cc
    true, // Cf
    false, // Cs
    false, // Co
    false, // Cn
    true, // L
    true, // M
    true, // N
    true, // P
    true, // S
    true, // Z
    true, // C
    true, // LC
];
