// No code: document 01's limits and sizes, each with one name. A limit is itself allowed.
#![tactic(auto)]

// ---- the image

pub const LARGEST_IMAGE: usize = 4096;

pub const FIRST_BYTE: u8 = 0x51;

// the first two bytes, before the contents lines
pub const HEAD_SIZE: usize = 2;

pub const LINE_SIZE: usize = 8;

pub const MOST_LINES: usize = 16;

pub const HIGHEST_KIND: u32 = 255;

// a kind from here on never changes a reading
pub const LOWEST_PASSED_OVER: u32 = 128;

// ---- kind 1, identity

pub const IDENTITY_SIZE: usize = 24;

pub const FIRST_YEAR: u64 = 1980;

pub const LAST_YEAR: u64 = 2099;

// ---- kinds 2 and 3, pressure set and temperature set

// before the coefficients
pub const SET_HEAD_SIZE: usize = 28;

pub const COEFFICIENT_SIZE: usize = 8;

pub const PRESCALE_ALGORITHM: u8 = 1;

pub const HIGHEST_ORDER: u8 = 4;

// rows of a grid, and places of a row: one for each order from 0 on
pub const GRID_SIZE: usize = HIGHEST_ORDER as usize + 1;

// 2^30
pub const LARGEST_MULTIPLIER: u64 = 1073741824;

// the highest frequency, below
pub const LARGEST_OFFSET: u64 = HIGHEST_FREQUENCY;

// 2^34
pub const LARGEST_COEFFICIENT: u64 = 17179869184;

// ---- kind 4, trim

pub const TRIM_SIZE: usize = 16;

pub const HIGHEST_UNIT: u64 = 3;

// 2^31
pub const LARGEST_SPAN: u64 = 2147483648;

// 2^40
pub const LARGEST_ZERO: u64 = 1099511627776;

// ---- kind 129, note

pub const LONGEST_NOTE: u64 = 64;

pub const LOWEST_CHARACTER: u64 = 32;

pub const HIGHEST_CHARACTER: u64 = 126;

// ---- from counts to a reading

pub const MOST_SENSOR_CYCLES: u64 = 1048576;

// the reference, 7.2 MHz, in 1/65,536 Hz
pub const REFERENCE_FREQUENCY: u64 = 7200000 * 65536;

// 10,000 and 100,000 Hz, in 1/65,536 Hz
pub const LOWEST_FREQUENCY: u64 = 655360000;

pub const HIGHEST_FREQUENCY: u64 = 6553600000;

// 2^24, which stands for 1
pub const LARGEST_X: u64 = 16777216;

pub const LARGEST_SUM: u64 = 500000000000;

// 2^31
pub const LARGEST_RESULT: u64 = 2147483648;

// ---- levels

pub const LAST_LEVEL: u32 = 2;

// ---- HEX texts

// of 256 records of 16 bytes, and the end record
pub const LONGEST_WRITTEN_TEXT: usize = 11276;

// ---- the show program

pub const LONGEST_SHOWN_TEXT: usize = 65536;
