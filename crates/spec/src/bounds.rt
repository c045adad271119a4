// The bounds of documents 01 and 02, as code has them; specs/Tables.antt has them for contracts.

// "Clients: 1 to 256, numbered from 0."
pub const MOST_CLIENTS: usize = 256;

// "The waiting requests are records in a lent table of 1 to 2,048 records."
pub const MOST_RECORDS: usize = 2048;

// "submitted, served, dropped, each at most 268,435,455."
pub const MOST_COUNTED: u32 = 268435455;

// "Clock and request numbers end at 281,474,976,710,655."
pub const CLOCK_END: u64 = 281474976710655;

pub const NUMBER_END: u64 = 281474976710655;

// "Period: 1 to 4,294,967,295 slots."
pub const MOST_PERIOD: u64 = 4294967295;

// "each deadline is past the clock by 1 to 65,535"
pub const MOST_AHEAD: u64 = 65535;

// Document 02, 2.2: "slots per hour outside 1 to 360,000"
pub const MOST_PER_HOUR: u64 = 360000;

// Document 02, 2.2: "168 open-or-closed marks"
pub const HOURS: u64 = 168;
