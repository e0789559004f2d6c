// The statuses that the program ends with.

pub const ACCEPTED: u8 = 0;

pub const FINISHED: u8 = 0;

pub const NOT_PROVED: u8 = 1;

pub const REFUSED: u8 = 2;

pub const STOPPED: u8 = 3;

pub const SPENT: u8 = 4;

pub const TOO_LARGE: u8 = 5;

pub const LIMIT: u8 = 7;

pub const USAGE: u8 = 64;

pub const READ_FAULT: u8 = 66;

pub const NO_MEMORY: u8 = 70;

pub const WRITE_FAULT: u8 = 74;
