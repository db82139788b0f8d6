//! The subtypes of options: the upper half of the third octet (RFC 8684, section 3).

pub const MP_CAPABLE: u8 = 0;

pub const MP_JOIN: u8 = 1;

pub const DSS: u8 = 2;

pub const ADD_ADDR: u8 = 3;

pub const REMOVE_ADDR: u8 = 4;

pub const MP_PRIO: u8 = 5;

pub const MP_FAIL: u8 = 6;

pub const MP_FASTCLOSE: u8 = 7;

pub const MP_TCPRST: u8 = 8;
