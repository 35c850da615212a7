//! Versions and kind codes: the first two bytes of a body.

/// Version of all kinds but two.
pub const FIRST_VERSION: u8 = 1;

/// Version of a report part, and of the welcome to a page under another top-level origin.
pub const SECOND_VERSION: u8 = 2;

// From a tab

pub const COMMAND: u8 = 1;

pub const REPORT: u8 = 2;

pub const POST: u8 = 3;

// To a tab, from the broker or from the kernel

pub const HELLO: u8 = 16;

pub const ANSWER: u8 = 17;

pub const SNAPSHOT: u8 = 18;

/// A post as it is delivered to another tab.
pub const HEARD: u8 = 19;

pub const WELCOME: u8 = 20;

// Between the kernel and the broker

/// A command, a report or a report part, sent by the kernel to the broker.
pub const STAMPED: u8 = 32;

pub const START: u8 = 33;

/// A hello, an answer or a snapshot part, sent by the broker to the kernel.
pub const ADDRESSED: u8 = 34;

pub const DEAD: u8 = 35;

// In version 2

pub const REPORT_PART: u8 = 2;

pub const PAIR_WELCOME: u8 = 20;
