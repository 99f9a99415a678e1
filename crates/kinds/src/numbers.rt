// The numbers a call can answer, by the manual's names; 0 is accepted. Where several apply, the lowest is given. Assumes nothing.

// Text program: a line not of the grammar.
pub const LINE: u8 = 1;

// Bench or group breaks a rule of a sound one.
pub const BROKEN: u8 = 2;

// An interface named above 7.
pub const UNIT: u8 = 3;

// An interface named has a parent.
pub const CHILD: u8 = 4;

// Growth negative, or progress would pass its limit.
pub const LENGTH: u8 = 5;

// No members, or more than 64.
pub const CIRCLE: u8 = 6;

// Touching list neither empty nor as long as the circle.
pub const TOUCH: u8 = 7;

// A handle names no present node.
pub const STALE: u8 = 8;

// A node of another tree.
pub const FOREIGN: u8 = 9;

// Expanding a defect; pop or peek of a growth.
pub const KIND: u8 = 10;

// A node with a parent.
pub const INSIDE: u8 = 11;

// The node below the outermost, of a node without a parent.
pub const TOP: u8 = 12;

// A member twice.
pub const TWICE: u8 = 13;

// Every slot of the interface used.
pub const FULL: u8 = 14;

// No serial left; set-up from 0.
pub const WORN: u8 = 15;

// Fuse: left is right, or the parent's number not above both.
pub const PAIR: u8 = 16;

// Fuse: the parent has slots used, progress or children.
pub const USED: u8 = 17;

// Index at or past the count.
pub const RANGE: u8 = 18;

// Slice shorter than the defect size.
pub const SMALL: u8 = 19;

// List or stops would pass 128.
pub const ROOM: u8 = 20;

// Growth asked of the largest weight.
pub const NOTHING: u8 = 21;

// Numbers of later requests, each given from when its request has landed. Their order among the others is that of the tests, not of the numbers.

// Moving a record back: a touching pair that is not the member.
pub const SELF: u8 = 22;

// A file of records, or a text to be moved, that does not fit its form.
pub const FILE: u8 = 23;

// Picture: the check does not say 0.
pub const UNSOUND: u8 = 24;

// Growth of a floored tree: a shrinking node would fall below 0.
pub const BELOW: u8 = 25;

// A mark given late; fuse: one half floored and the other not.
pub const MARK: u8 = 26;

// Recorded growth: conflicts, or a growth of 0 or less.
pub const STUCK: u8 = 27;

// Recorded growth: no group left.
pub const SHORT: u8 = 28;
