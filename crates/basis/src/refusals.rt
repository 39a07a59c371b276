// The scope's table of refusals, in its order: given exactly when; returned beside it. The specs have the same table.
// A bad setting at start, or a seen max above the store's length / 129, rounded down; nothing.
pub const BAD_SETTING: u8 = 40;

// A store of the wrong length (seen alone: not whole rows, or above 256); nothing.
pub const BAD_STORE: u8 = 41;

// Node and stores not well formed; nothing.
pub const MALFORMED: u8 = 42;

// An id above 129 bytes given to the seen part; its length.
pub const TOO_LONG_ID: u8 = 33;

// Body above 65,536 bytes; its length.
pub const TOO_LARGE: u8 = 10;

// Varint short; nothing.
pub const BUFFER_TOO_SHORT: u8 = 1;

// Varint overflow; nothing.
pub const OVERFLOW: u8 = 2;

// Varint not minimal; nothing.
pub const NON_CANONICAL: u8 = 3;

// Field passes the end; offset, length, remaining.
pub const FIELD_OVERFLOW: u8 = 4;

// Wire type; type, offset.
pub const UNSUPPORTED_WIRE_TYPE: u8 = 5;

// Field number; number, offset.
pub const INVALID_FIELD_NUMBER: u8 = 6;

// An end tag with no open group, or of another number, where groups are passed over; nothing.
pub const END_GROUP: u8 = 14;

// Groups deeper than 32; nothing.
pub const GROUP_DEPTH: u8 = 15;

// The body, or a submessage, ended inside a group; nothing.
pub const GROUP_OPEN: u8 = 16;

// Topic not UTF-8; offset.
pub const INVALID_UTF8: u8 = 7;

// Above 512 records; their number.
pub const TOO_MANY_RECORDS: u8 = 11;

// No message at that index; number of messages.
pub const NO_MESSAGE: u8 = 20;

// From missing; nothing.
pub const MISSING_FROM: u8 = 21;

// From of 0 or above 64 bytes; its length.
pub const INVALID_FROM: u8 = 22;

// From not a peer id; nothing.
pub const NOT_PEER_ID: u8 = 34;

// Seqno missing, 0 or above 64 bytes; nothing.
pub const INVALID_SEQNO: u8 = 23;

// No signature, with key; nothing.
pub const KEY_WITHOUT_SIGNATURE: u8 = 24;

// No signature, without key; nothing.
pub const MISSING_SIGNATURE: u8 = 25;

// Signature not 64 bytes; its length.
pub const INVALID_SIGNATURE_LENGTH: u8 = 26;

// A present key that does not decode; nothing.
pub const INVALID_KEY: u8 = 35;

// Key and from differ, or no key to be had; nothing.
pub const KEY_MISMATCH: u8 = 36;

// Host did not verify; nothing.
pub const SIGNATURE_INVALID: u8 = 27;

// 0 or above 4 topics; their number.
pub const TOPIC_COUNT: u8 = 28;

// A topic above 1,024 bytes (advertise and `gossip_ids` too); its length.
pub const TOPIC_TOO_LONG: u8 = 29;

// Message above 4,096 bytes; its length.
pub const MESSAGE_TOO_LONG: u8 = 30;

// Now below the clock; the clock.
pub const CLOCK_BACK: u8 = 31;

// An RPC to be written above 65,536 bytes; its length.
pub const RPC_TOO_LONG: u8 = 13;

// Room short: record table, tested first, then output, or serve's first message; room needed, of the one found short.
pub const SHORT_ROOM: u8 = 12;
