//! The words of the text, as bytes. What is printed is to take its words from these too.

pub const GROUPS: &[u8] = b"groups";

pub const FEEDERS: &[u8] = b"feeders";

pub const TAGS: &[u8] = b"tags";

pub const SAGA: &[u8] = b"saga";

pub const CLAIM: &[u8] = b"claim";

pub const RETURN: &[u8] = b"return";

pub const MOVE: &[u8] = b"move";

pub const HANG: &[u8] = b"hang";

pub const LIFT: &[u8] = b"lift";

pub const TRY: &[u8] = b"try";

pub const ELSE: &[u8] = b"else";

pub const OF: &[u8] = b"of";

pub const FROM: &[u8] = b"from";

pub const TO: &[u8] = b"to";
