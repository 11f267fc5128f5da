// How long a line may be, and how many steps there may be.

/// The most bytes of a line before its line feed.
pub const LINE_LIMIT: usize = 4_194_304;

/// The number of the last step. No certificate has more steps.
pub const LAST_STEP: u64 = 999_999_999_999_999_999;

/// How many bytes there is room for where a line begins. Most lines have fewer.
pub const USUAL_LINE: usize = 512;
