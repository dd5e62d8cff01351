// The sizes of the arrays: how many slots a hash table has, and how many distinct keys there is room for.
pub const SMALL_SLOTS: usize = 2048;

pub const SMALL_ROOM: usize = 1024;

pub const MIDDLE_SLOTS: usize = 65536;

pub const MIDDLE_ROOM: usize = 32768;

pub const WIDE_SLOTS: usize = 98304;

pub const WIDE_ROOM: usize = 65536;

// The middle arrays are tried for so many keys at most: a longer list is likely to have more distinct ones.
pub const MIDDLE_MOST: usize = 131072;
