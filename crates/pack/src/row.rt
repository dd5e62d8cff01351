// The rows of the table of refusals, by their numbers.
pub type Row = u32;

// A size or a tree count is out of bounds.
pub const SIZE: Row = 1;

// A field is out of range.
pub const FIELD: Row = 2;

// Tree 0 does not hold all others, or a subtree passes the end of the one around it.
pub const NEST: Row = 3;

// Too many subtrees are open at once.
pub const DEPTH: Row = 4;

// A part or a symbol is absent from its table.
pub const ABSENT: Row = 5;

// A lent run is too short.
pub const ROOM: Row = 6;

// The buffer ends inside a tree or before a due one.
pub const SHORT: Row = 7;

// An index is outside its table, or too large to pack.
pub const INDEX: Row = 8;

// A children byte count is wrong, or bytes are left after the last tree.
pub const BYTES: Row = 9;

// A step is not open now, or a state and a lent list disagree.
pub const STATE: Row = 10;

// A restore point does not fit.
pub const POINT: Row = 11;
