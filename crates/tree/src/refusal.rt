// Why a whole list or buffer is refused: the number of the row, and the tree that it names.
use pack::row::Row;

#[derive(Clone, Copy, Debug, PartialEq, Eq, Hash)]
pub struct Refusal {
    pub number: Row,
    pub tree: u32,
}
