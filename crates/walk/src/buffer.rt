// What walks and cursors go over, behind row 1.
ghost use Rattle.std.specs.Prelude.{◌≡◌, true};
ghost use Rattle.walk.specs.Source.{trees_sized};

use tree::tables::Tables;

// A buffer of so many trees and the tables of its mode.
#[derive(Clone, Copy)]
pub struct Buffer<'a> {
    pub bytes: &'a [u8],
    pub trees: u32,
    pub tables: Tables<'a>,
    ghost sized: { trees_sized trees ≡ true },
}
