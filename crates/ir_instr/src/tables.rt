//! Tables.
//! WebAssembly core specification, "Table Instructions".

use walrus_ty::{ElementId, TableId};

/// `table.get`: reads an element of a table.
#[derive(Clone, Copy, PartialEq, Eq, Debug)]
pub struct TableGet {
    /// The table.
    pub table: TableId,
}

/// `table.set`: writes an element of a table.
#[derive(Clone, Copy, PartialEq, Eq, Debug)]
pub struct TableSet {
    /// The table.
    pub table: TableId,
}

/// `table.grow`: makes a table larger.
#[derive(Clone, Copy, PartialEq, Eq, Debug)]
pub struct TableGrow {
    /// The table.
    pub table: TableId,
}

/// `table.size`: how many elements a table has.
#[derive(Clone, Copy, PartialEq, Eq, Debug)]
pub struct TableSize {
    /// The table.
    pub table: TableId,
}

/// `table.fill`: sets elements of a table to one value.
#[derive(Clone, Copy, PartialEq, Eq, Debug)]
pub struct TableFill {
    /// The table.
    pub table: TableId,
}

/// `table.init`: copies elements of an element segment into a table.
#[derive(Clone, Copy, PartialEq, Eq, Debug)]
pub struct TableInit {
    /// The table.
    pub table: TableId,
    /// The element segment.
    pub elem: ElementId,
}

/// `table.copy`: copies elements of one table into another, or into the same.
#[derive(Clone, Copy, PartialEq, Eq, Debug)]
pub struct TableCopy {
    /// The table that is read.
    pub src: TableId,
    /// The table that is written.
    pub dst: TableId,
}

/// `elem.drop`: gives up an element segment.
#[derive(Clone, Copy, PartialEq, Eq, Debug)]
pub struct ElemDrop {
    /// The element segment.
    pub elem: ElementId,
}
