//! Structs and arrays.
//! WebAssembly core specification, "Aggregate Instructions".

use walrus_ty::{DataId, ElementId, TypeId};

/// `struct.new`: a new struct of the values taken.
#[derive(Clone, Copy, PartialEq, Eq, Debug)]
pub struct StructNew {
    /// The struct type.
    pub ty: TypeId,
}

/// `struct.new_default`: a new struct of default values.
#[derive(Clone, Copy, PartialEq, Eq, Debug)]
pub struct StructNewDefault {
    /// The struct type.
    pub ty: TypeId,
}

/// `struct.get`: reads a field.
#[derive(Clone, Copy, PartialEq, Eq, Debug)]
pub struct StructGet {
    /// The struct type.
    pub ty: TypeId,
    /// The number of the field.
    pub field: u32,
}

/// `struct.get_s`: reads a packed field as a signed number.
#[derive(Clone, Copy, PartialEq, Eq, Debug)]
pub struct StructGetS {
    /// The struct type.
    pub ty: TypeId,
    /// The number of the field.
    pub field: u32,
}

/// `struct.get_u`: reads a packed field as an unsigned number.
#[derive(Clone, Copy, PartialEq, Eq, Debug)]
pub struct StructGetU {
    /// The struct type.
    pub ty: TypeId,
    /// The number of the field.
    pub field: u32,
}

/// `struct.set`: writes a field.
#[derive(Clone, Copy, PartialEq, Eq, Debug)]
pub struct StructSet {
    /// The struct type.
    pub ty: TypeId,
    /// The number of the field.
    pub field: u32,
}

/// `array.new`: a new array of one value many times.
#[derive(Clone, Copy, PartialEq, Eq, Debug)]
pub struct ArrayNew {
    /// The array type.
    pub ty: TypeId,
}

/// `array.new_default`: a new array of default values.
#[derive(Clone, Copy, PartialEq, Eq, Debug)]
pub struct ArrayNewDefault {
    /// The array type.
    pub ty: TypeId,
}

/// `array.new_fixed`: a new array of the values taken.
#[derive(Clone, Copy, PartialEq, Eq, Debug)]
pub struct ArrayNewFixed {
    /// The array type.
    pub ty: TypeId,
    /// How many values are taken.
    pub len: u32,
}

/// `array.new_data`: a new array of bytes of a data segment.
#[derive(Clone, Copy, PartialEq, Eq, Debug)]
pub struct ArrayNewData {
    /// The array type.
    pub ty: TypeId,
    /// The data segment.
    pub data_id: DataId,
}

/// `array.new_elem`: a new array of elements of an element segment.
#[derive(Clone, Copy, PartialEq, Eq, Debug)]
pub struct ArrayNewElem {
    /// The array type.
    pub ty: TypeId,
    /// The element segment.
    pub elem: ElementId,
}

/// `array.get`: reads an element.
#[derive(Clone, Copy, PartialEq, Eq, Debug)]
pub struct ArrayGet {
    /// The array type.
    pub ty: TypeId,
}

/// `array.get_s`: reads a packed element as a signed number.
#[derive(Clone, Copy, PartialEq, Eq, Debug)]
pub struct ArrayGetS {
    /// The array type.
    pub ty: TypeId,
}

/// `array.get_u`: reads a packed element as an unsigned number.
#[derive(Clone, Copy, PartialEq, Eq, Debug)]
pub struct ArrayGetU {
    /// The array type.
    pub ty: TypeId,
}

/// `array.set`: writes an element.
#[derive(Clone, Copy, PartialEq, Eq, Debug)]
pub struct ArraySet {
    /// The array type.
    pub ty: TypeId,
}

/// `array.len`: how many elements an array has.
#[derive(Clone, Copy, PartialEq, Eq, Debug)]
pub struct ArrayLen {}

/// `array.fill`: sets elements of an array to one value.
#[derive(Clone, Copy, PartialEq, Eq, Debug)]
pub struct ArrayFill {
    /// The array type.
    pub ty: TypeId,
}

/// `array.copy`: copies elements of one array into another, or into the same.
#[derive(Clone, Copy, PartialEq, Eq, Debug)]
pub struct ArrayCopy {
    /// The type of the array that is written.
    pub dst_ty: TypeId,
    /// The type of the array that is read.
    pub src_ty: TypeId,
}

/// `array.init_data`: copies bytes of a data segment into an array.
#[derive(Clone, Copy, PartialEq, Eq, Debug)]
pub struct ArrayInitData {
    /// The array type.
    pub ty: TypeId,
    /// The data segment.
    pub data_id: DataId,
}

/// `array.init_elem`: copies elements of an element segment into an array.
#[derive(Clone, Copy, PartialEq, Eq, Debug)]
pub struct ArrayInitElem {
    /// The array type.
    pub ty: TypeId,
    /// The element segment.
    pub elem: ElementId,
}
