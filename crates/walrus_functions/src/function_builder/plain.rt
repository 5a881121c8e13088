//! A call for each common instruction, which adds it at the end of the sequence. The arguments are
//! the fields of its struct in their order.
//! WebAssembly core specification, "Instructions".
ghost use Rattle.ir_instr.specs.declared.instr.Instr.TheVariants as instr;
ghost use Rattle.ir_operators.specs.declared.value.Value.TheVariants as constant;

use super::InstrSeqBuilder;
use crate::BuildError;
use walrus_ir::{
    ArrayNew, BinaryOp, Binop, Br, BrIf, BrTable, Call, CallIndirect, Const, DropInstr, GlobalGet,
    GlobalSet, Instr, InstrSeqId, Load, LoadKind, LocalGet, LocalId, LocalSet, LocalTee, MemArg,
    MemoryGrow, MemorySize, RefFunc, RefNull, Return, Select, Store, StoreKind, StructNew, Throw,
    UnaryOp, Unop, Unreachable, Value,
};
use walrus_types::{
    FunctionId, GlobalId, Listed, MemoryId, RefType, TableId, TagId, TypeId, ValType,
};

impl<'a> InstrSeqBuilder<'a> {
    ghost use Rattle.walrus_functions.specs.Building.{IsKnown, AddsOrNothing};

    /// `i32.const` of this number.
    pub fn i32_const(&mut self, val: i32) -> Result<(), BuildError>
        requires { IsKnown self.old }
        ensures { AddsOrNothing self.old self.new result
            (instr.Const (record { value = constant.I32 val })) }
    {
        self.const_(Value::I32(val))
    }

    /// `i64.const` of this number.
    pub fn i64_const(&mut self, val: i64) -> Result<(), BuildError>
        requires { IsKnown self.old }
        ensures { AddsOrNothing self.old self.new result
            (instr.Const (record { value = constant.I64 val })) }
    {
        self.const_(Value::I64(val))
    }

    /// `f32.const` of the number with these bits.
    pub fn f32_const(&mut self, val: u32) -> Result<(), BuildError>
        requires { IsKnown self.old }
        ensures { AddsOrNothing self.old self.new result
            (instr.Const (record { value = constant.F32 val })) }
    {
        self.const_(Value::F32(val))
    }

    /// `f64.const` of the number with these bits.
    pub fn f64_const(&mut self, val: u64) -> Result<(), BuildError>
        requires { IsKnown self.old }
        ensures { AddsOrNothing self.old self.new result
            (instr.Const (record { value = constant.F64 val })) }
    {
        self.const_(Value::F64(val))
    }

    /// Calls this function: `call`.
    pub fn call(&mut self, func: FunctionId) -> Result<(), BuildError>
        requires { IsKnown self.old }
        ensures { AddsOrNothing self.old self.new result (instr.Call (record { func = func })) }
    {
        self.push(Instr::Call(Call { func }))
    }

    /// Calls the function at a place of a table: `call_indirect`.
    pub fn call_indirect(&mut self, ty: TypeId, table: TableId) -> Result<(), BuildError>
        requires { IsKnown self.old }
        ensures { AddsOrNothing self.old self.new result
            (instr.CallIndirect (record { ty = ty; table = table })) }
    {
        self.push(Instr::CallIndirect(CallIndirect { ty, table }))
    }

    /// Reads a local: `local.get`.
    pub fn local_get(&mut self, local: LocalId) -> Result<(), BuildError>
        requires { IsKnown self.old }
        ensures { AddsOrNothing self.old self.new result
            (instr.LocalGet (record { local = local })) }
    {
        self.push(Instr::LocalGet(LocalGet { local }))
    }

    /// Writes a local: `local.set`.
    pub fn local_set(&mut self, local: LocalId) -> Result<(), BuildError>
        requires { IsKnown self.old }
        ensures { AddsOrNothing self.old self.new result
            (instr.LocalSet (record { local = local })) }
    {
        self.push(Instr::LocalSet(LocalSet { local }))
    }

    /// Writes a local and leaves the value: `local.tee`.
    pub fn local_tee(&mut self, local: LocalId) -> Result<(), BuildError>
        requires { IsKnown self.old }
        ensures { AddsOrNothing self.old self.new result
            (instr.LocalTee (record { local = local })) }
    {
        self.push(Instr::LocalTee(LocalTee { local }))
    }

    /// Reads a global: `global.get`.
    pub fn global_get(&mut self, global: GlobalId) -> Result<(), BuildError>
        requires { IsKnown self.old }
        ensures { AddsOrNothing self.old self.new result
            (instr.GlobalGet (record { global = global })) }
    {
        self.push(Instr::GlobalGet(GlobalGet { global }))
    }

    /// Writes a global: `global.set`.
    pub fn global_set(&mut self, global: GlobalId) -> Result<(), BuildError>
        requires { IsKnown self.old }
        ensures { AddsOrNothing self.old self.new result
            (instr.GlobalSet (record { global = global })) }
    {
        self.push(Instr::GlobalSet(GlobalSet { global }))
    }

    /// Gives this value: `i32.const` and similar instructions.
    pub fn const_(&mut self, value: Value) -> Result<(), BuildError>
        requires { IsKnown self.old }
        ensures { AddsOrNothing self.old self.new result (instr.Const (record { value = value })) }
    {
        self.push(Instr::Const(Const { value }))
    }

    /// Applies an operator to two values.
    pub fn binop(&mut self, op: BinaryOp) -> Result<(), BuildError>
        requires { IsKnown self.old }
        ensures { AddsOrNothing self.old self.new result (instr.Binop (record { op = op })) }
    {
        self.push(Instr::Binop(Binop { op }))
    }

    /// Applies an operator to one value.
    pub fn unop(&mut self, op: UnaryOp) -> Result<(), BuildError>
        requires { IsKnown self.old }
        ensures { AddsOrNothing self.old self.new result (instr.Unop (record { op = op })) }
    {
        self.push(Instr::Unop(Unop { op }))
    }

    /// Picks one of two values: `select`.
    pub fn select(&mut self, ty: Option<ValType>) -> Result<(), BuildError>
        requires { IsKnown self.old }
        ensures { AddsOrNothing self.old self.new result (instr.Select (record { ty = ty })) }
    {
        self.push(Instr::Select(Select { ty }))
    }

    /// Traps: `unreachable`.
    pub fn unreachable(&mut self) -> Result<(), BuildError>
        requires { IsKnown self.old }
        ensures { AddsOrNothing self.old self.new result (instr.Unreachable (record {})) }
    {
        self.push(Instr::Unreachable(Unreachable {}))
    }

    /// Branches to the label of a sequence: `br`.
    pub fn br(&mut self, block: InstrSeqId) -> Result<(), BuildError>
        requires { IsKnown self.old }
        ensures { AddsOrNothing self.old self.new result (instr.Br (record { block = block })) }
    {
        self.push(Instr::Br(Br { block }))
    }

    /// Branches to the label of a sequence if a number is not zero: `br_if`.
    pub fn br_if(&mut self, block: InstrSeqId) -> Result<(), BuildError>
        requires { IsKnown self.old }
        ensures { AddsOrNothing self.old self.new result (instr.BrIf (record { block = block })) }
    {
        self.push(Instr::BrIf(BrIf { block }))
    }

    /// Branches to one of several labels, by a number: `br_table`.
    pub fn br_table(
        &mut self,
        blocks: Vec<InstrSeqId>,
        default: InstrSeqId,
    ) -> Result<(), BuildError>
        requires { IsKnown self.old }
        ensures { AddsOrNothing self.old self.new result
            (instr.BrTable (record { blocks = blocks.items; default = default })) }
    {
        self.push(Instr::BrTable(BrTable {
            blocks: Listed::from_vec(blocks),
            default,
        }))
    }

    /// Drops a value: `drop`.
    pub fn drop(&mut self) -> Result<(), BuildError>
        requires { IsKnown self.old }
        ensures { AddsOrNothing self.old self.new result (instr.Drop (record {})) }
    {
        self.push(Instr::Drop(DropInstr {}))
    }

    /// Returns from the function: `return`.
    pub fn return_(&mut self) -> Result<(), BuildError>
        requires { IsKnown self.old }
        ensures { AddsOrNothing self.old self.new result (instr.Return (record {})) }
    {
        self.push(Instr::Return(Return {}))
    }

    /// Gives the size of a memory: `memory.size`.
    pub fn memory_size(&mut self, memory: MemoryId) -> Result<(), BuildError>
        requires { IsKnown self.old }
        ensures { AddsOrNothing self.old self.new result
            (instr.MemorySize (record { memory = memory })) }
    {
        self.push(Instr::MemorySize(MemorySize { memory }))
    }

    /// Grows a memory: `memory.grow`.
    pub fn memory_grow(&mut self, memory: MemoryId) -> Result<(), BuildError>
        requires { IsKnown self.old }
        ensures { AddsOrNothing self.old self.new result
            (instr.MemoryGrow (record { memory = memory })) }
    {
        self.push(Instr::MemoryGrow(MemoryGrow { memory }))
    }

    /// Reads from a memory: `i32.load` and similar instructions.
    pub fn load(&mut self, memory: MemoryId, kind: LoadKind, arg: MemArg) -> Result<(), BuildError>
        requires { IsKnown self.old }
        ensures { AddsOrNothing self.old self.new result
            (instr.Load (record { memory = memory; kind = kind; arg = arg })) }
    {
        self.push(Instr::Load(Load { memory, kind, arg }))
    }

    /// Writes to a memory: `i32.store` and similar instructions.
    pub fn store(
        &mut self,
        memory: MemoryId,
        kind: StoreKind,
        arg: MemArg,
    ) -> Result<(), BuildError>
        requires { IsKnown self.old }
        ensures { AddsOrNothing self.old self.new result
            (instr.Store (record { memory = memory; kind = kind; arg = arg })) }
    {
        self.push(Instr::Store(Store { memory, kind, arg }))
    }

    /// Gives a null reference: `ref.null`.
    pub fn ref_null(&mut self, ty: RefType) -> Result<(), BuildError>
        requires { IsKnown self.old }
        ensures { AddsOrNothing self.old self.new result (instr.RefNull (record { ty = ty })) }
    {
        self.push(Instr::RefNull(RefNull { ty }))
    }

    /// Gives a reference to a function: `ref.func`.
    pub fn ref_func(&mut self, func: FunctionId) -> Result<(), BuildError>
        requires { IsKnown self.old }
        ensures { AddsOrNothing self.old self.new result (instr.RefFunc (record { func = func })) }
    {
        self.push(Instr::RefFunc(RefFunc { func }))
    }

    /// Makes a structure: `struct.new`.
    pub fn struct_new(&mut self, ty: TypeId) -> Result<(), BuildError>
        requires { IsKnown self.old }
        ensures { AddsOrNothing self.old self.new result (instr.StructNew (record { ty = ty })) }
    {
        self.push(Instr::StructNew(StructNew { ty }))
    }

    /// Makes an array: `array.new`.
    pub fn array_new(&mut self, ty: TypeId) -> Result<(), BuildError>
        requires { IsKnown self.old }
        ensures { AddsOrNothing self.old self.new result (instr.ArrayNew (record { ty = ty })) }
    {
        self.push(Instr::ArrayNew(ArrayNew { ty }))
    }

    /// Throws an exception: `throw`.
    pub fn throw(&mut self, tag: TagId) -> Result<(), BuildError>
        requires { IsKnown self.old }
        ensures { AddsOrNothing self.old self.new result (instr.Throw (record { tag = tag })) }
    {
        self.push(Instr::Throw(Throw { tag }))
    }
}
