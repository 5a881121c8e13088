//! The printed text of types, in the words of the WebAssembly text format.
use crate::assertions::prints;
use crate::fixtures::{field, list};
use walrus_ty::{
    AbstractHeapType, ArrayType, FieldType, FunctionType, Heap, HeapType, Id, Listed, RefType,
    Reference, Storage, StructType, Val,
};

fn reference(nullable: bool, heap_type: HeapType) -> RefType {
    Reference {
        nullable,
        heap_type,
    }
}

fn mutable(element_type: Storage<Id<walrus_ty::Type>>) -> FieldType {
    FieldType {
        element_type,
        mutable: true,
    }
}

fn exactly_third() -> HeapType {
    Heap::Exact(Id::from_index(3))
}

#[test]
fn heap_types(rt: HostRuntime) {
    let third: HeapType = Heap::Concrete(Id::from_index(3));
    let small: HeapType = Heap::Abstract(AbstractHeapType::I31);
    prints(&rt, rt.alloc(), &exactly_third(), "exact 3");
    prints(&rt, rt.alloc(), &third, "3");
    prints(&rt, rt.alloc(), &small, "i31");
}

#[test]
fn references(rt: HostRuntime) {
    let nullable = reference(true, Heap::Abstract(AbstractHeapType::NoExn));
    prints(&rt, rt.alloc(), &nullable, "nullexnref");
    let other = reference(false, Heap::Abstract(AbstractHeapType::NoExn));
    prints(&rt, rt.alloc(), &other, "(ref noexn)");
    let third = reference(false, exactly_third());
    prints(&rt, rt.alloc(), &third, "(ref exact 3)");
}

#[test]
fn function_types(rt: HostRuntime) {
    let alloc = rt.alloc();
    let nothing = FunctionType::new(Vec::new(alloc), Vec::new(alloc));
    prints(&rt, alloc, &nothing, "(func)");
    let vector = list(alloc, &[Val::V128]).expect(&rt, "memory");
    let answers = FunctionType::new(Vec::new(alloc), vector);
    prints(&rt, alloc, &answers, "(func (result v128))");
}

#[test]
fn function_types_print_parameters_before_results(rt: HostRuntime) {
    let params = list(rt.alloc(), &[Val::I32, Val::I64]).expect(&rt, "memory");
    let results = list(rt.alloc(), &[Val::Ref(RefType::FUNCREF)]).expect(&rt, "memory");
    let both = FunctionType::new(params, results);
    let text = "(func (param i32 i64) (result funcref))";
    prints(&rt, rt.alloc(), &both, text);
}

#[test]
fn struct_and_array_types(rt: HostRuntime) {
    let fields = [field(Val::I32), mutable(Storage::I8)];
    let fields = Listed::from_vec(list(rt.alloc(), &fields).expect(&rt, "memory"));
    let text = "(struct (field i32) (field (mut i8)))";
    prints(&rt, rt.alloc(), &StructType { fields }, text);
    let element = Storage::Val(Val::Ref(reference(true, exactly_third())));
    let array = ArrayType {
        field: mutable(element),
    };
    prints(&rt, rt.alloc(), &array, "(array (mut (ref null exact 3)))");
}
