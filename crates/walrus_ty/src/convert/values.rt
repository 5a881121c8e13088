//! Value types and fields of a section read with an id for each index, and written with an index
//! for each id.
ghost use Rattle.std.specs.Prelude.{◌≡◌, None, Some, IfOk, IfErr, OnOk, option_map};
ghost use Rattle.walrus_ty.specs.declared.error.NoIndex.TheVariants.{OfType};
ghost use Rattle.walrus_ty.specs.IdLists.{type_at};
ghost use Rattle.walrus_ty.specs.Indices.{type_index};
ghost use Rattle.walrus_ty.specs.Lookups.{first_missing, value_or_zero};
ghost use Rattle.walrus_ty.specs.Value.{heap_names, rename_heap, reference_names, rename_reference, val_names, rename_val, storage_names, rename_storage, field_names, rename_field};

use crate::{
    Field, FieldAt, FieldType, Heap, HeapAt, HeapType, IdsToIndices, IndicesToIds, NoIndex, RefAt,
    RefType, Reference, Storage, StorageAt, StorageType, UnknownIndex, Val, ValAt, ValType,
};

impl HeapType {
    /// What this record says. `UnknownIndex` has the first index in it that is not in the map. It
    /// takes no memory.
    pub fn from_record(at: &HeapAt, ids: &IndicesToIds) -> Result<HeapType, UnknownIndex>
        ensures renamed { IfOk result
            (λ x. x ≡ rename_heap (value_or_zero (type_at ids.now)) at.now) }
        ensures complete { OnOk result
            (first_missing (type_at ids.now) (heap_names at.now) ≡ None) }
        ensures missing { IfErr result (λ e.
            first_missing (type_at ids.now) (heap_names at.now) ≡ Some e.0) }
    {
        Ok(match at {
            Heap::Abstract(kind) => Heap::Abstract(*kind),
            Heap::Concrete(index) => Heap::Concrete(ids.get_type(*index)?),
            Heap::Exact(index) => Heap::Exact(ids.get_type(*index)?),
        })
    }

    /// Its record. `NoIndex` has the first id in it that has no index. It takes no memory.
    pub fn to_record(&self, indices: &IdsToIndices) -> Result<HeapAt, NoIndex>
        ensures renamed { IfOk result (λ x.
            x ≡ rename_heap (value_or_zero (type_index indices.now)) self.now) }
        ensures complete { OnOk result
            (first_missing (type_index indices.now) (heap_names self.now) ≡ None) }
        ensures missing { IfErr result (λ e.
            option_map OfType (first_missing (type_index indices.now) (heap_names self.now))
            ≡ Some e) }
    {
        Ok(match self {
            Heap::Abstract(kind) => Heap::Abstract(*kind),
            Heap::Concrete(id) => Heap::Concrete(indices.get_type_index(*id)?),
            Heap::Exact(id) => Heap::Exact(indices.get_type_index(*id)?),
        })
    }
}

impl RefType {
    /// What this record says. `UnknownIndex` has the first index in it that is not in the map. It
    /// takes no memory.
    pub fn from_record(at: &RefAt, ids: &IndicesToIds) -> Result<RefType, UnknownIndex>
        ensures renamed { IfOk result
            (λ x. x ≡ rename_reference (value_or_zero (type_at ids.now)) at.now) }
        ensures complete { OnOk result
            (first_missing (type_at ids.now) (reference_names at.now) ≡ None) }
        ensures missing { IfErr result (λ e.
            first_missing (type_at ids.now) (reference_names at.now) ≡ Some e.0) }
    {
        Ok(Reference {
            nullable: at.nullable,
            heap_type: HeapType::from_record(&at.heap_type, ids)?,
        })
    }

    /// Its record. `NoIndex` has the first id in it that has no index. It takes no memory.
    pub fn to_record(&self, indices: &IdsToIndices) -> Result<RefAt, NoIndex>
        ensures renamed { IfOk result (λ x.
            x ≡ rename_reference (value_or_zero (type_index indices.now)) self.now) }
        ensures complete { OnOk result
            (first_missing (type_index indices.now) (reference_names self.now) ≡ None) }
        ensures missing { IfErr result (λ e.
            option_map OfType (first_missing (type_index indices.now) (reference_names self.now))
            ≡ Some e) }
    {
        Ok(Reference {
            nullable: self.nullable,
            heap_type: self.heap_type.to_record(indices)?,
        })
    }
}

impl ValType {
    /// What this record says. `UnknownIndex` has the first index in it that is not in the map. It
    /// takes no memory.
    pub fn from_record(at: &ValAt, ids: &IndicesToIds) -> Result<ValType, UnknownIndex>
        ensures renamed { IfOk result
            (λ x. x ≡ rename_val (value_or_zero (type_at ids.now)) at.now) }
        ensures complete { OnOk result
            (first_missing (type_at ids.now) (val_names at.now) ≡ None) }
        ensures missing { IfErr result (λ e.
            first_missing (type_at ids.now) (val_names at.now) ≡ Some e.0) }
    {
        Ok(match at {
            Val::I32 => Val::I32,
            Val::I64 => Val::I64,
            Val::F32 => Val::F32,
            Val::F64 => Val::F64,
            Val::V128 => Val::V128,
            Val::Ref(reference) => Val::Ref(RefType::from_record(reference, ids)?),
        })
    }

    /// Its record. `NoIndex` has the first id in it that has no index. It takes no memory.
    pub fn to_record(&self, indices: &IdsToIndices) -> Result<ValAt, NoIndex>
        ensures renamed { IfOk result (λ x.
            x ≡ rename_val (value_or_zero (type_index indices.now)) self.now) }
        ensures complete { OnOk result
            (first_missing (type_index indices.now) (val_names self.now) ≡ None) }
        ensures missing { IfErr result (λ e.
            option_map OfType (first_missing (type_index indices.now) (val_names self.now))
            ≡ Some e) }
    {
        Ok(match self {
            Val::I32 => Val::I32,
            Val::I64 => Val::I64,
            Val::F32 => Val::F32,
            Val::F64 => Val::F64,
            Val::V128 => Val::V128,
            Val::Ref(reference) => Val::Ref(reference.to_record(indices)?),
        })
    }
}

impl StorageType {
    /// What this record says. `UnknownIndex` has the first index in it that is not in the map. It
    /// takes no memory.
    pub fn from_record(at: &StorageAt, ids: &IndicesToIds) -> Result<StorageType, UnknownIndex>
        ensures renamed { IfOk result
            (λ x. x ≡ rename_storage (value_or_zero (type_at ids.now)) at.now) }
        ensures complete { OnOk result
            (first_missing (type_at ids.now) (storage_names at.now) ≡ None) }
        ensures missing { IfErr result (λ e.
            first_missing (type_at ids.now) (storage_names at.now) ≡ Some e.0) }
    {
        Ok(match at {
            Storage::Val(val) => Storage::Val(ValType::from_record(val, ids)?),
            Storage::I8 => Storage::I8,
            Storage::I16 => Storage::I16,
        })
    }

    /// Its record. `NoIndex` has the first id in it that has no index. It takes no memory.
    pub fn to_record(&self, indices: &IdsToIndices) -> Result<StorageAt, NoIndex>
        ensures renamed { IfOk result (λ x.
            x ≡ rename_storage (value_or_zero (type_index indices.now)) self.now) }
        ensures complete { OnOk result
            (first_missing (type_index indices.now) (storage_names self.now) ≡ None) }
        ensures missing { IfErr result (λ e.
            option_map OfType (first_missing (type_index indices.now) (storage_names self.now))
            ≡ Some e) }
    {
        Ok(match self {
            Storage::Val(val) => Storage::Val(val.to_record(indices)?),
            Storage::I8 => Storage::I8,
            Storage::I16 => Storage::I16,
        })
    }
}

impl FieldType {
    /// What this record says. `UnknownIndex` has the first index in it that is not in the map. It
    /// takes no memory.
    pub fn from_record(at: &FieldAt, ids: &IndicesToIds) -> Result<FieldType, UnknownIndex>
        ensures renamed { IfOk result
            (λ x. x ≡ rename_field (value_or_zero (type_at ids.now)) at.now) }
        ensures complete { OnOk result
            (first_missing (type_at ids.now) (field_names at.now) ≡ None) }
        ensures missing { IfErr result (λ e.
            first_missing (type_at ids.now) (field_names at.now) ≡ Some e.0) }
    {
        Ok(Field {
            element_type: StorageType::from_record(&at.element_type, ids)?,
            mutable: at.mutable,
        })
    }

    /// Its record. `NoIndex` has the first id in it that has no index. It takes no memory.
    pub fn to_record(&self, indices: &IdsToIndices) -> Result<FieldAt, NoIndex>
        ensures renamed { IfOk result (λ x.
            x ≡ rename_field (value_or_zero (type_index indices.now)) self.now) }
        ensures complete { OnOk result
            (first_missing (type_index indices.now) (field_names self.now) ≡ None) }
        ensures missing { IfErr result (λ e.
            option_map OfType (first_missing (type_index indices.now) (field_names self.now))
            ≡ Some e) }
    {
        Ok(Field {
            element_type: self.element_type.to_record(indices)?,
            mutable: self.mutable,
        })
    }
}
