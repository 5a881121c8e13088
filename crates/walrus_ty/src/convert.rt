//! Section records read with an id for each index, and written with an index for each id.
ghost use Rattle.std.specs.Prelude.{◌≡◌, None, Some, IsTrue, IfOk, IfErr, OnOk, map, option_map, flat_map, ◌++◌};
ghost use Rattle.walrus_ty.specs.declared.error.NoIndex.TheVariants.{OfType};
ghost use Rattle.walrus_ty.specs.declared.error.FromRecordError.TheVariants as reading;
ghost use Rattle.walrus_ty.specs.declared.error.ToRecordError.TheVariants as writing;
ghost use Rattle.walrus_ty.specs.Definition.{Function, has_lists, composite_names, rename_composite, names_of, rename, supertype_names};
ghost use Rattle.walrus_ty.specs.IdLists.{type_at};
ghost use Rattle.walrus_ty.specs.Indices.{type_index};
ghost use Rattle.walrus_ty.specs.SubTypes.{sub_type_definition};
ghost use Rattle.walrus_ty.specs.Lookups.{first_missing, value_or_zero, IfUnknownIndex, IfNoIndex};
ghost use Rattle.walrus_ty.specs.Records.{comp_composite, entry_definition};
ghost use Rattle.walrus_ty.specs.Types.{kind_composite, type_definition};
ghost use Rattle.walrus_ty.specs.Value.{val_names, rename_val, field_names, rename_field};

mod values;

use crate::{
    ArrayType, CompAt, CompositeType, EntryAt, FieldAt, FieldType, FromRecordError, FunctionType,
    IdsToIndices, IndicesToIds, Listed, NoIndex, StructType, ToRecordError, Type, TypeId,
    UnknownIndex, ValAt, ValType,
};
use std::alloc::Global;

// The value types of these records, in order.
fn vals_from(
    alloc: Global,
    records: &[ValAt],
    ids: &IndicesToIds,
) -> Result<Vec<ValType>, FromRecordError>
    ensures renamed { IfOk result (λ x.
        x.items ≡ map (rename_val (value_or_zero (type_at ids.now))) records.now) }
    ensures complete { OnOk result
        (first_missing (type_at ids.now) (flat_map val_names records.now) ≡ None) }
    ensures missing { IfErr result (λ e. IfUnknownIndex e (λ k.
        first_missing (type_at ids.now) (flat_map val_names records.now) ≡ Some k)) }
{
    let mut types = Vec::with_capacity(alloc, records.len())?;
    for record in records {
        types.push(ValType::from_record(record, ids)?)?;
    }
    Ok(types)
}

// The records of these value types, in order.
fn vals_to(
    alloc: Global,
    types: &[ValType],
    indices: &IdsToIndices,
) -> Result<Vec<ValAt>, ToRecordError>
    ensures renamed { IfOk result (λ x.
        x.items ≡ map (rename_val (value_or_zero (type_index indices.now))) types.now) }
    ensures complete { OnOk result
        (first_missing (type_index indices.now) (flat_map val_names types.now) ≡ None) }
    ensures missing { IfErr result (λ e. IfNoIndex e (λ n.
        option_map OfType (first_missing (type_index indices.now) (flat_map val_names types.now))
        ≡ Some n)) }
{
    let mut records = Vec::with_capacity(alloc, types.len())?;
    for ty in types {
        records.push(ty.to_record(indices)?)?;
    }
    Ok(records)
}

// The field types of these records, in order.
fn fields_from(
    alloc: Global,
    records: &[FieldAt],
    ids: &IndicesToIds,
) -> Result<Vec<FieldType>, FromRecordError>
    ensures renamed { IfOk result (λ x.
        x.items ≡ map (rename_field (value_or_zero (type_at ids.now))) records.now) }
    ensures complete { OnOk result
        (first_missing (type_at ids.now) (flat_map field_names records.now) ≡ None) }
    ensures missing { IfErr result (λ e. IfUnknownIndex e (λ k.
        first_missing (type_at ids.now) (flat_map field_names records.now) ≡ Some k)) }
{
    let mut types = Vec::with_capacity(alloc, records.len())?;
    for record in records {
        types.push(FieldType::from_record(record, ids)?)?;
    }
    Ok(types)
}

// The records of these field types, in order.
fn fields_to(
    alloc: Global,
    types: &[FieldType],
    indices: &IdsToIndices,
) -> Result<Vec<FieldAt>, ToRecordError>
    ensures renamed { IfOk result (λ x.
        x.items ≡ map (rename_field (value_or_zero (type_index indices.now))) types.now) }
    ensures complete { OnOk result
        (first_missing (type_index indices.now) (flat_map field_names types.now) ≡ None) }
    ensures missing { IfErr result (λ e. IfNoIndex e (λ n.
        option_map OfType (first_missing (type_index indices.now) (flat_map field_names types.now))
        ≡ Some n)) }
{
    let mut records = Vec::with_capacity(alloc, types.len())?;
    for ty in types {
        records.push(ty.to_record(indices)?)?;
    }
    Ok(records)
}

// The function type of these parameters and results.
#[tactic(auto, using(crate::proofs::Names::Lookups::missing_first, crate::proofs::Names::Lookups::missing_second))]
fn function_from(
    alloc: Global,
    params: &[ValAt],
    results: &[ValAt],
    ids: &IndicesToIds,
) -> Result<FunctionType, FromRecordError>
    ensures params { IfOk result
        (λ x. x.params ≡ map (rename_val (value_or_zero (type_at ids.now))) params.now) }
    ensures results { IfOk result
        (λ x. x.results ≡ map (rename_val (value_or_zero (type_at ids.now))) results.now) }
    ensures complete { OnOk result
        (first_missing (type_at ids.now)
        (flat_map val_names params.now ++ flat_map val_names results.now) ≡ None) }
    ensures missing { IfErr result (λ e. IfUnknownIndex e (λ k.
        first_missing (type_at ids.now)
        (flat_map val_names params.now ++ flat_map val_names results.now)
        ≡ Some k)) }
{
    let params = vals_from(alloc, params, ids)?;
    let results = vals_from(alloc, results, ids)?;
    Ok(FunctionType::new(params, results))
}

// The record of a function type.
#[tactic(auto, using(crate::proofs::Names::Lookups::missing_first, crate::proofs::Names::Lookups::missing_second))]
fn function_to(
    alloc: Global,
    function: &FunctionType,
    indices: &IdsToIndices,
) -> Result<CompAt, ToRecordError>
    ensures renamed { IfOk result (λ x.
        comp_composite x
        ≡ rename_composite (value_or_zero (type_index indices.now))
        (Function function.now.params function.now.results)) }
    ensures complete { OnOk result
        (first_missing (type_index indices.now)
        (composite_names (Function function.now.params function.now.results)) ≡ None) }
    ensures missing { IfErr result (λ e. IfNoIndex e (λ n.
        option_map OfType (first_missing (type_index indices.now)
        (composite_names (Function function.now.params function.now.results)))
        ≡ Some n)) }
{
    let params = vals_to(alloc, function.params(), indices)?;
    let results = vals_to(alloc, function.results(), indices)?;
    Ok(CompAt::Function {
        params: Listed::from_vec(params),
        results: Listed::from_vec(results),
    })
}

impl CompositeType {
    /// The composite type of this record. `UnknownIndex` has the first index in it, from left to
    /// right, that is not in the map. `Memory` comes where memory for its lists was refused, and so
    /// never for an array type.
    pub fn from_record(
        alloc: Global,
        at: &CompAt,
        ids: &IndicesToIds,
    ) -> Result<CompositeType, FromRecordError>
        ensures renamed { IfOk result (λ x.
            kind_composite x
            ≡ rename_composite (value_or_zero (type_at ids.now)) (comp_composite at.now)) }
        ensures complete { OnOk result
            (first_missing (type_at ids.now) (composite_names (comp_composite at.now)) ≡ None) }
        ensures missing { IfErr result (λ e. IfUnknownIndex e (λ k.
            first_missing (type_at ids.now) (composite_names (comp_composite at.now)) ≡ Some k)) }
        ensures memory { IfErr result (λ e.
            e ≡ reading.Memory → IsTrue (has_lists (comp_composite at.now))) }
    {
        match at {
            CompAt::Function { params, results } => Ok(CompositeType::Function(function_from(
                alloc,
                params.as_slice(),
                results.as_slice(),
                ids,
            )?)),
            CompAt::Struct { fields } => Ok(CompositeType::Struct(StructType {
                fields: Listed::from_vec(fields_from(alloc, fields.as_slice(), ids)?),
            })),
            CompAt::Array { field } => Ok(CompositeType::Array(ArrayType {
                field: FieldType::from_record(field, ids)?,
            })),
        }
    }

    /// The record of this composite type. `NoIndex` has the first id in it, from left to right,
    /// that has no index. `Memory` comes where memory for its lists was refused, and so never for
    /// an array type.
    pub fn to_record(&self, alloc: Global, indices: &IdsToIndices) -> Result<CompAt, ToRecordError>
        ensures renamed { IfOk result (λ x.
            comp_composite x
            ≡ rename_composite (value_or_zero (type_index indices.now))
            (kind_composite self.now)) }
        ensures complete { OnOk result
            (first_missing (type_index indices.now) (composite_names (kind_composite self.now)) ≡
            None) }
        ensures missing { IfErr result (λ e. IfNoIndex e (λ n.
            option_map OfType (first_missing (type_index indices.now)
            (composite_names (kind_composite self.now)))
            ≡ Some n)) }
        ensures memory { IfErr result (λ e.
            e ≡ writing.Memory → IsTrue (has_lists (kind_composite self.now))) }
    {
        match self {
            CompositeType::Function(function) => function_to(alloc, function, indices),
            CompositeType::Struct(of) => Ok(CompAt::Struct {
                fields: Listed::from_vec(fields_to(alloc, of.fields.as_slice(), indices)?),
            }),
            CompositeType::Array(of) => Ok(CompAt::Array {
                field: of.field.to_record(indices)?,
            }),
        }
    }
}

/// What the record of a type says of it: a sub type in the WebAssembly specification.
#[derive(Clone, Debug, Drop)]
pub struct SubType {
    /// What the type is made of.
    pub kind: CompositeType,
    /// Whether no type may name it as its supertype.
    pub is_final: bool,
    /// The type that it is declared to be a subtype of.
    pub supertype: Option<TypeId>,
}

impl SubType {
    /// What this record says. `UnknownIndex` has the first index in it that is not in the map: the
    /// composite type from left to right, then the supertype. `Memory` comes where memory for the
    /// lists of the composite type was refused, and so never for an array type.
    #[tactic(auto, using(crate::proofs::Names::Lookups::missing_first, crate::proofs::Names::Lookups::missing_second))]
    pub fn from_record(
        alloc: Global,
        at: &EntryAt,
        ids: &IndicesToIds,
    ) -> Result<SubType, FromRecordError>
        ensures renamed { IfOk result (λ x.
            sub_type_definition x
            ≡ rename (value_or_zero (type_at ids.now)) (entry_definition at.now)) }
        ensures complete { OnOk result
            (first_missing (type_at ids.now) (names_of (entry_definition at.now)) ≡ None) }
        ensures missing { IfErr result (λ e. IfUnknownIndex e (λ k.
            first_missing (type_at ids.now) (names_of (entry_definition at.now)) ≡ Some k)) }
        ensures memory { IfErr result (λ e.
            e ≡ reading.Memory → IsTrue (has_lists (comp_composite at.now.comp))) }
    {
        Ok(SubType {
            kind: CompositeType::from_record(alloc, &at.comp, ids)?,
            is_final: at.is_final,
            supertype: supertype_from(at.supertype, ids)?,
        })
    }
}

impl Type {
    /// The record of this type. `NoIndex` has the first id in it that has no index: the composite
    /// type from left to right, then the supertype. `Memory` comes where memory for the lists of
    /// the composite type was refused, and so never for an array type.
    #[tactic(auto, using(crate::proofs::Names::Lookups::missing_first, crate::proofs::Names::Lookups::missing_second))]
    pub fn to_record(&self, alloc: Global, indices: &IdsToIndices) -> Result<EntryAt, ToRecordError>
        ensures renamed { IfOk result (λ x.
            entry_definition x
            ≡ rename (value_or_zero (type_index indices.now)) (type_definition self.now)) }
        ensures complete { OnOk result
            (first_missing (type_index indices.now) (names_of (type_definition self.now)) ≡ None) }
        ensures missing { IfErr result (λ e. IfNoIndex e (λ n.
            option_map OfType (first_missing (type_index indices.now)
            (names_of (type_definition self.now)))
            ≡ Some n)) }
        ensures memory { IfErr result (λ e.
            e ≡ writing.Memory → IsTrue (has_lists (kind_composite self.now.kind))) }
    {
        Ok(EntryAt {
            comp: self.kind.to_record(alloc, indices)?,
            is_final: self.is_final,
            supertype: supertype_to(self.supertype, indices)?,
        })
    }
}

// The id for the index of a supertype.
fn supertype_from(
    supertype: Option<u32>,
    ids: &IndicesToIds,
) -> Result<Option<TypeId>, UnknownIndex>
    ensures renamed { IfOk result
        (λ x. x ≡ option_map (value_or_zero (type_at ids.now)) supertype) }
    ensures complete { OnOk result
        (first_missing (type_at ids.now) (supertype_names supertype) ≡ None) }
    ensures missing { IfErr result (λ e.
        first_missing (type_at ids.now) (supertype_names supertype) ≡ Some e.0) }
{
    match supertype {
        Some(index) => Ok(Some(ids.get_type(index)?)),
        None => Ok(None),
    }
}

// The index of a supertype.
fn supertype_to(supertype: Option<TypeId>, indices: &IdsToIndices) -> Result<Option<u32>, NoIndex>
    ensures renamed { IfOk result (λ x.
        x ≡ option_map (value_or_zero (type_index indices.now)) supertype) }
    ensures complete { OnOk result
        (first_missing (type_index indices.now) (supertype_names supertype) ≡ None) }
    ensures missing { IfErr result (λ e.
        option_map OfType (first_missing (type_index indices.now) (supertype_names supertype))
        ≡ Some e) }
{
    match supertype {
        Some(id) => Ok(Some(indices.get_type_index(id)?)),
        None => Ok(None),
    }
}
