//! Whether a type names another.
ghost use Rattle.std.specs.Prelude.{◌≡◌, nat_eq};
ghost use Rattle.std.specs.List.{list_any, flat_map};
ghost use Rattle.walrus_ty.specs.Value.{val_names, field_names};
ghost use Rattle.walrus_ty.specs.Definition.{composite_names, supertype_names};
ghost use Rattle.walrus_ty.specs.Types.{kind_composite};
ghost use Rattle.walrus_ty.specs.Views.{names};

use super::{CompositeType, Type};
use crate::{FieldType, TypeId, ValType};

impl Type {
    /// Whether its composite or its supertype is made with this id.
    #[tactic(auto, using(crate::proofs::Names::IdsInLists::any_left, crate::proofs::Names::IdsInLists::any_right))]
    pub fn names(&self, id: TypeId) -> bool
        ensures { result ≡ names self.now id }
    {
        self.kind().names(id) || is_named(self.supertype, id)
    }
}

impl CompositeType {
    #[tactic(auto, using(crate::proofs::Names::IdsInLists::any_left, crate::proofs::Names::IdsInLists::any_right))]
    fn names(&self, id: TypeId) -> bool
        ensures { result ≡ list_any (nat_eq id) (composite_names (kind_composite self.now)) }
    {
        match self {
            CompositeType::Function(f) => any_value(f.params(), id) || any_value(f.results(), id),
            CompositeType::Struct(s) => any_field(s.fields.as_slice(), id),
            CompositeType::Array(a) => is_named(a.field.type_id(), id),
        }
    }
}

#[tactic(auto, using(crate::proofs::Names::IdsInLists::any_here, crate::proofs::Names::IdsInLists::any_later))]
fn any_value(values: &[ValType], id: TypeId) -> bool
    ensures { result ≡ list_any (nat_eq id) (flat_map val_names values.now) }
{
    let mut rest = values;
    while let Some((value, left)) = rest.split_first() {
        if is_named(value.type_id(), id) {
            return true;
        }
        rest = left;
    }
    false
}

#[tactic(auto, using(crate::proofs::Names::IdsInLists::any_here, crate::proofs::Names::IdsInLists::any_later))]
fn any_field(fields: &[FieldType], id: TypeId) -> bool
    ensures { result ≡ list_any (nat_eq id) (flat_map field_names fields.now) }
{
    let mut rest = fields;
    while let Some((field, left)) = rest.split_first() {
        if is_named(field.type_id(), id) {
            return true;
        }
        rest = left;
    }
    false
}

fn is_named(name: Option<TypeId>, id: TypeId) -> bool
    ensures { result ≡ list_any (nat_eq id) (supertype_names name) }
{
    match name {
        Some(own) => id == own,
        None => false,
    }
}
