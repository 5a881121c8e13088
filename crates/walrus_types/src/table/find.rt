//! Finding types in a table.
ghost use Rattle.std.specs.Prelude.{◌≡◌, ◌↔◌, IsTrue, true, false, option_map, Some, [], length};
ghost use Rattle.std.specs.String.{string_bytes};
ghost use Rattle.walrus_ty.specs.Types.{function};
ghost use Rattle.walrus_types.specs.Table.{IsFirst, IsPlainFunction, IsEntryType, IsNamed};
ghost use Rattle.walrus_types.specs.Steps.Finding.{IsWanted};

use super::ModuleTypes;
use crate::{CompositeType, Type, TypeId, ValType};

// What a type is looked for by.
#[derive(Clone, Copy)]
enum Wanted<'a> {
    Name(&'a str),
    Function {
        params: &'a [ValType],
        results: &'a [ValType],
    },
    Entry(&'a [ValType]),
}

impl ModuleTypes {
    /// Returns the first live type with this name, in the order of ids.
    pub fn by_name(&self, name: &str) -> Option<TypeId>
        ensures { IsFirst self.now (IsNamed name.now) result }
    {
        self.first(&Wanted::Name(name))
    }

    /// Returns the first live function type with these parameters and results, in the order of ids,
    /// or `None` where there is none. Finality and supertype do not matter, and types of explicit
    /// groups are found too. Types that mark function bodies are not.
    ///
    /// It looks at the types one by one, and takes no memory. [`add`](ModuleTypes::add) finds by a
    /// hash.
    ///
    /// # An open type is found
    ///
    /// ```
    /// let open = types.add_composite(function, false, None)?;
    /// assert_eq!(rt; types.find(&[], &[]), Some(open));
    /// assert_eq!(rt; types.find(&[ValType::I32], &[]), None);
    /// ```
    pub fn find(&self, params: &[ValType], results: &[ValType]) -> Option<TypeId>
        ensures { IsFirst self.now (IsPlainFunction params.now results.now) result }
    {
        self.first(&Wanted::Function { params, results })
    }

    /// Returns the first live type that marks a function body with these results, in the order of
    /// ids.
    pub fn find_for_function_entry(&self, results: &[ValType]) -> Option<TypeId>
        ensures { IsFirst self.now (IsEntryType results.now) result }
    {
        self.first(&Wanted::Entry(results))
    }

    // The first live type that is wanted, in the order of ids.
    fn first(&self, wanted: &Wanted<'_>) -> Option<TypeId>
        ensures { IsFirst self.now (IsWanted wanted.now) result }
    {
        let mut left = self.types.iter();
        while let Some(item) = left.next() {
            if is_wanted(item.1, wanted) {
                return Some(item.0);
            }
        }
        None
    }
}

fn is_wanted(ty: &Type, wanted: &Wanted<'_>) -> bool
    ensures { IsTrue result ↔ IsWanted wanted.now ty.now }
{
    match wanted {
        Wanted::Name(name) => has_name(ty, name),
        Wanted::Function { params, results } => is_plain_function(ty, params, results),
        Wanted::Entry(results) => is_entry_type(ty, results),
    }
}

fn has_name(ty: &Type, name: &str) -> bool
    ensures { IsTrue result ↔ IsNamed name.now ty.now }
{
    match &ty.name {
        Some(own) => own.as_str() == name,
        None => false,
    }
}

fn is_plain_function(ty: &Type, params: &[ValType], results: &[ValType]) -> bool
    ensures { IsTrue result ↔ IsPlainFunction params.now results.now ty.now }
{
    !ty.is_for_function_entry() && ty.kind().is_function_of(params, results)
}

fn is_entry_type(ty: &Type, results: &[ValType]) -> bool
    ensures { IsTrue result ↔ IsEntryType results.now ty.now }
{
    ty.is_for_function_entry() && ty.kind().is_function_of(&[], results)
}
