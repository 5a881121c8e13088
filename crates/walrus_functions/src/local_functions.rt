//! The functions of a module that have a body.
//! WebAssembly core specification, "Functions".
ghost use Rattle.std.specs.Prelude.{◌≡◌, ◌-◌, ◌↔◌, [], length, IsTrue, IfOk, OnOk, IfErr, OnErr, Some};
ghost use Rattle.std.specs.Borrow.{sem};
ghost use Rattle.std.specs.Iterator.Adapters.{IterYieldsInOrder};
ghost use Rattle.std.specs.Slice.Iter.{iter_rest};
ghost use Rattle.walrus_functions.specs.Functions.{next_function, function_at, with_new_function, IsLocal};

use crate::LocalFunction;
use std::alloc::Global;
use std::marker::Model;
use std::slice::Iter;
use walrus_types::{FunctionId, Id};

/// The functions of a module that have a body. Their ids come after those of the functions that
/// the module imports (WebAssembly core specification, "Indices").
///
/// A contract sees the number of imported functions, and the list of those that have a body.
///
/// # Example
///
/// ```
/// let mut funcs = LocalFunctions::new_after(alloc, imported);
/// match builder.finish(args, &mut funcs) {
///     Ok(id) => println!(rt; "function {}", id.index())?,
///     Err(_func) => println!(rt; "out of memory")?,
/// }
/// ```
#[derive(Drop)]
pub struct LocalFunctions {
    imported: usize,
    functions: Vec<LocalFunction>,
}

impl Model for LocalFunctions {
    ghost use Rattle.walrus_functions.specs.Functions.{Functions};

    ghost Value = { Functions };

    ghost view = { λ f. record { imported = f.imported; list = f.functions.items } };
}

impl LocalFunctions {
    ghost use Rattle.walrus_functions.specs.LocalLends.{LendsFunction};

    /// No functions, where none is imported: ids begin at 0. It takes no memory.
    pub fn new(alloc: Global) -> LocalFunctions
        ensures { result ≡ record { imported = 0; list = [] } }
    {
        LocalFunctions::new_after(alloc, 0)
    }

    /// No functions, where so many are imported: ids begin at that number. It takes no memory.
    ///
    /// ```
    /// let mut funcs = LocalFunctions::new_after(alloc, 2);
    /// let id = funcs.add(func).ok(); // the id 2
    /// ```
    pub fn new_after(alloc: Global, imported: usize) -> LocalFunctions
        ensures { result ≡ record { imported = imported; list = [] } }
    {
        LocalFunctions {
            imported,
            functions: Vec::new(alloc),
        }
    }

    /// How many functions there are. Imported ones are not counted.
    pub fn len(&self) -> usize
        ensures { result ≡ length self.now.list }
    {
        self.functions.len()
    }

    /// Whether there are no functions. Imported ones are not counted.
    pub fn is_empty(&self) -> bool
        ensures { IsTrue result ↔ (length self.now.list ≡ 0) }
    {
        self.functions.is_empty()
    }

    /// The functions in the order of their ids.
    ///
    /// ```
    /// for func in funcs.iter() {
    ///     println!(rt; "{} sequences", func.block_count())?;
    /// }
    /// ```
    pub fn iter(&self) -> Iter<'_, LocalFunction>
        ensures rest { iter_rest result ≡ self.now.list }
        ensures runs { IterYieldsInOrder LocalFunction }
    {
        self.functions.iter()
    }

    /// Adds a function, and returns its id: the number of functions before, with imported ones.
    /// Where memory is refused or no id is left, the error is the function itself, and nothing
    /// changes.
    pub fn add(&mut self, func: LocalFunction) -> Result<FunctionId, LocalFunction>
        ensures id { IfOk result (λ id. id ≡ next_function self.old) }
        ensures ok { OnOk result (self.new ≡ with_new_function self.old func) }
        ensures back { IfErr result (λ given. given ≡ func) }
        ensures err { OnErr result (self.new ≡ self.old) }
    {
        let Some(index) = self.imported.checked_add(self.functions.len()) else {
            return Err(func);
        };
        if let Err(_) = self.functions.reserve(1) {
            return Err(func);
        }
        self.functions.push_reserved(func);
        Ok(Id::from_index(index))
    }

    /// Whether a function with a body has this id.
    pub fn contains(&self, id: FunctionId) -> bool
        ensures { IsTrue result ↔ IsLocal self.now id }
    {
        match id.index().checked_sub(self.imported) {
            Some(place) => place < self.functions.len(),
            None => false,
        }
    }

    /// The function of a known id.
    pub fn get(&self, id: FunctionId) -> &LocalFunction
        requires { IsLocal self.now id }
        ensures { function_at self.now id ≡ Some result.now }
    {
        &self.functions[self.place(id)]
    }

    /// The function of a known id, for writing. No other function changes.
    pub fn get_mut(&mut self, id: FunctionId) -> &mut LocalFunction
        requires { IsLocal self.old id }
        ensures* writes_back { sem 𝓛 (LendsFunction self.entry id result) }
        ensures value { function_at self.old id ≡ Some result.now }
    {
        let place = self.place(id);
        &mut self.functions[place]
    }

    // The place of a known id in the list.
    fn place(&self, id: FunctionId) -> usize
        requires { IsLocal self.now id }
        ensures { result ≡ id - self.now.imported }
    {
        id.index() - self.imported
    }
}
