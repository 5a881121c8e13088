//! The types that a function uses: the roots that it brings to the deletion of unused ones.
ghost use Rattle.std.specs.Prelude.{◌↔◌, ℕ, All, Contains, IfOk, OnOk, IsSome, IfSome};
ghost use Rattle.std.specs.List.{flat_map};
ghost use Rattle.walrus_functions.specs.Body.{Knows, sequence};
ghost use Rattle.walrus_passes.specs.UsedTypes.{HasNestedBody, IsInBody, UsesType, instr_types};
ghost use Rattle.walrus_passes.specs.Steps.UsedTypes.{Lists, seq_types};

use std::alloc::{AllocError, Global};
use walrus_functions::LocalFunction;
use walrus_ir::{Instr, InstrSeq, InstrSeqId, LocalId, ModuleLocals};
use walrus_nesting::{Nesting, check_nesting};
use walrus_traversals::{AnyId, IdVisitor, OnlyIds, report_fields};
use walrus_types::{Listed, TypeId};

/// Returns the types that a function uses, or `None` where its body is not nested from its entry.
/// These are the roots that it brings to [`delete_unused_types`](crate::delete_unused_types):
///
/// - its own type, and the types of its parameters;
/// - in the sequences that are reached from its entry, the types of blocks and the types that
///   instructions name, including `ref.null` and `select`;
/// - the types of the locals that these instructions read and write. A local that `locals` does not
///   know has no type.
///
/// A type is listed as often as it is used. The types of the functions, tables, globals and tags
/// that it names are not in the list: each of these brings roots of its own. It is not checked
/// whether the types are live, which `delete_unused_types` requires of its roots.
///
/// This is the part of a garbage collector, such as walrus's `gc`, that looks at one function for
/// types. It leaves out which functions are used, the other items that a function names, and the
/// types that imports, exports, tables, globals and tags bring.
///
/// It takes time linear in the size of the function, also where a sequence is in several others.
/// Constant expressions have [`referenced_types`](walrus_ir::ConstExpr::referenced_types).
///
/// # Errors
///
/// `AllocError` comes where memory was refused. Nothing has changed then.
///
/// # Deleting what neither a function nor the first value of a global uses
///
/// ```
/// let Some(mut roots) = used_types(alloc, &func, &locals)? else {
///     return Err(Fail::new("not nested"));
/// };
/// init.referenced_types(&mut roots)?;
/// assert!(rt; types.contains_all(roots.as_slice()));
/// let deleted = delete_unused_types(alloc, &mut types, roots.as_slice())?;
/// ```
pub fn used_types(
    alloc: Global,
    func: &LocalFunction,
    locals: &ModuleLocals,
) -> Result<Option<Vec<TypeId>>, AllocError>
    ensures nested { IfOk result (λ o. IsSome o ↔ HasNestedBody func.now.body) }
    ensures types { IfOk result (λ o. IfSome o (λ ids. (id : ℕ) →
        Contains ids.items id ↔ UsesType locals.now func.now id)) }
{
    let Some(seqs) = reachable_seqs(alloc, func)? else {
        return Ok(None);
    };
    let used = Listed::from_vec(vec![in alloc; func.ty()]?);
    let mut roots = OnlyIds {
        visitor: Roots { used, locals },
    };
    roots.visitor.add_locals(func.args.as_slice())?;
    add_seqs(&mut roots, func, seqs.as_slice())?;
    Ok(Some(roots.visitor.used.into_vec()))
}

// The sequences that are reached from the entry, or `None` where the body is not nested.
fn reachable_seqs(
    alloc: Global,
    func: &LocalFunction,
) -> Result<Option<Vec<InstrSeqId>>, AllocError>
    ensures nested { IfOk result (λ o. IsSome o ↔ HasNestedBody func.now.body) }
    ensures reached { IfOk result (λ o. IfSome o (λ ids. (id : ℕ) →
        Contains ids.items id ↔ IsInBody func.now.body id)) }
    ensures known { IfOk result (λ o. IfSome o (λ ids. All (Knows func.now.body) ids.items)) }
{
    let Some(entry) = func.entry() else {
        return Ok(Some(Vec::new(alloc)));
    };
    match check_nesting(alloc, func, entry)? {
        Nesting::Nested(ids) => Ok(Some(ids)),
        Nesting::Cycle { .. } => Ok(None),
        Nesting::Unknown(_) => Ok(None),
    }
}

// The types of these sequences.
fn add_seqs(
    roots: &mut OnlyIds<Roots<'_>>,
    func: &LocalFunction,
    ids: &[InstrSeqId],
) -> Result<(), AllocError>
    requires { All (Knows func.now.body) ids.now }
    ensures { OnOk result (Lists roots.old.visitor
        (flat_map (λ id. seq_types roots.old.visitor.locals.now (sequence func.now.body id))
        ids.now) roots.new.visitor) }
{
    for id in ids {
        add_seq(roots, func.block(*id))?;
    }
    Ok(())
}

fn add_seq(roots: &mut OnlyIds<Roots<'_>>, seq: &InstrSeq) -> Result<(), AllocError>
    ensures { OnOk result (Lists roots.old.visitor
        (seq_types roots.old.visitor.locals.now seq.now) roots.new.visitor) }
{
    roots.visitor.add(seq.ty.type_id())?;
    for (instr, _) in &seq.instrs {
        add_instr(roots, instr)?;
    }
    Ok(())
}

fn add_instr(roots: &mut OnlyIds<Roots<'_>>, instr: &Instr) -> Result<(), AllocError>
    ensures { OnOk result (Lists roots.old.visitor
        (instr_types roots.old.visitor.locals.now instr.now) roots.new.visitor) }
{
    report_fields(roots, instr)?;
    roots.visitor.add_unvisited(instr)
}

// The types that are listed so far. As a visitor it lists the types that it is shown, and the types
// of the locals that it is shown.
#[derive(Drop)]
struct Roots<'a> {
    used: Listed<TypeId>,
    locals: &'a ModuleLocals,
}

impl<'a> IdVisitor for Roots<'a> {
    ghost use Rattle.walrus_passes.specs.Steps.UsedTypes.{Lists, id_types};

    type Error = AllocError;

    ghost step = { λ old id new. Lists old (id_types old.locals.now id) new };

    fn visit_id(&mut self, id: AnyId) -> Result<(), AllocError> {
        match id {
            AnyId::Type(id) => self.add(Some(id)),
            AnyId::Local(id) => self.add_local(id),
            _ => Ok(()),
        }
    }
}

impl<'a> Roots<'a> {
    ghost use Rattle.std.specs.Prelude.{◌≡◌, OnErr};
    ghost use Rattle.walrus_ty.specs.Definition.{supertype_names};
    ghost use Rattle.walrus_passes.specs.UsedTypes.{local_types, unvisited_types};

    fn add(&mut self, id: Option<TypeId>) -> Result<(), AllocError>
        ensures ok { OnOk result (Lists self.old (supertype_names id) self.new) }
        ensures err { OnErr result (self.new ≡ self.old) }
    {
        match id {
            Some(id) => self.used.push(id),
            None => Ok(()),
        }
    }

    fn add_local(&mut self, id: LocalId) -> Result<(), AllocError>
        ensures ok { OnOk result (Lists self.old (local_types self.old.locals.now id) self.new) }
        ensures err { OnErr result (self.new ≡ self.old) }
    {
        if !self.locals.contains(id) {
            return Ok(());
        }
        self.add(self.locals.get(id).ty().type_id())
    }

    fn add_locals(&mut self, ids: &[LocalId]) -> Result<(), AllocError>
        ensures { OnOk result
            (Lists self.old (flat_map (local_types self.old.locals.now) ids.now) self.new) }
    {
        for id in ids {
            self.add_local(*id)?;
        }
        Ok(())
    }

    // The types that walks do not report.
    fn add_unvisited(&mut self, instr: &Instr) -> Result<(), AllocError>
        ensures { OnOk result (Lists self.old (unvisited_types instr.now) self.new) }
    {
        match instr {
            Instr::Select(x) => match x.ty {
                Some(ty) => self.add(ty.type_id()),
                None => Ok(()),
            },
            Instr::RefNull(x) => self.add(x.ty.type_id()),
            _ => Ok(()),
        }
    }
}
