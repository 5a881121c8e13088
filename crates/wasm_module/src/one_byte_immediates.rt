//! Instructions that are mostly two or three bytes long, and how to pass over them at once.
//!
//! WebAssembly core specification, "Binary Format", instructions.
ghost use Rattle.std.specs.Prelude.{◌≡◌, ◌<◌, length, IfSome};
ghost use Rattle.wasm_module.specs.Opcodes.{kinds_in, opcodes};
ghost use Rattle.wasm_module.specs.Steps.Scans.{PassesInstructions};
ghost use Rattle.wasm_module.specs.Steps.OneByteForms.{one_byte_form, one_byte_length, first_limit, second_limit, form_at, IsTableOfForms};

use self::OneByteForm::{Bare, Integer, MemArg, Other};

/// What an instruction that names no type has behind its opcode, where each integer has one byte.
#[derive(Clone, Copy)]
pub enum OneByteForm {
    /// Nothing.
    Bare,
    /// One integer.
    Integer,
    /// The exponent of an alignment, at most this, no index of a memory, and an offset.
    MemArg(u8),
    /// Something else, or the opcode is one of no instruction.
    Other,
}

/// Takes such instructions from the front.
pub fn skip_one_byte_immediates(input: &mut &[u8])
    ensures { PassesInstructions input.old.now input.new.now }
{
    while let Some(rest) = behind_one_byte_immediates(*input) {
        *input = rest;
    }
}

/// What is behind the first instruction, if it has such a form.
fn behind_one_byte_immediates<'a>(bytes: &'a [u8]) -> Option<&'a [u8]>
    ensures passed { IfSome result (λ rest. PassesInstructions bytes.now rest.now) }
    ensures shorter { IfSome result (λ rest. length rest.now < length bytes.now) }
{
    let [opcode, first, second, ..] = bytes else {
        return None;
    };
    let form = one_byte_form(*opcode);
    let length = one_byte_length(form);
    if length == 0
        || u16::from(*first) >= first_limit(form)
        || u16::from(*second) >= second_limit(form)
    {
        return None;
    }
    Some(&bytes[length..])
}

/// How many bytes an instruction has, or 0 where the form does not say it.
fn one_byte_length(form: OneByteForm) -> usize
    ensures { result ≡ one_byte_length form }
{
    match form {
        Bare => 1,
        Integer => 2,
        MemArg(_) => 3,
        Other => 0,
    }
}

/// The first byte behind the opcode is below this.
fn first_limit(form: OneByteForm) -> u16
    ensures { result ≡ first_limit form }
{
    match form {
        Bare => 0x100,
        Integer => 0x80,
        MemArg(most) => u16::from(most) + 1,
        Other => 0,
    }
}

/// The second byte behind the opcode is below this.
fn second_limit(form: OneByteForm) -> u16
    ensures { result ≡ second_limit form }
{
    match form {
        Bare => 0x100,
        Integer => 0x100,
        MemArg(_) => 0x80,
        Other => 0,
    }
}

/// The form of an instruction with this first byte.
fn one_byte_form(opcode: u8) -> OneByteForm
    ensures { result ≡ one_byte_form (kinds_in opcodes opcode) }
{
    form_in(forms(), usize::from(opcode))
}

/// The form of this number in a table.
#[tactic(auto, using(crate::proofs::OneByteForms::form_get, crate::proofs::OneByteForms::no_form))]
fn form_in(table: &[OneByteForm], opcode: usize) -> OneByteForm
    ensures { result ≡ form_at table.now opcode }
{
    if opcode < table.len() {
        table[opcode]
    } else {
        Other
    }
}

fn forms() -> &'static [OneByteForm]
    ensures { IsTableOfForms opcodes result.now }
{
    &FORMS
}

// Accesses to memory of this many bits.

const ACCESS_8: OneByteForm = MemArg(0);

const ACCESS_16: OneByteForm = MemArg(1);

const ACCESS_32: OneByteForm = MemArg(2);

const ACCESS_64: OneByteForm = MemArg(3);

static FORMS: [OneByteForm; 256] = [
    Bare, Bare, Other, Other, Other, Bare, Other, Integer, Integer, Integer, Bare, Other, Integer,
    Integer, Other, Bare, Integer, Other, Integer, Other, Other, Other, Other, Other, Other, Bare,
    Bare, Bare, Other, Other, Other, Other, Integer, Integer, Integer, Integer, Integer, Integer,
    Integer, Other, ACCESS_32, ACCESS_64, ACCESS_32, ACCESS_64, ACCESS_8, ACCESS_8, ACCESS_16,
    ACCESS_16, ACCESS_8, ACCESS_8, ACCESS_16, ACCESS_16, ACCESS_32, ACCESS_32, ACCESS_32,
    ACCESS_64, ACCESS_32, ACCESS_64, ACCESS_8, ACCESS_16, ACCESS_8, ACCESS_16, ACCESS_32, Integer,
    Integer, Integer, Integer, Other, Other, Bare, Bare, Bare, Bare, Bare, Bare, Bare, Bare, Bare,
    Bare, Bare, Bare, Bare, Bare, Bare, Bare, Bare, Bare, Bare, Bare, Bare, Bare, Bare, Bare, Bare,
    Bare, Bare, Bare, Bare, Bare, Bare, Bare, Bare, Bare, Bare, Bare, Bare, Bare, Bare, Bare, Bare,
    Bare, Bare, Bare, Bare, Bare, Bare, Bare, Bare, Bare, Bare, Bare, Bare, Bare, Bare, Bare, Bare,
    Bare, Bare, Bare, Bare, Bare, Bare, Bare, Bare, Bare, Bare, Bare, Bare, Bare, Bare, Bare, Bare,
    Bare, Bare, Bare, Bare, Bare, Bare, Bare, Bare, Bare, Bare, Bare, Bare, Bare, Bare, Bare, Bare,
    Bare, Bare, Bare, Bare, Bare, Bare, Bare, Bare, Bare, Bare, Bare, Bare, Bare, Bare, Bare, Bare,
    Bare, Bare, Bare, Bare, Bare, Bare, Bare, Bare, Bare, Bare, Bare, Bare, Bare, Bare, Bare, Bare,
    Bare, Bare, Bare, Bare, Bare, Bare, Bare, Other, Other, Other, Other, Other, Other, Other,
    Other, Other, Other, Other, Other, Bare, Integer, Bare, Bare, Integer, Integer, Other, Other,
    Other, Other, Other, Other, Other, Other, Other, Other, Other, Other, Other, Other, Other,
    Other, Other, Other, Other, Other, Other, Other, Other, Other, Other, Other, Other, Other,
    Other, Other, Other, Other, Other, Other, Other, Other, Other, Other, Other, Other, Other,
];
