//! All texts of at most three lines out of five.
use super::ends_with;
use std::alloc::{AllocError, Global};
use std::process::Abort;
use walrus_normal_form::{GroupAt, HashKeys, normalise};
use walrus_text::write_output;
use walrus_ty::{CompAt, EntryAt, FieldAt, HeapAt, Listed, RefAt, StorageAt, ValAt};

const LINES: [&str; 5] = ["rec", "end", "func ->", "struct null:1", ""];

/// The records of lines, made without reading a text.
#[derive(Drop)]
struct Records {
    groups: Vec<GroupAt>,
    /// The entries of the `rec` that has no `end` yet.
    open: Option<Vec<EntryAt>>,
}

impl Records {
    /// Takes one of [`LINES`]. `false` says that it is a `rec` or an `end` without partner.
    fn take(&mut self, alloc: Global, line: usize) -> Result<bool, AllocError> {
        match line {
            0 => Ok(self.begin(alloc)),
            1 => self.end(),
            2 => self.add(function(alloc)),
            3 => self.add(structure(alloc)?),
            _ => Ok(true),
        }
    }

    fn begin(&mut self, alloc: Global) -> bool {
        if self.open.is_some() {
            return false;
        }
        self.open = Some(Vec::new(alloc));
        true
    }

    fn end(&mut self) -> Result<bool, AllocError> {
        let Some(entries) = self.open.take() else {
            return Ok(false);
        };
        self.groups.push(GroupAt::Rec(Listed::from_vec(entries)))?;
        Ok(true)
    }

    fn add(&mut self, entry: EntryAt) -> Result<bool, AllocError> {
        match &mut self.open {
            Some(entries) => entries.push(entry)?,
            None => self.groups.push(GroupAt::Single(entry))?,
        }
        Ok(true)
    }
}

fn function(alloc: Global) -> EntryAt {
    final_entry(CompAt::Function {
        params: Listed::from_vec(Vec::new(alloc)),
        results: Listed::from_vec(Vec::new(alloc)),
    })
}

fn structure(alloc: Global) -> Result<EntryAt, AllocError> {
    let reference = RefAt {
        nullable: true,
        heap_type: HeapAt::Concrete(1),
    };
    let mut fields = Vec::new(alloc);
    fields.push(FieldAt {
        element_type: StorageAt::Val(ValAt::Ref(reference)),
        mutable: false,
    })?;
    Ok(final_entry(CompAt::Struct {
        fields: Listed::from_vec(fields),
    }))
}

fn final_entry(comp: CompAt) -> EntryAt {
    EntryAt {
        comp,
        is_final: true,
        supertype: None,
    }
}

/// What a text of these lines ends with: the status, and what is written.
fn outcome(alloc: Global, lines: &[usize]) -> Result<(u8, Vec<u8>), AllocError> {
    let mut records = Records {
        groups: Vec::new(alloc),
        open: None,
    };
    for (before, line) in lines.iter().enumerate() {
        if !records.take(alloc, *line)? {
            return bad_line(alloc, before + 1);
        }
    }
    match records.open {
        Some(_) => bad_line(alloc, lines.len() + 1),
        None => normal_form(alloc, records.groups.as_slice()),
    }
}

fn bad_line(alloc: Global, line: usize) -> Result<(u8, Vec<u8>), AllocError> {
    let text = format!(in alloc; "line {line}: bad text\n")?;
    Ok((1, text.into_bytes()))
}

fn normal_form(alloc: Global, groups: &[GroupAt]) -> Result<(u8, Vec<u8>), AllocError> {
    match normalise(alloc, HashKeys::fixed(), groups) {
        Ok((output, map)) => {
            let mut text = Vec::new(alloc);
            match write_output(&mut text, output.as_slice(), map.as_slice()) {
                Ok(()) => Ok((0, text)),
                Err(_) => Err(AllocError),
            }
        }
        Err(refused) => Ok((2, format!(in alloc; "{refused}\n")?.into_bytes())),
    }
}

fn text_of(alloc: Global, lines: &[usize]) -> Result<Vec<u8>, AllocError> {
    let mut text = Vec::new(alloc);
    for line in lines {
        text.extend_from_slice(LINES[*line % LINES.len()].as_bytes())?;
        text.push(b'\n')?;
    }
    Ok(text)
}

fn is_as_normalise_has_it(rt: &impl Abort, alloc: Global, lines: &[usize]) {
    let text = text_of(alloc, lines).expect(rt, "memory");
    let (status, written) = outcome(alloc, lines).expect(rt, "memory");
    ends_with(rt, alloc, text.as_slice(), status, written.as_slice());
}

#[test]
fn short_texts_are_normalised(rt: HostRuntime) {
    let alloc = rt.alloc();
    is_as_normalise_has_it(&rt, alloc, &[]);
    for first in 0..5 {
        is_as_normalise_has_it(&rt, alloc, &[first]);
        for second in 0..5 {
            is_as_normalise_has_it(&rt, alloc, &[first, second]);
            for third in 0..5 {
                is_as_normalise_has_it(&rt, alloc, &[first, second, third]);
            }
        }
    }
}
