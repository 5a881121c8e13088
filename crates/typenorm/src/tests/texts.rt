//! Texts that are read and written, bad lines, and the texts of errors.
use super::ends_with;
use walrus_text::{BadLine, Expected, TextError, read_section, write_output, write_section};

#[test]
fn writes_what_it_read(rt: HostRuntime) {
    let alloc = rt.alloc();
    let texts = [
        "",
        "func ->\n",
        "func i32 i64 f32 f64 v128 -> null:func ref:extern null:any\n",
        "open func -> ref:none null:noextern ref:nofunc null:eq ref:struct\n",
        "sub:0 struct i8 i16 mut:i8 mut:null:array mut:ref:i31\n",
        "open sub:4294967295 array mut:ref:exact:0\n",
        "struct\n",
        "array null:4294967295\n",
        "rec\nend\n",
        "rec\nstruct null:1 ref:exact:1\nopen struct ref:exn null:noexn\nend\nfunc null:7 ->\n",
    ];
    for text in texts {
        let mut reader = text.as_bytes();
        let groups = read_section(alloc, &mut reader).expect(&rt, "memory");
        let mut out: Vec<u8> = Vec::new(alloc);
        write_section(&mut out, groups.as_slice()).expect(&rt, "memory");
        assert_eq!(rt; out.as_slice(), text.as_bytes(), "at {text}");
    }
}

#[test]
fn writes_the_line_of_the_map(rt: HostRuntime) {
    let alloc = rt.alloc();
    let mut reader = b"rec\nend\n \n  open   struct\n\nfunc -> i32".as_slice();
    let groups = read_section(alloc, &mut reader).expect(&rt, "memory");
    let mut out: Vec<u8> = Vec::new(alloc);
    write_output(&mut out, groups.as_slice(), &[1, 0, 4294967295]).expect(&rt, "memory");
    let wanted = b"rec\nend\nopen struct\nfunc -> i32\nmap 1 0 4294967295\n".as_slice();
    assert_eq!(rt; out.as_slice(), wanted);
    let mut none: Vec<u8> = Vec::new(alloc);
    write_output(&mut none, &[], &[]).expect(&rt, "memory");
    assert_eq!(rt; none.as_slice(), b"map\n".as_slice());
}

#[test]
fn second_line_is_bad(rt: HostRuntime) {
    let alloc = rt.alloc();
    let lines: [&[u8]; 10] = [
        b"array i8 i8",
        b"func i8 ->",
        b"func -> ->",
        b"struct null:+1",
        b"struct null:",
        b"struct mut:mut:i8",
        b"sub:1 sub:0 struct",
        b"sub:0 open struct",
        b"open",
        b"func\t->",
    ];
    for line in lines {
        let mut text: Vec<u8> = Vec::from_slice(alloc, b"func ->\n").expect(&rt, "memory");
        text.extend_from_slice(line).expect(&rt, "memory");
        text.push(b'\n').expect(&rt, "memory");
        ends_with(&rt, alloc, text.as_slice(), 1, b"line 2: bad text\n");
    }
}

#[test]
fn texts_of_errors(rt: HostRuntime) {
    let alloc = rt.alloc();
    let bad = BadLine {
        line: 3,
        column: 8,
        expected: Expected::Field,
    };
    let rows = [
        (
            TextError::BadText(bad),
            "line 3, column 8: expected a field",
        ),
        (TextError::Memory, "out of memory"),
        (TextError::Stream, "input failed"),
    ];
    for (error, wanted) in rows {
        assert_eq!(rt;
            format!(in alloc; "{error}").expect(&rt, "memory").as_str(),
            wanted
        );
    }
}
