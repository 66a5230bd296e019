use super::*;
use nm_base::{Ctype, MAX_PROGRAM_BYTES};
use std::test::Fail;

/// Rows of a text, and its refusal.
#[test]
fn refusals(rt: HostRuntime) {
    let rows: [(&[u8], LexFault); 46] = [
        (b"/* x", LexFault::OpenComment { line: 1 }),
        (b"'a", LexFault::OpenText { line: 1 }),
        (
            b"int main(void) { return 2147483648; }",
            LexFault::BadConstant { line: 1 },
        ),
        (
            b"int main(void) { return 1.5; }",
            LexFault::BadConstant { line: 1 },
        ),
        (b"a\n2147483648", LexFault::BadConstant { line: 2 }),
        (b"return 1.5;", LexFault::BadConstant { line: 1 }),
        (b"4294967296u", LexFault::BadConstant { line: 1 }),
        (b"0x100000000", LexFault::BadConstant { line: 1 }),
        (b"0x", LexFault::BadConstant { line: 1 }),
        (b"08", LexFault::BadConstant { line: 1 }),
        (b"1uu", LexFault::BadConstant { line: 1 }),
        (b"''", LexFault::BadConstant { line: 1 }),
        (b"'ab'", LexFault::BadConstant { line: 1 }),
        (b"'\n'", LexFault::OpenText { line: 1 }),
        (b"'\t'", LexFault::BadByte { line: 1 }),
        (b"'\\400'", LexFault::BadEscape { line: 1 }),
        (b"\"\\0\"", LexFault::BadEscape { line: 1 }),
        (b"\"\\x\"", LexFault::BadEscape { line: 1 }),
        (b"\"\\\n\"", LexFault::BadEscape { line: 1 }),
        (b"\n\"a\n\"", LexFault::OpenText { line: 2 }),
        (b"\"\x7f\"", LexFault::BadByte { line: 1 }),
        (b"a @", LexFault::BadByte { line: 1 }),
        (b"/*\n*/ #include <a>", LexFault::BadByte { line: 2 }),
        (b"#includes", LexFault::BadByte { line: 1 }),
        (b"\n\n/*/", LexFault::OpenComment { line: 3 }),
        (b"@ /*", LexFault::BadByte { line: 1 }),
        (b"\n0x1g", LexFault::BadConstant { line: 2 }),
        (b"4294967296", LexFault::BadConstant { line: 1 }),
        (b"040000000000", LexFault::BadConstant { line: 1 }),
        (b"0Xu", LexFault::BadConstant { line: 1 }),
        (b"1_0", LexFault::BadConstant { line: 1 }),
        (b"'a\n'", LexFault::OpenText { line: 1 }),
        (b"'", LexFault::OpenText { line: 1 }),
        (b"'\x80'", LexFault::BadByte { line: 1 }),
        (b"'a\x80'", LexFault::BadConstant { line: 1 }),
        (b"\n\n'\\x100'", LexFault::BadEscape { line: 3 }),
        (b"'\\8'", LexFault::BadEscape { line: 1 }),
        (b"'\\", LexFault::BadEscape { line: 1 }),
        (b"'\\\n'", LexFault::BadEscape { line: 1 }),
        (b"\"\\", LexFault::BadEscape { line: 1 }),
        (b"\"\\000\"", LexFault::BadEscape { line: 1 }),
        (b"\"a", LexFault::OpenText { line: 1 }),
        (b"\"\x01\n", LexFault::BadByte { line: 1 }),
        (b"/* */ /* x", LexFault::OpenComment { line: 1 }),
        (b"; #include <a>", LexFault::BadByte { line: 1 }),
        (b"#define a", LexFault::BadByte { line: 1 }),
    ];
    for (text, fault) in rows {
        assert!(rt; text.len() <= MAX_PROGRAM_BYTES as usize);
        assert_eq!(rt; lex(rt.alloc(), text).err(), Some(fault), "{text:?}");
    }
}

/// A name of 64 bytes, and a text of 510: a byte behind the text's closing quote comes too late, one before it does
/// not.
#[test]
fn too_long(rt: HostRuntime) -> Result<(), Fail> {
    let name = vec![in rt.alloc(); b'a'; 64]?;
    assert_eq!(rt; name.len(), 64);
    assert!(rt; lex(rt.alloc(), &name[..63]).is_ok());
    assert_eq!(rt;
        lex(rt.alloc(), &name).err(),
        Some(LexFault::LongName { line: 1 })
    );

    let mut text = vec![in rt.alloc(); b'"'; 1]?;
    for _ in 0..509 {
        text.push(b'a')?;
    }
    text.push(b'"')?;
    assert_eq!(rt; text.len(), 511);
    assert!(rt; lex(rt.alloc(), &text).is_ok());
    text.pop();
    text.push(b'a')?;
    text.push(b'"')?;
    text.push(b'@')?;
    assert_eq!(rt; text.len(), 513);
    assert_eq!(rt;
        lex(rt.alloc(), &text).err(),
        Some(LexFault::LongText { line: 1 })
    );
    text.pop();
    text.pop();
    text.push(b'\n')?;
    assert_eq!(rt; text.len(), 512);
    assert_eq!(rt;
        lex(rt.alloc(), &text).err(),
        Some(LexFault::OpenText { line: 1 })
    );
    Ok(())
}

/// A source of the greatest length has no token where it is blank, and one name of it is too long.
#[test]
fn largest(rt: HostRuntime) -> Result<(), Fail> {
    for (byte, want) in [
        (b' ', None),
        (b'\n', None),
        (b'a', Some(LexFault::LongName { line: 1 })),
    ] {
        let text = vec![in rt.alloc(); byte; MAX_PROGRAM_BYTES as usize]?;
        match lex(rt.alloc(), &text) {
            Ok(tokens) => assert!(rt; tokens.is_empty() && want.is_none(), "{byte}"),
            Err(fault) => assert_eq!(rt; Some(fault), want, "{byte}"),
        }
    }
    Ok(())
}

/// A text with each kind of lexeme.
#[test]
fn each_kind(rt: HostRuntime) -> Result<(), Fail> {
    let text = b" #include <stdio.h> /*\nint a_1; /* no\nlexeme */ a_1<<=0x1Fu+017-2147483648u;
'\\n' '\\x41'\t\"%d\\n\\\"\" >= > =";
    let int = Ctype::Int;
    let unsigned = Ctype::Unsigned;
    let rows: [(Tok, &[u8], u32, u32, u32); 16] = [
        (Tok::Keyword(Key::Int), b"", 2, 23, 26),
        (Tok::Name, b"a_1", 2, 27, 30),
        (Tok::Mark(Mark::Semicolon), b"", 2, 30, 31),
        (Tok::Name, b"a_1", 3, 48, 51),
        (Tok::Mark(Mark::ShiftLeftAssign), b"", 3, 51, 54),
        (
            Tok::Const {
                bits: 31,
                of: unsigned,
            },
            b"",
            3,
            54,
            59,
        ),
        (Tok::Mark(Mark::Plus), b"", 3, 59, 60),
        (Tok::Const { bits: 15, of: int }, b"", 3, 60, 63),
        (Tok::Mark(Mark::Minus), b"", 3, 63, 64),
        (
            Tok::Const {
                bits: 2_147_483_648,
                of: unsigned,
            },
            b"",
            3,
            64,
            75,
        ),
        (Tok::Mark(Mark::Semicolon), b"", 3, 75, 76),
        (Tok::Const { bits: 10, of: int }, b"", 4, 77, 81),
        (Tok::Const { bits: 65, of: int }, b"", 4, 82, 88),
        (Tok::Text, b"%d\n\"", 4, 89, 97),
        (Tok::Mark(Mark::GreaterEqual), b"", 4, 98, 100),
        (Tok::Mark(Mark::Greater), b"", 4, 101, 102),
    ];
    let tokens = lex(rt.alloc(), text)?;
    assert_eq!(rt; tokens.len(), 17);
    for (token, (kind, bytes, line, start, end)) in tokens.iter().zip(rows) {
        assert_eq!(rt; token.kind, kind, "at {start}");
        assert_eq!(rt; token.bytes.as_slice(), bytes, "at {start}");
        assert_eq!(rt; (token.line, token.start, token.end), (line, start, end));
    }
    Ok(())
}

/// What is displayed for each refusal.
#[test]
fn displays_refusals(rt: HostRuntime) -> Result<(), Fail> {
    let rows: [(LexFault, &str); 8] = [
        (
            LexFault::BadByte { line: 1 },
            "line 1: a byte that no lexeme has here",
        ),
        (
            LexFault::OpenComment { line: 20 },
            "line 20: a comment without an end",
        ),
        (
            LexFault::OpenText { line: 3 },
            "line 3: a quote without its closing quote",
        ),
        (LexFault::BadConstant { line: 4 }, "line 4: not a constant"),
        (LexFault::BadEscape { line: 5 }, "line 5: not an escape"),
        (
            LexFault::LongName { line: 6 },
            "line 6: a name of more than 63 bytes",
        ),
        (
            LexFault::LongText { line: 4294967295 },
            "line 4294967295: a text of more than 509 bytes",
        ),
        (LexFault::Memory, "out of memory"),
    ];
    for (fault, text) in rows {
        assert_eq!(rt; format!(in rt.alloc(); "{fault}")?.as_str(), text);
    }
    Ok(())
}
