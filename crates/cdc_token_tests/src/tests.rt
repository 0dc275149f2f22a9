ghost use Rattle.std.specs.Prelude.{◌≤◌, length};

use cdc_base::Place;
use cdc_token::{LexRefusal, Lexed, Line, Lines, Token, logical_lines};
use std::alloc::Global;
use std::fmt::Write;
use std::str::from_utf8;
use std::test::Fail;

fn write_token(out: &mut String, lexed: &Lexed) -> Result<(), Fail> {
    match &lexed.token {
        Token::Name(name) => write!(out, " {}", from_utf8(name.as_slice())?)?,
        Token::Number(number) => write!(out, " {number}")?,
        Token::Text(text) => write!(out, " '{}'", from_utf8(text.as_slice())?)?,
        Token::Symbol(symbol) => write!(out, " {symbol:?}")?,
    }
    let Place { line, column } = lexed.place;
    write!(out, "@{line}:{column}")?;
    Ok(())
}

fn write_line(out: &mut String, line: Line) -> Result<(), Fail> {
    write!(out, "{}:", line.line)?;
    for lexed in line.tokens {
        write_token(out, lexed)?;
    }
    out.push('\n')?;
    Ok(())
}

fn write_refusal(out: &mut String, refusal: LexRefusal) -> Result<(), Fail> {
    let (name, place) = match refusal {
        LexRefusal::BadByte(place) => ("BadByte", place),
        LexRefusal::OpenText(place) => ("OpenText", place),
        LexRefusal::NameLong(place) => ("NameLong", place),
        LexRefusal::NumberWide(place) => ("NumberWide", place),
        LexRefusal::LineLong(place) => ("LineLong", place),
        LexRefusal::Memory => ("Memory", Place { line: 0, column: 0 }),
    };
    write!(out, "{name} {}:{}", place.line, place.column)?;
    Ok(())
}

// The logical lines, or the refusal, as text.
fn answer(alloc: Global, source: &[u8]) -> Result<String, Fail>
    requires { length source.now ≤ 262144 }
{
    let mut out = String::new(alloc);
    match logical_lines(alloc, source) {
        Ok(lines) => {
            let mut rest = lines.all();
            while let Some((line, after)) = rest.split_first() {
                write_line(&mut out, line)?;
                rest = after;
            }
        }
        Err(refusal) => {
            write_refusal(&mut out, refusal)?;
            out.push('\n')?;
        }
    }
    Ok(out)
}

// Sources, each with its logical lines and the places of their tokens behind a line of hyphens; between two sources stands a
// line of two percent signs. The answer of a source that is refused is its refusal.
const READ: &str = "
--
%%
Program t
End
--
1: PROGRAM@1:1 T@1:9
2: END@2:1
%%
N = 1\r
M = 2\r

--
1: N@1:1 Assign@1:3 1@1:5
2: M@2:1 Assign@2:3 2@2:5
%%
\tN\t=1
--
1: N@1:2 Assign@1:4 1@1:5
%%
a_1B2c aZ_9
--
1: A_1B2C@1:1 AZ_9@1:8
%%
abcdefghijklmnopqrstuvwxyz_0123
--
1: ABCDEFGHIJKLMNOPQRSTUVWXYZ_0123@1:1
%%
1A 2_
--
BadByte 1:5
%%
007 0 9223372036854775807
--
1: 7@1:1 0@1:5 9223372036854775807@1:7
%%
00000000000000000000009223372036854775807
--
1: 9223372036854775807@1:1
%%
( ) , : :: = + - * /
--
1: LeftParen@1:1 RightParen@1:3 Comma@1:5 Colon@1:7 DoubleColon@1:9 Assign@1:12 Plus@1:14 Minus@1:16 Star@1:18 Slash@1:20
%%
== /= < <= > >=
--
1: Eq@1:1 Ne@1:4 Lt@1:7 Le@1:9 Gt@1:12 Ge@1:14
%%
.EQ. .ne. .Lt. .lE. .GT. .ge.
--
1: Eq@1:1 Ne@1:6 Lt@1:11 Le@1:16 Gt@1:21 Ge@1:26
%%
.NOT. .and. .Or. .nOt.
--
1: Not@1:1 And@1:7 Or@1:13 Not@1:18
%%
===
--
1: Eq@1:1 Assign@1:3
%%
:::
--
1: DoubleColon@1:1 Colon@1:3
%%
<==>=/=
--
1: Le@1:1 Assign@1:3 Ge@1:4 Ne@1:6
%%
//=< =
--
1: Slash@1:1 Ne@1:2 Lt@1:4 Assign@1:6
%%
1.eq.2.NOT.3
--
1: 1@1:1 Eq@1:2 2@1:6 Not@1:7 3@1:12
%%
'it''s' \"\"
--
1: 'it's'@1:1 ''@1:9
%%
'' '''' ''''''
--
1: ''@1:1 '''@1:4 ''''@1:9
%%
\"a\"\"b'\" 'c\"'
--
1: 'a\"b''@1:1 'c\"'@1:9
%%
'a!b' 'c;d' '&\t~'
--
1: 'a!b'@1:1 'c;d'@1:7 '&\t~'@1:13
%%
'a'\"b\"
--
1: 'a'@1:1 'b'@1:4
%%
N=1;;M=2 ! x;y
--
1: N@1:1 Assign@1:2 1@1:3
1: M@1:6 Assign@1:7 2@1:8
%%
 ; ;
;
--
%%
N = &
  1
M
--
1: N@1:1 Assign@1:3 1@2:3
3: M@3:1
%%
N = & ! c

 ! c
 \t& 1 & \r
+ 2
--
1: N@1:1 Assign@1:3 1@4:5 Plus@5:1 2@5:3
%%
N &
&&
& ! c
= 1
--
1: N@1:1 Assign@4:1 1@4:3
%%
&

 N
--
3: N@3:2
%%
N = &
; M = 1
--
1: N@1:1 Assign@1:3
2: M@2:3 Assign@2:5 1@2:7
%%
N = 1 &
--
1: N@1:1 Assign@1:3 1@1:5
%%
N = 1 &
! c
 

--
1: N@1:1 Assign@1:3 1@1:5
%%
A;B&
;C
--
1: A@1:1
1: B@1:3
2: C@2:2
";

// Sources of which the first fault is told.
const REFUSED: &str = "PROGRAM T
N = 1 # 2
END

--
BadByte 2:7
%%
PROGRAM T
PRINT *, 'ab
END

--
OpenText 2:10
%%
PROGRAM T
NNNNNNNNNNNNNNNNNNNNNNNNNNNNNNNN = 1

--
NameLong 2:1
%%
PROGRAM T
N = 9223372036854775808

--
NumberWide 2:5
%%
PROGRAM T
N = (((((((((((((((((((((((((((((((((((((((((((((((((((((((((((((((((1)))))))))))))))))))))))))))))))))))))))))))))))))))))))))))))))))

--
LineLong 2:133
%%
N = 99999999999999999999999999999999999999999999
--
NumberWide 1:5
%%
N = 1 # 2 # 3
--
BadByte 1:7
%%
N # 'ab
--
BadByte 1:3
%%
N 'ab #
--
OpenText 1:3
%%
N = 1 ! # 'ab
#
--
BadByte 2:1
%%
N = 1.5
--
BadByte 1:6
%%
.EQ
--
BadByte 1:1
%%
N .NOT 1
--
BadByte 1:3
%%
.TRUE.
--
BadByte 1:1
%%
_A
--
BadByte 1:1
%%
N\r= 1
--
BadByte 1:2
%%
N = 1\r
--
BadByte 1:6
%%
N = 1\r\r

--
BadByte 1:6
%%
N\x00
--
BadByte 1:2
%%
N\x7F
--
BadByte 1:2
%%
'a\x01b'
--
BadByte 1:3
%%
'a\x7F\r'
--
BadByte 1:3
%%
'a\x01b
--
OpenText 1:1
%%
\"a'
--
OpenText 1:1
%%
'a''
--
OpenText 1:1
%%
'a
'
--
OpenText 1:1
%%
& N
--
BadByte 1:1
%%
N & M
--
BadByte 1:3
%%
N &
& & M
--
BadByte 2:3
%%
N &
M
& = 1
--
BadByte 3:1
";

// Sources with bytes that are no ASCII characters.
const OTHER_BYTES: [(&[u8], &str); 3] = [
    (b"\n \t! only a comment \x00\xFF\r\x7F\n", ""),
    (b"N\xC3", "BadByte 1:2\n"),
    (b"'a\xFF' #", "BadByte 1:3\n"),
];

#[test]
fn reads_tokens_and_lines(rt: HostRuntime) -> Result<(), Fail> {
    for cases in [READ, REFUSED] {
        for case in cases.split("%%\n") {
            let (source, want) = case.split_once("\n--\n").unwrap_or((case, ""));
            assert!(rt; source.len() <= 262144);
            let got = answer(rt.alloc(), source.as_bytes())?;
            assert_eq!(rt; got.as_str(), want, "at {source:?}");
        }
    }
    for (source, want) in OTHER_BYTES {
        assert!(rt; source.len() <= 262144);
        assert_eq!(rt; answer(rt.alloc(), source)?.as_str(), want, "at {source:?}");
    }
    Ok(())
}

// A front, parts that are repeated, and an end.
fn joined(
    alloc: Global,
    front: &[u8],
    part: &[u8],
    count: usize,
    end: &[u8],
) -> Result<Vec<u8>, Fail> {
    let mut source = Vec::from_slice(alloc, front)?;
    for _ in 0..count {
        source.extend_from_slice(part)?;
    }
    source.extend_from_slice(end)?;
    Ok(source)
}

fn count(lines: &Lines) -> usize {
    let mut rest = lines.all();
    let mut count: usize = 0;
    while let Some((_, after)) = rest.split_first() {
        count = count.saturating_add(1);
        rest = after;
    }
    count
}

// The number of logical lines, or the refusal, as text.
fn outline(alloc: Global, source: &[u8]) -> Result<String, Fail>
    requires { length source.now ≤ 262144 }
{
    let mut out = String::new(alloc);
    match logical_lines(alloc, source) {
        Ok(lines) => write!(out, "{} lines", count(&lines))?,
        Err(refusal) => write_refusal(&mut out, refusal)?,
    }
    Ok(out)
}

#[test]
fn bounds_lines_and_takes_long_sources(rt: HostRuntime) -> Result<(), Fail> {
    let cases: [(&[u8], &[u8], usize, &[u8], &str); 23] = [
        (b"M\nN", b" ", 131, b"\n", "2 lines"),
        (b"M\nN", b" ", 131, b"\r\n", "2 lines"),
        (b"M\nN", b" ", 131, b"", "2 lines"),
        (b"M\nN", b" ", 131, b"\r", "LineLong 2:133"),
        (b"M\nN", b" ", 132, b"\r\n", "LineLong 2:133"),
        (b"M\nN", b" ", 132, b"", "LineLong 2:133"),
        (b"M\n!", b"c", 131, b"\n", "1 lines"),
        (b"M\n!", b"c", 132, b"\n", "LineLong 2:133"),
        (b"M\nN", b" ", 131, b"#", "LineLong 2:133"),
        (b"M\nN", b" ", 130, b"##", "BadByte 2:132"),
        (b"M\nN", b" ", 130, b"''", "LineLong 2:133"),
        (b"", b"A", 262144, b"", "NameLong 1:1"),
        (b"", b"9", 262144, b"", "NumberWide 1:1"),
        (b"", b"0", 262144, b"", "LineLong 1:133"),
        (b"", b"'", 262144, b"", "LineLong 1:133"),
        (b"", b".", 262144, b"", "BadByte 1:1"),
        (b"", b"&", 262144, b"", "BadByte 1:1"),
        (b"", b" ", 262144, b"", "LineLong 1:133"),
        (b"", b"&\n", 131072, b"", "0 lines"),
        (b"", b"!\r\n", 87381, b"", "0 lines"),
        (b"", b"+\n", 131072, b"", "131072 lines"),
        (b"", b"N=1;", 65536, b"", "LineLong 1:133"),
        (b"M", b"\r\n", 131071, b"N", "2 lines"),
    ];
    for (front, part, count, end, want) in cases {
        let source = joined(rt.alloc(), front, part, count, end)?;
        assert!(rt; source.len() <= 262144);
        assert_eq!(rt;
            outline(rt.alloc(), &source)?.as_str(),
            want,
            "at {front:?} {part:?} {end:?}"
        );
    }
    Ok(())
}
