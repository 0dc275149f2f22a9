use crate::{InputRefusal, records};
use cdc_base::Place;
use std::alloc::Global;
use std::test::Fail;

#[test]
fn files_with_records(rt: HostRuntime) -> Result<(), Fail> {
    let cases: [(&[u8], &[&[i64]]); 15] = [
        (b"", &[]),
        (b"1\n2 99\n3, 4\n", &[&[1], &[2, 99], &[3, 4]]),
        (b"+0007 -0 -12,+5", &[&[7, 0, -12, 5]]),
        (b"1\r\n2\n3", &[&[1], &[2], &[3]]),
        (b"\n\r\n", &[&[], &[]]),
        (b"1\n\n2\n", &[&[1], &[], &[2]]),
        (b" \t", &[&[]]),
        (b"1\n ", &[&[1], &[]]),
        (b"1 2,\n3, \r\n4,", &[&[1, 2], &[3], &[4]]),
        (b"\t1\t,\t2 ,3,4  5", &[&[1, 2, 3, 4, 5]]),
        (b"9223372036854775807", &[&[9_223_372_036_854_775_807]]),
        (b"-9223372036854775808", &[&[-9_223_372_036_854_775_808]]),
        (b"00000000000000000000000000000000000000001", &[&[1]]),
        (
            b"-00009223372036854775808\n",
            &[&[-9_223_372_036_854_775_808]],
        ),
        (b"10,\n20", &[&[10], &[20]]),
    ];
    for (bytes, want) in cases {
        assert!(rt; bytes.len() < 1000);
        let found = records(rt.alloc(), bytes)?;
        let found = found.records.as_slice();
        assert_eq!(rt; found.len(), want.len());
        for (record, values) in found.iter().zip(want) {
            assert_eq!(rt; record.as_slice(), *values);
        }
    }
    Ok(())
}

#[test]
fn files_that_are_refused(rt: HostRuntime) {
    let cases: [(&[u8], u32, u32); 22] = [
        (b"1 ,, 2", 1, 4),
        (b"1\r", 1, 1),
        (b"1\r\r\n", 1, 1),
        (b"\r", 1, 1),
        (b"1\r2\n", 1, 1),
        (b"1,\n,2", 2, 1),
        (b"1,,", 1, 3),
        (b",", 1, 1),
        (b"\t, 1", 1, 2),
        (b"1\n\n2 , , x", 3, 5),
        (b"1 x,,", 1, 3),
        (b"1,,x", 1, 3),
        (b"9223372036854775808", 1, 1),
        (b"7 -9223372036854775809", 1, 3),
        (b"+", 1, 1),
        (b"4 -\n", 1, 3),
        (b"+-1", 1, 1),
        (b"1+2", 1, 1),
        (b"1.5", 1, 1),
        (b"1 \xff", 1, 3),
        (b"1\n 12\xc3\xa9\r\n", 2, 2),
        (b"1 2\x003", 1, 3),
    ];
    for (bytes, line, column) in cases {
        assert!(rt; bytes.len() < 1000);
        let refusal = records(rt.alloc(), bytes).err();
        let want = InputRefusal::BadNumber(Place { line, column });
        assert_eq!(rt; refusal, Some(want));
    }
}

#[test]
fn a_file_as_long_as_the_limit(rt: HostRuntime) -> Result<(), Fail> {
    let empty = vec![in rt.alloc(); b'\n'; 1_048_576]?;
    let found = records(rt.alloc(), &empty)?;
    assert_eq!(rt; found.records.as_slice().len(), 1_048_576);
    let blank = vec![in rt.alloc(); b' '; 1_048_576]?;
    let found = records(rt.alloc(), &blank)?;
    assert_eq!(rt; found.records.as_slice().len(), 1);
    let digits = vec![in rt.alloc(); b'1'; 1_048_576]?;
    let refusal = records(rt.alloc(), &digits).err();
    let start = Place { line: 1, column: 1 };
    assert_eq!(rt; refusal, Some(InputRefusal::BadNumber(start)));
    let pairs = ones(rt.alloc(), 524_288)?;
    assert!(rt; pairs.len() == 1_048_576);
    let found = records(rt.alloc(), &pairs)?;
    assert_eq!(rt; found.records.as_slice().len(), 1);
    for record in found.records.as_slice() {
        assert_eq!(rt; record.as_slice().len(), 524_288);
    }
    Ok(())
}

fn ones(alloc: Global, count: usize) -> Result<Vec<u8>, Fail> {
    let mut bytes = Vec::new(alloc);
    for _ in 0..count {
        bytes.extend_from_slice(b"1,")?;
    }
    Ok(bytes)
}
