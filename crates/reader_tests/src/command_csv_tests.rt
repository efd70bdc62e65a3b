// Scripts that are refused, unusual ones, and those at their limits.
ghost use Rattle.std.specs.Prelude.{◌≤◌, length};

use command_csv::{ScriptFault, read_script};
use std::alloc::Global;
use std::io::Eprint;
use std::process::Abort;
use std::test::Fail;
use test_rows::assert_rows;

const MOST_BYTES: usize = 16_777_216;

// The number of lines in all lanes as row 0, or the bad row and field.
fn answer(alloc: Global, script: &[u8]) -> Result<(u64, u64), Fail>
    requires { length script.now ≤ MOST_BYTES }
{
    match read_script(alloc, script) {
        Ok(script) => {
            let mut count: u64 = 0;
            for lane in script.as_slice() {
                count = count.saturating_add(lane.lines.as_slice().len() as u64);
            }
            Ok((0, count))
        }
        Err(ScriptFault::BadRow { row, field }) => Ok((u64::from(row), u64::from(field))),
        Err(ScriptFault::NoMemory(_)) => Err("no memory")?,
    }
}

// A script, and the number of its lines as row 0, or the bad row and field.
type Row = (&'static [u8], u64, u64);

fn answers(rt: &(impl Abort + Eprint), alloc: Global, rows: &[Row]) -> Result<(), Fail> {
    assert_rows!(rt; (script, row, field) in rows =>
        script.len() <= MOST_BYTES && answer(alloc, script)? == (*row, *field); "{script:?}");
    Ok(())
}

const BAD_FIELDS: &[Row] = &[
    (b"1,issue,0,2020-01-01,term,30,10,1.00,1.00", 1, 3),
    (b"9,lapse,1,2020-01-01", 1, 1),
    (b"1,lapse,1", 1, 4),
    (b"1,issue,5,2020-01-01,term,30,10,1.00,1.00,", 1, 10),
    (b"1,issue,7,2020-01-01,term,0,2,1.00,1.00", 0, 1),
    (
        b"1,issue,4294967295,2199-12-31,term,129,2,100000000.00,0.01",
        0,
        1,
    ),
    (b"1,issue,7,1900-01-01,whole,129,0,1.00,1.00", 0, 1),
    (b"1,issue,7,2000-02-29,limited,29,102,1.00,1.00", 0, 1),
    (b"8,lapse,1,2020-01-01", 0, 1),
    (b"0,lapse,1,2020-01-01", 1, 1),
    (b"01,lapse,1,2020-01-01", 1, 1),
    (b"10,lapse,1,2020-01-01", 1, 1),
    (b"257,lapse,1,2020-01-01", 1, 1),
    (b"-1,lapse,1,2020-01-01", 1, 1),
    (b"1.0,lapse,1,2020-01-01", 1, 1),
    (b"9,lapsed", 1, 1),
    (b"8,lapsed", 1, 2),
    (b"1", 1, 2),
    (b"1,", 1, 2),
    (b"1,Lapse,1,2020-01-01", 1, 2),
    (b"1,lapsed,x,x", 1, 2),
    (b"1,value,2020-01-01,now,1", 0, 1),
    (b"1,value,1900-01-01,0,64", 0, 1),
    (b"1,value,2199-12-31,4000000,1", 0, 1),
    (b"8,value,2020-01-01,now,1", 0, 1),
    (b"9,value,2020-01-01,now,1", 1, 1),
    (b"1,Value,2020-01-01,now,1", 1, 2),
    (b"1,value", 1, 3),
    (b"1,value,2021-02-29,now,1", 1, 3),
    (b"1,value,1899-12-31,now,1", 1, 3),
    (b"1,value,2200-01-01,now,1", 1, 3),
    (b"1,value,2021-01-01", 1, 4),
    (b"1,value,2021-01-01,,1", 1, 4),
    (b"1,value,2021-01-01,Now,1", 1, 4),
    (b"1,value,2021-01-01,01,1", 1, 4),
    (b"1,value,2021-01-01,-1,1", 1, 4),
    (b"1,value,2021-01-01,4000001,1", 1, 4),
    (b"1,value,2021-01-01,now", 1, 5),
    (b"1,value,2021-01-01,now,0", 1, 5),
    (b"1,value,2021-01-01,now,01", 1, 5),
    (b"1,value,2021-01-01,now,65", 1, 5),
    (b"1,value,2021-01-01,now,257", 1, 5),
    (b"1,value,2021-01-01,now,1,", 1, 6),
    (b"1,trim", 0, 1),
    (b"8,trim", 0, 1),
    (b"9,trim", 1, 1),
    (b"1,trims", 1, 2),
    (b"1,trim,", 1, 3),
    (b"1,trim,now", 1, 3),
    (b"1,claim", 1, 3),
    (b"1,claim,+1,2020-01-01", 1, 3),
    (b"1,claim,4294967296,2020-01-01", 1, 3),
    (b"1,claim,1,1899-12-31", 1, 4),
    (b"1,claim,1,2200-01-01", 1, 4),
    (b"1,claim,1,2021-02-29", 1, 4),
    (b"1,claim,1,2021-2-28", 1, 4),
    (b"1,claim,1,2021-02-28,1.00", 1, 5),
    (b"1,issue,7,2020-01-01,Term,0,2,1.00,1.00", 1, 5),
    (b"1,issue,7,2020-01-01,term,130,2,1.00,1.00", 1, 6),
    (b"1,issue,7,2020-01-01,term,0,1,1.00,1.00", 1, 7),
    (b"1,issue,7,2020-01-01,endowment,0,131,1.00,1.00", 0, 1),
    (b"1,issue,7,2020-01-01,term,0,132,1.00,1.00", 1, 7),
    (b"1,issue,7,2020-01-01,term,129,3,1.00,1.00", 1, 7),
    (b"1,issue,7,2020-01-01,term,0,258,1.00,1.00", 1, 7),
    (b"1,issue,7,2020-01-01,whole,0,2,1.00,1.00", 1, 7),
    (b"1,issue,7,2020-01-01,limited,0,0,1.00,1.00", 1, 7),
    (b"1,issue,7,2020-01-01,term,0,2,0.00,1.00", 1, 8),
    (b"1,issue,7,2020-01-01,term,0,2,100000000.01,1.00", 1, 8),
    (b"1,issue,7,2020-01-01,term,0,2,1.00,100000000.01", 1, 9),
    (b"1,issue,7,2020-01-01,term,0,2,0.01,100000000.00", 0, 1),
    (b"1,issue,7,2020-01-01,term,0,2,1.00,0.00", 1, 9),
    (b"1,issue,7,2020-01-01,term,0,2,1.00", 1, 9),
    (b"1,premium,1,2020-01-01,100000000.00", 0, 1),
    (b"1,premium,1,2020-01-01,100000000.01", 1, 5),
    (b"1,premium,1,2020-01-01,1", 1, 5),
    (b"1,premium,1,2020-01-01,01.00", 1, 5),
    (b"1,premium,1,2020-01-01,1.0", 1, 5),
    (b"1,alter,1,2020-01-01,100000000.00,100000000.00", 0, 1),
    (b"1,alter,1,2020-01-01,100000000.01,1.00", 1, 5),
    (b"1,alter,1,2020-01-01,1.00,100000000.01", 1, 6),
    (b"1,alter,1,2020-01-01,1.00", 1, 6),
    (b"1,alter,1,2020-01-01,1.00,1.00,1.00", 1, 7),
    (b"1,reinstate,1,2020-01-01,0.01", 0, 1),
    (b"1,reinstate,1,2020-01-01,0.00", 1, 5),
    (b"1,reinstate,1,2020-01-01,400000000.00", 0, 1),
    (b"1,reinstate,1,2020-01-01,400000000.01", 1, 5),
    (b"1,settle,1,2020-01-01,100000000.00", 0, 1),
    (b"1,settle,1,2020-01-01,100000000.01", 1, 5),
    (b"1,settle,1,2020-01-01,-1.00", 1, 5),
    (b"1,mature,1,2020-01-01,", 1, 5),
    (b"1,paidup,1,2020-01-01,0.01", 0, 1),
    (b"1,paidup,1,2199-12-31,100000000.00", 0, 1),
    (b"1,paidup,1,2020-01-01", 1, 5),
    (b"1,paidup,1,2020-01-01,0.00", 1, 5),
    (b"1,paidup,1,2020-01-01,100000000.01", 1, 5),
    (b"1,paidup,1,2020-01-01,1.00,", 1, 6),
    (b"1,upgrade,", 1, 3),
    (b"1,upgrade,7", 1, 3),
    (b"0,upgrade", 1, 1),
    (b"1,upgrades", 1, 2),
    (b"1,lapse,1,x\n9,lapse,1,2020-01-01", 1, 4),
    (b"8,lapse,1,2020-01-01\n1,trim\n9,trim\n3,trim", 3, 1),
];

#[test]
fn bad_fields(rt: HostRuntime) -> Result<(), Fail> {
    answers(&rt, rt.alloc(), BAD_FIELDS)
}

// The rows and fields of unusual texts, by RFC 4180, and, where it doesn't say, by what the library `csv` does.
const ODD_TEXTS: &[Row] = &[
    (b"", 0, 0),
    (b"\n\r\n\r\r\n\n", 0, 0),
    (b"1,lapse,1,2020-01-01", 0, 1),
    (b"1,lapse,1,2020-01-01\r\n", 0, 1),
    (b"1,lapse,1,2020-01-01\r1,lapse,1,2020-01-01\r", 0, 2),
    (
        b"\r\n\n1,lapse,1,2020-01-01\n\r\n\n1,lapse,1,x\n1,lapse",
        2,
        4,
    ),
    (b"1,lapse,1,2020-01-01\n1,premium,1,2020-01-01,1.00\n", 0, 2),
    (b"\"1\",\"lapse\",\"1\",\"2020-01-01\"\r\n", 0, 1),
    (b"1,lapse,\"1\",2020-01-01", 0, 1),
    (b"1,lapse,\"1\"\"\",2020-01-01", 1, 3),
    (b"1,\"lapse,1\",2020-01-01", 1, 2),
    (b"1,\"lapse\n\",1,2020-01-01", 1, 2),
    (b"1,lapse,1,\"2020-01-01\r\n\"", 1, 4),
    (b"1,lapse,1,\"2020-01-01\n1,lapse,1,2020-01-01\n", 1, 4),
    (b"1,lapse,1,\"2020-01-01", 0, 1),
    (b"1,lap\"se,1,2020-01-01", 1, 2),
    (b"1,lapse\",1,2020-01-01", 1, 2),
    (b"1,\"lap\"se,1,2020-01-01", 0, 1),
    (b"1,\"lapse\" ,1,2020-01-01", 1, 2),
    (b"\"\"", 1, 1),
    (b"\"\"\n", 1, 1),
    (b",", 1, 1),
    (b"1,,1,2020-01-01", 1, 2),
    (b" 1,lapse,1,2020-01-01", 1, 1),
    (b"1, lapse,1,2020-01-01", 1, 2),
    (b"1;lapse;1;2020-01-01", 1, 1),
    (b"#1,lapse,1,2020-01-01", 1, 1),
    (b"1,lapse,1,2020-01-01\0", 1, 4),
    (b"\0\n", 1, 1),
    (b"1,lapse,\xff,2020-01-01", 1, 3),
    (b"1,lapse,1\xc3,2020-01-01", 1, 3),
    (b"\xef\xbb\xbf", 0, 0),
    (b"\xef\xbb\xbf\"1\",lapse,1,2020-01-01", 0, 1),
    (b"\xef\xbb\xbf\xef\xbb\xbf1,lapse,1,2020-01-01", 1, 1),
    (b"\xef\xbb1,lapse,1,2020-01-01", 1, 1),
    (
        b"1,lapse,1,2020-01-01\n\xef\xbb\xbf1,lapse,1,2020-01-01",
        2,
        1,
    ),
];

#[test]
fn odd_texts(rt: HostRuntime) -> Result<(), Fail> {
    answers(&rt, rt.alloc(), ODD_TEXTS)
}

const VALUE: &[u8] = b"1,value,2020-01-01,now,1\n";

// A piece so many times, and an end, and the result.
type Repeated = (u32, &'static [u8], &'static [u8], u64, u64);

fn repeated(alloc: Global, count: u32, piece: &[u8], end: &[u8]) -> Result<Vec<u8>, Fail> {
    let mut script = Vec::new(alloc);
    for _ in 0..count {
        script.extend_from_slice(piece)?;
    }
    script.extend_from_slice(end)?;
    Ok(script)
}

// Sixteen valuations are read, whatever comes between them; a seventeenth is no line, unless its lane doesn't exist.
const VALUATIONS: &[Repeated] = &[
    (16, VALUE, b"", 0, 16),
    (16, VALUE, b"1,trim\n1,lapse,1,2020-01-01\n", 0, 18),
    (17, VALUE, b"", 17, 2),
    (16, b"1,trim\n1,value,2020-01-01,0,1\n", b"1,trim\n", 0, 33),
    (16, b"1,trim\n1,value,2020-01-01,0,1\n", VALUE, 33, 2),
    (16, VALUE, b"2,value,2020-01-01,now,1\n", 17, 2),
    (16, VALUE, b"9,value,2020-01-01,now,1\n", 17, 1),
    (
        8,
        b"1,value,2020-01-01,now,1\n8,trim\n5,value,2020-01-01,now,1\n",
        b"8,lapse,1,2020-01-01\n",
        0,
        25,
    ),
    (
        8,
        b"1,value,2020-01-01,now,1\n8,trim\n5,value,2020-01-01,now,1\n",
        b"8,value,2020-01-01,now,1\n",
        25,
        2,
    ),
    (16, VALUE, b"1,value,x\n", 17, 2),
    (16, VALUE, b"1,trim\n1,values\n", 18, 2),
    (15, VALUE, b"1,value,x\n1,value,2020-01-01,now,1\n", 16, 3),
];

#[test]
fn valuations_are_few(rt: HostRuntime) -> Result<(), Fail> {
    let alloc = rt.alloc();
    assert_rows!(rt; (count, piece, end, row, field) in VALUATIONS => {
        let script = repeated(alloc, *count, piece, end)?;
        script.len() <= MOST_BYTES && answer(alloc, &script)? == (*row, *field)
    }; "{count} of {piece:?}, then {end:?}");
    Ok(())
}

// At most so many bytes, which begin with a prefix and go on with a piece, repeated as often as it fits whole.
fn long_script(alloc: Global, most: usize, front: &[u8], piece: &[u8]) -> Result<Vec<u8>, Fail> {
    let mut script = Vec::new(alloc);
    script.extend_from_slice(front)?;
    for _ in 0..most {
        if script.len() as u64 + piece.len() as u64 > most as u64 {
            break;
        }
        script.extend_from_slice(piece)?;
    }
    Ok(script)
}

// A script of 16 MiB is distributed to eight lanes, and isn't refused for memory if there is enough.
#[test]
fn longest_script(rt: HostRuntime) -> Result<(), Fail> {
    let piece =
        b"8,lapse,1,2022-02-02\n1,lapse,1,2022-02-02\n7,lapse,1,2022-02-02\n2,lapse,1,2022-02-02
6,lapse,1,2022-02-02\n3,lapse,1,2022-02-02\n5,lapse,1,2022-02-02\n4,lapse,1,2022-02-02\n";
    let script = long_script(rt.alloc(), MOST_BYTES, b"", piece)?;
    assert!(rt; script.len() <= MOST_BYTES);
    assert_eq!(rt; answer(rt.alloc(), &script)?, (0, 16_777_216 / 168 * 8));
    Ok(())
}

// Scripts of a MiB take no more than one pass, whatever their bytes.
#[test]
fn long_scripts(rt: HostRuntime) -> Result<(), Fail> {
    let alloc = rt.alloc();
    let cases: [(&str, &[u8], &[u8], (u64, u64)); 8] = [
        (
            "quoted lines",
            b"",
            b"\"8\",\"lapse\",\"7001\",\"2022-02-02\"\r\n",
            (0, 1_048_576 / 33),
        ),
        ("trims", b"", b"8,trim\n", (0, 1_048_576 / 7)),
        (
            "line feeds",
            b"",
            b"\n\n\n\n\n\n\n\n\n\n\n\n\n\n\n\n",
            (0, 0),
        ),
        (
            "commas",
            b"1,lapse,1,2022-02-02",
            b",,,,,,,,,,,,,,,,",
            (1, 5),
        ),
        ("a long field", b"1,lapse,", b"9999999999999999", (1, 3)),
        ("quotes", b"", b"\"\"\"\"\"\"\"\"\"\"\"\"\"\"\"\"", (1, 1)),
        (
            "a row cut inside quotes",
            b"1,\"",
            b"\n\n\n\n\n\n\n\n\n\n\n\n\n\n\n\n",
            (1, 2),
        ),
        (
            "empty rows, then a bad one",
            b"\n\n\n\n\n\n\n\n1,lapse,1,2022-02-02\n",
            b"\r\n\r\n\r\n\r\n\r\n\r\n\r\n1\n",
            (2, 2),
        ),
    ];
    assert_rows!(rt; (name, front, piece, want) in cases => {
        let script = long_script(alloc, 1_048_576, front, piece)?;
        script.len() <= MOST_BYTES && answer(alloc, &script)? == want
    }; "{name}");
    Ok(())
}
