use life_args::{Mode, WordsFault, read_words};
use policy_types::At;
use policy_value::Measure;
use std::alloc::Global;
use std::test::Fail;
use test_rows::assert_rows;

/// The arguments of a line, separated by spaces. `''` is the empty argument.
fn words_of(alloc: Global, line: &str) -> Result<Vec<String>, Fail> {
    let mut words = Vec::new(alloc);
    for word in line.split(' ') {
        let text = if word == "''" { "" } else { word };
        words.push(String::from_str(alloc, text)?)?;
    }
    Ok(words)
}

/// What a line asks for, as text.
fn asked(alloc: Global, line: &str) -> Result<String, Fail> {
    let words = words_of(alloc, line)?;
    match read_words(alloc, words.as_slice()) {
        Ok(Mode::Run { basis }) => Ok(format!(in alloc; "run {}", basis.text())?),
        Ok(
            Mode::Value {
                on,
                at,
                workers,
                basis,
                measure,
            },
        ) => {
            let place = match at {
                At::Now => -1,
                At::Position(position) => position as i64,
            };
            let flag = match measure {
                Measure::Terminal => "",
                Measure::Mean => " mean",
                Measure::Deficiency => " deficiency",
            };
            Ok(format!(in alloc;
                "value {} {} {} {}{}",
                on,
                place,
                workers,
                basis.text(),
                flag
            )?)
        }
        Ok(
            Mode::Project {
                on,
                years,
                workers,
                basis,
            },
        ) => Ok(format!(in alloc; "project {} {} {} {}", on, years, workers, basis.text())?),
        Ok(Mode::State { id: None }) => Ok(format!(in alloc; "state")?),
        Ok(Mode::State { id: Some(id) }) => Ok(format!(in alloc; "state {}", id)?),
        Ok(Mode::Checkpoint) => Ok(format!(in alloc; "checkpoint")?),
        Ok(Mode::Generate { seed, count, lanes }) => {
            Ok(format!(in alloc; "generate {} {} {}", seed, count, lanes)?)
        }
        Ok(
            Mode::Load {
                seed,
                count,
                lanes,
                workers,
            },
        ) => Ok(format!(in alloc; "load {} {} {} {}", seed, count, lanes, workers)?),
        Err(WordsFault::Usage) => Ok(format!(in alloc; "usage")?),
        Err(WordsFault::NoMemory(_)) => Ok(format!(in alloc; "nomemory")?),
    }
}

/// Arguments, and what they ask for, for forms that can't be recognized in what a run with them writes. The other
/// forms, and faulty arguments, are cases of the whole program.
const FORMS: &[(&str, &str)] = &[
    (
        "value --workers 64 --basis 7 1970-01-01 --at=5",
        "value 0 5 64 7",
    ),
    (
        "value 2199-12-31 --workers=2 --at 1",
        "value 84005 1 2 basis.csv",
    ),
    (
        "value --deficiency --basis b 1970-01-01 --at=5 --workers=2",
        "value 0 5 2 b deficiency",
    ),
    (
        "project --basis b 1900-01-01 --workers=64 40",
        "project -25567 40 64 b",
    ),
    (
        "generate 2147483647 100000 8",
        "generate 2147483647 100000 8",
    ),
    ("load 0 1 1 1", "load 0 1 1 1"),
    ("load 2147483647 100000 8 64", "load 2147483647 100000 8 64"),
];

#[test]
fn forms(rt: HostRuntime) -> Result<(), Fail> {
    assert_rows!(rt; (line, mode) in FORMS => asked(rt.alloc(), line)?.as_str() == *mode; "{line}");
    Ok(())
}
