// Files of select and ultimate tables: which fault is at which place. Places were counted by a script that marks them
// in the files.

use crate::select_table_tests::{TWO_AGES, ULTIMATE, fault_of, file_of};
use std::test::Fail;
use test_rows::assert_rows;
use xtbml_subset::*;

/// The first table of a file, what comes after it, the place of the fault in the file, and the fault.
const FAULTS: &[(&[u8], &[u8], u32, TableKind)] = &[
    (TWO_AGES, b"", 7, TableKind::NoUltimate),
    (TWO_AGES, b"<Table/>", 7, TableKind::NoUltimate),
    (
        TWO_AGES,
        b"<Table><Values><Axis><Axis><Y t=\"0\">1</Y></Axis></Axis><Axis><Y t=\"0\">1</Y></Axis></Values></Table>",
        7,
        TableKind::NoUltimate,
    ),
    (
        TWO_AGES,
        b"<Table><Values/><Values><Axis><Y t=\"0\">1</Y></Axis></Values></Table>",
        7,
        TableKind::NoUltimate,
    ),
    (
        TWO_AGES,
        b"<Table><Other/></Table><Table><Values><Axis><Y t=\"0\">0.1</Y><Y t=\"1\">0.2</Y><Y t=\"2\">0.25</Y><Y t=\"3\">0.5</Y><Y t=\"4\">1</Y></Axis></Values></Table>",
        7,
        TableKind::NoUltimate,
    ),
    (
        b"<Table><MetaData><ScalingFactor>2</ScalingFactor></MetaData><Values><Axis t=\"0\"><Axis><Y t=\"1\">0.05</Y><Y t=\"2\">0.1</Y></Axis></Axis><Axis t=\"1\"><Axis><Y t=\"1\">0.1</Y><Y t=\"2\">0.2</Y></Axis></Axis></Values></Table>",
        ULTIMATE,
        24,
        TableKind::Scaled,
    ),
    (
        TWO_AGES,
        b"<Table><MetaData><ScalingFactor>0.5</ScalingFactor></MetaData><Values><Axis><Y t=\"0\">0.1</Y><Y t=\"1\">0.2</Y><Y t=\"2\">0.25</Y><Y t=\"3\">0.5</Y><Y t=\"4\">1</Y></Axis></Values></Table>",
        185,
        TableKind::Scaled,
    ),
    (
        b"<Table><Values><Axis t=\"x\"><Axis/></Axis></Values></Table>",
        b"<Table><MetaData><ScalingFactor>x</ScalingFactor></MetaData></Table>",
        82,
        TableKind::Scaled,
    ),
    (
        b"<Table><MetaData><ScalingFactor>2</ScalingFactor></MetaData><Values><Axis t=\"0\"><Axis><Y t=\"1\">0.05</Y><Y t=\"2\">0.1</Y></Axis></Axis><Axis t=\"1\"><Axis><Y t=\"1\">0.1</Y><Y t=\"2\">0.2</Y></Axis></Axis></Values></Table>",
        b"<Table><MetaData><ScalingFactor>2</ScalingFactor></MetaData><Values><Axis><Y t=\"0\">0.1</Y><Y t=\"1\">0.2</Y><Y t=\"2\">0.25</Y><Y t=\"3\">0.5</Y><Y t=\"4\">1</Y></Axis></Values></Table>",
        24,
        TableKind::Scaled,
    ),
    (
        b"<Table><MetaData><ScalingFactor> 1.0 </ScalingFactor></MetaData><Values><Axis t=\"0\"><Axis><Y t=\"1\">0.05</Y><Y t=\"2\">0.1</Y></Axis></Axis><Axis t=\"1\"><Axis><Y t=\"1\">0.1</Y><Y t=\"2\">0.2</Y></Axis></Axis></Values></Table>",
        b"<Table><MetaData><ScalingFactor/></MetaData></Table>",
        7,
        TableKind::NoUltimate,
    ),
    (
        b"<Table><Values><Axis t=\"131\"><Axis><Y t=\"1\">0.1</Y></Axis></Axis></Values></Table>",
        ULTIMATE,
        22,
        TableKind::BadAge,
    ),
    (
        b"<Table><Values><Axis t=\"\"><Axis><Y t=\"1\">0.1</Y></Axis></Axis></Values></Table>",
        ULTIMATE,
        22,
        TableKind::BadAge,
    ),
    (
        b"<Table><Values><Axis t=\"0\"><Axis><Y t=\"1\">0.05</Y><Y t=\"2\">0.1</Y></Axis></Axis><Axis><Axis><Y t=\"1\">0.1</Y></Axis></Axis></Values></Table>",
        ULTIMATE,
        87,
        TableKind::BadAge,
    ),
    (
        b"<Table><Values><Axis><Axis><Y t=\"1\">0.1</Y></Axis></Axis></Values></Table>",
        ULTIMATE,
        28,
        TableKind::BadAge,
    ),
    (
        b"<Table><Values><Axis t=\"0\"><Axis><Y t=\"1\">0.05</Y><Y t=\"2\">0.1</Y></Axis></Axis><Axis t=\"2\"><Axis><Y t=\"1\">0.1</Y></Axis></Axis></Values></Table>",
        ULTIMATE,
        87,
        TableKind::AgeGap,
    ),
    (
        b"<Table><Values><Axis t=\"0\"><Axis><Y t=\"1\">0.05</Y><Y t=\"2\">0.1</Y></Axis></Axis><Axis t=\"0\"><Axis><Y t=\"1\">0.1</Y></Axis></Axis></Values></Table>",
        ULTIMATE,
        87,
        TableKind::AgeGap,
    ),
    (
        b"<Table><Values><Axis><Axis t=\"0\"><Y t=\"1\">0.1</Y></Axis><Axis t=\"2\" t=\"1\"><Y t=\"1\">0.1</Y></Axis></Axis></Values></Table>",
        ULTIMATE,
        63,
        TableKind::AgeGap,
    ),
    (
        b"<Table><Values><Axis t=\"0\"><Axis><Y t=\"1\">0.05</Y><Y t=\"2\">0.1</Y></Axis></Axis><Axis t=\"2\"/></Values></Table>",
        ULTIMATE,
        87,
        TableKind::AgeGap,
    ),
    (
        b"<Table><Values><Axis t=\"0\"><Axis/></Axis></Values></Table>",
        ULTIMATE,
        22,
        TableKind::BadDuration,
    ),
    (
        b"<Table><Values><Axis t=\"0\"><Axis><Y t=\"1\"/><Y> \n</Y></Axis></Axis></Values></Table>",
        ULTIMATE,
        22,
        TableKind::BadDuration,
    ),
    (
        b"<Table><Values><Axis t=\"0\"><Axis><Y t=\"1\">0.05</Y><Y t=\"2\">0.1</Y></Axis></Axis><Axis t=\"1\"/></Values></Table>",
        ULTIMATE,
        87,
        TableKind::BadDuration,
    ),
    (
        b"<Table><Values><Axis t=\"0\"><Axis/><Axis><Y t=\"1\">0.1</Y></Axis></Axis></Values></Table>",
        ULTIMATE,
        22,
        TableKind::BadDuration,
    ),
    (
        b"<Table><Values><Axis t=\"0\"><Axis><Y t=\"1\">0.05</Y><Y t=\"2\">0.1</Y></Axis></Axis><Axis t=\"1\"><Y t=\"1\"/><Axis><Y t=\"1\">0.1</Y></Axis></Axis></Values></Table>",
        ULTIMATE,
        87,
        TableKind::BadDuration,
    ),
    (
        b"<Table><Values><Axis><Axis t=\"0\"><Z><Y t=\"1\">0.1</Y></Z></Axis></Axis></Values></Table>",
        ULTIMATE,
        28,
        TableKind::BadDuration,
    ),
    (
        b"<Table><Values><Axis t=\"0\"><Axis><Y>0.1</Y></Axis></Axis></Values></Table>",
        ULTIMATE,
        40,
        TableKind::BadDuration,
    ),
    (
        b"<Table><Values><Axis t=\"0\"><Axis><Y t=\"2\">0.1</Y></Axis></Axis></Values></Table>",
        ULTIMATE,
        40,
        TableKind::BadDuration,
    ),
    (
        b"<Table><Values><Axis t=\"0\"><Axis><Y t=\"0001\">0.1</Y></Axis></Axis></Values></Table>",
        ULTIMATE,
        40,
        TableKind::BadDuration,
    ),
    (
        b"<Table><Values><Axis t=\"0\"><Axis><Y t=\"-1\">0.1</Y></Axis></Axis></Values></Table>",
        ULTIMATE,
        40,
        TableKind::BadDuration,
    ),
    (
        b"<Table><Values><Axis t=\"0\"><Axis><Y t=\"0\">0.1</Y><Y t=\"2\">0.1</Y></Axis></Axis></Values></Table>",
        ULTIMATE,
        56,
        TableKind::BadDuration,
    ),
    (
        b"<Table><Values><Axis t=\"0\"><Axis><Y t=\"1\">0.1</Y><Y t=\"1\">0.1</Y></Axis></Axis></Values></Table>",
        ULTIMATE,
        56,
        TableKind::BadDuration,
    ),
    (
        b"<Table><Values><Axis t=\"0\"><Axis><Y t=\"1\">0.05</Y><Y t=\"2\">0.1</Y></Axis></Axis><Axis t=\"1\"><Y t=\"1\">0.1</Y><Y t=\"3\">0.1</Y></Axis></Values></Table>",
        ULTIMATE,
        115,
        TableKind::BadDuration,
    ),
    (
        b"<Table><Values><Axis t=\"130\"><Axis><Y t=\"1\">0.1</Y><Y t=\"2\">0.1</Y></Axis></Axis></Values></Table>",
        ULTIMATE,
        58,
        TableKind::BadDuration,
    ),
    (
        b"<Table><Values><Axis t=\"129\"><Axis><Y t=\"0\">0.1</Y><Y t=\"1\">0.1</Y><Y t=\"2\">2</Y></Axis></Axis></Values></Table>",
        ULTIMATE,
        74,
        TableKind::BadDuration,
    ),
    (
        b"<Table><Values><Axis t=\"0\"><Axis><Y t=\"1\">1.1</Y></Axis></Axis></Values></Table>",
        ULTIMATE,
        40,
        TableKind::BadRate,
    ),
    (
        b"<Table><Values><Axis t=\"0\"><Axis><Y t=\"1\">0.1</Y><Y t=\"2\"/><Y t=\"3\">0.1</Y></Axis></Axis></Values></Table>",
        ULTIMATE,
        56,
        TableKind::BadRate,
    ),
    (
        b"<Table><Values><Axis t=\"0\"><Axis><Y t=\"1\"> </Y><Y t=\"2\"/><Y t=\"3\">0.1</Y><Y t=\"4\"/></Axis></Axis></Values></Table>",
        ULTIMATE,
        40,
        TableKind::BadRate,
    ),
    (
        b"<Table><Values><Axis t=\"0\"><Axis><Y t=\"1\">0.1</Y><Y t=\"2\"><!----></Y></Axis></Axis></Values></Table>",
        ULTIMATE,
        56,
        TableKind::BadRate,
    ),
    (
        b"<Table><Values><Axis t=\"0\"><Axis><Y t=\"1\">0.1</Y><Y t=\"2\"><a/></Y></Axis></Axis></Values></Table>",
        ULTIMATE,
        56,
        TableKind::BadRate,
    ),
    (
        b"<Table><Values><Axis t=\"0\"><Axis><Y t=\"1\">0.1</Y><Y t=\"3\"/><Y t=\"3\">0.1</Y></Axis></Axis></Values></Table>",
        ULTIMATE,
        56,
        TableKind::BadDuration,
    ),
    (
        b"<Table><Values><Axis t=\"0\"><Axis><Y t=\"1\">x</Y></Axis></Axis><Axis t=\"x\"/></Values></Table>",
        ULTIMATE,
        40,
        TableKind::BadRate,
    ),
    (
        b"<Table><Values><Axis t=\"x\"><Axis><Y t=\"1\">x</Y></Axis></Axis><Axis t=\"1\"><Axis><Y t=\"1\">0.1</Y><Y t=\"2\">0.2</Y></Axis></Axis></Values></Table>",
        ULTIMATE,
        22,
        TableKind::BadAge,
    ),
    (
        b"<Table><Values><Axis t=\"0\"><Axis><Y t=\"1\">0.05</Y><Y t=\"2\">0.1</Y></Axis></Axis><Axis t=\"1\"/></Values></Table>",
        b"",
        87,
        TableKind::BadDuration,
    ),
    (
        b"<Table><Values><Axis t=\"0\"><Axis><Y t=\"1\">0.1</Y><Y t=\"2\">x</Y></Axis></Axis></Values></Table>",
        b"",
        56,
        TableKind::BadRate,
    ),
    (
        b"<Table><Values><Axis t=\"0\"><Axis><Y t=\"1\">x</Y><Y t=\"3\">0.1</Y></Axis></Axis></Values></Table>",
        ULTIMATE,
        40,
        TableKind::BadRate,
    ),
    (
        b"<Table><Values><Axis t=\"0\"><Axis><Y t=\"2\">x</Y></Axis></Axis></Values></Table>",
        ULTIMATE,
        40,
        TableKind::BadDuration,
    ),
    (
        b"<Table><Values><Axis t=\"0\"><Axis><Y t=\"1\">0.05</Y><Y t=\"2\">0.1</Y></Axis></Axis><Axis t=\"3\"><Axis><Y t=\"5\">x</Y></Axis></Axis></Values></Table>",
        ULTIMATE,
        87,
        TableKind::AgeGap,
    ),
    (
        TWO_AGES,
        b"<Table><Values><Axis><Y t=\"131\">0.1</Y></Axis></Values></Table>",
        189,
        TableKind::BadAge,
    ),
    (
        TWO_AGES,
        b"<Table><Values><Axis><Y t=\"2\">0.1</Y><Y t=\"4\">0.1</Y></Axis></Values></Table>",
        205,
        TableKind::AgeGap,
    ),
    (
        TWO_AGES,
        b"<Table><Values><Axis><Y t=\"2\">0.1</Y><Y t=\"3\"/></Axis></Values></Table>",
        205,
        TableKind::BadRate,
    ),
    (
        TWO_AGES,
        b"<Table><Values><Axis><Y t=\"9\">0.1</Y><Y t=\"10\">x</Y></Axis></Values></Table>",
        205,
        TableKind::BadRate,
    ),
    (
        TWO_AGES,
        b"<Table><Values><Axis><Y t=\"3\">0.1</Y><Y t=\"4\">1</Y></Axis></Values></Table>",
        22,
        TableKind::UltimateGap,
    ),
    (
        TWO_AGES,
        b"<Table><Values><Axis><Y t=\"4\">1</Y></Axis></Values></Table>",
        22,
        TableKind::UltimateGap,
    ),
    (
        b"<Table><Values><Axis t=\"0\"><Axis><Y t=\"1\">0.05</Y><Y t=\"2\">0.1</Y><Y t=\"3\">0.1</Y></Axis></Axis><Axis t=\"1\"><Y t=\"0\">0.1</Y></Axis></Values></Table>",
        b"<Table><Values><Axis><Y t=\"3\">1</Y></Axis></Values></Table>",
        103,
        TableKind::UltimateGap,
    ),
    (
        b"<Table><Values><Axis><Axis t=\"0\"><Y t=\"0\">0.1</Y></Axis></Axis></Values></Table>",
        b"<Table><Values><Axis><Y t=\"2\">1</Y></Axis></Values></Table>",
        28,
        TableKind::UltimateGap,
    ),
];

#[test]
fn faults_of_select_tables_have_their_places(rt: HostRuntime) -> Result<(), Fail> {
    assert_rows!(rt; (row, (first, second, at, kind)) in FAULTS.iter().enumerate() =>
        fault_of(rt.alloc(), &file_of(rt.alloc(), *first, *second)?), Some((*at, *kind)); "row {row}");
    Ok(())
}
