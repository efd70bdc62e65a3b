// Files of mortality tables: what is read, and which fault is at which place.

use rate_table::RateTable;
use std::alloc::Global;
use std::test::Fail;
use test_rows::assert_rows;
use xtbml_subset::*;

/// A file, and its fault with its place.
const FAULTS: &[(&[u8], u32, TableKind)] = &[
    (b"", 0, TableKind::NotDocument),
    (b"<XTbML></Table>", 7, TableKind::NotDocument),
    (b"<XTbML/>", 0, TableKind::NoTable),
    (b"<A><Table/></A>", 0, TableKind::NoTable),
    (
        b"<XTbML><Table><Values><Axis/></Values></Table></XTbML>",
        22,
        TableKind::NoTable,
    ),
    (
        b"<XTbML><Table><Values><Axis><Axis t=\"0\"/></Axis></Values></Table></XTbML>",
        28,
        TableKind::Select,
    ),
    (
        b"<XTbML><Table><Values><Axis><Y>0.1</Y></Axis></Values></Table></XTbML>",
        28,
        TableKind::BadAge,
    ),
    (
        b"<XTbML><Table><Values><Axis><Y t='0'>1.1</Y></Axis></Values></Table></XTbML>",
        28,
        TableKind::BadRate,
    ),
    (
        b"<XTbML><Table><Values><Axis><Y t=\"0\">0.1</Y><Y t=\"2\">1</Y></Axis></Values></Table></XTbML>",
        44,
        TableKind::AgeGap,
    ),
    (
        b"<XTbML><Table><Values><Axis><Y t=\"0\">0.1</Y><Y t=\"1\">0.",
        55,
        TableKind::NotDocument,
    ),
    (
        b"<XTbML><Table><Values><Axis><Y t=\"0\">0.1</Y><Y t=\"1\">0.2</Y><Y t=\"2\">0.25</Y><Y t=\"3\">0.5</Y><Y t=\"4\">1</Y></Axis></Values></Table></XTbML>x",
        139,
        TableKind::NotDocument,
    ),
    (
        b"<XTbML><Table><Values><Axis><Y t=\"0\">0.1</Y><Y t=\"1\">0.2</Y><Y t=\"2\">0.25</Y><Y t=\"3\">0.5</Y><Y t=\"4\">1</Y></Axis></Values></Table></XTbML><A/>",
        139,
        TableKind::NotDocument,
    ),
    (b"\r\n<?xml a?><?xml b?><A/>", 11, TableKind::NotDocument),
    (b"<A b=\"1\"c=\"2\"/>", 0, TableKind::NotDocument),
    (b"<A><!-- -- -></A>", 3, TableKind::NotDocument),
    (
        b"<A><A><A><A><A><A><A><A><A><A><A><A><A><A><A><A><A><A><A><A><A><A><A><A><A><A><A><A><A><A><A><A><A><A><A><A><A><A><A><A><A><A><A><A><A><A><A><A><A><A><A><A><A><A><A><A><A><A><A><A><A><A><A><A><B/></A></A></A></A></A></A></A></A></A></A></A></A></A></A></A></A></A></A></A></A></A></A></A></A></A></A></A></A></A></A></A></A></A></A></A></A></A></A></A></A></A></A></A></A></A></A></A></A></A></A></A></A></A></A></A></A></A></A></A></A></A></A></A></A>",
        192,
        TableKind::NotDocument,
    ),
    (
        b"<A><A><A><A><A><A><A><A><A><A><A><A><A><A><A><A><A><A><A><A><A><A><A><A><A><A><A><A><A><A><A><A><A><A><A><A><A><A><A><A><A><A><A><A><A><A><A><A><A><A><A><A><A><A><A><A><A><A><A><A><A><A><A><A></A></A></A></A></A></A></A></A></A></A></A></A></A></A></A></A></A></A></A></A></A></A></A></A></A></A></A></A></A></A></A></A></A></A></A></A></A></A></A></A></A></A></A></A></A></A></A></A></A></A></A></A></A></A></A></A></A></A></A></A></A></A></A></A>",
        0,
        TableKind::NoTable,
    ),
    (
        b"<XTbML><Table><Values><Axis><Y t=\"5\">0.1</Y><Y t=\"5\">0.2</Y></Axis></Values></Table></XTbML>",
        44,
        TableKind::AgeGap,
    ),
    (
        b"<XTbML><Table><Values><Axis><Y t=\"5\" t=\"6\">0.1</Y><Y t=\"7\">0.2</Y></Axis></Values></Table></XTbML>",
        50,
        TableKind::AgeGap,
    ),
    (
        b"<XTbML><Table><Values><Axis><Y t=\"131\">0.1</Y></Axis></Values></Table></XTbML>",
        28,
        TableKind::BadAge,
    ),
    (
        b"<XTbML><Table><Values><Axis><Y t=\"0001\">0.1</Y></Axis></Values></Table></XTbML>",
        28,
        TableKind::BadAge,
    ),
    (
        b"<XTbML><Table><Values><Axis><Y t=\"1\">0.<!---->1</Y></Axis></Values></Table></XTbML>",
        28,
        TableKind::BadRate,
    ),
    (
        b"<XTbML><Table><Values><Axis><Y t=\"1\"/></Axis></Values></Table></XTbML>",
        28,
        TableKind::BadRate,
    ),
    (
        b"<XTbML><Table><MetaData><ScalingFactor>2</ScalingFactor></MetaData><Values><Axis><Y t=\"1\">0.1</Y></Axis></Values></Table></XTbML>",
        24,
        TableKind::Scaled,
    ),
    (
        b"<XTbML><Table><MetaData><ScalingFactor><!----></ScalingFactor></MetaData><Values><Axis><Y t=\"1\">0.1</Y></Axis></Values></Table></XTbML>",
        24,
        TableKind::Scaled,
    ),
    (
        b"<XTbML><Table><MetaData><ScalingFactor>0.5</ScalingFactor></MetaData><Values><Axis><Y t=\"x\">0.1</Y></Axis></Values></Table></XTbML>",
        24,
        TableKind::Scaled,
    ),
    (
        b"<XTbML><Table><Other/></Table><Table><Values/></Table></XTbML>",
        7,
        TableKind::NoTable,
    ),
];

/// Five ages.
const TABLE_Q: &[u8] =
    b"<XTbML><Table><Values><Axis><Y t=\"0\">0.1</Y><Y t=\"1\">0.2</Y><Y t=\"2\">0.25</Y><Y t=\"3\">0.5</Y><Y t=\"4\">1</Y></Axis></Values></Table></XTbML>";

/// A file in the layout of the Society of Actuaries' archive.
const ARCHIVE: &[u8] =
    b"\xEF\xBB\xBF<?xml version=\"1.0\" encoding=\"utf-8\"?>\r\n<!-- a & b > c -->\r\n<XTbML xmlns:xsd='http://www.w3.org/2001/XMLSchema' version=\"1.0\">\r\n<ContentClassification><TableName>1980 CSO &gt; Basic</TableName><Keywords/></ContentClassification>\r\n<Table><MetaData><ScalingFactor> 1.0 </ScalingFactor></MetaData><Values><Axis id='a\"b'>\r\n<Y t = \"007\" t=\"9\"> 4E-03\r\n</Y><Z/><Y\x09t='8'>.5</Y>&amp;<Y t=\"9\">1.</Y></Axis></Values></Table><Table/></XTbML >\r\n<!---->\r\n";

/// Ages 0 to 120; the rate at an age is 600 times its cube in units of 10^-9, and at most 1.
const TABLE_G: &[u8] =
    b"<?xml version=\"1.0\" encoding=\"utf-8\"?>\n<XTbML>\n  <ContentClassification>\n    <TableIdentity>900001</TableIdentity>\n    <ContentType tc=\"1\">Insured Lives Mortality</ContentType>\n    <TableName>Workload table G</TableName>\n  </ContentClassification>\n  <Table>\n    <MetaData>\n      <ScalingFactor>0</ScalingFactor>\n      <DataType tc=\"2\">Floating Point</DataType>\n      <TableDescription>Rates for tests &amp; workloads</TableDescription>\n      <AxisDef id=\"Age\">\n        <AxisName>Age</AxisName>\n        <MinScaleValue>0</MinScaleValue>\n        <MaxScaleValue>120</MaxScaleValue>\n        <Increment>1</Increment>\n      </AxisDef>\n    </MetaData>\n    <Values>\n      <Axis>\n        <Y t=\"0\">0</Y>\n        <Y t=\"1\">6E-07</Y>\n        <Y t=\"2\">4.8E-06</Y>\n        <Y t=\"3\">1.62E-05</Y>\n        <Y t=\"4\">3.84E-05</Y>\n        <Y t=\"5\">7.5E-05</Y>\n        <Y t=\"6\">0.0001296</Y>\n        <Y t=\"7\">0.0002058</Y>\n        <Y t=\"8\">0.0003072</Y>\n        <Y t=\"9\">0.0004374</Y>\n        <Y t=\"10\">0.0006</Y>\n        <Y t=\"11\">0.0007986</Y>\n        <Y t=\"12\">0.0010368</Y>\n        <Y t=\"13\">0.0013182</Y>\n        <Y t=\"14\">0.0016464</Y>\n        <Y t=\"15\">0.002025</Y>\n        <Y t=\"16\">0.0024576</Y>\n        <Y t=\"17\">0.0029478</Y>\n        <Y t=\"18\">0.0034992</Y>\n        <Y t=\"19\">0.0041154</Y>\n        <Y t=\"20\">0.0048</Y>\n        <Y t=\"21\">0.0055566</Y>\n        <Y t=\"22\">0.0063888</Y>\n        <Y t=\"23\">0.0073002</Y>\n        <Y t=\"24\">0.0082944</Y>\n        <Y t=\"25\">0.009375</Y>\n        <Y t=\"26\">0.0105456</Y>\n        <Y t=\"27\">0.0118098</Y>\n        <Y t=\"28\">0.0131712</Y>\n        <Y t=\"29\">0.0146334</Y>\n        <Y t=\"30\">0.0162</Y>\n        <Y t=\"31\">0.0178746</Y>\n        <Y t=\"32\">0.0196608</Y>\n        <Y t=\"33\">0.0215622</Y>\n        <Y t=\"34\">0.0235824</Y>\n        <Y t=\"35\">0.025725</Y>\n        <Y t=\"36\">0.0279936</Y>\n        <Y t=\"37\">0.0303918</Y>\n        <Y t=\"38\">0.0329232</Y>\n        <Y t=\"39\">0.0355914</Y>\n        <Y t=\"40\">0.0384</Y>\n        <Y t=\"41\">0.0413526</Y>\n        <Y t=\"42\">0.0444528</Y>\n        <Y t=\"43\">0.0477042</Y>\n        <Y t=\"44\">0.0511104</Y>\n        <Y t=\"45\">0.054675</Y>\n        <Y t=\"46\">0.0584016</Y>\n        <Y t=\"47\">0.0622938</Y>\n        <Y t=\"48\">0.0663552</Y>\n        <Y t=\"49\">0.0705894</Y>\n        <Y t=\"50\">0.075</Y>\n        <Y t=\"51\">0.0795906</Y>\n        <Y t=\"52\">0.0843648</Y>\n        <Y t=\"53\">0.0893262</Y>\n        <Y t=\"54\">0.0944784</Y>\n        <Y t=\"55\">0.099825</Y>\n        <Y t=\"56\">0.1053696</Y>\n        <Y t=\"57\">0.1111158</Y>\n        <Y t=\"58\">0.1170672</Y>\n        <Y t=\"59\">0.1232274</Y>\n        <Y t=\"60\">0.1296</Y>\n        <Y t=\"61\">0.1361886</Y>\n        <Y t=\"62\">0.1429968</Y>\n        <Y t=\"63\">0.1500282</Y>\n        <Y t=\"64\">0.1572864</Y>\n        <Y t=\"65\">0.164775</Y>\n        <Y t=\"66\">0.1724976</Y>\n        <Y t=\"67\">0.1804578</Y>\n        <Y t=\"68\">0.1886592</Y>\n        <Y t=\"69\">0.1971054</Y>\n        <Y t=\"70\">0.2058</Y>\n        <Y t=\"71\">0.2147466</Y>\n        <Y t=\"72\">0.2239488</Y>\n        <Y t=\"73\">0.2334102</Y>\n        <Y t=\"74\">0.2431344</Y>\n        <Y t=\"75\">0.253125</Y>\n        <Y t=\"76\">0.2633856</Y>\n        <Y t=\"77\">0.2739198</Y>\n        <Y t=\"78\">0.2847312</Y>\n        <Y t=\"79\">0.2958234</Y>\n        <Y t=\"80\">0.3072</Y>\n        <Y t=\"81\">0.3188646</Y>\n        <Y t=\"82\">0.3308208</Y>\n        <Y t=\"83\">0.3430722</Y>\n        <Y t=\"84\">0.3556224</Y>\n        <Y t=\"85\">0.368475</Y>\n        <Y t=\"86\">0.3816336</Y>\n        <Y t=\"87\">0.3951018</Y>\n        <Y t=\"88\">0.4088832</Y>\n        <Y t=\"89\">0.4229814</Y>\n        <Y t=\"90\">0.4374</Y>\n        <Y t=\"91\">0.4521426</Y>\n        <Y t=\"92\">0.4672128</Y>\n        <Y t=\"93\">0.4826142</Y>\n        <Y t=\"94\">0.4983504</Y>\n        <Y t=\"95\">0.514425</Y>\n        <Y t=\"96\">0.5308416</Y>\n        <Y t=\"97\">0.5476038</Y>\n        <Y t=\"98\">0.5647152</Y>\n        <Y t=\"99\">0.5821794</Y>\n        <Y t=\"100\">0.6</Y>\n        <Y t=\"101\">0.6181806</Y>\n        <Y t=\"102\">0.6367248</Y>\n        <Y t=\"103\">0.6556362</Y>\n        <Y t=\"104\">0.6749184</Y>\n        <Y t=\"105\">0.694575</Y>\n        <Y t=\"106\">0.7146096</Y>\n        <Y t=\"107\">0.7350258</Y>\n        <Y t=\"108\">0.7558272</Y>\n        <Y t=\"109\">0.7770174</Y>\n        <Y t=\"110\">0.7986</Y>\n        <Y t=\"111\">0.8205786</Y>\n        <Y t=\"112\">0.8429568</Y>\n        <Y t=\"113\">0.8657382</Y>\n        <Y t=\"114\">0.8889264</Y>\n        <Y t=\"115\">0.912525</Y>\n        <Y t=\"116\">0.9365376</Y>\n        <Y t=\"117\">0.9609678</Y>\n        <Y t=\"118\">0.9858192</Y>\n        <Y t=\"119\">1</Y>\n        <Y t=\"120\">1</Y>\n      </Axis>\n    </Values>\n  </Table>\n</XTbML>\n";

/// A document, and the place up to which its first so many bytes nest.
const CUT: &[u8] = b"\xEF\xBB\xBF<?xml a?> <A b='>'><!--x--><C>y</C>\n</A>";

const PLACES: &[u32] = &[
    0, 0, 0, 3, 3, 3, 3, 3, 3, 3, 3, 3, 12, 13, 13, 13, 13, 13, 13, 13, 13, 13, 22, 22, 22, 22, 22,
    22, 22, 22, 30, 30, 30, 33, 34, 34, 34, 34, 38, 39, 39, 39, 39,
];

/// What is read of a file, none of which here is longer than the longest.
fn table_of(alloc: Global, bytes: &[u8]) -> Result<RateTable, TableFault> {
    read_table(alloc, &bytes[..bytes.len().min(LONGEST)])
}

fn fault_of(alloc: Global, bytes: &[u8]) -> Option<(u32, TableKind)> {
    match table_of(alloc, bytes) {
        Err(TableFault::Bad { at, kind }) => Some((at, kind)),
        _ => None,
    }
}

#[test]
fn faults_have_their_places(rt: HostRuntime) {
    assert_rows!(rt; (row, (bytes, at, kind)) in FAULTS.iter().enumerate() =>
        fault_of(rt.alloc(), *bytes), Some((*at, *kind)); "row {row}");
}

#[test]
fn tables_are_read(rt: HostRuntime) -> Result<(), Fail> {
    let q = table_of(rt.alloc(), TABLE_Q)?;
    assert_eq!(rt; (q.first_age(), q.last_age()), (0, 4));
    assert_eq!(rt;
        (q.rate(2), q.rate(4)),
        (Some(250_000_000), Some(1_000_000_000))
    );
    let archive = table_of(rt.alloc(), ARCHIVE)?;
    assert_eq!(rt; (archive.first_age(), archive.last_age()), (7, 9));
    assert_eq!(rt;
        (archive.rate(7), archive.rate(8)),
        (Some(4_000_000), Some(500_000_000))
    );
    let g = table_of(rt.alloc(), TABLE_G)?;
    assert_eq!(rt; (g.first_age(), g.last_age()), (0, 120));
    for age in 0..121u8 {
        let years = u32::from(age);
        let rate = 600u32
            .saturating_mul(years)
            .saturating_mul(years)
            .saturating_mul(years);
        assert_eq!(rt; g.rate(age), Some(rate.min(1_000_000_000)));
    }
    Ok(())
}

#[test]
fn documents_cut_short(rt: HostRuntime) {
    assert_eq!(rt; CUT.len(), PLACES.len());
    assert_rows!(rt; (count, place) in PLACES.iter().enumerate() =>
        fault_of(rt.alloc(), &CUT[..count]), Some((*place, TableKind::NotDocument)); "{count} bytes");
    assert_eq!(rt; fault_of(rt.alloc(), CUT), Some((13, TableKind::NoTable)));
}

/// The longest file that is read, in bytes.
const LONGEST: usize = 4_194_304;

/// A table of the ages from 0 to 130 with this rate.
fn table_at(alloc: Global, rate: &[u8]) -> Result<Vec<u8>, Fail> {
    let mut file = b"<XTbML><Table><Values><Axis>".to_vec(alloc)?;
    for age in 0..131u8 {
        file.extend_from_slice(format!(in alloc; "<Y t='{age}'>")?.as_bytes())?;
        file.extend_from_slice(rate)?;
        file.extend_from_slice(b"</Y>")?;
    }
    Ok(file)
}

/// What a long file has after its rows, with as many bytes in between as fit.
const FILLINGS: &[(&[u8], &[u8])] = &[
    (b"", b""),
    (b"<!--", b"-->"),
    (b"<Z>", b"</Z>"),
    (b"<", b"/>"),
    (b"<Z a='", b"'/>"),
];

#[test]
fn the_longest_file_is_read(rt: HostRuntime) -> Result<(), Fail> {
    let mut file = table_at(rt.alloc(), b"0.5")?;
    let end = b"</Axis></Values></Table></XTbML>";
    for (open, close) in FILLINGS {
        file.extend_from_slice(*open)?;
        let filled = vec![in rt.alloc(); b'x'; 830_000]?;
        file.extend_from_slice(&filled)?;
        file.extend_from_slice(*close)?;
    }
    assert!(rt; file.len() <= LONGEST - end.len());
    file.resize(LONGEST - end.len(), b' ')?;
    file.extend_from_slice(end)?;
    assert_eq!(rt; file.len(), LONGEST);
    let table = table_of(rt.alloc(), &file)?;
    assert_eq!(rt;
        (table.first_age(), table.last_age(), table.rate(130)),
        (0, 130, Some(500_000_000))
    );
    Ok(())
}

/// A rate as it is written, and the units of 10^-9 that are read, if it is one.
const RATES: &[(&[u8], Option<u32>)] = &[
    (b"1", Some(1_000_000_000)),
    (b"1.000000000000", Some(1_000_000_000)),
    (b"0", Some(0)),
    (b"0.000000001", Some(1)),
    (b"1E-09", Some(1)),
    (b"0.999999999", Some(999_999_999)),
    (b"1.000000001", None),
    (b"0.0000000001", None),
    (b"0.9999999999", None),
];

fn is_read_so(alloc: Global, rate: &[u8], units: Option<u32>) -> Result<bool, Fail> {
    let mut file = table_at(alloc, rate)?;
    file.extend_from_slice(b"</Axis></Values></Table></XTbML>")?;
    let Some(units) = units else {
        return Ok(fault_of(alloc, &file) == Some((28, TableKind::BadRate)));
    };
    let Ok(table) = table_of(alloc, &file) else {
        return Ok(false);
    };
    let of_units = (0..131u8).filter(|age| table.rate(*age) == Some(units));
    Ok(table.last_age() == 130 && of_units.count() == 131)
}

#[test]
fn rates_at_their_limits(rt: HostRuntime) -> Result<(), Fail> {
    assert_rows!(rt; (rate, units) in RATES => is_read_so(rt.alloc(), *rate, *units)?; "{rate:?}");
    Ok(())
}
