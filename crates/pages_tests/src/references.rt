//! The Standard's references.

use figpliers::{References, standard};
use std::test::Fail;

/// Names, and what the longest front of each that is a name stands for.
const NAMES: &[(&str, &str, u32, Option<u32>)] = &[
    ("eacute;", "eacute;", 0xE9, None),
    ("eacutes", "eacute", 0xE9, None),
    ("notin;", "notin;", 0x2209, None),
    ("notit;", "not", 0xAC, None),
    ("AMP", "AMP", 0x26, None),
    ("zwnj;", "zwnj;", 0x200C, None),
    ("Aacute;", "Aacute;", 0xC1, None),
    ("NotEqualTilde;", "NotEqualTilde;", 0x2242, Some(0x338)),
    ("bne;", "bne;", 0x3D, Some(0x20E5)),
    (
        "CounterClockwiseContourIntegral;",
        "CounterClockwiseContourIntegral;",
        0x2233,
        None,
    ),
];

/// The first name that stands for something else.
fn first_wrong(table: &References) -> Option<usize> {
    for (place, (text, name, first, second)) in NAMES.iter().enumerate() {
        let Some(row) = table.longest(text) else {
            return Some(place);
        };
        if row.name.as_str() != *name || row.first != *first || row.second != *second {
            return Some(place);
        }
    }
    None
}

#[test]
fn the_standard_has_2231_names(rt: HostRuntime) -> Result<(), Fail> {
    let table = standard(rt.alloc())?;
    assert!(rt; table.rows().len() == 2231);
    assert_eq!(rt; first_wrong(&table), None);
    assert!(rt; table.longest("eacut;").is_none() && !table.is_front("eacuter"));
    Ok(())
}
