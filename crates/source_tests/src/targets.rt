//! The targets that names of a registry are parts of.

use source_menus::target_of;
use std::test::Fail;

const NAMES: [(&str, &str); 14] = [
    ("press", "press"),
    ("press.2", "press"),
    ("press.9", "press"),
    ("press.10", "press"),
    ("press.999", "press"),
    ("press.1", "press.1"),
    ("press.0", "press.0"),
    ("press.02", "press.02"),
    ("press.1000", "press.1000"),
    ("press.2a", "press.2a"),
    ("press.", "press."),
    ("press.", "press."),
    (".2", ".2"),
    ("press.2.3", "press.2"),
];

#[test]
fn parts(rt: HostRuntime) -> Result<(), Fail> {
    for (name, target) in NAMES {
        assert_eq!(rt; target_of(name), target, "{name}");
    }
    Ok(())
}
