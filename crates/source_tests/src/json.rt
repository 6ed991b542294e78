//! The JSON for queries.

use crate::links::registry;
use link_menu::RegistryMenus;
use source_json::{found_json, reading_json};
use source_menus::found_links;
use source_requests::read_source;
use std::test::Fail;

/// Queries and the JSON of their readings. Quotes, backslashes and control characters are escaped.
const READINGS: [(&str, &str); 4] = [
    (
        "rft.volume=12&rft_val_fmt=x",
        "{\"notes\":{\"left_out\":0,\"retracted\":false},\"pairs\":[[\"rft.volume\",\"12\"],[\"rft_val_fmt\",\"x\"]]}",
    ),
    (
        "a%09b=%22%5C%0A%1B%C3%9B&rft_val_fmt=x",
        "{\"notes\":{\"left_out\":0,\"retracted\":false},\"pairs\":[\
        [\"a\\tb\",\"\\\"\\\\\\n\\u001b\u{db}\"],[\"rft_val_fmt\",\"x\"]]}",
    ),
    (
        "rft.jtitle=RETRACTED:+Silt&rft_val_fmt=x",
        "{\"notes\":{\"left_out\":0,\"retracted\":true},\"pairs\":[[\"rft.jtitle\",\"Silt\"],[\"rft_val_fmt\",\"x\"]]}",
    ),
    (
        "",
        "{\"notes\":{\"left_out\":0,\"retracted\":false},\"pairs\":[]}",
    ),
];

#[test]
fn readings(rt: HostRuntime) -> Result<(), Fail> {
    for (query, expected) in READINGS {
        let reading = read_source(rt.alloc(), query.as_bytes())?;
        let text = reading_json(rt.alloc(), &reading)?;
        assert_eq!(rt; text.as_str(), expected, "{query}");
    }
    Ok(())
}

#[test]
fn links(rt: HostRuntime) -> Result<(), Fail> {
    let registry = registry(rt.alloc())?;
    let menus = RegistryMenus::new(&registry);
    let found = found_links(rt.alloc(), &menus, &["1234-567X"], b"")?;
    let text = found_json(rt.alloc(), &found)?;
    let expected = "{\"links\":[\
        {\"link\":\"http://e.org/a\",\"part\":\"press\",\"query\":\"1234-567X\",\"row\":0,\"target\":\"press\"},\
        {\"link\":\"http://e.org/b\",\"part\":\"shop\",\"query\":\"1234-567X\",\"row\":1,\"target\":\"shop\"},\
        {\"link\":\"http://s.org/\",\"part\":\"search\",\"query\":\"any\",\"row\":0,\"target\":\"search\"}],\
        \"notes\":{\"left_out\":0,\"retracted\":false},\"pairs\":[]}";
    assert_eq!(rt; text.as_str(), expected);
    Ok(())
}
