//! A text of a menu, made by hand.

use menu::Text;
use std::alloc::AllocError;

#[test]
fn a_text_is_not_changed(rt: HostRuntime) -> Result<(), AllocError> {
    let link = Text::new(String::from_str(rt.alloc(), "http://é/")?);
    assert_eq!(rt; link.as_str(), "http://é/");
    Ok(())
}
