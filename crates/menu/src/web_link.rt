//! Which links are web links.

ghost use Rattle.std.specs.Prelude.{◌≡◌};
ghost use Rattle.menu.specs.WebLink.{is_web_link};

use uri_text::begins_in_any_case;

/// Whether a link begins with `http://` or `https://`, the letters in either case (RFC 3986, section 3.1; RFC 9110,
/// section 4.2). What follows does not matter, and may be empty.
pub fn is_web_link(link: &str) -> bool
    ensures { result ≡ is_web_link link.now }
{
    let link = link.as_bytes();
    begins_in_any_case(link, b"http://") || begins_in_any_case(link, b"https://")
}
