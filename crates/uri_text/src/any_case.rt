//! The beginning of a text, compared in either case.

ghost use Rattle.std.specs.Prelude.{◌≡◌, ◌≤◌, IsTrue, length};
ghost use Rattle.uri_text.specs.AnyCase.{begins_in_any_case};

/// Whether the text begins with these letters, each in either case, as a URI may begin with a scheme (RFC 3986, section
/// 3.1).
#[tactic(auto, using(crate::proofs::AnyCase::front_decides, crate::proofs::AnyCase::short_differs))]
pub fn begins_in_any_case(text: &[u8], beginning: &[u8]) -> bool
    ensures begins { result ≡ begins_in_any_case text.now beginning.now }
    ensures within { IsTrue result → length beginning.now ≤ length text.now }
{
    match text.get(..beginning.len()) {
        Some(front) => front.eq_ignore_ascii_case(beginning),
        None => false,
    }
}
