//! The Host fields of a request (RFC 9112, section 3.2).

ghost use Rattle.std.specs.Prelude.{◌≡◌, count_by, take};
ghost use Rattle.httparse.specs.Spans.{IsSectionWithin, span_bytes};
ghost use Rattle.http_request.specs.Host.{is_host_name};

use httparse::spans::HeaderSpan;

/// Whether a field's name is Host, its letters in either case.
fn is_host(name: &[u8]) -> bool
    ensures { result ≡ is_host_name name.now }
{
    name.eq_ignore_ascii_case(b"host")
}

/// How many of the first `count` fields are Host.
pub(crate) fn host_count(bytes: &[u8], fields: &[HeaderSpan], len: usize, count: usize) -> usize
    requires { IsSectionWithin bytes.now fields.now len count }
    ensures { result ≡ count_by (λ field. is_host_name (span_bytes bytes.now field.name)) (take count fields.now) }
{
    let mut hosts: usize = 0;
    for field in &fields[..count] {
        if is_host(field.name.of(bytes)) {
            hosts += 1;
        }
    }
    hosts
}
