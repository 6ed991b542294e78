//! Requests of real sources, and the forms of numbers, dates and versions that they send.

use crate::shared::{Case, first_difference};
use std::test::Fail;

const SOURCES: [Case; 9] = [
    (
        "sid=google&auinit=J&aulast=Smith&atitle=Storm+surges&title=Annals+of+Tidal+Studies&volume=12&issue=3&spage=101\
         &date=2003&issn=2901-0012",
        &[
            ("rfr_id", "info:sid/google"),
            ("rft.aulast", "Smith"),
            ("rft.atitle", "Storm surges"),
            ("rft.volume", "12"),
            ("rft.spage", "101"),
            ("rft.date", "2003"),
            ("rft.issn", "2901-0012"),
            ("x.issn", "2901-0012"),
            ("volume", "12"),
        ],
    ),
    (
        "genre=article&issn=29010012&volume=12&date=20030501&pages=101-118&sid=EBSCO:Academic+Search+Complete",
        &[
            ("rft.genre", "article"),
            ("rft.issn", "2901-0012"),
            ("rft.date", "2003-05-01"),
            ("rft.pages", "101-118"),
            ("rfr_id", "info:sid/EBSCO:Academic Search Complete"),
        ],
    ),
    (
        "genre=article&issn=2943081X&date=20120000&sid=EBSCO:GreenFILE",
        &[("rft.issn", "2943-081X"), ("rft.date", "2012")],
    ),
    (
        "sid=OVID:books&genre=book&isbn=978-1-234-56010-2&date=2010",
        &[
            ("rft.isbn", "9781234560102"),
            ("x.isbn", "9781234560102"),
            ("x.issn", ""),
        ],
    ),
    (
        "sid=ISI:WoS&aufirst=J&stitle=ANN+TIDAL+STUD&epage=118&pid=%3Cut%3E000%3C/ut%3E",
        &[
            ("rft.stitle", "ANN TIDAL STUD"),
            ("rft.epage", "118"),
            ("rft_dat", "<ut>000</ut>"),
        ],
    ),
    (
        "genre=article&sid=RefWorks&auinit1=J&issn=2901-0012,+2908-0142",
        &[
            ("rft.issn", "2901-0012"),
            ("x.issn", "2901-0012"),
            ("rft.eissn", "2908-0142"),
            ("x.eissn", "2908-0142"),
            ("rft.auinit1", "J"),
        ],
    ),
    (
        "url_ver=Z39.88-2004&ctx_ver=Z39.88-2004&rft_val_fmt=info:ofi/fmt:kev:mtx:book&rft.isbn=978-1-234-56010-2\
         &rft_id=urn%3Aisbn%3A978-1-234-56010-2&rft.au=Jane%20Smith&rft.au=Wei%20Li",
        &[
            ("rft.isbn", "9781234560102"),
            ("rft_id", "urn:isbn:978-1-234-56010-2"),
            ("rft.au", "Jane Smith"),
            ("ctx_ver", "Z39.88-2004"),
        ],
    ),
    (
        "rft.jtitle=Tides&title=Other&volume=3&rft.volume=4&sid=a&rfr_id=info:sid/b&au=Smith&au=Li",
        &[
            ("rft.volume", "4"),
            ("rfr_id", "info:sid/b"),
            ("rft.au", "Smith"),
        ],
    ),
    ("sid=info:sid/google", &[("rfr_id", "info:sid/google")]),
];

#[test]
fn sources_send_openurl_1_0(rt: HostRuntime) -> Result<(), Fail> {
    assert_eq!(rt; first_difference(rt.alloc(), &SOURCES)?, None);
    Ok(())
}

const FORMS: [Case; 21] = [
    (
        "ctx_ver=Z39.88-2003&url_ver=1&ctx_enc=utf8",
        &[
            ("ctx_ver", "Z39.88-2004"),
            ("url_ver", "Z39.88-2004"),
            ("ctx_enc", "info:ofi/enc:UTF-8"),
        ],
    ),
    (
        "rft.issn=2943081x",
        &[("rft.issn", "2943-081X"), ("x.issn", "2943-081X")],
    ),
    (
        "rft.eissn=29711312",
        &[
            ("rft.eissn", "2971-1312"),
            ("rft.issn", ""),
            ("x.issn", "2971-1312"),
        ],
    ),
    (
        "rft.isbn=0-19-853453-1+(pbk.)",
        &[("rft.isbn", "9780198534532"), ("x.isbn", "9780198534532")],
    ),
    ("rft.isbn=080442957x", &[("rft.isbn", "9780804429573")]),
    (
        "rft.isbn=n/a&rft.isbn=9781234560102+9781234560874",
        &[("rft.isbn", "9781234560102")],
    ),
    (
        "rft.issn=unknown&rft.isbn=123",
        &[
            ("rft.issn", "unknown"),
            ("rft.isbn", "123"),
            ("x.issn", ""),
            ("x.isbn", ""),
        ],
    ),
    (
        "rft.issn=0000-0000&rft.eissn=29080142",
        &[("rft.eissn", "2908-0142"), ("x.issn", "2908-0142")],
    ),
    ("eisbn=9781234560102", &[("rft.isbn", "9781234560102")]),
    ("rft.date=2013/08/01", &[("rft.date", "2013-08-01")]),
    ("rft.date=201308", &[("rft.date", "2013-08")]),
    ("rft.date=2013-08/2013-09", &[("rft.date", "2013-08")]),
    ("rft.date=Winter+2012/2013", &[("rft.date", "2012")]),
    (
        "rft.date=2013-08-01T10:15:00Z",
        &[("rft.date", "2013-08-01")],
    ),
    ("rft.date=08/01/2013", &[("rft.date", "2013")]),
    ("rft.date=25/12/2013", &[("rft.date", "2013-12-25")]),
    ("rft.date=12/25/2013", &[("rft.date", "2013-12-25")]),
    ("rft.year=2013", &[("rft.date", "2013")]),
    ("rft.date=in+press", &[("rft.date", "")]),
    (
        "date=in+press&rft.year=2013",
        &[("rft.date", "2013"), ("date", "in press")],
    ),
    ("rft.date=2013-13-45", &[("rft.date", "2013")]),
];

#[test]
fn numbers_and_dates_have_the_forms_of_the_standards(rt: HostRuntime) -> Result<(), Fail> {
    assert_eq!(rt; first_difference(rt.alloc(), &FORMS)?, None);
    Ok(())
}

const DAYS: [Case; 7] = [
    (
        "rft.date=2012-02",
        &[("x.from", "20120201"), ("x.to", "20120229")],
    ),
    ("year=1998", &[("x.from", "19980101"), ("x.to", "19981231")]),
    (
        "date=20030501",
        &[("x.from", "20030501"), ("x.to", "20030501")],
    ),
    (
        "rft.date=Summer+2004&rft.date=2001",
        &[("x.from", "20040101"), ("x.to", "20041231")],
    ),
    ("rft.date=in+press", &[("x.from", ""), ("x.to", "")]),
    ("rft.volume=3", &[("x.from", ""), ("x.to", "")]),
    (
        "rft.date=2013&x.from=19000101&x.to=20991231",
        &[("x.from", "20130101"), ("x.to", "20131231")],
    ),
];

#[test]
fn days_of_dates_are_derived(rt: HostRuntime) -> Result<(), Fail> {
    assert_eq!(rt; first_difference(rt.alloc(), &DAYS)?, None);
    Ok(())
}
