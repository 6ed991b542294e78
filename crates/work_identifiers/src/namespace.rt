//! The namespaces of identifiers.

ghost use Rattle.std.specs.Prelude.{◌≡◌};
ghost use Rattle.text_model.specs.Texts.{texts_of};
ghost use Rattle.work_identifiers.specs.Places as spec;
ghost use Rattle.work_identifiers.specs.Uris.{uri_end, uri_start};

/// A namespace of identifiers, with its URIs: in `info` (RFC 4452), or addresses.
#[derive(Clone, Copy)]
pub enum Namespace {
    /// DOIs (ISO 26324), `info:doi/`.
    Doi,
    /// The numbers of PubMed, `info:pmid/`.
    Pmid,
    /// The numbers of OCLC, `info:oclcnum/`.
    Oclc,
    /// The numbers of PubMed Central, addresses of its articles.
    Pmc,
    /// The identifiers of arXiv; their URIs are those of the DOIs that arXiv has registered.
    Arxiv,
}

impl Namespace {
    /// What the URI of an identifier begins with.
    pub fn uri_start(self) -> &'static str
        ensures { result.now ≡ uri_start self }
    {
        match self {
            Namespace::Doi => "info:doi/",
            Namespace::Pmid => "info:pmid/",
            Namespace::Oclc => "info:oclcnum/",
            Namespace::Pmc => "https://pmc.ncbi.nlm.nih.gov/articles/PMC",
            Namespace::Arxiv => "info:doi/10.48550/arXiv.",
        }
    }

    /// What it ends with.
    pub fn uri_end(self) -> &'static str
        ensures { result.now ≡ uri_end self }
    {
        match self {
            Namespace::Pmc => "/",
            Namespace::Doi | Namespace::Pmid | Namespace::Oclc | Namespace::Arxiv => "",
        }
    }

    /// Words that say which number it is.
    pub(crate) fn words(self) -> &'static [&'static str]
        ensures { texts_of result.now ≡ spec.words self }
    {
        match self {
            Namespace::Doi => &["info:doi/", "info:doi", "urn:doi", "doi"],
            Namespace::Pmid => &[
                "info:pmid/",
                "info:pmid",
                "pmid",
                "pubmed id",
                "pubmedid",
                "pubmed",
            ],
            Namespace::Oclc => &[
                "info:oclcnum/",
                "info:oclcnum/on",
                "info:oclcnum:on",
                "info:oclcnum",
                "oclcnum",
                "oclcnum:on",
                "oclc",
                "oclc:on",
                "ocolc)",
                "ocolc)ocm",
                "ocolc)ocn",
                "ocolc)on",
                "ocm",
                "ocn",
            ],
            Namespace::Pmc => &[
                "info:pmcid/",
                "info:pmc/",
                "info:pmcid",
                "info:pmc",
                "pmcid",
                "pmc",
            ],
            Namespace::Arxiv => &[
                "info:doi/10.48550/arxiv.",
                "info:arxiv/",
                "info:arxiv",
                "oai:arxiv.org:",
                "arxiv",
                "doi:10.48550/arxiv.",
                "10.48550/arxiv.",
            ],
        }
    }

    /// What addresses of resolvers and pages have after their schemes: for DOIs the host alone, after which a proxy may
    /// write its own name. Before the host of OCLC there may be the name of a library.
    pub(crate) fn hosts(self) -> &'static [&'static str]
        ensures { texts_of result.now ≡ spec.hosts self }
    {
        match self {
            Namespace::Doi => &[
                "doi.org",
                "dx.doi.org",
                "www.doi.org",
                "doi-org",
                "dx-doi-org",
                "dx.doi-org",
                "dx-doi.org",
                "www.doi-org",
                "www-doi-org",
            ],
            Namespace::Pmid => &[
                "pubmed.ncbi.nlm.nih.gov/",
                "www.ncbi.nlm.nih.gov/pubmed/",
                "ncbi.nlm.nih.gov/pubmed/",
                "pubmed.gov/",
                "www.pubmed.gov/",
                "pubmed.ncbi.nlm.nih.gov/?term=",
                "www.ncbi.nlm.nih.gov/pubmed/?term=",
                "ncbi.nlm.nih.gov/pubmed/?term=",
                "pubmed.gov/?term=",
                "www.pubmed.gov/?term=",
            ],
            Namespace::Oclc => &["worldcat.org/oclc/", "worldcat.org/title/"],
            Namespace::Pmc => &[
                "pmc.ncbi.nlm.nih.gov/articles/pmc",
                "www.ncbi.nlm.nih.gov/pmc/articles/pmc",
                "ncbi.nlm.nih.gov/pmc/articles/pmc",
                "europepmc.org/article/pmc/pmc",
                "www.europepmc.org/article/pmc/pmc",
                "europepmc.org/articles/pmc",
                "www.europepmc.org/articles/pmc",
            ],
            Namespace::Arxiv => &[
                "arxiv.org/abs/",
                "arxiv.org/pdf/",
                "arxiv.org/html/",
                "www.arxiv.org/abs/",
                "www.arxiv.org/pdf/",
                "www.arxiv.org/html/",
                "export.arxiv.org/abs/",
                "export.arxiv.org/pdf/",
                "export.arxiv.org/html/",
                "doi.org/10.48550/arxiv.",
                "dx.doi.org/10.48550/arxiv.",
                "www.doi.org/10.48550/arxiv.",
            ],
        }
    }
}

/// What addresses begin with.
pub(crate) fn schemes() -> &'static [&'static str]
    ensures { texts_of result.now ≡ spec.schemes }
{
    &["https://", "http://", "//"]
}
