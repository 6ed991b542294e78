//! How far the reading of a head has come.

ghost use Rattle.std.specs.Prelude.{◌≡◌, [], ◌∷◌, ◌++◌, ℕ, List};
ghost use Rattle.http_streams.specs.Closing.{is_closed};
ghost use Rattle.http_streams.specs.Private.Progress.{closes_with};

/// What has been read of a head so far.
#[derive(Clone, Copy)]
pub(crate) enum Progress {
    /// Nothing but line ends has come.
    BeforeText,
    /// The last byte does not end a line.
    InLine,
    /// The last byte is the LF of a line.
    AfterLineFeed,
    /// The last bytes are the LF of a line and a CR.
    AfterReturn,
    /// The empty line has come.
    Closed,
}

impl Progress {
    /// Whether the empty line has been read.
    pub(crate) fn is_done(self) -> bool
        ensures { result ≡ closes_with self [] }
    {
        matches!(self, Progress::Closed)
    }

    /// The progress after one more byte.
    fn after(self, byte: u8) -> Progress
        ensures { (more : List ℕ) → closes_with result more ≡ closes_with self (byte ∷ more) }
    {
        match self {
            Progress::Closed => Progress::Closed,
            Progress::BeforeText => match byte {
                b'\n' | b'\r' => Progress::BeforeText,
                _ => Progress::InLine,
            },
            Progress::InLine => match byte {
                b'\n' => Progress::AfterLineFeed,
                _ => Progress::InLine,
            },
            Progress::AfterLineFeed => match byte {
                b'\n' => Progress::Closed,
                b'\r' => Progress::AfterReturn,
                _ => Progress::InLine,
            },
            Progress::AfterReturn => match byte {
                b'\n' => Progress::Closed,
                _ => Progress::InLine,
            },
        }
    }

    /// The progress after these further bytes.
    pub(crate) fn after_all(self, bytes: &[u8]) -> Progress
        ensures { (more : List ℕ) → closes_with result more ≡ closes_with self (bytes.now ++ more) }
    {
        let mut progress = self;
        for byte in bytes {
            progress = progress.after(*byte);
        }
        progress
    }
}

/// Whether an empty line ends the head: after some byte that is neither CR nor LF, an LF is followed directly by LF or
/// by CR LF. It makes one pass over the bytes.
#[tactic(auto, using(crate::proofs::ClosedLemmas::appended))]
pub fn is_closed(bytes: &[u8]) -> bool
    ensures { result ≡ is_closed bytes.now }
{
    Progress::BeforeText.after_all(bytes).is_done()
}
