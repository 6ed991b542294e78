//! How far a text has come towards the end of its host (RFC 3986, section 3.2).

ghost use Rattle.std.specs.Prelude.{◌≡◌, ◌==◌};
ghost use Rattle.rule_lint.specs.HostStates as spec;

/// How far a text has come towards the end of its host.
#[derive(Clone, Copy)]
pub enum HostState {
    /// `//` is still to come, and the last byte is no slash.
    Outside,
    /// `//` is still to come, and the last byte is a slash.
    Slash,
    /// `//` comes last.
    Opened,
    /// The host has begun.
    Inside,
    /// The host has ended.
    Past,
    /// The host is empty or has an `@`, or nothing is known of it.
    Lost,
}

pub(crate) fn is_past(state: HostState) -> bool
    ensures { result ≡ spec.is_past state }
{
    matches!(state, HostState::Past)
}

pub(crate) fn is_inside(state: HostState) -> bool
    ensures { result ≡ spec.is_inside state }
{
    matches!(state, HostState::Inside)
}

/// Whether a text that ends like this has no host, or one that is empty or has an `@`.
pub(crate) fn is_hostless(state: HostState) -> bool
    ensures { result ≡ spec.is_hostless state }
{
    matches!(state, HostState::Opened | HostState::Lost)
}

pub(crate) fn ends_host(b: u8) -> bool
    ensures { result ≡ spec.ends_host b }
{
    matches!(b, b'/' | b'?' | b'#')
}

/// The state after one more byte.
pub(crate) fn after_byte(state: HostState, b: u8) -> HostState
    ensures { result ≡ spec.after_byte state b }
{
    match state {
        HostState::Outside => after_outside(b),
        HostState::Slash => after_slash(b),
        HostState::Opened => after_opened(b),
        HostState::Inside => after_inside(b),
        HostState::Past => HostState::Past,
        HostState::Lost => HostState::Lost,
    }
}

fn after_outside(b: u8) -> HostState
    ensures { result ≡ spec.after_outside b }
{
    if b == b'/' {
        HostState::Slash
    } else {
        HostState::Outside
    }
}

fn after_slash(b: u8) -> HostState
    ensures { result ≡ spec.after_slash b }
{
    if b == b'/' {
        HostState::Opened
    } else {
        HostState::Outside
    }
}

fn after_opened(b: u8) -> HostState
    ensures { result ≡ spec.after_opened b }
{
    if ends_host(b) || b == b'@' {
        HostState::Lost
    } else {
        HostState::Inside
    }
}

fn after_inside(b: u8) -> HostState
    ensures { result ≡ spec.after_inside b }
{
    if ends_host(b) {
        return HostState::Past;
    }
    if b == b'@' {
        HostState::Lost
    } else {
        HostState::Inside
    }
}

/// The state after more text.
pub(crate) fn after_text(state: HostState, text: &[u8]) -> HostState
    ensures { result ≡ spec.after_text state text.now }
{
    let mut state = state;
    for b in text {
        state = after_byte(state, *b);
    }
    state
}

/// One state for two rows. A row whose host has ended does not matter for what comes next.
pub(crate) fn for_both(state: HostState, other: HostState) -> HostState
    ensures { result ≡ spec.for_both state other }
{
    match (state, other) {
        (HostState::Past, _) => other,
        (_, HostState::Past) => state,
        (HostState::Outside, HostState::Outside)
        | (HostState::Slash, HostState::Slash)
        | (HostState::Opened, HostState::Opened)
        | (HostState::Inside, HostState::Inside) => state,
        _ => HostState::Lost,
    }
}
