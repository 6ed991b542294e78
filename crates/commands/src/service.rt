//! The arguments of `serve`.

ghost use Rattle.std.specs.Prelude.{◌≡◌, ◌≤◌, ◌<◌, ℕ, IfNone, IfSome};
ghost use Rattle.std.specs.Char.{is_ascii_digit};
ghost use Rattle.std.specs.List.{list_all};
ghost use Rattle.commands.specs.Service.{IsNumber, IsServiceOf};
ghost use Rattle.commands.specs.declared.service.Service.{Service};

/// The largest port.
const MAX_PORT: u32 = 65_535;

/// The maximum number of connections that one service can serve.
const MAX_COUNT: u32 = 1_000_000;

/// A service of a registry's menus at a port of this machine, for a number of connections.
#[derive(Clone, Copy)]
pub struct Service<'a> {
    /// The path of the registry file.
    pub registry: &'a str,
    /// The port as it was written, to name it in an error.
    pub port_text: &'a str,
    /// The port; 0 means any free port.
    pub port: u16,
    /// The number of connections.
    pub count: u32,
}

impl<'a> Service<'a> {
    /// The service for these three arguments. The last two are written in ASCII digits only: a port up to 65,535, and a
    /// count from 1 to 1,000,000.
    pub fn parse(registry: &'a str, port_text: &'a str, count_text: &'a str) -> Option<Service<'a>>
        ensures some { IfSome result (IsServiceOf registry.now port_text.now count_text.now) }
        ensures none { IfNone result ((service : Service)
            → ¬ (IsServiceOf registry.now port_text.now count_text.now service)) }
    {
        let port = number(port_text, MAX_PORT)?;
        let count = number(count_text, MAX_COUNT)?;
        if count == 0 {
            return None;
        }
        Some(Service {
            registry,
            port_text,
            port: port as u16,
            count,
        })
    }
}

/// The number of an argument that has only ASCII digits, if it is at most `most`.
fn number(argument: &str, most: u32) -> Option<u32>
    ensures some { IfSome result (λ n. IsNumber argument.now n × (n ≤ most)) }
    ensures none { IfNone result ((n : ℕ) → IsNumber argument.now n → most < n) }
{
    if !is_digits(argument) {
        return None;
    }
    match argument.parse() {
        Ok(n) if n <= most => Some(n),
        _ => None,
    }
}

fn is_digits(argument: &str) -> bool
    ensures { result ≡ list_all is_ascii_digit argument.now }
{
    argument.as_bytes().iter().all(|byte| byte.is_ascii_digit())
}
