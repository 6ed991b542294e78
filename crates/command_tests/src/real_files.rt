//! A command over real files.

use crate::known_system::{KnownKeys, OnePort};
use commands::{System, command};
use files::SystemFiles;
use std::fs;
use std::test::Fail;

/// Whether the command over real files has this status, prints this and has these errors.
fn gives(rt: &HostRuntime, arguments: &[&str], expected: (u8, &str, &str)) -> bool {
    let mut system = System {
        files: SystemFiles::new(rt),
        keys: KnownKeys { numbers: None },
        ports: OnePort { peers: None },
        alloc: rt.alloc(),
    };
    let (mut output, mut errors) = (Vec::new(rt.alloc()), Vec::new(rt.alloc()));
    let status = command(&mut system, arguments, &mut output, &mut errors);
    let (expected_status, printed, error) = expected;
    (status, output.as_slice(), errors.as_slice())
        == (expected_status, printed.as_bytes(), error.as_bytes())
}

#[test]
fn compiles_a_real_file(rt: HostRuntime) -> Result<(), Fail> {
    fs::write(&rt, "a.rules", "rule\nlink http://e.org/{rft.issn}\n")?;
    let compile = ["compile", "a.rules", "a.olk"];
    assert!(rt; gives(&rt, &compile, (0, "127 bytes\n", "")));
    assert!(rt; fs::read(&rt, "a.olk")?.len() == 127);
    let folder = ["compile", "a.rules", "."];
    assert!(rt; gives(&rt, &folder, (4, "", "openlink: device: .\n")));
    fs::remove_file(&rt, "a.rules")?;
    fs::remove_file(&rt, "a.olk")?;
    Ok(())
}
