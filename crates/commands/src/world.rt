//! What the program takes from the system, and what contracts say about it.

ghost use Rattle.commands.specs.World.{Told};

use files::Files;
use http_streams::Ports;
use kbart_rows::KeySource;
use std::alloc::Global;

/// What the program takes from the system: files, random keys, ports, and memory.
#[derive(Drop)]
pub struct System<F, K, P> {
    /// The files.
    pub files: F,
    /// The source of secret keys for tables.
    pub keys: K,
    /// The ports of this machine.
    pub ports: P,
    /// The allocator.
    pub alloc: Global,
}

/// What the implementers of the traits over files, keys and ports say about their calls, in one record.
pub trait World {
    /// The record.
    ghost told: { Told Self };
}

impl<F: Files, K: KeySource, P: Ports> World for System<F, K, P> {
    ghost told = { record {
      FileState = F;
      files = λ s. s.files;
      at = F.at;
      mode_at = F.mode_at;
      fails = F.fails;
      runs_out = F.runs_out;
      KeyState = K;
      keys = λ s. s.keys;
      draws = K.draws;
      no_keys = K.fails;
      PortState = P;
      ports = λ s. s.ports;
      Listener = P.Bound;
      In = P.Bound.In;
      Out = P.Bound.Out;
      binds = P.binds;
      no_port = P.fails;
      gives = P.Bound.gives;
      closes = P.Bound.closes;
      no_more = P.Bound.fails;
      input_state = P.Bound.In.input_state;
      output_state = P.Bound.Out.output_state;
    } };
}
