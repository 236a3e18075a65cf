//! What a program is started with.

ghost use Rattle.std.specs.Prelude.{◌≡◌, false};

use crate::worlds::World;
use http_stream::{Sink, Source};

/// What a program is started with: the outside, and the standard streams, which are given back when it ends.
pub trait Host: Drop {
    /// The outside but for the streams.
    type World: World;

    /// Standard input.
    type In: Source + Drop;

    /// Standard output.
    type Out: Sink + Drop;

    /// Standard error.
    type Err: Sink + Drop;

    // What is lent.
    ghost lends: { Self → Self.World → Self.In → Self.Out → Self.Err → Type 0 };

    // How the streams are given back.
    ghost takes: { Self → Self.In → Self.Out → Self.Err → Type 0 };

    /// Lends the world, standard input, standard output and standard error.
    fn lend(&mut self) -> (Self::World, Self::In, Self::Out, Self::Err)
        ensures lent { lends self.old result.0 result.1 result.2 result.3 }
        ensures fresh { (Self.In.ended result.1 ≡ false) × (Self.In.failures result.1 ≡ 0) × (Self.Out.failures result.2 ≡ 0) × (Self.Err.failures result.3 ≡ 0) }
        ensures stays { (input : Self.In) (out : Self.Out) (err : Self.Err) → takes self.new input out err → takes self.old input out err };

    /// Takes the streams back.
    fn take(self, input: Self::In, out: Self::Out, err: Self::Err)
        ensures { takes self input out err };
}
