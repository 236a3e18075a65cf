//! Laws of the definitions.
ghost use Rattle.std.specs.Prelude.{◌≡◌, ℕ, List};
ghost use Rattle.http_stream.specs.Messages.{Message, Messages};
ghost use Rattle.http_stream.specs.declared.outcome.End.{End};

/// A stream has one list of messages, and one end.
pub fn one_reading()
    ensures { (bytes : List ℕ) (ms ks : List Message) (d e : End) → Messages bytes ms d → Messages bytes ks e
        → (ms ≡ ks) × (d ≡ e) }
{}
