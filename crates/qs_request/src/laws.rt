//! A law of what command lines ask for.

ghost use Rattle.std.specs.Prelude.{◌≡◌, codes};
ghost use Rattle.std.specs.Borrow.{Bor};
ghost use Rattle.clap.specs.Words.{Text};
ghost use Rattle.qs_request.specs.Examples.{Examples};

/// What some command lines ask for, computed by the definitions.
pub fn examples()
    ensures { (file : Bor Text) → (is_f : file.now ≡ codes "f") → Examples file is_f }
{}
