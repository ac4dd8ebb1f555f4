//! A law of what is printed.

ghost use Rattle.qs_text.specs.Examples.{Examples};

/// Printed lines, computed by the definitions.
pub fn examples()
    ensures { Examples }
{}
