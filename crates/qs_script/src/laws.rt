//! A law of the language of scripts.

ghost use Rattle.qs_script.specs.ScriptLaws.{PrintedScriptsParse};

/// The printed script of events that may be played says exactly these events.
pub fn printed_scripts_parse()
    ensures { PrintedScriptsParse }
{}
