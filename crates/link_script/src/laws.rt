//! Laws of scripts and their texts.

ghost use Rattle.std.specs.Prelude.{◌≡◌, ◌↔◌, Ok};
ghost use Rattle.link_script.specs.declared.script.Script.{Script};
ghost use Rattle.link_script.specs.Reading.{reading};
ghost use Rattle.link_script.specs.Scripts.{IsScript, HasRanges};
ghost use Rattle.link_script.specs.Writing.{text_of};

/// The text of a script says that script, for every script that some text says.
pub fn written_is_read_again()
    ensures { (script : Script) → IsScript script → reading (text_of script) ≡ Ok script }
{}

/// The scripts that some text says are those with these ranges.
pub fn scripts_have_their_ranges()
    ensures { (script : Script) → IsScript script ↔ HasRanges script }
{}
