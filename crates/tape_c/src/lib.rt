// The tape's reader for callers in C and Rust: what `host/` compares with the original, letter by
// letter. The captions themselves have an interface of their own.
#![tactic(auto)]

ghost use Rattle.tape_c.specs.Exported.{Answered};

use tape::Style;

// Reads a tape into a workspace; `color` is the red, green, blue and alpha of the tape's outer list.
// Answers how many letters the workspace then begins with, or a refusal: its number times 2^32, and
// its place.
#[unsafe(no_mangle)]
pub extern "C" fn tape_letters(tape: &[u8], workspace: &mut [u8], color: &[u8; 4]) -> u64
    ensures { Answered tape.now workspace.old workspace.new color.now result }
{
    let style = Style::default_with(*color);
    tape::packed(tape::read_tape(tape, workspace, style))
}
