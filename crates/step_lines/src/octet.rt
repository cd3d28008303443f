// One octet of a line.
ghost use Rattle.std.specs.Prelude.{◌≡◌};
ghost use Rattle.script.specs.Script.{cr_state};
ghost use Rattle.step_lines.specs.Stepping.{line_step};

use crate::LineStep;

// What is known of a line with an octet more that is no LF.
#[tactic(auto, using(std::proofs::lemmas::Bool::Decides::nat_tests), unfolding(script::specs::Script::cr_state))]
fn after_octet(cr: u32, b: u8) -> u32
    ensures { result ≡ cr_state cr b }
{
    match (cr, b) {
        (0, b'\r') => 1,
        (0, _) => 0,
        _ => 2,
    }
}

// An octet more of a line of which `have` octets are in and at most `left` may come.
#[tactic(auto, using(std::proofs::lemmas::Bool::Decides::nat_tests), unfolding(crate::specs::Stepping::line_step))]
pub fn line_step(have: usize, left: usize, cr: u32, b: u8) -> LineStep
    ensures { result ≡ line_step have left cr b }
{
    if b == b'\n' {
        if cr == 1 {
            return LineStep::Whole;
        }
        return LineStep::Bad;
    }
    if have < left && 1 < left - have {
        return LineStep::Goes(after_octet(cr, b));
    }
    LineStep::Long
}
