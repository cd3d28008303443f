// A writer's answer, given as 01's number and place.
ghost use Rattle.std.specs.Prelude.{◌≡◌};
ghost use Rattle.output.specs.Reply.{written_number, written_place};

use output::Written;

// 0 and the length written, or the refusal's number and place.
pub(crate) fn give_written(w: Written, place: &mut usize) -> u32
    ensures { (result ≡ written_number w) × (place.new ≡ written_place w) }
{
    match w {
        Ok(n) => {
            *place = n;
            0
        }
        Err(e) => {
            *place = e.place;
            e.number
        }
    }
}
