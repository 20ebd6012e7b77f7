// Which runs within limits overlap, by comparisons of the limits.
#![tactic(auto)]

ghost use Rattle.std.specs.Prelude.{◌≡◌, ◌+◌};
ghost use Rattle.hours_runs.specs.Runs.{surely, may};

use hours_tags::Limits;

// The first minute after a run.
fn end(start: u16, run: u16) -> u32
    ensures { result ≡ start + run }
{
    u32::from(start) + u32::from(run)
}

// Whether the runs overlap for every choice within the limits.
#[tactic(auto, unfolding(crate::specs::Runs::surely))]
pub fn surely(g: Limits, h: Limits) -> bool
    ensures { result ≡ surely g h }
{
    u32::from(g.latest) < end(h.earliest, h.shortest)
        && u32::from(h.latest) < end(g.earliest, g.shortest)
}

// Whether they overlap for some choice.
#[tactic(auto, unfolding(crate::specs::Runs::may))]
pub fn may(g: Limits, h: Limits) -> bool
    ensures { result ≡ may g h }
{
    u32::from(g.earliest) < end(h.latest, h.longest)
        && u32::from(h.earliest) < end(g.latest, g.longest)
}
