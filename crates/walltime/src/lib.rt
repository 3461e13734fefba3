// Wall times (document 01: "held time", "the wall chart"): the minutes that an estimate reserves.
#![tactic(auto)]

ghost use Rattle.std.specs.Prelude.{◌≡◌, find};
ghost use Rattle.walltime.specs.WallTime.{wall_time, reaches};
ghost use Rattle.walltime.specs.declared.TheConstants.{BANDS};
ghost use Rattle.walltime.specs.Laws.{LongestWithin};

// Estimates up to `end` are rounded up to a multiple of `width`.
#[derive(Clone, Copy)]
pub struct Band {
    pub end: u32,
    pub width: u32,
}

const BANDS: [Band; 3] = [
    Band { end: 120, width: 5 },
    Band {
        end: 480,
        width: 10,
    },
    Band {
        end: 10_080,
        width: 30,
    },
];

// The first band that reaches this many minutes.
fn band_reaching(minutes: u32) -> Option<Band>
    ensures { result ≡ find (reaches minutes) BANDS }
{
    BANDS.iter().copied().find(|b| minutes <= b.end)
}

// The first band that reaches the estimate rounds it up to a multiple of its width. Past the last band it is that band's end.
pub fn wall_time(estimate: u32) -> u32
    ensures { result ≡ wall_time estimate }
{
    match band_reaching(estimate) {
        Some(band) => estimate.next_multiple_of(band.width),
        None => BANDS[2].end,
    }
}

// The largest estimate whose wall time is within this many minutes; 0 if there is none. The band that reaches the minutes rounds them down.
pub fn longest_within(minutes: u32) -> u32
    ensures { LongestWithin minutes result }
{
    match band_reaching(minutes) {
        Some(band) => minutes / band.width * band.width,
        None => BANDS[2].end,
    }
}
