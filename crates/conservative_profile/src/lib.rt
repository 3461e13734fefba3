// The profile of a machine as points by value (document 01: "profile"): now, and each later minute whose free nodes differ from those of
// the minute before.
#![tactic(auto)]

ghost use Rattle.std.specs.Prelude.{◌≡◌};
ghost use Rattle.spans.specs.Spans.{profile};
ghost use Rattle.conservative_profile.specs.StoredProfile.{stored};
ghost use Rattle.conservative_profile.specs.CopiedPoints.{Copies};

// The points stand first; the places past the count are all zero.
// Kept: a rule of the project needs it: no heap, fixed memory.
#[derive(Clone, Copy)]
pub struct Profile {
    pub count: usize,
    pub points: [spans::Point; 129],
}

impl Profile {
    // The points, copied out of the lists.
    // Kept: the new form is no plainer: one function for this and Blocks::copied would take the number of places, an empty element and a closure,
    // in place of a loop of three lines.
    pub fn copied(minutes: &[u32; 131], free: &[u32; 131], count: usize) -> Profile
        requires { Copies minutes.now free.now count }
        ensures { (q : Copies minutes.now free.now count) → result ≡ stored (profile q.machine q.spans q.now) }
    {
        let nothing = spans::Point { minute: 0, free: 0 };
        let mut points = [nothing; 129];
        for i in 0..count {
            points[i] = spans::Point {
                minute: minutes[i],
                free: free[i],
            };
        }
        Profile { count, points }
    }
}
