// The profile of a machine in two lent lists that are changed in place: the minutes of its points, and in the same places how many nodes are free
// from each minute on. While a span is laid over it or taken out, there may be two more places, at which nothing changes.
#![tactic(auto)]

ghost use Rattle.std.specs.Prelude.{◌≡◌, [], ◌∷◌, ◌+◌, min, ◌<◌, ◌≤◌, length};
ghost use Rattle.conservative_table.specs.ListChanges.{rows, Inserted, Removed, Adjusted, Adjustable};
ghost use Rattle.conservative_table.specs.Table.{Ascends, Place, Split};
ghost use Rattle.conservative_table.specs.Join.{Inside, Joined};
ghost use Rattle.conservative_table.specs.LaidSpans.{LaysAt, LaidAt, Lays, Laid};
ghost use Rattle.conservative_table.specs.ProfileLists.{IsProfile, Changed, Laying, Lifting, Advancing};
ghost use Rattle.conservative_table.specs.Search.{Ending, Reached, Skipped, Seeks, Finds};

// A place of the lists, and how many places are used: of a minute; or the first that may have changed.
#[derive(Clone, Copy)]
pub struct Row {
    pub at: usize,
    pub count: usize,
}

// A minute, and a place of the lists whose minute is not later.
#[derive(Clone, Copy)]
pub struct Found {
    pub minute: u32,
    pub near: usize,
}

// The place after the last minute that is not later than t, found by halving. The minute of the near place is not later.
fn place_after(minutes: &[u32; 131], near: usize, count: usize, t: u32) -> usize
    requires { Ascends minutes.now near count t }
    ensures { Place minutes.now count t result }
{
    let mut low = near + 1;
    let mut high = count;
    while low < high {
        let mid = (low + high) / 2;
        if minutes[mid] <= t {
            low = mid + 1;
        } else {
            high = mid;
        }
    }
    low
}

// The same, place after place from the near one on. This is quicker where few places lie between.
// Kept: the new form is no plainer: one function would still have both walks, and a switch for them.
fn place_by_steps(minutes: &[u32; 131], near: usize, count: usize, t: u32) -> usize
    requires { Ascends minutes.now near count t }
    ensures { Place minutes.now count t result }
{
    for k in near + 1..count {
        if t < minutes[k] {
            return k;
        }
    }
    count
}

// The value goes into this place; what stood there and after it moves up.
fn insert(list: &mut [u32; 131], count: usize, at: usize, value: u32)
    requires { (length list.old ≡ rows) × (at ≤ count) × (count < rows) }
    ensures { Inserted list.old count at value list.new }
{
    list.copy_within(at..count, at + 1);
    list[at] = value;
}

// There is a place for minute t, and the lists still say the same. Place k is the one after the last minute that is not later.
fn split_at(minutes: &mut [u32; 131], free: &mut [u32; 131], count: usize, k: usize, t: u32) -> Row
    requires { Place minutes.old count t k × (length minutes.old ≡ rows) × (length free.old ≡ rows) × (count < rows) }
    ensures { Split minutes.old free.old count t result minutes.new free.new }
{
    let last = k - 1;
    if minutes[last] == t {
        return Row { at: last, count };
    }
    let left = free[last];
    insert(minutes, count, k, t);
    insert(free, count, k, left);
    Row {
        at: k,
        count: count + 1,
    }
}

// The same, with that place found by halving. The minute of the near place is not later.
fn split(minutes: &mut [u32; 131], free: &mut [u32; 131], near: usize, count: usize, t: u32) -> Row
    requires { Ascends minutes.old near count t × (length free.old ≡ rows) × (count < rows) }
    ensures { Split minutes.old free.old count t result minutes.new free.new }
{
    if minutes[near] == t {
        return Row { at: near, count };
    }
    let k = place_after(minutes, near, count, t);
    split_at(minutes, free, count, k, t)
}

// `by` places leave from this one on; those after them move down.
fn withdraw(list: &mut [u32; 131], count: usize, at: usize, by: usize)
    requires { (length list.old ≡ rows) × (count ≤ rows) × (at + by ≤ count) }
    ensures { Removed list.old count at by list.new }
{
    list.copy_within(at + by..count, at);
}

// A place that says the same as the one before it leaves.
fn join(minutes: &mut [u32; 131], free: &mut [u32; 131], count: usize, at: usize) -> usize
    requires { Inside minutes.old free.old count at }
    ensures { Joined minutes.old free.old count at result minutes.new free.new }
{
    if at == 0 || free[at] != free[at - 1] {
        return count;
    }
    withdraw(minutes, count, at, 1);
    withdraw(free, count, at, 1);
    count - 1
}

// `nodes` nodes are taken, or free again, in these places.
// Kept: what may not change needs it: LaysAt and Lays, the contracts of those who call this, say by `release` which of the two is done.
fn adjust(free: &mut [u32; 131], from: usize, to: usize, nodes: u32, release: bool)
    requires { Adjustable free.old from to nodes release × (from ≤ to) }
    ensures { Adjusted free.old from to nodes release free.new }
{
    for left in &mut free[from..to] {
        *left = if release {
            *left + nodes
        } else {
            *left - nodes
        };
    }
}

// The span's nodes are taken, or free again, from the place in which it begins. Its end is sought by steps: a span has few points.
fn lay_at(
    minutes: &mut [u32; 131],
    free: &mut [u32; 131],
    begin: Row,
    x: spans::Span,
    release: bool,
) -> usize
    requires { LaysAt minutes.old free.old begin x release }
    ensures { (l : LaysAt minutes.old free.old begin x release) → LaidAt l result minutes.new free.new }
{
    let k = place_by_steps(minutes, begin.at, begin.count, x.until);
    let end = split_at(minutes, free, begin.count, k, x.until);
    adjust(free, begin.at, end.at, x.nodes, release);
    let later = join(minutes, free, end.count, end.at);
    join(minutes, free, later, begin.at)
}

// The span's nodes are taken, or free again. The minute of the near place is not later than the one in which that begins.
fn change(
    minutes: &mut [u32; 131],
    free: &mut [u32; 131],
    near: usize,
    count: usize,
    x: spans::Span,
    release: bool,
) -> Row
    requires { Lays minutes.old free.old near count x release }
    ensures { (l : Lays minutes.old free.old near count x release) → Laid l result minutes.new free.new }
{
    let from = minutes[0].max(x.from);
    if x.until <= from {
        return Row { at: count, count };
    }
    let begin = split(minutes, free, near, count, from);
    let rest = lay_at(minutes, free, begin, x, release);
    Row {
        at: begin.at,
        count: rest,
    }
}

// The span is laid over the profile.
pub fn lay(
    minutes: &mut [u32; 131],
    free: &mut [u32; 131],
    near: usize,
    count: usize,
    x: spans::Span,
) -> Row
    requires { Laying minutes.old free.old near count x }
    ensures { (l : Laying minutes.old free.old near count x)
        → Changed l.machine (x ∷ l.spans) l.now x minutes.old free.old count result minutes.new free.new }
{
    change(minutes, free, near, count, x, false)
}

// The span is taken out of the profile.
pub fn lift(
    minutes: &mut [u32; 131],
    free: &mut [u32; 131],
    near: usize,
    count: usize,
    x: spans::Span,
) -> Row
    requires { Lifting minutes.old free.old near count x }
    ensures { (l : Lifting minutes.old free.old near count x)
        → Changed l.machine l.others l.now x minutes.old free.old count result minutes.new free.new }
{
    change(minutes, free, near, count, x, true)
}

// With no span there is one point, from which on all nodes are free.
pub fn idle(minutes: &mut [u32; 131], free: &mut [u32; 131], nodes: u32, minute: u32) -> usize
    requires { (length minutes.old ≡ rows) × (length free.old ≡ rows) }
    ensures { IsProfile nodes [] minute result minutes.new free.new }
{
    minutes[0] = minute;
    free[0] = nodes;
    1
}

// The clock moves on to this minute: the points before it leave. If none leaves, the free nodes stay as they are.
pub fn advance(minutes: &mut [u32; 131], free: &mut [u32; 131], count: usize, t: u32) -> usize
    requires { Advancing minutes.old free.old count t }
    ensures { ((l : Advancing minutes.old free.old count t) → IsProfile l.machine l.spans t result minutes.new free.new)
        × (result ≡ count → free.new ≡ free.old) }
{
    let k = place_after(minutes, 0, count, t);
    let last = k - 1;
    if last == 0 {
        minutes[0] = t;
        return count;
    }
    withdraw(minutes, count, 0, last);
    withdraw(free, count, 0, last);
    minutes[0] = t;
    count - last
}

// The first place from this one on whose minute is not before the end, or at which too few nodes are free.
fn reach(minutes: &[u32; 131], free: &[u32; 131], from: usize, nodes: u32, until: u32) -> usize
    requires { Ending minutes.now from until × (length free.now ≡ rows) }
    ensures { Reached minutes.now free.now from nodes until result }
{
    // Kept: the new form is no plainer. That a place ends the walk is known to the proof alone (Ending): a `for` would need an end, and an answer there.
    let mut k = from;
    while minutes[k] < until {
        if free[k] < nodes {
            return k;
        }
        k += 1;
    }
    k
}

// The first place from this one on at which enough nodes are free. At the last point all are free, so that no minute is looked at.
fn skip(free: &[u32; 131], from: usize, nodes: u32) -> usize
    requires { Ending free.now from nodes }
    ensures { Skipped free.now from nodes result }
{
    // Kept: the new form is no plainer, as in `reach`.
    let mut k = from;
    while free[k] < nodes {
        k += 1;
    }
    k
}

// The earliest minute for a job that stands in the plan from this start on. From its start on its own nodes are there for it, so the search ends
// with the first place that is not before it. No minute before that of place i will do.
pub fn search_before(
    minutes: &[u32; 131],
    free: &[u32; 131],
    start: u32,
    nodes: u32,
    hold: u32,
) -> Found
    requires { Seeks minutes.now free.now start nodes hold }
    ensures { (s : Seeks minutes.now free.now start nodes hold) → Finds s result }
{
    let mut i = skip(free, 0, nodes);
    while minutes[i] < start {
        let here = minutes[i];
        let until = (here + hold).min(start);
        let k = reach(minutes, free, i + 1, nodes, until);
        if until <= minutes[k] {
            return Found {
                minute: here,
                near: i,
            };
        }
        i = skip(free, k + 1, nodes);
    }
    Found {
        minute: start,
        near: 0,
    }
}
