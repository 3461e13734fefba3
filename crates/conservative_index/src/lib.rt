// The index of a profile (document 02: "for each block of 16 points, the fewest and the most free nodes"), and the search for the earliest start.
// The search goes through the blocks and counts the points that it reads.
#![tactic(auto)]

ghost use Rattle.std.specs.Prelude.{◌≡◌, false, ◌+◌, ◌-◌, ◌<◌, ◌≤◌, length};
ghost use Rattle.conservative_table.specs.ListChanges.{rows};
ghost use Rattle.conservative_table.specs.ProfileLists.{IsProfile, Laying, Advancing};
ghost use Rattle.spans.specs.Index.{blocks};
ghost use Rattle.conservative_index.specs.BuiltIndex.{at, extremes, Built, Indexed, held};
ghost use Rattle.conservative_index.specs.StoredIndex.{stored_blocks};
ghost use Rattle.conservative_index.specs.Anchors.{is_open, over, minute_of, enter, settle, note, Noted, pass_points, pass_block};
ghost use Rattle.conservative_index.specs.Search.{Searches, Sought};
ghost use Rattle.conservative_index.specs.Intake.{Took};

// The index as a value. The blocks stand first; the places past the count are all zero.
// Kept: a rule of the project needs it: no heap, fixed memory.
#[derive(Clone, Copy)]
pub struct Blocks {
    pub count: usize,
    pub list: [spans::Block; 9],
}

impl Blocks {
    // The blocks of this number of points, copied out of the lists.
    // Kept: the new form is no plainer, as at Profile::copied.
    pub fn copied(low: &[u32; 9], high: &[u32; 9], points: usize) -> Blocks
        requires { (length low.now ≡ 9) × (length high.now ≡ 9) × (points ≤ rows) }
        ensures { result ≡ stored_blocks (held low.now high.now (blocks points)) }
    {
        let nothing = spans::Block { fewest: 0, most: 0 };
        let mut list = [nothing; 9];
        let count = points.div_ceil(16);
        for i in 0..count {
            list[i] = spans::Block {
                fewest: low[i],
                most: high[i],
            };
        }
        Blocks { count, list }
    }
}

// The fewest and the most free nodes in these places.
fn extremes_of(free: &[u32; 131], from: usize, to: usize) -> spans::Block
    requires { (length free.now ≡ rows) × (from < to) × (to ≤ rows) }
    ensures { result ≡ extremes (at free.now) from (to - from - 1) }
{
    let mut low = free[from];
    let mut high = low;
    for &left in &free[from + 1..to] {
        low = low.min(left);
        high = high.max(left);
    }
    spans::Block {
        fewest: low,
        most: high,
    }
}

// Brings the index up to date from this block on. The blocks before it are up to date already.
pub fn build(free: &[u32; 131], count: usize, low: &mut [u32; 9], high: &mut [u32; 9], first: usize)
    requires { Built free.now count low.old high.old first × (length free.now ≡ rows) × (count ≤ rows) × (first ≤ 9) }
    ensures { Indexed free.now count low.new high.new }
{
    for b in first..count.div_ceil(16) {
        let from = 16 * b;
        let of = extremes_of(free, from, (from + 16).min(count));
        low[b] = of.fewest;
        high[b] = of.most;
    }
}

// The state of the search: no minute so far will do; or the nodes have been free since a minute; or a minute is found.
#[derive(Clone, Copy)]
pub enum Anchor {
    Lost,
    From(u32),
    Found(u32),
}

// The state of the search after a block, and how many of its points were read.
#[derive(Clone, Copy)]
pub struct Step {
    pub anchor: Anchor,
    pub reads: usize,
}

// The start, and how many points were read.
#[derive(Clone, Copy)]
pub struct Start {
    pub minute: u32,
    pub reads: usize,
}

impl Anchor {
    // The search comes to a minute. The hold may be over by then.
    fn enter(self, hold: u32, minute: u32) -> Anchor
        ensures { result ≡ enter hold minute self }
    {
        match self {
            Anchor::From(since) if since <= minute && hold <= minute - since => {
                Anchor::Found(since)
            }
            other => other,
        }
    }

    // From this minute on there are enough nodes, or there are not.
    fn settle(self, minute: u32, enough: bool) -> Anchor
        ensures { result ≡ settle minute enough self }
    {
        match self {
            Anchor::Lost if enough => Anchor::From(minute),
            Anchor::From(_) if !enough => Anchor::Lost,
            other => other,
        }
    }

    // Whether the minute is found.
    fn is_found(self) -> bool
        ensures { result ≡ over self }
    {
        matches!(self, Anchor::Found(_))
    }

    // Whether the nodes have been free so far.
    fn is_open(self) -> bool
        ensures { result ≡ is_open self }
    {
        matches!(self, Anchor::From(_))
    }

    // The minute since which they have been free, or the minute that was found.
    fn minute(self) -> u32
        ensures { result ≡ minute_of self }
    {
        match self {
            Anchor::Lost => 0,
            Anchor::From(minute) | Anchor::Found(minute) => minute,
        }
    }
}

// Reads the free nodes of these points, each once, notes where there are enough, and gives how many points were read.
fn read_points(
    free: &[u32; 131],
    from: usize,
    to: usize,
    nodes: u32,
    enough: &mut [bool; 16],
) -> usize
    requires { (length free.now ≡ rows) × (length enough.old ≡ 16) × (from ≤ to) × (to ≤ rows) × (to ≤ from + 16) }
    ensures { Noted nodes (at free.now) from (to - from) result enough.new }
{
    let mut reads: usize = 0;
    for &left in &free[from..to] {
        enough[reads] = nodes <= left;
        reads += 1;
    }
    reads
}

// The search passes these points; the notes say which of them have enough nodes. Before them the nodes have been free since a minute, or they have
// not.
fn pass_points(
    minutes: &[u32; 131],
    from: usize,
    enough: &[bool; 16],
    count: usize,
    before: Anchor,
    hold: u32,
) -> Anchor
    requires { (length minutes.now ≡ rows) × (length enough.now ≡ 16) × (from + count ≤ rows) × (count ≤ 16) × (over before ≡ false) }
    ensures { result ≡ pass_points hold (at minutes.now) (note enough.now) from count before }
{
    // Kept: tried, and it misses a bar of speed: matching an enum at each point takes three times as long as these two locals.
    let mut on = before.is_open();
    let mut first = before.minute();
    for (k, &minute) in minutes[from..from + count].iter().enumerate() {
        if on {
            if first <= minute && hold <= minute - first {
                return Anchor::Found(first);
            }
        } else {
            first = minute;
        }
        on = enough[k];
    }
    if on {
        Anchor::From(first)
    } else {
        Anchor::Lost
    }
}

// A block is passed as a whole, or each of its points is read.
fn pass_block(
    minutes: &[u32; 131],
    free: &[u32; 131],
    from: usize,
    to: usize,
    low: u32,
    high: u32,
    anchor: Anchor,
    nodes: u32,
    hold: u32,
) -> Step
    requires { (length minutes.now ≡ rows) × (length free.now ≡ rows) × (from < to) × (to ≤ rows) × (to ≤ from + 16) }
    ensures { result ≡ pass_block nodes hold (at minutes.now) (at free.now) low high from (to - from) anchor }
{
    let minute = minutes[from];
    let here = anchor.enter(hold, minute);
    if here.is_found() {
        return Step {
            anchor: here,
            reads: 0,
        };
    }
    if nodes <= low {
        return Step {
            anchor: here.settle(minute, true),
            reads: 0,
        };
    }
    if high < nodes {
        return Step {
            anchor: Anchor::Lost,
            reads: 0,
        };
    }
    let mut enough = [false; 16];
    let reads = read_points(free, from, to, nodes, &mut enough);
    Step {
        anchor: pass_points(minutes, from, &enough, reads, here, hold),
        reads,
    }
}

// The earliest minute for a job of `nodes` nodes that holds them for `hold` minutes.
pub fn search(
    minutes: &[u32; 131],
    free: &[u32; 131],
    count: usize,
    low: &[u32; 9],
    high: &[u32; 9],
    nodes: u32,
    hold: u32,
) -> Start
    requires { Searches minutes.now free.now count low.now high.now nodes hold }
    ensures { (s : Searches minutes.now free.now count low.now high.now nodes hold) → Sought s result }
{
    let mut anchor = Anchor::Lost;
    let mut reads: usize = 0;
    for b in 0..count.div_ceil(16) {
        let from = 16 * b;
        let to = (from + 16).min(count);
        let step = pass_block(
            minutes, free, from, to, low[b], high[b], anchor, nodes, hold,
        );
        anchor = step.anchor;
        reads += step.reads;
    }
    Start {
        minute: anchor.minute(),
        reads,
    }
}

// A span is laid over the profile, and the index is brought up to date from the first block that may have changed.
pub fn take_in(
    minutes: &mut [u32; 131],
    free: &mut [u32; 131],
    count: usize,
    low: &mut [u32; 9],
    high: &mut [u32; 9],
    x: spans::Span,
) -> usize
    requires { Laying minutes.old free.old 0 count x × Indexed free.old count low.old high.old }
    ensures { (l : Laying minutes.old free.old 0 count x) → Indexed free.old count low.old high.old
        → Took l result minutes.new free.new low.new high.new }
{
    let row = conservative_table::lay(minutes, free, 0, count, x);
    let n = row.count;
    build(free, n, low, high, row.at / 16);
    n
}

// The clock moves on to this minute. Where no point leaves, the index is as it was.
pub fn advance(
    minutes: &mut [u32; 131],
    free: &mut [u32; 131],
    count: usize,
    low: &mut [u32; 9],
    high: &mut [u32; 9],
    t: u32,
) -> usize
    requires { Advancing minutes.old free.old count t × Indexed free.old count low.old high.old }
    ensures { ((l : Advancing minutes.old free.old count t) → IsProfile l.machine l.spans t result minutes.new free.new)
        × Indexed free.new result low.new high.new }
{
    let n = conservative_table::advance(minutes, free, count, t);
    if n != count {
        build(free, n, low, high, 0);
    }
    n
}
