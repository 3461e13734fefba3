// EASY backfilling (document 01: "Loose Desk") over lent lists of numbers: which of the waiting jobs start, one after another. For the jobs that
// hold nodes the lists have the nodes and the minutes in which they are free again, in any order. For the waiting jobs, in ticket order, they have
// nodes and estimates.
#![tactic(auto)]

ghost use Rattle.std.specs.Prelude.{ℕ, ◌≡◌, true, cond, ◌&&◌, ◌||◌, List, ◌+◌, ◌≤◌, ◌<◌, leb, ltb, length, position as std_position, IfSome};
ghost use Rattle.lists.specs.Tests.{on};
ghost use Rattle.lists.specs.Chains.{option_of};
ghost use Rattle.lists.specs.Loops.{position};
ghost use Rattle.scheduler.specs.declared.Job.{Job};
ghost use Rattle.scheduler.specs.Limits.{horizon, slots};
ghost use Rattle.scheduler.specs.Settings.{hold_time, until};
ghost use Rattle.scheduler.specs.Table.{ticket_of};
ghost use Rattle.scheduler.specs.Model.{Model};
ghost use Rattle.jobs.specs.Soundness.{Sound};
ghost use Rattle.easy_rules.specs.Easy.{head, free, avail, shadow, choice, forecast};
ghost use Rattle.easy_laws.specs.Validity.{Ready};
ghost use Rattle.job_columns.specs.Columns.{Column, estimate_of};
ghost use Rattle.job_columns.specs.Searches.{place_of};
ghost use Rattle.easy_engine.specs.Survey.{asks, Held, Lacks, Surveyed, asks_to, may_pass};
ghost use Rattle.easy_engine.specs.Survey.{Begun, Settlement, StartsInTime, SurveyRests, ticket_in, announced, Announces, Unsettled};
ghost use Rattle.easy_engine.specs.Survey.{head_before, Answers};
ghost use Rattle.easy_engine.specs.BySlot.{SlotSurvey, SlotAnswers, AtRest};
ghost use Rattle.easy_engine.specs.Found.{Chosen};

use scheduler::{Scheduler, Settings};

// More nodes than any machine has: what a job asks for once it has started.
const NOBODY: u32 = Scheduler::NODES + 1;

// The nodes, if they are given back by this minute.
fn given(nodes: u32, end: u32, minute: u32) -> u32
    ensures { result ≡ on (leb end minute) nodes }
{
    if end <= minute {
        return nodes;
    }
    0
}

// The nodes free now and those that are given back by this minute.
#[tactic(auto, using(crate::specs::Shadows::holding_few))]
pub fn avail_at(held: &[u32; 64], ends: &[u32; 64], running: usize, spare: u32, minute: u32) -> u32
    requires { Held held.now ends.now running spare }
    ensures { (h : Held held.now ends.now running spare) → result ≡ avail h.model minute }
{
    let mut sum = spare;
    for i in 0..running {
        sum += given(held[i], ends[i], minute);
    }
    sum
}

// This end, if it is before the best minute so far and the nodes suffice then; otherwise that minute.
// Kept: `min` over the ends that suffice is no plainer, and it would add up the nodes at every end, not only at those before the best.
fn sooner(
    held: &[u32; 64],
    ends: &[u32; 64],
    running: usize,
    spare: u32,
    nodes: u32,
    best: u32,
    end: u32,
) -> u32
    requires { Held held.now ends.now running spare }
    ensures { (h : Held held.now ends.now running spare) → result ≡ cond (ltb end best && leb nodes (avail h.model end)) end best }
{
    if end < best {
        if nodes <= avail_at(held, ends, running, spare, end) {
            return end;
        }
    }
    best
}

// The shadow: the smallest minute at which the nodes suffice for one that needs more than are there now.
pub fn shadow(
    held: &[u32; 64],
    ends: &[u32; 64],
    running: usize,
    spare: u32,
    nodes: u32,
    latest: u32,
) -> u32
    requires { Lacks held.now ends.now running spare nodes latest }
    ensures { (l : Lacks held.now ends.now running spare nodes latest) → result ≡ shadow l.of.model nodes }
{
    let mut best = latest;
    for &end in &ends[..running] {
        best = sooner(held, ends, running, spare, nodes, best, end);
    }
    best
}

// The place of the first number that is no more than this.
fn first_to(numbers: &[u32], most: u32) -> Option<usize>
    ensures { result ≡ std_position (λ (n : ℕ). leb n most) numbers.now }
{
    numbers.iter().position(|n| *n <= most)
}

// The place of the first job that asks for no more than these nodes.
pub fn first_within(asked: &[u32; 64], waiting: usize, most: u32) -> Option<usize>
    requires { waiting ≤ slots }
    ensures place { (ws : List Job) → Column asks ws asked.now → length ws ≡ waiting → option_of result ≡ position (asks_to most) ws }
    ensures within { IfSome result (λ (i : ℕ). i < waiting) }
{
    first_to(&asked[..waiting], most)
}

// Whether a job fits now, and is over in time or fits the extra nodes.
pub fn may_pass(
    nodes: u32,
    estimate: u32,
    spare: u32,
    extra: u32,
    room: u32,
    settings: Settings,
) -> bool
    ensures { result ≡ (leb nodes spare && (leb (hold_time settings estimate) room || leb nodes extra)) }
{
    if spare < nodes {
        return false;
    }
    if nodes <= extra {
        return true;
    }
    settings.hold_time(estimate) <= room
}

// The place of the first job that may pass the head. The search begins at the first job that fits.
fn forward(
    asked: &[u32; 64],
    estimates: &[u32; 64],
    waiting: usize,
    fit: usize,
    spare: u32,
    extra: u32,
    room: u32,
    settings: Settings,
) -> Option<usize>
    requires { waiting ≤ slots }
    ensures { (ws : List Job) → Column asks ws asked.now → Column estimate_of ws estimates.now → length ws ≡ waiting
        → fit ≡ place_of (position (asks_to spare) ws) waiting → option_of result ≡ position (may_pass settings spare extra room) ws }
{
    for i in fit..waiting {
        if may_pass(asked[i], estimates[i], spare, extra, room, settings) {
            return Some(i);
        }
    }
    None
}

// The place of the waiting job that starts next, if one can: the head if its nodes are free now, otherwise the first that may pass it. If no job
// fits, no shadow is sought.
fn choose(
    held: &[u32; 64],
    ends: &[u32; 64],
    running: usize,
    asked: &[u32; 64],
    estimates: &[u32; 64],
    waiting: usize,
    clock: u32,
    spare: u32,
    settings: Settings,
) -> Option<usize>
    requires { Surveyed held.now ends.now running asked.now estimates.now waiting clock spare settings }
    ensures { (s : Surveyed held.now ends.now running asked.now estimates.now waiting clock spare settings)
        → Chosen s.asking waiting (choice s.model) result }
{
    let h = first_within(asked, waiting, Scheduler::NODES)?;
    let need = asked[h];
    if need <= spare {
        return Some(h);
    }
    let fit = first_within(asked, waiting, spare)?;
    let latest = clock + settings.unit();
    let minute = shadow(held, ends, running, spare, need, latest);
    let extra = avail_at(held, ends, running, spare, minute) - need;
    let room = minute - clock;
    forward(asked, estimates, waiting, fit, spare, extra, room, settings)
}

// The job in this place starts now. It is added to those that run, asks for no more nodes, and its place is noted. Its nodes are returned.
fn start(
    held: &mut [u32; 64],
    ends: &mut [u32; 64],
    running: usize,
    asked: &mut [u32; 64],
    estimates: &[u32; 64],
    order: &mut [u32; 64],
    count: usize,
    i: usize,
    clock: u32,
    settings: Settings,
) -> u32
    requires { (running < slots) × (count < slots) × (i < slots) × (clock ≤ horizon) }
    ensures { Begun held.old ends.old asked.old order.old estimates.now running count i
        clock settings result held.new ends.new asked.new order.new }
{
    let n = asked[i];
    held[running] = n;
    ends[running] = clock + settings.hold_time(estimates[i]);
    asked[i] = NOBODY;
    order[count] = i as u32;
    n
}

// How many jobs run after a settling, how many of them it started, and the nodes then free.
#[derive(Clone, Copy)]
struct Settled {
    running: usize,
    count: usize,
    spare: u32,
}

// Starts jobs one after another until no job can start. Their places are noted in order, from `count` on.
fn settle(
    held: &mut [u32; 64],
    ends: &mut [u32; 64],
    running: usize,
    asked: &mut [u32; 64],
    estimates: &[u32; 64],
    waiting: usize,
    order: &mut [u32; 64],
    count: usize,
    clock: u32,
    spare: u32,
    settings: Settings,
) -> Settled
    requires { Surveyed held.old ends.old running asked.old estimates.now waiting clock spare settings × (count ≤ running) }
    ensures { (s : Surveyed held.old ends.old running asked.old estimates.now waiting clock spare settings)
        → Settlement s.model s.jobs s.asking estimates.now running waiting clock settings count order.old result held.new
        ends.new asked.new order.new }
{
    let Some(i) = choose(
        held, ends, running, asked, estimates, waiting, clock, spare, settings,
    ) else {
        return Settled {
            running,
            count,
            spare,
        };
    };
    let n = start(
        held, ends, running, asked, estimates, order, count, i, clock, settings,
    );
    settle(
        held,
        ends,
        running + 1,
        asked,
        estimates,
        waiting,
        order,
        count + 1,
        clock,
        spare - n,
        settings,
    )
}

// Turns each minute from which nodes are held into the minute until which they are held. (For a job in cleanup the estimate is 0, and its hold time
// is the cleanup alone.)
fn fill_ends(ends: &mut [u32; 64], terms: &[u32; 64], running: usize, settings: Settings)
    requires { StartsInTime ends.old terms.now running }
    ensures { (s : StartsInTime ends.old terms.now running) → Column (until settings) s.jobs ends.new }
{
    for i in 0..running {
        ends[i] += settings.hold_time(terms[i]);
    }
}

// Whether no job fits and the first that waits was head before: then no job starts and none is announced.
fn rests(before: u32, asked: &[u32; 64], tickets: &[u32; 64], waiting: usize, spare: u32) -> bool
    requires { waiting ≤ slots }
    ensures { (ws : List Job) → Column asks ws asked.now → Column ticket_of ws tickets.now → length ws ≡ waiting → result ≡ true
        → SurveyRests ws spare before }
{
    if first_within(asked, waiting, spare).is_some() {
        return false;
    }
    waiting == 0 || tickets[0] == before
}

// A job that is head now and was not before, with its forecast; 0 if there is none.
// Kept: the definition `announced` of specs/Survey gives this type, with 0 for none.
#[derive(Clone, Copy)]
pub struct Announced {
    pub ticket: u32,
    pub minute: u32,
}

// The head and its forecast, if it is another than before.
fn announce(
    before: u32,
    held: &[u32; 64],
    ends: &[u32; 64],
    running: usize,
    asked: &[u32; 64],
    tickets: &[u32; 64],
    waiting: usize,
    clock: u32,
    spare: u32,
    settings: Settings,
) -> Announced
    requires { Announces held.now ends.now running asked.now tickets.now waiting clock spare settings }
    ensures { (a : Announces held.now ends.now running asked.now tickets.now waiting clock spare settings)
        (b : Model)
        → before ≡ ticket_in (head b) → result ≡ announced (forecast b a.surveyed.model) }
{
    let nobody = Announced {
        ticket: 0,
        minute: 0,
    };
    let Some(h) = first_within(asked, waiting, Scheduler::NODES) else {
        return nobody;
    };
    let ticket = tickets[h];
    if before == ticket {
        return nobody;
    }
    let latest = clock + settings.unit();
    let minute = shadow(held, ends, running, spare, asked[h], latest);
    Announced { ticket, minute }
}

// Who was head before a call that gave or withdrew a ticket (0 for neither), by the first job that waits now.
// Kept: the definition `head_before` of specs/Survey takes 0 for neither, and easy_columns calls this by it.
pub fn head_before(first: u32, ticket: u32, withdrawn: u32) -> u32
    ensures { result ≡ head_before ticket withdrawn first }
{
    if first == ticket {
        return withdrawn;
    }
    if withdrawn == 0 {
        return first;
    }
    if withdrawn < first {
        return withdrawn;
    }
    first
}

// What a call answers by settling: how many jobs start, and the new head with its forecast.
// Kept: the definition `Answers` of specs/Survey reads the head and the forecast as numbers, and `Answer`, which C sees, has them so.
#[derive(Clone, Copy)]
pub struct Answered {
    pub started: usize,
    pub head: u32,
    pub forecast: u32,
}

// Settles after a call, given the head before it. The survey has filled the lists: `ends` has the minutes from which nodes are held, `terms` the
// estimates for which they are. The places of the jobs that start are noted in order.
pub fn settle_all(
    before: u32,
    held: &mut [u32; 64],
    ends: &mut [u32; 64],
    terms: &[u32; 64],
    running: usize,
    asked: &mut [u32; 64],
    estimates: &[u32; 64],
    tickets: &[u32; 64],
    waiting: usize,
    order: &mut [u32; 64],
    clock: u32,
    spare: u32,
    settings: Settings,
) -> Answered
    requires { Unsettled held.old ends.old terms.now running asked.old estimates.now tickets.now waiting order.old clock spare settings }
    ensures { (u : Unsettled held.old ends.old terms.now running asked.old estimates.now
        tickets.now waiting order.old clock spare settings) → Answers u.scheduler u.places before order.new result }
{
    if rests(before, asked, tickets, waiting, spare) {
        return Answered {
            started: 0,
            head: 0,
            forecast: 0,
        };
    }
    fill_ends(ends, terms, running, settings);
    let s = settle(
        held, ends, running, asked, estimates, waiting, order, 0, clock, spare, settings,
    );
    let new = announce(
        before, held, ends, s.running, asked, tickets, waiting, clock, s.spare, settings,
    );
    Answered {
        started: s.count,
        head: new.ticket,
        forecast: new.minute,
    }
}

// ## By slot: the lists are the columns of all live jobs, those that wait and those that do not.

// The ticket of the first that waits; 0 where nobody does.
// Kept: the clause says it by `ticket_in`, which gives 0 for nobody, and easy_columns hands it on to `head_before`.
pub fn leading(asked: &[u32; 64], tickets: &[u32; 64], live: usize) -> u32
    requires { live ≤ slots }
    ensures { (m : Model) → Sound m → Column asks m.jobs asked.now → Column ticket_of m.jobs tickets.now → length m.jobs ≡ live
        → result ≡ ticket_in (head m) }
{
    match first_within(asked, live, Scheduler::NODES) {
        Some(h) => tickets[h],
        None => 0,
    }
}

// Whether nobody fits, and the first that waits is the head of before, or nobody waits: then nobody starts and nobody is announced.
pub fn rests_at(before: u32, asked: &[u32; 64], first: u32, live: usize, spare: u32) -> bool
    requires { live ≤ slots }
    ensures { (b m : Model) → Ready m → Column asks m.jobs asked.now → length m.jobs ≡ live → spare ≡ free m → first ≡ ticket_in (head m)
        → before ≡ ticket_in (head b) → result ≡ true → AtRest b m }
{
    if first_within(asked, live, spare).is_some() {
        return false;
    }
    first == 0 || first == before
}

// How many jobs start, the new head with its forecast, and the nodes then free.
// Kept: the definition `SlotAnswers` of specs/BySlot reads the head and the forecast as numbers.
#[derive(Clone, Copy)]
pub struct SlotAnswer {
    pub started: usize,
    pub head: u32,
    pub forecast: u32,
    pub spare: u32,
}

// Settles after a call that found this head. The slots of those who start are noted in order.
pub fn settle_slots(
    before: u32,
    held: &mut [u32; 64],
    ends: &mut [u32; 64],
    running: usize,
    asked: &mut [u32; 64],
    estimates: &[u32; 64],
    tickets: &[u32; 64],
    live: usize,
    order: &mut [u32; 64],
    clock: u32,
    spare: u32,
    settings: Settings,
) -> SlotAnswer
    requires { SlotSurvey held.old ends.old running asked.old estimates.now tickets.now live order.old clock spare settings }
    ensures { (s : SlotSurvey held.old ends.old running asked.old estimates.now tickets.now live
        order.old clock spare settings)
        → SlotAnswers s.model s.jobs before running result held.new ends.new asked.new order.new }
{
    let s = settle(
        held, ends, running, asked, estimates, live, order, 0, clock, spare, settings,
    );
    let new = announce(
        before, held, ends, s.running, asked, tickets, live, clock, s.spare, settings,
    );
    SlotAnswer {
        started: s.count,
        head: new.ticket,
        forecast: new.minute,
        spare: s.spare,
    }
}
