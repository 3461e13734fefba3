// Calls over what is lent, on both kinds of scheduler. It prints what each call answers, refusals too. It prints what stands in a list lent for the
// profile or the index, and in bytes lent for the status page or the lines. The lines are read back, and calls go on from there.
#![tactic(auto)]

ghost use Rattle.std.specs.Prelude.{◌≤◌, length};
ghost use Rattle.jobs.specs.Soundness.{Sound};
ghost use Rattle.jobs.specs.Premise.{Holds};
ghost use Rattle.history.specs.Calls as calls;
ghost use Rattle.guarantees.specs.Premise.{Premise};
ghost use Rattle.calls.specs.TextCall.{ShowsPage, ShowsText, ShowsWhy};
ghost use Rattle.lent_calls.specs.CallContract.{Leaves, LeavesAmended};
ghost use Rattle.lent_calls.specs.AdvanceContract.{LeavesAdvanced};
ghost use Rattle.lent_calls.specs.ProfileContract.{ShowsPoints};
ghost use Rattle.lent_calls.specs.IndexContract.{ShowsBlocks};
ghost use Rattle.lent_calls.specs.RestoreContract.{Restores};
ghost use Rattle.lent_calls.specs.MigrateContract.{Migrates};

use advancing::AdvanceOutcome;
use calls::Shown;
use scheduler::{
    Amendment, Answer, Inquiry, Kind, Opened, Opening, Outcome, Scheduler, Settings, Submission,
    Tenant, Tickets,
};
use spans::{Block, Point};
use std::io::{self, Write};

// These functions lend a scheduler, or a list, of their own, and hand back what was left there.
fn lent_submit(mut d: Scheduler, s: Submission) -> Outcome
    requires { Premise d }
    ensures { Leaves d (calls.submit s) result.answer result.scheduler }
{
    let answer = lent_calls::submit(&mut d, s);
    Outcome {
        answer,
        scheduler: d,
    }
}

fn lent_complete(mut d: Scheduler, ticket: u32) -> Outcome
    requires { Premise d }
    ensures { Leaves d (calls.complete ticket) result.answer result.scheduler }
{
    let answer = lent_calls::complete(&mut d, ticket);
    Outcome {
        answer,
        scheduler: d,
    }
}

fn lent_cancel(mut d: Scheduler, ticket: u32) -> Outcome
    requires { Premise d }
    ensures { Leaves d (calls.cancel ticket) result.answer result.scheduler }
{
    let answer = lent_calls::cancel(&mut d, ticket);
    Outcome {
        answer,
        scheduler: d,
    }
}

fn lent_amend(mut d: Scheduler, a: Amendment) -> Outcome
    requires { Premise d }
    ensures { LeavesAmended d a result.answer result.scheduler }
{
    let answer = lent_calls::amend(&mut d, a);
    Outcome {
        answer,
        scheduler: d,
    }
}

fn lent_tick(mut d: Scheduler) -> Outcome
    requires { Premise d }
    ensures { Leaves d calls.tick result.answer result.scheduler }
{
    let answer = lent_calls::tick(&mut d);
    Outcome {
        answer,
        scheduler: d,
    }
}

fn lent_advance(mut d: Scheduler, minutes: u32) -> AdvanceOutcome
    requires { Premise d }
    ensures { LeavesAdvanced d minutes result.answer result.scheduler }
{
    let answer = lent_calls::advance(&mut d, minutes);
    AdvanceOutcome {
        answer,
        scheduler: d,
    }
}

fn lent_profile<const N: usize>(d: Scheduler, mut points: [Point; N]) -> (Shown, [Point; N])
    requires { Premise d }
    ensures { ShowsPoints d points.entry result.0 result.1 }
{
    let shown = lent_calls::profile(&d, &mut points);
    (shown, points)
}

fn lent_index<const N: usize>(d: Scheduler, mut blocks: [Block; N]) -> (Shown, [Block; N])
    requires { Premise d }
    ensures { ShowsBlocks d blocks.entry result.0 result.1 }
{
    let shown = lent_calls::index(&d, &mut blocks);
    (shown, blocks)
}

fn lent_page(d: Scheduler, page: &mut [u8]) -> Shown
    requires { Premise d }
    ensures { ShowsPage d page.old result page.new }
{
    lent_calls::status_page(&d, page)
}

fn lent_text(d: Scheduler, text: &mut [u8]) -> Shown
    requires { Premise d }
    ensures { ShowsText d text.old result text.new }
{
    lent_calls::checkpoint(&d, text)
}

fn lent_why(d: Scheduler, text: &mut [u8]) -> Shown
    requires { Premise d }
    ensures { ShowsWhy d text.old result text.new }
{
    lent_calls::why(&d, text)
}

fn lent_restore(mut d: Scheduler, text: &[u8]) -> Opened
    ensures { Restores text.now result.refusal result.scheduler }
{
    let refusal = lent_calls::restore(&mut d, text);
    Opened {
        refusal,
        scheduler: d,
    }
}

fn lent_migrate(mut d: Scheduler) -> Scheduler
    requires { Premise d }
    ensures { Migrates d result }
{
    lent_calls::migrate(&mut d);
    d
}

// What cannot be written is passed over.
fn put(rt: &impl Print, bytes: &[u8]) {
    io::writer(rt).write_all(bytes).ok();
}

fn print(rt: &impl Print, n: u32) {
    print!(rt; "{n} ").ok();
}

fn print_count(rt: &impl Print, n: usize) {
    print!(rt; "{n} ").ok();
}

// How many, and the first two.
fn print_tickets(rt: &impl Print, t: Tickets) {
    print_count(rt, t.count);
    print(rt, t.list[0]);
    print(rt, t.list[1]);
}

// Clock after the call, refusal, ticket, promise and points read; the tickets ended; those started; head and forecast.
fn print_answer(rt: &impl Print, clock: u32, a: Answer) {
    print(rt, clock);
    print(rt, a.refusal.code());
    print(rt, a.ticket);
    print(rt, a.promise);
    print(rt, a.reads);
    put(rt, b"over ");
    print_tickets(rt, a.ended);
    put(rt, b"start ");
    print_tickets(rt, a.started);
    put(rt, b"head ");
    print(rt, a.head);
    print(rt, a.forecast);
    put(rt, b"\n");
}

fn submit(rt: &impl Print, d: Scheduler, nodes: u32, estimate: u32, tenant: Tenant) -> Scheduler
    requires { Premise d }
    ensures { Premise result }
{
    let s = Submission {
        nodes,
        estimate,
        tenant,
        least: 0,
    };
    let o = lent_submit(d, s);
    let e = o.scheduler;
    print_answer(rt, e.clock, o.answer);
    e
}

// Jobs of different sizes and lengths, so that the profile gets a point more with nearly each.
fn submit_many(rt: &impl Print, d: Scheduler, from: u32, to: u32) -> Scheduler
    requires { (Premise d) × (to ≤ 40) }
    ensures { Premise result }
{
    let mut e = d;
    for i in from..to {
        e = submit(rt, e, 1 + 5 * i % 23, 5 + 55 * i % 115, Tenant::A);
    }
    e
}

fn complete(rt: &impl Print, d: Scheduler, ticket: u32) -> Scheduler
    requires { Premise d }
    ensures { Premise result }
{
    let o = lent_complete(d, ticket);
    let e = o.scheduler;
    print_answer(rt, e.clock, o.answer);
    e
}

fn cancel(rt: &impl Print, d: Scheduler, ticket: u32) -> Scheduler
    requires { Premise d }
    ensures { Premise result }
{
    let o = lent_cancel(d, ticket);
    let e = o.scheduler;
    print_answer(rt, e.clock, o.answer);
    e
}

fn amend(rt: &impl Print, d: Scheduler, ticket: u32, nodes: u32, least: u32, most: u32) -> Scheduler
    requires { Premise d }
    ensures { Premise result }
{
    let a = Amendment {
        ticket,
        nodes,
        estimate: most,
        least,
    };
    let o = lent_amend(d, a);
    let e = o.scheduler;
    print_answer(rt, e.clock, o.answer);
    e
}

fn tick(rt: &impl Print, d: Scheduler) -> Scheduler
    requires { Premise d }
    ensures { Premise result }
{
    let o = lent_tick(d);
    let e = o.scheduler;
    print_answer(rt, e.clock, o.answer);
    e
}

// How many minutes have passed, and what the last of them gave.
fn advance(rt: &impl Print, d: Scheduler, minutes: u32) -> Scheduler
    requires { Premise d }
    ensures { Premise result }
{
    let o = lent_advance(d, minutes);
    let e = o.scheduler;
    let told = o.answer;
    print(rt, told.minutes);
    print_answer(rt, e.clock, told.answer);
    e
}

fn print_shown(rt: &impl Print, r: Shown) {
    print(rt, r.refusal.code());
    print_count(rt, r.count);
}

fn print_point(rt: &impl Print, p: Point) {
    print(rt, p.minute);
    print(rt, p.free);
}

// The refusal and the count, into a list of none; then into one of four, and what stands in it.
fn show(rt: &impl Print, d: Scheduler)
    requires { Premise d }
{
    let nine = Point { minute: 9, free: 9 };
    let (none, _) = lent_profile(d, [nine; 0]);
    print_shown(rt, none);
    let (shown, four) = lent_profile(d, [nine; 4]);
    print_shown(rt, shown);
    for point in four {
        print_point(rt, point);
    }
    put(rt, b"\n");
}

fn print_block(rt: &impl Print, b: Block) {
    print(rt, b.fewest);
    print(rt, b.most);
}

// The same of the index: for a list of none, and into one of two.
fn index(rt: &impl Print, d: Scheduler)
    requires { Premise d }
{
    let none = calls::index(d, 0);
    print_shown(rt, none.answer);
    let nine = Block { fewest: 9, most: 9 };
    let (shown, two) = lent_index(d, [nine; 2]);
    print_shown(rt, shown);
    for block in two {
        print_block(rt, block);
    }
    put(rt, b"\n");
}

// How many points the profile has, and the first three blocks of its index.
fn blocks(rt: &impl Print, d: Scheduler)
    requires { Premise d }
{
    let points = calls::profile(d, 129);
    print_shown(rt, points.answer);
    let whole = calls::index(d, 9);
    print_shown(rt, whole.answer);
    for &block in &whole.items[..3] {
        print_block(rt, block);
    }
    put(rt, b"\n");
}

// The refusal, and the minute before which the job cannot start.
fn earliest(rt: &impl Print, d: Scheduler, ticket: u32)
    requires { Premise d }
{
    let e = calls::earliest_start(d, ticket);
    print(rt, e.refusal.code());
    print(rt, e.minute);
    put(rt, b"\n");
}

// The refusal, and the largest estimate that would start by the minute.
fn longest(rt: &impl Print, d: Scheduler, nodes: u32, tenant: Tenant, minute: u32)
    requires { Premise d }
{
    let q = Inquiry {
        nodes,
        tenant,
        minute,
    };
    let l = calls::longest_estimate(d, q);
    print(rt, l.refusal.code());
    print(rt, l.estimate);
    put(rt, b"\n");
}

// How many of its bytes are this one.
fn count_of(page: &[u8], byte: u8) -> usize {
    page.iter().filter(|b| **b == byte).count()
}

// The refusal and the count of a call for a text. Then, of the bytes lent, how many are as they were, how many are line ends, and how many are
// `byte`.
fn print_bytes(rt: &impl Print, shown: Shown, bytes: &[u8], byte: u8) {
    print_shown(rt, shown);
    print_count(rt, count_of(bytes, b'x'));
    print_count(rt, count_of(bytes, b'\n'));
    print_count(rt, count_of(bytes, byte));
    put(rt, b"\n");
}

fn page_into(rt: &impl Print, d: Scheduler, page: &mut [u8])
    requires { Premise d }
{
    let shown = lent_page(d, page);
    print_bytes(rt, shown, page, b' ');
}

fn print_front(rt: &impl Print, bytes: &[u8], size: usize) {
    if size <= bytes.len() {
        put(rt, &bytes[..size]);
    }
}

// Into a page that is a byte too short, into one just long enough, and into a longer one; and the first six lines of that.
fn status_page(rt: &impl Print, d: Scheduler)
    requires { Premise d }
{
    let mut short = [b'x'; 4817];
    page_into(rt, d, &mut short);
    let mut exact = [b'x'; 4818];
    page_into(rt, d, &mut exact);
    let mut longer = [b'x'; 4822];
    page_into(rt, d, &mut longer);
    print_front(rt, &longer, 438);
}

// The lines, into the first `size` bytes.
fn text_into_part(d: Scheduler, bytes: &mut [u8], size: usize) -> Shown
    requires { (Premise d) × (size ≤ length bytes.old) }
{
    lent_text(d, &mut bytes[..size])
}

fn text_into(rt: &impl Print, d: Scheduler, bytes: &mut [u8], size: usize) -> usize
    requires { Premise d }
{
    if bytes.len() < size {
        return 0;
    }
    let shown = text_into_part(d, bytes, size);
    print_bytes(rt, shown, bytes, b'\t');
    shown.count
}

fn print_kind(rt: &impl Print, kind: Kind) {
    match kind {
        Kind::Conservative => put(rt, b"conservative "),
        Kind::Easy => put(rt, b"EASY "),
    }
}

// The refusal, and the scheduler handed back: its kind, nodes, cleanup, quotas, longest estimate, clock, next ticket and number of live jobs.
fn print_opened(rt: &impl Print, opened: Opened)
    requires { Holds Sound opened.scheduler }
{
    print(rt, opened.refusal.code());
    let d = opened.scheduler;
    print_kind(rt, d.settings.kind);
    print(rt, d.settings.nodes);
    print(rt, d.settings.cleanup);
    print(rt, d.settings.quota_a);
    print(rt, d.settings.quota_b);
    print(rt, d.settings.longest);
    print(rt, d.clock);
    print(rt, d.next);
    print_count(rt, job_table::first_unused(d));
    put(rt, b"\n");
}

// What lines give back, by value and where a scheduler was lent.
fn reread(rt: &impl Print, d: Scheduler, text: &[u8]) -> Scheduler
    ensures { Premise result }
{
    print_opened(rt, calls::restore(text));
    let left = lent_restore(d, text);
    print_opened(rt, left);
    left.scheduler
}

// The first `size` bytes, read back.
fn reread_part(rt: &impl Print, d: Scheduler, bytes: &[u8], size: usize) -> Scheduler
    requires { Premise d }
    ensures { Premise result }
{
    if size <= bytes.len() {
        return reread(rt, d, &bytes[..size]);
    }
    d
}

// The same with another byte in a place.
fn reread_changed(rt: &impl Print, d: Scheduler, bytes: &mut [u8], size: usize, at: usize, byte: u8)
    requires { Premise d }
{
    if at < bytes.len() {
        let was = bytes[at];
        bytes[at] = byte;
        reread_part(rt, d, bytes, size);
        bytes[at] = was;
    }
}

// None of the lines, with a space in place of their first tab, with the last not closed, with the last number moved by one, and as they are.
fn read_back(rt: &impl Print, d: Scheduler, text: &mut [u8], size: usize) -> Scheduler
    requires { Premise d }
    ensures { Premise result }
{
    reread_part(rt, d, text, 0);
    reread_changed(rt, d, text, size, 4, b' ');
    if size < 2 {
        return d;
    }
    reread_part(rt, d, text, size - 1);
    reread_changed(rt, d, text, size, size - 2, b'1');
    reread_part(rt, d, text, size)
}

// Into just as many bytes as the lines have, and into one too few.
fn text_into_few(rt: &impl Print, d: Scheduler, size: usize)
    requires { Premise d }
{
    let mut exact = [b'x'; 512];
    text_into(rt, d, &mut exact, size);
    if 1 <= size {
        let mut short = [b'x'; 512];
        text_into(rt, d, &mut short, size - 1);
    }
}

// The lines, first into more bytes; and what they give back.
fn checkpoint(rt: &impl Print, d: Scheduler) -> Scheduler
    requires { Premise d }
    ensures { Premise result }
{
    let mut text = [b'x'; 512];
    let size = text_into(rt, d, &mut text, 512);
    text_into_few(rt, d, size);
    print_front(rt, &text, size);
    read_back(rt, d, &mut text, size)
}

// Why jobs wait, into the first `size` bytes.
fn why_into_part(d: Scheduler, bytes: &mut [u8], size: usize) -> Shown
    requires { (Premise d) × (size ≤ length bytes.old) }
{
    lent_why(d, &mut bytes[..size])
}

fn why_into(rt: &impl Print, d: Scheduler, bytes: &mut [u8], size: usize) -> usize
    requires { Premise d }
{
    if bytes.len() < size {
        return 0;
    }
    let shown = why_into_part(d, bytes, size);
    print_bytes(rt, shown, bytes, b',');
    shown.count
}

// Into more bytes than the sentences have, and these; into just as many, and into one too few.
fn why(rt: &impl Print, d: Scheduler)
    requires { Premise d }
{
    let mut text = [b'x'; 256];
    let size = why_into(rt, d, &mut text, 256);
    print_front(rt, &text, size);
    let mut exact = [b'x'; 256];
    why_into(rt, d, &mut exact, size);
    if 1 <= size {
        let mut short = [b'x'; 256];
        why_into(rt, d, &mut short, size - 1);
    }
}

fn print_lines(rt: &impl Print, d: Scheduler)
    requires { Premise d }
{
    let mut text = [b'x'; 512];
    let shown = lent_text(d, &mut text);
    print_shown(rt, shown);
    put(rt, b"\n");
    print_front(rt, &text, shown.count);
}

// The lines of the scheduler that the change to conservative backfilling hands back, by value and where one was lent.
fn migrate(rt: &impl Print, d: Scheduler) -> Scheduler
    requires { Premise d }
    ensures { Premise result }
{
    print_lines(rt, calls::migrate(d));
    let e = lent_migrate(d);
    print_lines(rt, e);
    e
}

fn open_up_to(
    rt: &impl Print,
    kind: Kind,
    nodes: u32,
    minute: u32,
    cleanup: u32,
    quota_a: u32,
    longest: u32,
) -> Scheduler
    ensures { Premise result }
{
    let opened = Scheduler::open(Opening {
        settings: Settings {
            kind,
            nodes,
            cleanup,
            quota_a,
            quota_b: 1,
            longest,
        },
        minute,
        ticket: 1,
    });
    print_opened(rt, opened);
    opened.scheduler
}

fn open(
    rt: &impl Print,
    kind: Kind,
    nodes: u32,
    minute: u32,
    cleanup: u32,
    quota_a: u32,
) -> Scheduler
    ensures { Premise result }
{
    open_up_to(
        rt,
        kind,
        nodes,
        minute,
        cleanup,
        quota_a,
        Scheduler::LONGEST_ESTIMATE,
    )
}

// Corrected orders: refused by 11, 1, 2 and 19; in place, with an estimate that grows within its held time, and with fewer nodes, by which the next
// one starts.
fn amend_in_place(rt: &impl Print, d: Scheduler)
    requires { Premise d }
{
    let s3 = amend(rt, d, 1, 6, 0, 20);
    let s4 = amend(rt, s3, 2, 11, 0, 0);
    let s5 = amend(rt, s4, 2, 8, 11, 10081);
    let s6 = amend(rt, s5, 2, 8, 11, 10);
    let s7 = amend(rt, s6, 3, 4, 1, 25);
    let s8 = amend(rt, s7, 2, 6, 0, 10);
    print_lines(rt, s8);
}

// Anew: by one node, and by the held time alone, with fewer nodes.
fn amend_anew(rt: &impl Print, d: Scheduler)
    requires { Premise d }
{
    let s3 = amend(rt, d, 2, 9, 0, 10);
    print_lines(rt, s3);
    let s4 = amend(rt, d, 3, 1, 5, 26);
    print_lines(rt, s4);
}

fn corrected_orders(rt: &impl Print) {
    let s = open(rt, Kind::Conservative, 10, 0, 0, 63);
    let s0 = submit(rt, s, 6, 20, Tenant::A);
    let s1 = submit(rt, s0, 8, 10, Tenant::A);
    let s2 = submit(rt, s1, 4, 25, Tenant::A);
    amend_in_place(rt, s2);
    amend_anew(rt, s2);
    // near the last minute one that grows is refused, and the old order stays
    let t = open(rt, Kind::Conservative, 10, 999940, 0, 63);
    let t1 = submit(rt, t, 10, 30, Tenant::A);
    let t2 = submit(rt, t1, 4, 10, Tenant::B);
    let t3 = amend(rt, t2, 2, 5, 0, 31);
    print_lines(rt, t3);
    // EASY: the head is corrected in place and starts; anew it is no longer the head
    let u = open(rt, Kind::Easy, 10, 0, 7, 63);
    let u1 = submit(rt, u, 6, 20, Tenant::A);
    let u2 = submit(rt, u1, 8, 10, Tenant::B);
    let u3 = submit(rt, u2, 5, 30, Tenant::A);
    let u4 = amend(rt, u3, 2, 4, 2, 9);
    print_lines(rt, u4);
    let u5 = amend(rt, u3, 2, 8, 0, 11);
    print_lines(rt, u5);
}

// Minutes that pass at once, of a job that runs, one in cleanup and two that wait. Refused by 2: none, and too many.
fn advance_past(rt: &impl Print, kind: Kind) {
    let s = open(rt, kind, 10, 0, 2, 63);
    let s1 = submit(rt, s, 6, 5, Tenant::A);
    let s2 = submit(rt, s1, 8, 5, Tenant::A);
    let s3 = submit(rt, s2, 4, 10, Tenant::B);
    let s4 = advance(rt, s3, 0);
    let s5 = advance(rt, s4, 10081);
    // up to the minute before the first end, to that end, to the minute before its nodes are free, and far beyond: to the next start
    let s6 = advance(rt, s5, 4);
    let s7 = advance(rt, s6, 1);
    let s8 = advance(rt, s7, 1);
    let s9 = advance(rt, s8, 10080);
    // its end, the start of the last, its end, its release, and then nothing is due any more
    let s10 = advance(rt, s9, 10080);
    let s11 = advance(rt, s10, 2);
    let s12 = advance(rt, s11, 10);
    let s13 = advance(rt, s12, 3);
    let s14 = advance(rt, s13, 10080);
    print_lines(rt, s14);
}

// The last minute: one beyond it is refused by 6, and then every one.
fn advance_to_last(rt: &impl Print, kind: Kind) {
    let s = open_up_to(rt, kind, 10, 999930, 0, 63, 60);
    let s1 = submit(rt, s, 10, 5, Tenant::A);
    let s2 = advance(rt, s1, 71);
    let s3 = advance(rt, s2, 70);
    let s4 = advance(rt, s3, 65);
    let s5 = advance(rt, s4, 1);
    print_lines(rt, s5);
}

fn main(rt: HostRuntime) {
    // conservative: the list is longer than the profile, then as long, then too short
    let d = open(&rt, Kind::Conservative, 10, 0, 0, 63);
    show(&rt, d);
    let d1 = submit(&rt, d, 6, 20, Tenant::A);
    let d2 = submit(&rt, d1, 8, 10, Tenant::A);
    let d3 = submit(&rt, d2, 4, 25, Tenant::A);
    show(&rt, d3);
    index(&rt, d3);
    earliest(&rt, d3, 3);
    earliest(&rt, d3, 1);
    // up to the second job; from the third on any; none; refused by 14 and by 1
    longest(&rt, d3, 4, Tenant::A, 29);
    longest(&rt, d3, 4, Tenant::B, 30);
    longest(&rt, d3, 5, Tenant::A, 29);
    longest(&rt, d3, 11, Tenant::Nobody, 0);
    longest(&rt, d3, 11, Tenant::A, 0);
    status_page(&rt, d3);
    // document 02's own sentence among them
    why(&rt, d3);
    let again = checkpoint(&rt, d3);
    let d4 = submit(&rt, again, 1, 5, Tenant::A);
    show(&rt, d4);
    let d5 = submit(&rt, d4, 11, 5, Tenant::A);
    let d6 = complete(&rt, d5, 2);
    let d7 = complete(&rt, d6, 1);
    let d8 = tick(&rt, d7);
    show(&rt, d8);
    // none starts now, any does, and the minute has passed
    longest(&rt, d8, 2, Tenant::A, 1);
    longest(&rt, d8, 1, Tenant::A, 1);
    longest(&rt, d8, 11, Tenant::Nobody, 0);
    // one that runs cannot be withdrawn, one that waits can
    let d9 = cancel(&rt, d8, 2);
    let d10 = cancel(&rt, d9, 3);
    show(&rt, d10);
    // EASY: no profile
    let e = open(&rt, Kind::Easy, 10, 0, 0, 63);
    let e1 = submit(&rt, e, 6, 20, Tenant::A);
    let e2 = submit(&rt, e1, 8, 10, Tenant::A);
    let e3 = submit(&rt, e2, 3, 21, Tenant::A);
    let e4 = submit(&rt, e3, 2, 100, Tenant::A);
    let e5 = submit(&rt, e4, 1, 0, Tenant::A);
    show(&rt, e5);
    index(&rt, e5);
    earliest(&rt, e5, 3);
    earliest(&rt, e5, 6);
    longest(&rt, e5, 11, Tenant::Nobody, 0);
    why(&rt, e5);
    let e6 = complete(&rt, e5, 1);
    let e7 = complete(&rt, e6, 1);
    let e8 = tick(&rt, e7);
    // the head is withdrawn, and the next hears its forecast
    let e9 = submit(&rt, e8, 5, 10, Tenant::A);
    let e10 = cancel(&rt, e9, 4);
    let e11 = cancel(&rt, e10, 3);
    // at the last minute no clock moves
    let f = open(&rt, Kind::Conservative, 10, 1000000, 0, 63);
    let f1 = tick(&rt, f);
    show(&rt, f1);
    longest(&rt, f1, 1, Tenant::A, 1000000);
    // a refused opening hands back an empty scheduler of its kind, which takes jobs
    let g = open(&rt, Kind::Conservative, 0, 5, 7, 63);
    let g1 = submit(&rt, g, 1, 5, Tenant::A);
    let h = open(&rt, Kind::Easy, 1025, 5, 7, 63);
    let h1 = submit(&rt, h, 1, 5, Tenant::A);
    open(&rt, Kind::Easy, 10, 5, 31, 63);
    open(&rt, Kind::Conservative, 10, 5, 0, 62);
    // nodes stay taken after a run, and a job in cleanup runs no longer
    let k = open(&rt, Kind::Conservative, 10, 0, 7, 63);
    let k1 = submit(&rt, k, 6, 20, Tenant::A);
    let k2 = complete(&rt, k1, 1);
    show(&rt, k2);
    let k3 = complete(&rt, k2, 1);
    // of 27 minutes 7 are for the cleanup
    let k4 = submit(&rt, k1, 10, 10, Tenant::A);
    longest(&rt, k4, 4, Tenant::A, 0);
    // B has one place, and its job in cleanup takes it; a tenant that is neither has none
    let l = open(&rt, Kind::Easy, 10, 0, 7, 63);
    let l1 = submit(&rt, l, 1, 5, Tenant::B);
    let l2 = complete(&rt, l1, 1);
    let l3 = submit(&rt, l2, 1, 5, Tenant::B);
    let l4 = submit(&rt, l3, 1, 5, Tenant::A);
    let l5 = submit(&rt, l4, 11, 5, Tenant::Nobody);
    let l6 = submit(&rt, l5, 10, 121, Tenant::A);
    status_page(&rt, l6);
    let l7 = checkpoint(&rt, l6);
    let l8 = complete(&rt, l7, 2);
    let l9 = tick(&rt, l8);
    // a longest estimate outside its range is refused ahead of all else
    open_up_to(&rt, Kind::Conservative, 10, 5, 7, 63, 0);
    open_up_to(&rt, Kind::Easy, 0, 5, 31, 62, 10081);
    // up to 60 minutes, and no estimate above
    let n = open_up_to(&rt, Kind::Conservative, 10, 0, 7, 63, 60);
    let n1 = submit(&rt, n, 4, 60, Tenant::A);
    let n2 = submit(&rt, n1, 4, 61, Tenant::A);
    longest(&rt, n2, 6, Tenant::A, 0);
    longest(&rt, n2, 7, Tenant::A, 66);
    longest(&rt, n2, 7, Tenant::A, 67);
    // the last minute is judged by 60 minutes for each that waits
    let p = open_up_to(&rt, Kind::Easy, 10, 999880, 0, 63, 60);
    let p1 = submit(&rt, p, 1, 60, Tenant::A);
    let p2 = submit(&rt, p1, 10, 60, Tenant::A);
    let p3 = submit(&rt, p2, 1, 5, Tenant::A);
    let p4 = submit(&rt, p3, 1, 61, Tenant::A);
    // longer profiles: searches that read points of one, two and three blocks
    let q = open(&rt, Kind::Conservative, 64, 0, 0, 63);
    let q1 = submit_many(&rt, q, 0, 20);
    blocks(&rt, q1);
    let q2 = submit_many(&rt, q1, 20, 40);
    blocks(&rt, q2);
    let q3 = complete(&rt, q2, 3);
    blocks(&rt, q3);
    let q4 = cancel(&rt, q3, 33);
    blocks(&rt, q4);
    let q5 = submit(&rt, q4, 12, 300, Tenant::A);
    blocks(&rt, q5);
    // EASY becomes conservative: a job in cleanup and one that runs keep their starts as promises, two that wait are planned, and calls go on
    let r = open(&rt, Kind::Easy, 10, 0, 7, 63);
    let r1 = submit(&rt, r, 6, 20, Tenant::A);
    let r2 = submit(&rt, r1, 3, 5, Tenant::B);
    let r3 = complete(&rt, r2, 2);
    let r4 = submit(&rt, r3, 8, 10, Tenant::A);
    let r5 = submit(&rt, r4, 4, 30, Tenant::A);
    print_lines(&rt, r5);
    let r6 = migrate(&rt, r5);
    show(&rt, r6);
    earliest(&rt, r5, 3);
    earliest(&rt, r6, 3);
    let r7 = submit(&rt, r6, 1, 20, Tenant::A);
    let r8 = complete(&rt, r7, 1);
    // jobs in cleanup, running jobs and planned jobs hold nodes
    why(&rt, r7);
    why(&rt, r8);
    let r9 = tick(&rt, r8);
    // who runs next may be withdrawn before, and a conservative scheduler is handed back as it is
    let r10 = cancel(&rt, r9, 3);
    let r11 = migrate(&rt, r10);
    show(&rt, r11);
    corrected_orders(&rt);
    advance_past(&rt, Kind::Conservative);
    advance_past(&rt, Kind::Easy);
    advance_to_last(&rt, Kind::Conservative);
    advance_to_last(&rt, Kind::Easy);
}
