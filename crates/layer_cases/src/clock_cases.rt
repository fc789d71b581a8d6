// Cases of the clock. Edge figure P8 of document 01: the edges of rate 129024 from 0 up to 1 s and up
// to one fraction unit earlier. Then that clock moved in place, to 1 s and, refused, too far. Then four
// kinds of lines. A wide number is two words, its seconds and its 64-bit fraction of a second; a clock
// is its last edge, its rate p/q (an LCD rate), the fraction, which counts p-ths of a fraction unit, and
// the ordinal. The answers stand behind the |, which no line has.
use checks::Numbered;
use clock::{Clock, Rate, Time};
use ffi::clock_words::{
    nt7508_clock_edges_to, nt7508_clock_moved, nt7508_clock_new, nt7508_time_from_micros,
};
use replay::Numbers;
use std::io;

fn print_edges(rt: &impl Print, clock: Clock, rate: Rate, now: Time) -> io::Result<()> {
    match clock.edges_to(rate, now) {
        Ok(edges) => println!(rt; "{edges}"),
        Err(_) => println!(rt; "refused"),
    }
}

// Moves a clock in place and prints the refusal's number, 0 where there is none, then the last edge and
// the ordinal of the clock that is left.
fn print_advanced(rt: &impl Print, clock: &mut Clock, rate: Rate, edges: u64) -> io::Result<()> {
    let number = match clock.advance(rate, edges) {
        Ok(()) => 0,
        Err(refusal) => refusal.number(),
    };
    println!(rt;
        "advance {number} {} {} {}",
        clock.at.seconds, clock.at.fraction, clock.ordinal
    )
}

pub(crate) fn figures(rt: &impl Print) -> io::Result<()> {
    let rate = Rate::lcd(0, 0, 128);
    let Ok(mut clock) = Clock::new(Time::ZERO, rate) else {
        return println!(rt; "refused");
    };
    print_edges(
        rt,
        clock,
        rate,
        Time {
            seconds: 1,
            fraction: 0,
        },
    )?;
    print_edges(
        rt,
        clock,
        rate,
        Time {
            seconds: 0,
            fraction: u64::MAX,
        },
    )?;
    // The second time by more edges than there are up to 2^32 s.
    print_advanced(rt, &mut clock, rate, 129024)?;
    print_advanced(rt, &mut clock, rate, 0x4_0000_0000_0000)
}

fn rate_of(w: &Numbers) -> Rate {
    Rate {
        numerator: w[2],
        denominator: w[3],
    }
}

// The words of the clock that starts as a line says, at.s at.f p q.
fn new_clock(w: &Numbers) -> Option<[u64; 8]> {
    let at = Time {
        seconds: w[0],
        fraction: w[1],
    };
    let mut clock = [0; 8];
    (nt7508_clock_new(at, rate_of(w), &mut clock) == 0).then_some(clock)
}

// The words of the clock of a line: at.s at.f p q fraction ordinal. Its period is that of its rate.
fn clock_of(w: &Numbers) -> Option<[u64; 8]> {
    let mut clock = new_clock(w)?;
    clock[6..].copy_from_slice(&w[4..6]);
    Some(clock)
}

// Kind 1: us | seconds fraction
pub(crate) fn micros_agree(w: &Numbers) -> bool {
    let mut time = [0; 2];
    nt7508_time_from_micros(w[0], &mut time);
    time[..] == w[1..3]
}

// Kind 2: at.s at.f p q | whole.s whole.f remainder denominator fraction ordinal
pub(crate) fn new_agrees(w: &Numbers) -> bool {
    new_clock(w).is_some_and(|clock| (clock[..2] == w[..2]) & (clock[2..] == w[4..10]))
}

// Kind 3: a clock, now.s now.f | edges up to and including now
pub(crate) fn edges_agree(w: &Numbers) -> bool {
    let now = Time {
        seconds: w[6],
        fraction: w[7],
    };
    let Some(clock) = clock_of(w) else {
        return false;
    };
    let mut edges = 0;
    (nt7508_clock_edges_to(&clock, rate_of(w), now, &mut edges) == 0) & (edges == w[8])
}

// Kind 4: a clock, edges | at.s at.f fraction ordinal of the clock moved by them
pub(crate) fn moved_agrees(w: &Numbers) -> bool {
    let Some(before) = clock_of(w) else {
        return false;
    };
    let mut clock = before;
    (nt7508_clock_moved(&mut clock, rate_of(w), w[6]) == 0)
        & (clock[..2] == w[7..9])
        & (clock[2..6] == before[2..6])
        & (clock[6..] == w[9..11])
}
