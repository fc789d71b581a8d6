// The clock over words.
ghost use Rattle.std.specs.Prelude.{◌≡◌};
ghost use Rattle.clock.specs.Time.{time_of, micros_raw};
ghost use Rattle.clock.specs.Check.{check_clock};
ghost use Rattle.clock.specs.Edges.{new_clock, count_edges, move_clock, pass_edges};
ghost use Rattle.ffi.specs.Words.{status, check_status, stored};
ghost use Rattle.ffi.specs.ClockWords.{time_words, time, rate, clock_of, clock_words, passed_count, passed_words};

use clock::{Rate, Time};

#[unsafe(no_mangle)]
pub extern "C" fn nt7508_time_from_micros(us: u64, out: &mut [u64; 2])
    ensures { out.new ≡ time_words (time_of (micros_raw us)) }
{
    ffi::clock_words::nt7508_time_from_micros(us, out);
}

#[unsafe(no_mangle)]
pub extern "C" fn nt7508_clock_new(
    seconds: u64,
    fraction: u64,
    p: u64,
    q: u64,
    out: &mut [u64; 8],
) -> u64
    ensures answers { result ≡ status (new_clock (time seconds fraction) (rate p q)) }
    ensures leaves { out.new ≡ stored clock_words (new_clock (time seconds fraction) (rate p q)) out.old }
{
    ffi::clock_words::nt7508_clock_new(
        Time { seconds, fraction },
        Rate {
            numerator: p,
            denominator: q,
        },
        out,
    )
}

#[unsafe(no_mangle)]
pub extern "C" fn nt7508_clock_check(clock: &[u64; 8], p: u64, q: u64) -> u64
    ensures { result ≡ check_status (check_clock (clock_of clock.now) (rate p q)) }
{
    ffi::clock_words::nt7508_clock_check(
        clock,
        Rate {
            numerator: p,
            denominator: q,
        },
    )
}

#[unsafe(no_mangle)]
pub extern "C" fn nt7508_clock_edges_to(
    clock: &[u64; 8],
    p: u64,
    q: u64,
    seconds: u64,
    fraction: u64,
    out: &mut u64,
) -> u64
    ensures answers { result ≡ status (count_edges (clock_of clock.now) (rate p q) (time seconds fraction)) }
    ensures leaves { out.new ≡ stored (λ n. n) (count_edges (clock_of clock.now) (rate p q) (time seconds fraction)) out.old }
{
    ffi::clock_words::nt7508_clock_edges_to(
        clock,
        Rate {
            numerator: p,
            denominator: q,
        },
        Time { seconds, fraction },
        out,
    )
}

#[unsafe(no_mangle)]
pub extern "C" fn nt7508_clock_moved(clock: &mut [u64; 8], p: u64, q: u64, edges: u64) -> u64
    ensures answers { result ≡ status (move_clock (clock_of clock.old) (rate p q) edges) }
    ensures leaves { clock.new ≡ stored clock_words (move_clock (clock_of clock.old) (rate p q) edges) clock.old }
{
    ffi::clock_words::nt7508_clock_moved(
        clock,
        Rate {
            numerator: p,
            denominator: q,
        },
        edges,
    )
}

#[unsafe(no_mangle)]
pub extern "C" fn nt7508_clock_passed_to(
    clock: &mut [u64; 8],
    p: u64,
    q: u64,
    seconds: u64,
    fraction: u64,
    limit: u64,
    count: &mut u64,
) -> u64
    ensures answers { result ≡ status (pass_edges (clock_of clock.old) (rate p q) (time seconds fraction) limit) }
    ensures counts { count.new ≡ stored passed_count (pass_edges (clock_of clock.old) (rate p q) (time seconds fraction) limit) count.old }
    ensures leaves { clock.new ≡ stored passed_words (pass_edges (clock_of clock.old) (rate p q) (time seconds fraction) limit) clock.old }
{
    ffi::clock_words::nt7508_clock_passed_to(
        clock,
        Rate {
            numerator: p,
            denominator: q,
        },
        Time { seconds, fraction },
        limit,
        count,
    )
}
