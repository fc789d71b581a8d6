// A session: each line's call on the state and memory that the last one left.
//
// State, RAM and icons are three parameters: in a struct of three `&mut`, a clause would name them by its
// exit, and each function state besides that it keeps their references. `machine_of` makes one value of them.
ghost use Rattle.std.specs.Prelude.{◌≡◌, ◌<◌, leb, length, Some};
ghost use Rattle.clock.specs.Time.{raw};
ghost use Rattle.scan.specs.Check.{by_clock};
ghost use Rattle.controller.specs.Check.{of_scan, answered as changed_to};
ghost use Rattle.decimal.specs.Print.{put};
ghost use Rattle.strike.specs.Calls.{start as start_of};
ghost use Rattle.session.specs.Text.{lines_of};
ghost use Rattle.session.specs.Line.{line_of};
ghost use Rattle.session.specs.Session.{number as number_of, turn_of, run_from, answered, session};
ghost use Rattle.session.specs.Closed.{waited_of, printed_text, machine_of, turned, stepped, step_of, stopped_as, stopped_by, laid_from};
ghost use Rattle.session.specs.declared.session.Why.TheVariants.{Call};

use crate::line::{Action, Line, line_of};
use crate::listing::{Row, put_drive, put_names, put_refusal, row_of};
use crate::text::{line_length, lines_behind};
use checks::{Check, Numbered};
use clock::Time;
use controller::{Nt7508, Refusal};
use decimal::Writer;
use scan::Memory;

// Why a session stops: its text, a lent listing that is too short, or a call's own refusal.
#[derive(Clone, Copy, Debug, PartialEq, Eq)]
pub enum Why {
    Line,
    Listing,
    Call(Refusal),
}

// The refusal that stopped a session, and its line.
#[derive(Clone, Copy, Debug, PartialEq, Eq)]
pub struct Stop {
    pub why: Why,
    pub line: u64,
}

// Where a session ended: the state, how many bytes of the lent listing were written, and what stopped
// it, if anything.
#[derive(Clone, Copy, Debug, PartialEq, Eq)]
pub struct Ended {
    pub state: Nt7508,
    pub written: usize,
    pub end: Result<(), Stop>,
}

impl From<Refusal> for Why {
    ghost from_gives = { λ refusal why. why ≡ Call refusal };

    fn from(refusal: Refusal) -> Why {
        Why::Call(refusal)
    }
}

impl From<clock::Refusal> for Why {
    ghost from_gives = { λ refusal why. why ≡ Call (of_scan (by_clock refusal)) };

    fn from(refusal: clock::Refusal) -> Why {
        Why::Call(scan::Refusal::from(refusal).into())
    }
}

impl Numbered for Why {
    ghost number = { number_of };

    fn number(self) -> u64 {
        match self {
            Why::Line => 9,
            Why::Listing => 19,
            Why::Call(refusal) => refusal.number(),
        }
    }
}

// The bytes of a listing that every text's fits into.
pub const ROOM: usize = 589_824;

// Whether a wait has ended. (A function of its own: the proof knows the range of a parameter's fields, and
// did not close in `waited`, where the end of the wait stands in an Option.)
fn is_due(end: Time, moment: Time) -> bool
    ensures { result ≡ leb (raw end) (raw moment) }
{
    end <= moment
}

// The deadline call at the end of the wait, if that is not later than the line's moment.
fn waited(state: Nt7508, moment: Time) -> Result<Nt7508, Refusal>
    ensures { changed_to state result ≡ waited_of state state.power.ready moment }
{
    let Some(end) = state.power.ready else {
        return Ok(state);
    };
    if is_due(end, moment) {
        return state.at_deadline(end);
    }
    Ok(state)
}

// The call of a line, and what a drive shows.
fn perform(
    line: Line,
    state: &mut Nt7508,
    ram: &mut [u8],
    icons: &mut [u8],
) -> Result<Option<Row>, Why>
    ensures { turned line.us result (machine_of state.new ram.new icons.new) ≡ turn_of (Some line) (machine_of state.old ram.old icons.old) }
{
    let moment = Time::from_micros(line.us);
    match line.action {
        Action::Byte(value) => *state = state.shift_in(value, 8, moment, ram, icons)?.state,
        Action::Data(on) => {
            moment.check()?;
            *state = state.command_data(on)?;
        }
        Action::Select(on) => {
            moment.check()?;
            *state = state.select(on)?;
        }
        Action::Supply(millivolts) => *state = state.set_supply(millivolts, moment)?,
        Action::Temperature(t) => {
            moment.check()?;
            *state = state.set_temperature(t)?;
        }
        Action::Deadline => {
            moment.check()?;
            *state = waited(*state, moment)?;
        }
        Action::Update => *state = state.update(moment)?.state,
        Action::Drive => return Ok(Some(row_of(state.drive(moment, Memory { ram, icons })?))),
    }
    Ok(None)
}

// Prints what a line showed.
fn print(w: &mut Writer<'_>, us: u64, shown: Option<Row>)
    ensures same { w.new.out.ghost_name ≡ w.old.out.ghost_name }
    ensures puts { (w.new.out.now, w.new.at) ≡ put (w.old.out.now, w.old.at) (printed_text us shown) }
{
    if let Some(row) = shown {
        put_drive(w, us, row);
    }
}

// One line, its newline included. A line that is refused leaves all as it was.
fn next_line(
    bytes: &[u8],
    state: &mut Nt7508,
    ram: &mut [u8],
    icons: &mut [u8],
    w: &mut Writer<'_>,
) -> Result<(), Why>
    ensures same { w.new.out.ghost_name ≡ w.old.out.ghost_name }
    ensures steps { stepped result (machine_of state.new ram.new icons.new) (w.new.out.now, w.new.at) ≡ step_of (turn_of (line_of bytes.now) (machine_of state.old ram.old icons.old)) (w.old.out.now, w.old.at) }
{
    let line = line_of(bytes).ok_or(Why::Line)?;
    let shown = perform(line, state, ram, icons)?;
    print(w, line.us, shown);
    Ok(())
}

// A session that a line stops.
fn refused(state: Nt7508, w: &mut Writer<'_>, stop: Stop) -> Ended
    ensures same { w.new.out.ghost_name ≡ w.old.out.ghost_name }
    ensures stops { stopped_as result w.new.out.now ≡ stopped_by state (w.old.out.now, w.old.at) stop }
{
    put_refusal(w, stop.why.number(), stop.line);
    Ended {
        state,
        written: w.at,
        end: Err(stop),
    }
}

// The lines from the second on.
fn lines(text: &[u8], ram: &mut [u8], icons: &mut [u8], w: &mut Writer<'_>) -> Ended
    requires { length text.now < 65536 }
    ensures same { w.new.out.ghost_name ≡ w.old.out.ghost_name }
    ensures runs { answered result ram.new icons.new w.new.out.now ≡ laid_from (w.old.out.now, w.old.at) (run_from 2 (lines_of text.now) (start_of ram.old icons.old)) }
{
    let mut state = Nt7508::new();
    let mut rest = text;
    let mut line: u64 = 2;
    while !rest.is_empty() {
        let (bytes, behind) = rest.split_at(line_length(rest));
        if let Err(why) = next_line(bytes, &mut state, ram, icons, w) {
            return refused(state, w, Stop { why, line });
        }
        rest = behind;
        line += 1;
    }
    Ended {
        state,
        written: w.at,
        end: Ok(()),
    }
}

// Runs a text from power-on on lent memory and prints its listing into lent bytes. A lent listing of
// fewer than 589,824 bytes is refused, and nothing lent changes.
pub fn run(text: &[u8], ram: &mut [u8], icons: &mut [u8], out: &mut [u8]) -> Ended
    ensures { answered result ram.new icons.new out.new ≡ session text.now ram.old icons.old out.old }
{
    if out.len() < ROOM {
        return Ended {
            state: Nt7508::new(),
            written: 0,
            end: Err(Stop {
                why: Why::Listing,
                line: 1,
            }),
        };
    }
    let mut w = Writer::new(out);
    put_names(&mut w);
    let Some(rest) = lines_behind(text) else {
        let stop = Stop {
            why: Why::Line,
            line: 1,
        };
        return refused(Nt7508::new(), &mut w, stop);
    };
    lines(rest, ram, icons, &mut w)
}
