// Cases of the controller, in lists of calls. Kind 7 is where a list starts, and agrees with anything:
//   a block of 75 words (crates/ffi/src/state_words.rt), then a b: RAM byte i is (a i + b) mod 251, icon
//   byte i is (a i + b + 1) mod 251
// Kind 8 is a call on what the line before left:
//   the call and its two numbers: 0 rising (bit), 1 shift_in (bits, count), 2 select (on),
//     3 command_data (on), 4 set_supply (millivolts), 5 set_temperature (millidegrees C counted from
//     -2^31), 6 lose_volatile, 7 at_deadline, 8 update, 9 restore, 10 drive, 11 render, 12 voltages,
//     13 serial_effect_edges (high), 14 deadline, 15 find_setting (low, high)
//   moment (2): seconds fraction
//   answers: the number; the sum of what the call gives (an event, pieces, a drive with its frame
//     length, an image, voltages, edges, the end of the wait, whether there is a pair), or 0 if it is
//     refused; the sums of the block, of RAM and of icons after it. A sum starts at 0, and each byte,
//     or each word as its high and its low half, adds as in replay's `added`.
use clock::Time;
use ffi::Block;
use ffi::controller_words::{
    nt7508_controller_at_deadline, nt7508_controller_command_data, nt7508_controller_lose_volatile,
    nt7508_controller_restore, nt7508_controller_rising, nt7508_controller_select,
    nt7508_controller_set_supply, nt7508_controller_set_temperature, nt7508_controller_shift_in,
    nt7508_controller_update,
};
use ffi::look_words::{
    nt7508_controller_deadline, nt7508_controller_drive, nt7508_controller_find_setting,
    nt7508_controller_render, nt7508_controller_serial_effect_edges, nt7508_controller_voltages,
};
use replay::{Cases, Kind, Numbers, Replayed, added, fill_memory, sum_of, sum_of_words};
use scan::{IMAGE_BYTES, Icons, Memory, Ram};

// The number of a call, and the sum of what it gives. A list has both of each call, so this is no Result.
#[derive(Clone, Copy, PartialEq)]
struct Given {
    number: u64,
    sum: u64,
}

fn refused(number: u64) -> Given {
    Given { number, sum: 0 }
}

// A call that gives words, unless it is refused.
fn gives(number: u64, words: &[u64]) -> Given {
    if number != 0 {
        return refused(number);
    }
    Given {
        number: 0,
        sum: sum_of_words(words),
    }
}

// The call of a line.
#[derive(Clone, Copy)]
enum Call {
    Rising,
    ShiftIn,
    Select,
    CommandData,
    SetSupply,
    SetTemperature,
    LoseVolatile,
    AtDeadline,
    Update,
    Restore,
    Drive,
    Render,
    Voltages,
    SerialEffectEdges,
    Deadline,
    FindSetting,
}

// No number is refused: the last call has all from 15 on.
impl From<u64> for Call {
    fn from(number: u64) -> Call {
        match number {
            0 => Call::Rising,
            1 => Call::ShiftIn,
            2 => Call::Select,
            3 => Call::CommandData,
            4 => Call::SetSupply,
            5 => Call::SetTemperature,
            6 => Call::LoseVolatile,
            7 => Call::AtDeadline,
            8 => Call::Update,
            9 => Call::Restore,
            10 => Call::Drive,
            11 => Call::Render,
            12 => Call::Voltages,
            13 => Call::SerialEffectEdges,
            14 => Call::Deadline,
            _ => Call::FindSetting,
        }
    }
}

fn moment_of(w: &Numbers) -> Time {
    Time {
        seconds: w[3],
        fraction: w[4],
    }
}

// A state and its memory, on which the calls of a list work.
#[derive(Drop)]
pub(crate) struct Machine {
    pub(crate) block: Block,
    pub(crate) ram: Ram,
    pub(crate) icons: Icons,
}

impl Machine {
    pub(crate) fn new() -> Self {
        Self {
            block: [0; _],
            ram: [0; _],
            icons: [0; _],
        }
    }

    fn memory(&self) -> Memory<'_> {
        Memory {
            ram: &self.ram,
            icons: &self.icons,
        }
    }

    // Whether the sums of the block, of RAM and of icons are these.
    pub(crate) fn has_sums(&self, sums: [u64; 3]) -> bool {
        [
            sum_of_words(&self.block),
            sum_of(&self.ram),
            sum_of(&self.icons),
        ] == sums
    }

    fn rising(&mut self, w: &Numbers) -> Given {
        let mut event = [0u64; 8];
        let number = nt7508_controller_rising(
            &mut self.block,
            w[1] != 0,
            moment_of(w),
            &mut self.ram,
            &mut self.icons,
            &mut event,
        );
        gives(number, &event)
    }

    fn shift_in(&mut self, w: &Numbers) -> Given {
        let mut event = [0u64; 8];
        let number = nt7508_controller_shift_in(
            &mut self.block,
            (w[1] % 256) as u8,
            (w[2] % 256) as u8,
            moment_of(w),
            &mut self.ram,
            &mut self.icons,
            &mut event,
        );
        gives(number, &event)
    }

    fn select(&mut self, w: &Numbers) -> u64 {
        nt7508_controller_select(&mut self.block, w[1] != 0)
    }

    fn command_data(&mut self, w: &Numbers) -> u64 {
        nt7508_controller_command_data(&mut self.block, w[1] != 0)
    }

    fn set_supply(&mut self, w: &Numbers) -> u64 {
        nt7508_controller_set_supply(&mut self.block, (w[1] % 65536) as u16, moment_of(w))
    }

    fn set_temperature(&mut self, w: &Numbers) -> u64 {
        nt7508_controller_set_temperature(&mut self.block, ffi::temperature_of(w[1]))
    }

    fn at_deadline(&mut self, w: &Numbers) -> u64 {
        nt7508_controller_at_deadline(&mut self.block, moment_of(w))
    }

    fn lose_volatile(&mut self) -> u64 {
        nt7508_controller_lose_volatile(&mut self.block, &mut self.ram, &mut self.icons)
    }

    fn restore(&mut self, w: &Numbers) -> u64 {
        let memory = Memory {
            ram: &self.ram,
            icons: &self.icons,
        };
        nt7508_controller_restore(&mut self.block, moment_of(w), memory)
    }

    fn update(&mut self, w: &Numbers) -> Given {
        let mut pieces = 0;
        let number = nt7508_controller_update(&mut self.block, moment_of(w), &mut pieces);
        gives(number, &[u64::from(pieces)])
    }

    fn drive(&self, w: &Numbers) -> Given {
        let mut out = [0u64; 12];
        let mut frame: u16 = 0;
        let number = nt7508_controller_drive(
            &self.block,
            moment_of(w),
            self.memory(),
            &mut out,
            &mut frame,
        );
        if number != 0 {
            return refused(number);
        }
        Given {
            number: 0,
            sum: added(added(sum_of_words(&out), 0), u64::from(frame)),
        }
    }

    fn render(&self) -> Given {
        let mut image = [0u8; IMAGE_BYTES];
        let number = nt7508_controller_render(&self.block, self.memory(), &mut image);
        if number != 0 {
            return refused(number);
        }
        Given {
            number: 0,
            sum: sum_of(&image),
        }
    }

    fn voltages(&self) -> Given {
        let mut out = [0u64; 7];
        let number = nt7508_controller_voltages(&self.block, &mut out);
        gives(number, &out)
    }

    fn edges(&self, w: &Numbers) -> Given {
        let mut out = 0;
        let number = nt7508_controller_serial_effect_edges(&self.block, w[1] != 0, &mut out);
        gives(number, &[u64::from(out)])
    }

    fn deadline(&self) -> Given {
        let mut out = [0u64; 3];
        let number = nt7508_controller_deadline(&self.block, &mut out);
        gives(number, &out)
    }

    // Which pair it is, is open.
    fn found(&self, w: &Numbers) -> Given {
        let mut out = [0u64; 3];
        let number = nt7508_controller_find_setting(
            &self.block,
            (w[1] % 4294967296) as u32,
            (w[2] % 4294967296) as u32,
            &mut out,
        );
        gives(number, &[out[0]])
    }

    fn called(&mut self, w: &Numbers) -> Given {
        match Call::from(w[0]) {
            Call::Rising => self.rising(w),
            Call::ShiftIn => self.shift_in(w),
            Call::Select => refused(self.select(w)),
            Call::CommandData => refused(self.command_data(w)),
            Call::SetSupply => refused(self.set_supply(w)),
            Call::SetTemperature => refused(self.set_temperature(w)),
            Call::LoseVolatile => refused(self.lose_volatile()),
            Call::AtDeadline => refused(self.at_deadline(w)),
            Call::Update => self.update(w),
            Call::Restore => refused(self.restore(w)),
            Call::Drive => self.drive(w),
            Call::Render => self.render(),
            Call::Voltages => self.voltages(),
            Call::SerialEffectEdges => self.edges(w),
            Call::Deadline => self.deadline(),
            Call::FindSetting => self.found(w),
        }
    }

    // The state and the memory in which a list starts.
    fn begin(&mut self, w: &Numbers) {
        self.block.copy_from_slice(&w[..75]);
        fill_memory(w[75], w[76], &mut self.ram, &mut self.icons);
    }

    fn call_agrees(&mut self, w: &Numbers) -> bool {
        let given = Given {
            number: w[5],
            sum: w[6],
        };
        (self.called(w) == given) & self.has_sums([w[7], w[8], w[9]])
    }

    // Whether ours answers as a line of a kind says. The other kinds are those that `layer_cases` replays.
    fn agrees(&mut self, kind: Kind, w: &Numbers) -> bool {
        match kind {
            Kind::Start => {
                self.begin(w);
                true
            }
            Kind::Call => self.call_agrees(w),
            Kind::Micros
            | Kind::NewClock
            | Kind::Edges
            | Kind::MovedClock
            | Kind::Voltages
            | Kind::Scan => false,
        }
    }
}

// The lines of a list: each is replayed on what the line before left.
impl Cases for Machine {
    ghost use Rattle.std.specs.Prelude.{⊤};

    ghost gives = { λ machine list answer left. ⊤ };

    // Here and in `layer_cases`: main.rt there says why.
    fn replay<'a>(&mut self, list: &'a [u8]) -> Option<Replayed<'a>> {
        let mut w: Numbers = [0; _];
        let case = replay::read_case(list, &mut w)?;
        Some(Replayed {
            rest: case.rest,
            agrees: self.agrees(case.kind, &w),
        })
    }
}
