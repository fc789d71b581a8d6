// The scan of the LCD: its settings and counters, counting by quanta, the output latch, the drive of
// the electrodes and the gray image. Document 01, 'Scan' and 'Drive, electrodes, image'.
#![tactic(auto)]

mod byte;
mod check;
mod closed;
mod count;
pub mod drive;
mod fast;
mod image;
mod latch;
mod memory;
mod paint;
mod planes;
mod run;
mod segments;
mod settings;
mod shade;
mod state;
mod stretch;

pub use check::{Refusal, image_ok};
pub use count::Counted;
pub use drive::{Conditions, Driven, LcdDrive};
pub use image::{IMAGE_BYTES, LCD_HEIGHT, LCD_WIDTH, render};
pub use memory::{Icons, Memory, Ram};
pub use run::Running;
pub use settings::{Frame, Settings};
pub use state::{Inversion, Latch, Scan, Ticking};
