// RAM and icons, as a caller lends them. Number 2 of document 01's table turns down other lengths.
ghost use Rattle.std.specs.Prelude.{◌≡◌, IfOk};
ghost use Rattle.scan.specs.Check.{refused, memory_ok, memory_row};

use crate::check::Refusal;

// The display RAM, and the icons.
pub type Ram = [u8; 4096];

pub type Icons = [u8; 256];

// Lent memory to be read.
#[derive(Clone, Copy, Drop)]
pub struct Memory<'a> {
    pub ram: &'a [u8],
    pub icons: &'a [u8],
}

// Memory that passed number 2: its type tells its lengths.
#[derive(Clone, Copy, Drop)]
pub(crate) struct Lent<'a> {
    pub ram: &'a Ram,
    pub icons: &'a Icons,
}

impl<'a> Memory<'a> {
    // Whether RAM has 4,096 bytes and the icons 256.
    pub fn fits(self) -> bool
        ensures { result ≡ memory_ok self.entry.ram.now self.entry.icons.now }
    {
        (self.ram.len() == 4096) & (self.icons.len() == 256)
    }

    // Number 2, with the memory that passed it.
    #[tactic(auto, unfolding(crate::specs::Check::memory_ok))]
    pub(crate) fn lent(self) -> Result<Lent<'a>, Refusal>
        ensures refuses { refused result ≡ memory_row self.entry.ram.now self.entry.icons.now }
        ensures keeps { IfOk result (λ lent. (lent.ram.now ≡ self.entry.ram.now) × (lent.icons.now ≡ self.entry.icons.now)) }
    {
        let ram = self.ram.as_array().ok_or(Refusal::Memory)?;
        let icons = self.icons.as_array().ok_or(Refusal::Memory)?;
        Ok(Lent { ram, icons })
    }

    // Number 2.
    pub fn check(self) -> Result<(), Refusal>
        ensures { refused result ≡ memory_row self.entry.ram.now self.entry.icons.now }
    {
        self.lent()?;
        Ok(())
    }
}
