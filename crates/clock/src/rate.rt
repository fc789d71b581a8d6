// The rates at which the scan runs. Document 01, 'Clock'.
ghost use Rattle.std.specs.Prelude.{◌≡◌};
ghost use Rattle.clock.specs.Rate.{lcd_rate, same_rate, is_lcd, by_rows, by_oscillator, is_oscillator_rate};

// numerator / denominator edges a second.
#[derive(Clone, Copy, Debug, PartialEq, Eq)]
pub struct Rate {
    pub numerator: u64,
    pub denominator: u64,
}

const OSCILLATOR_RATES: [u64; 4] = [92000, 122000, 147000, 184000];

impl Rate {
    // The rate of the oscillator settings and the scan's rows. A frequency setting above 31, which
    // the table has no entry for, has the rate 0, which is no LCD rate: this call cannot fail, so that it
    // answers no Option.
    pub fn lcd(oscillator_control: u8, oscillator_frequency: u8, rows: u16) -> Self
        ensures { result ≡ lcd_rate oscillator_control oscillator_frequency rows }
    {
        if oscillator_control / 2 % 2 == 0 {
            return Self {
                numerator: 1008 * u64::from(rows),
                denominator: 1,
            };
        }
        let setting = usize::from(oscillator_frequency / 8);
        Self {
            numerator: OSCILLATOR_RATES.get(setting).copied().unwrap_or(0),
            denominator: u64::from(oscillator_frequency % 8) + 1,
        }
    }

    // Whether some setting of the scan gives this rate.
    #[tactic(auto, unfolding(crate::specs::Rate::is_lcd))]
    pub fn is_lcd(self) -> bool
        ensures { result ≡ is_lcd self }
    {
        // Two steps, since most rates go by rows and need no second test.
        self.is_by_rows() || self.is_by_oscillator()
    }

    fn is_by_rows(self) -> bool
        ensures { result ≡ by_rows self }
    {
        let rows = self.numerator / 1008;
        (self.denominator == 1) & (self.numerator == 1008 * rows) & (16..=129).contains(&rows)
    }

    fn is_by_oscillator(self) -> bool
        ensures { result ≡ by_oscillator self }
    {
        is_oscillator_rate(self.numerator) & (1..=8).contains(&self.denominator)
    }
}

fn is_oscillator_rate(numerator: u64) -> bool
    ensures { result ≡ is_oscillator_rate numerator }
{
    OSCILLATOR_RATES.contains(&numerator)
}

// Ties the equality that is derived to its definition.
#[tactic(auto, unfolding(crate::specs::Rate::same_rate))]
fn is_same_rate(a: Rate, b: Rate) -> bool
    ensures { result ≡ same_rate a b }
{
    a == b
}
