// Numbers of 128 bits as two words, and the operations that the clock needs on them: a product with
// a short number and a quotient by one, each by halves of 32 bits, a difference and a sum.
ghost use Rattle.std.specs.Prelude.{◌≡◌, ◌+◌, ◌-◌, ◌*◌, ◌^◌, ◌<◌, ◌≤◌, eqb};
ghost use Rattle.clock.specs.Wide.{value, wide_of, quotient_of};

// high × 2^64 + low. Two words and not a u128, since the C interface carries them as two.
#[derive(Clone, Copy, Debug, PartialEq, Eq)]
pub struct Wide {
    pub high: u64,
    pub low: u64,
}

#[derive(Clone, Copy, Debug, PartialEq, Eq)]
pub struct Quotient {
    pub quotient: Wide,
    pub remainder: u64,
}

// 2^32, the base of the halves.
const HALF: u64 = 0x1_0000_0000;

// That a number has 32 bits stands below as a `requires`, and not as the type u32: the fields of a clock and of a
// rate are words of 64 bits, so that each caller would have to narrow them.

// w × m + c, where the high word has room for it.
pub(crate) fn mul_add(w: Wide, m: u64, c: u64) -> Wide
    requires high_bound { w.high < 2 ^ 32 }
    requires m_bound { m < 2 ^ 32 }
    requires c_bound { c < 2 ^ 32 }
    ensures { result ≡ wide_of (value w * m + c) }
{
    let t = w.low % HALF * m + c;
    let u = w.low / HALF * m + t / HALF;
    Wide {
        high: w.high * m + u / HALF,
        low: u % HALF * HALF + t % HALF,
    }
}

// Whether low × m + c is high × 2^64: its halves tell it, with no word put together.
pub(crate) fn product_is(low: u64, m: u64, c: u64, high: u64) -> bool
    requires m_bound { m < 2 ^ 32 }
    requires c_bound { c < 2 ^ 32 }
    requires high_bound { high < 2 ^ 32 }
    ensures { result ≡ eqb (low * m + c) (high * 2 ^ 64) }
{
    let t = low % HALF * m + c;
    let u = low / HALF * m + t / HALF;
    (u == high * HALF) & (t % HALF == 0)
}

// w by d, from the high word down.
pub(crate) fn div(w: Wide, d: u64) -> Quotient
    requires d_nonzero { 0 < d }
    requires d_bound { d < 2 ^ 32 }
    ensures { result ≡ quotient_of (value w) d }
{
    let t = w.high % d * HALF + w.low / HALF;
    let u = t % d * HALF + w.low % HALF;
    Quotient {
        quotient: Wide {
            high: w.high / d,
            low: t / d * HALF + u / d,
        },
        remainder: u % d,
    }
}

// a - b.
pub(crate) fn difference(a: Wide, b: Wide) -> Wide
    requires { value b ≤ value a }
    ensures { result ≡ wide_of (value a - value b) }
{
    let (low, borrow) = a.low.overflowing_sub(b.low);
    Wide {
        high: a.high - b.high - u64::from(borrow),
        low,
    }
}

// a + b, where the high word has room for it.
pub(crate) fn sum(a: Wide, b: Wide) -> Wide
    requires { a.high + b.high < 2 ^ 63 }
    ensures { result ≡ wide_of (value a + value b) }
{
    let (low, carry) = a.low.overflowing_add(b.low);
    Wide {
        high: a.high + b.high + u64::from(carry),
        low,
    }
}
