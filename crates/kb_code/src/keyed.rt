//! What the switches of code keep, however it is written (JVMS 8 section 6.5, tableswitch and lookupswitch).

ghost use Rattle.std.specs.Prelude.{◌≡◌, ℤ};
ghost use Rattle.kb_code.specs.Switches.{key_of, are_rising, is_table};

/// What has an int, at which a lookupswitch goes on with it.
pub trait Keyed {
    ghost key_of: { Self → ℤ };

    /// Its int.
    fn key(&self) -> i32
        ensures { result ≡ key_of self.now };
}

impl Keyed for (i32, i64) {
    ghost key_of = { key_of };

    fn key(&self) -> i32 {
        self.0
    }
}

impl Keyed for (i32, u32) {
    ghost key_of = { key_of };

    fn key(&self) -> i32 {
        self.0
    }
}

/// Whether the int of each item is above that of the one before it.
pub fn are_rising<T: Keyed>(items: &[T]) -> bool
    ensures { result ≡ are_rising T.key_of items.now }
{
    let [first, others @ ..] = items else {
        return true;
    };
    let mut low = first.key();
    let mut rest = others;
    while let [next, later @ ..] = rest {
        let key = next.key();
        if key <= low {
            return false;
        }
        low = key;
        rest = later;
    }
    true
}

/// Whether a tableswitch with so many targets has one at least, and its highest int is an int.
pub fn is_table(low: i32, count: usize) -> bool
    ensures { result ≡ is_table low count }
{
    let most = i64::from(i32::MAX) - i64::from(low) + 1;
    1 <= count && count as u64 <= most as u64
}
